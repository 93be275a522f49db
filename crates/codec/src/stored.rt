// What has a size and a place: numbers, names and records, read and written at an offset.
ghost use Rattle.std.specs.Prelude.{◌≡◌, refl, ℕ, ◌+◌, ◌≤◌, List, length};
ghost use Rattle.codec.specs.Bytes.{chunk, splice, u8, u32, u64, u8_at, u32_at, u64_at};
ghost use Rattle.codec.specs.Laws.{length_bytes_of, u8_within, u32_within, u64_within};

use crate::{get_bytes, put_bytes};

// A value that takes SIZE bytes: `at` is the value that stands at an offset, and `bytes` are a
// value's bytes. A place within a part of a byte string is a place of the whole.
pub trait Stored: Copy {
    const SIZE: usize;

    ghost SIZE: { ℕ };

    ghost at: { List ℕ → ℕ → Self };

    ghost bytes: { Self → List ℕ };

    // The value that stands at o.
    fn read(t: &[u8], o: usize) -> Self
        requires { o + SIZE ≤ length t.now }
        ensures { result ≡ at t.now o };

    // Writes the value at o.
    fn write(self, t: &mut [u8], o: usize)
        requires { o + SIZE ≤ length t.old }
        ensures { t.new ≡ splice t.old o (bytes self) };

    ghost sized: { (x : Self) → length (bytes x) ≡ SIZE };

    ghost within: { (l : List ℕ) (o n p : ℕ) → p + SIZE ≤ n → at (chunk l o n) p ≡ at l (o + p) };
}

impl Stored for u8 {
    const SIZE: usize = 1;

    ghost SIZE = { 1 };

    ghost at = { u8_at };

    ghost bytes = { u8 };

    ghost sized = { λ x. refl };

    ghost within = { u8_within };

    fn read(t: &[u8], o: usize) -> u8 {
        t[o]
    }

    #[tactic(auto, using(crate::specs::Laws::set_splice))]
    fn write(self, t: &mut [u8], o: usize) {
        t[o] = self;
    }
}

// The least byte comes first.
impl Stored for u32 {
    const SIZE: usize = 4;

    ghost SIZE = { 4 };

    ghost at = { u32_at };

    ghost bytes = { u32 };

    ghost sized = { length_bytes_of 4 };

    ghost within = { u32_within };

    #[tactic(auto, using(crate::specs::Laws::from_le_u32))]
    fn read(t: &[u8], o: usize) -> u32 {
        u32::from_le_bytes(get_bytes(t, o))
    }

    #[tactic(auto, using(crate::specs::Laws::u32_to_le))]
    fn write(self, t: &mut [u8], o: usize) {
        put_bytes(t, o, u32::to_le_bytes(self));
    }
}

// The least byte comes first.
impl Stored for u64 {
    const SIZE: usize = 8;

    ghost SIZE = { 8 };

    ghost at = { u64_at };

    ghost bytes = { u64 };

    ghost sized = { length_bytes_of 8 };

    ghost within = { u64_within };

    #[tactic(auto, using(crate::specs::Laws::from_le_u64))]
    fn read(t: &[u8], o: usize) -> u64 {
        u64::from_le_bytes(get_bytes(t, o))
    }

    #[tactic(auto, using(crate::specs::Laws::u64_to_le))]
    fn write(self, t: &mut [u8], o: usize) {
        put_bytes(t, o, u64::to_le_bytes(self));
    }
}
