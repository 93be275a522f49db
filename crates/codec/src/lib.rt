// Bytes: little-endian numbers of one, four and eight bytes at an offset (`Stored`), a part of a byte
// string, a part replaced, marks and zeros.
//
// What a record means is not known here. A function that reads or writes at an offset asks that the
// place lies within the slice, and its answer is one equation with a definition of specs/. A number
// is never wider than its field, so nothing is cut off.
#![tactic(auto)]

ghost use Rattle.std.specs.Prelude.{◌≡◌, ◌+◌, ◌≤◌, length};
ghost use Rattle.codec.specs.Bytes.{chunk, splice, all_are, same_bytes, marked_at, zero_at};

pub mod record;
pub mod stored;

pub use record::Record;
pub use stored::Stored;

// The N bytes from o on.
#[tactic(auto, using(crate::specs::Laws::length_chunk))]
pub fn get_bytes<const N: usize>(t: &[u8], o: usize) -> [u8; N]
    requires { o + N ≤ length t.now }
    ensures { result ≡ chunk t.now o N }
{
    let mut bytes = [0u8; N];
    bytes.copy_from_slice(part(t, o, N));
    bytes
}

// Writes the bytes from o on: marks, zeros and fields of one byte that stand side by side.
pub fn put_bytes<const N: usize>(t: &mut [u8], o: usize, bytes: [u8; N])
    requires { o + N ≤ length t.old }
    ensures { t.new ≡ splice t.old o bytes.entry }
{
    replace(t, o, &bytes);
}

// The n bytes from o on, lent.
#[tactic(auto, unfolding(crate::specs::Bytes::chunk))]
pub fn part(t: &[u8], o: usize, n: usize) -> &[u8]
    requires { o + n ≤ length t.now }
    ensures { result.now ≡ chunk t.now o n }
{
    &t[o..o + n]
}

// Writes all of src from o on.
#[tactic(auto, unfolding(crate::specs::Bytes::splice))]
pub fn replace(t: &mut [u8], o: usize, src: &[u8])
    requires { o + length src.now ≤ length t.old }
    ensures { t.new ≡ splice t.old o src.now }
{
    t[o..o + src.len()].copy_from_slice(src);
}

// Whether every byte of s is v.
pub fn all_are(s: &[u8], v: u8) -> bool
    ensures { result ≡ all_are v s.now }
{
    s.iter().all(|x| *x == v)
}

// Whether a and b are the same bytes.
#[tactic(auto, using(crate::specs::Laws::same_pointwise))]
pub fn same_bytes(a: &[u8], b: &[u8]) -> bool
    ensures { result ≡ same_bytes a.now b.now }
{
    a == b
}

// Whether a record's mark stands at o.
pub fn is_marked(t: &[u8], o: usize, mark: [u8; 2]) -> bool
    requires { o + 2 ≤ length t.now }
    ensures { result ≡ marked_at t.now o mark }
{
    same_bytes(part(t, o, 2), &mark)
}

// Whether the n bytes from o on are zero: by eights, and those that are left one by one.
pub fn is_zero(t: &[u8], o: usize, n: usize) -> bool
    requires { o + n ≤ length t.now }
    ensures { result ≡ zero_at t.now o n }
{
    let (eights, rest) = part(t, o, n).as_chunks::<8>();
    eights.iter().all(|x| u64::from_le_bytes(*x) == 0) && all_are(rest, 0)
}
