// A record: a value with a mark, zeros and fields, which one function judges.
ghost use Rattle.std.specs.Prelude.{◌≡◌, ℕ, ◌+◌, ◌≤◌, ◌&&◌, Bool, List, length};
ghost use Rattle.codec.specs.Bytes.{chunk, marked_at, zero_at};

use crate::Stored;

pub trait Record: Stored {
    // The two bytes that it starts with.
    const MARK: [u8; 2];

    ghost MARK: { List ℕ };

    // Where its zeros stand, and how many.
    const ZEROS_AT: usize;

    ghost ZEROS_AT: { ℕ };

    const ZEROS: usize;

    ghost ZEROS: { ℕ };

    // What a judgement goes by: N, or nothing.
    type Nodes: Copy;

    // What the judgement asks.
    ghost can_judge: { Self.Nodes → Type 0 };

    // Whether every field is in its range, and whether bytes are such a record.
    ghost fits: { Self.Nodes → Self → Bool };

    ghost in_range: { Self.Nodes → List ℕ → Bool };

    // Whether every field is in its range.
    fn fits(self, n: Self::Nodes) -> bool
        requires { can_judge n }
        ensures { result ≡ fits n self };

    // Whether the bytes from o on are a record in its range: its mark, its zeros, its fields.
    final fn in_range(t: &[u8], o: usize, n: Self::Nodes) -> bool
        requires { (o + Self.SIZE ≤ length t.now) × (can_judge n) }
        ensures { result ≡ in_range n (chunk t.now o Self.SIZE) }
    {
        crate::is_marked(t, o, Self::MARK)
            && crate::is_zero(t, o + Self::ZEROS_AT, Self::ZEROS)
            && Self::read(t, o).fits(n)
    }

    // Mark and zeros lie within it, and in its range means these and the fields.
    ghost inside: { (2 ≤ Self.SIZE) × (ZEROS_AT + ZEROS ≤ Self.SIZE) };

    ghost range: { (n : Self.Nodes) (l : List ℕ) (o : ℕ) → in_range n (chunk l o Self.SIZE)
        ≡ (marked_at l o MARK && (zero_at l (o + ZEROS_AT) ZEROS && fits n (Self.at l o))) };
}
