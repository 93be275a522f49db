// A reader over a message: the slice, and the position of the next record in it. Records are read in
// order: each is the bytes at the position, and the reader then stands behind them.
ghost use Rattle.std.specs.Prelude.{◌≡◌, ◌+◌, ◌≤◌, length};
ghost use Rattle.codec.specs.Bytes.{chunk};

use codec::Stored;

#[derive(Clone, Copy)]
pub struct Reader<'a> {
    pub src: &'a [u8],
    pub at: usize,
}

// The next n bytes.
pub fn next<'s, 'a>(r: &'s mut Reader<'a>, n: usize) -> &'a [u8]
    requires { r.old.at + n ≤ length r.old.src.now }
    ensures { (result.now ≡ chunk r.old.src.now r.old.at n)
        × (r.new.src ≡ r.old.src) × (r.new.at ≡ r.old.at + n) }
{
    let at = r.at;
    let s = codec::part(r.src, at, n);
    r.at = at + n;
    s
}

// The n bytes at a position, by a reader that is made there.
pub fn bytes_at(src: &[u8], at: usize, n: usize) -> &[u8]
    requires { at + n ≤ length src.now }
    ensures { result.now ≡ chunk src.now at n }
{
    let mut r = Reader { src, at };
    next(&mut r, n)
}

// The record that stands at a position.
#[tactic(auto, using(codec::specs::Laws::length_chunk))]
pub fn record_at<R: Stored>(src: &[u8], at: usize) -> R
    requires { at + R.SIZE ≤ length src.now }
    ensures { result ≡ R.at src.now at }
{
    R::read(bytes_at(src, at, R::SIZE), 0)
}
