// The records of a message by their places: its heads, the pushed replica's first, and its entries
// behind them. What is done with them is not known here.
ghost use Rattle.std.specs.Prelude.{◌≡◌, ◌≤◌, ◌<◌, length};
ghost use Rattle.document.specs.Messages.{entry_spot};
ghost use Rattle.document.specs.ReadingMessages.{head_in};
ghost use Rattle.steps.specs.Message.{Sized, entries_in, heads_in, listed_at};

use codec::Stored;
use messages::PushHeader;
use records::{Entry, Head};
use slots::Listed;

// A message that is as long as its counts say, and its first head, which is the pushed replica's. What `pushes` judges may be
// any bytes to a node of N, so its own Message has N and a header that is fine: one type for both would ask that of a merge.
#[derive(Clone, Copy)]
pub struct Message<'a> {
    bytes: &'a [u8],
    pub heads: usize,
    pub entries: usize,
    pub first: Head,
    ghost heads_are: { heads ≡ heads_in bytes.now },
    ghost entries_are: { entries ≡ entries_in bytes.now },
    ghost first_is: { first ≡ head_in bytes.now 0 },
    ghost whole: { length bytes.now ≡ entry_spot heads entries },
    ghost some_heads: { 1 ≤ heads },
}

impl<'a> Message<'a> {
    // The message that the bytes are.
    pub fn of(bytes: &'a [u8]) -> Self
        requires { Sized bytes.now }
        ensures { result.bytes.now ≡ bytes.now }
    {
        let header = PushHeader::read(bytes, 0);
        Self {
            bytes,
            heads: usize::from(header.heads),
            entries: usize::from(header.entries),
            first: Head::read(bytes, PushHeader::SIZE),
        }
    }

    // Head i.
    pub fn head(&self, i: usize) -> Head
        requires { i < self.now.heads }
        ensures { result ≡ head_in self.now.bytes.now i }
    {
        Head::read(self.bytes, PushHeader::SIZE + Head::SIZE * i)
    }

    // Entry i, as one of the pushed directory's.
    pub fn listed(&self, i: usize) -> Listed
        requires { i < self.now.entries }
        ensures { result ≡ listed_at self.now.bytes.now i }
    {
        let o = PushHeader::SIZE + Head::SIZE * self.heads + Entry::SIZE * i;
        Listed {
            entry: Entry::read(self.bytes, o),
            directory: self.first.id,
        }
    }
}
