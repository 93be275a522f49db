// Reading a message that is long enough: its header, and its records by their place, each by a reader
// that stands there.
ghost use Rattle.std.specs.Prelude.{◌≡◌, ◌+◌, ◌*◌, ◌≤◌, ◌<◌, length};
ghost use Rattle.messages.specs.PushHeaders.{push_at};
ghost use Rattle.document.specs.Messages.{entry_spot};
ghost use Rattle.document.specs.ReadingMessages.{head_in};
ghost use Rattle.pushes.specs.Judging.{entry_in};

use crate::reader::record_at;
use codec::Stored;
use messages::PushHeader;
use records::{Entry, Head};

// The header.
pub fn header(m: &[u8]) -> PushHeader
    requires { 16 ≤ length m.now }
    ensures { result ≡ push_at m.now 0 }
{
    record_at(m, 0)
}

// Head i: the pushed replica's is 0, and each further one is that of the place of the one before it.
pub fn head(m: &[u8], i: usize) -> Head
    requires { 16 + 40 * (i + 1) ≤ length m.now }
    ensures { result ≡ head_in m.now i }
{
    record_at(m, PushHeader::SIZE + Head::SIZE * i)
}

// Where entry i stands, behind k heads; the one that follows the last stands where the message ends.
pub fn entry_at(k: usize, i: usize) -> usize
    requires { 16 + 40 * k + 32 * i < 18446744073709551616 }
    ensures { result ≡ entry_spot k i }
{
    PushHeader::SIZE + Head::SIZE * k + Entry::SIZE * i
}

// Entry i, behind k heads.
pub fn entry(m: &[u8], k: usize, i: usize) -> Entry
    requires { 16 + 40 * k + 32 * (i + 1) ≤ length m.now }
    ensures { result ≡ entry_in k m.now i }
{
    record_at(m, entry_at(k, i))
}
