// Receive: a push is judged, merged into a copy of the table, and acknowledged.
// A cast loses nothing: that is proved where it stands, and `try_from` would add a refusal that never comes.
ghost use Rattle.std.specs.Prelude.{◌≡◌, true, ◌≤◌, length};
ghost use Rattle.codec.specs.Bytes.{splice};
ghost use Rattle.messages.specs.Acknowledgements.{ack_bytes};
ghost use Rattle.document.specs.Tables.{table_of};
ghost use Rattle.document.specs.Sound.{sound_bytes};
ghost use Rattle.document.specs.Messages.{message_of};
ghost use Rattle.document.specs.Receive.{ack_for};
ghost use Rattle.document.specs.Calls.{take_in};
ghost use Rattle.merge.specs.Merging.{Merges};
ghost use Rattle.answers.specs.Forms.{Answered, Leaves};
ghost use Rattle.service.specs.Receiving.{Received, Receives, merged_in};
ghost use Rattle.service.specs.Promises.{ReceivePromise};

use crate::judged::sound;
use answers::{Answer, Refusal};
use changes::{LATEST, finish};
use codec::Stored;
use messages::{Acknowledgement, PushHeader};
use slots::Table;

// Merges the message into a copy, which comes back if there is room and nothing is past its end.
fn merged(table: &mut Table, time: u64, message: &[u8]) -> Answer
    requires { Merges table.old table.old message.now time }
    ensures { Leaves Answered (merged_in time (table_of table.old) (message_of message.now)) result
        table.old table.new }
{
    let mut copy = *table;
    merge::merge(table, &mut copy, message, time).or(Err(Refusal::NoRoom))?;
    finish::finish(table, &mut copy, Acknowledgement::SIZE as u32)
}

// Writes the acknowledgement of the message.
fn acknowledge(message: &[u8], out: &mut [u8])
    requires { (56 ≤ length message.now) × (16 ≤ length out.old) }
    ensures { out.new ≡ splice out.old 0 (ack_bytes (ack_for (message_of message.now))) }
{
    let header = PushHeader::read(message, 0);
    let a = Acknowledgement {
        sender: header.addressee,
        addressee: header.sender,
        version: header.version,
        id: u32::read(message, 20),
    };
    a.write(out, 0);
}

// Takes a push that is well-formed.
fn take(table: &mut Table, time: u64, message: &[u8], out: &mut [u8]) -> Answer
    requires { Receives table.old time message.now (length out.old) }
    ensures { Received (take_in time (table_of table.old) (message_of message.now)) result
        table.old table.new out.old out.new }
{
    if u8::read(message, 3) != u8::read(table, 2) {
        return Err(Refusal::NotAddressed);
    }
    if judge::is_odd(table, message) {
        return Err(Refusal::AtOdds);
    }
    let size = merged(table, time, message)?;
    acknowledge(message, out);
    Ok(size)
}

// Judges time, buffer and message, and takes the push.
fn judge(table: &mut Table, time: u64, message: &[u8], out: &mut [u8]) -> Answer
    requires { sound_bytes table.old ≡ true }
    ensures { ReceivePromise Answered table.old time message.now out.old result table.new out.new }
{
    if LATEST < time {
        return Err(Refusal::OutOfRange);
    }
    if out.len() < Acknowledgement::SIZE {
        return Err(Refusal::TooShort);
    }
    if !pushes::judge::is_push(message, u8::read(table, 3)) {
        return Err(Refusal::Malformed);
    }
    take(table, time, message, out)
}

// Takes a push that came in; the acknowledgement is written at the front of `out`, and the value is its
// length.
pub fn receive(table: &mut [u8], time: u64, message: &[u8], out: &mut [u8]) -> Answer
    ensures { ReceivePromise Answered table.old time message.now out.old result table.new out.new }
{
    let table = sound(table).ok_or(Refusal::NotSound)?;
    judge(table, time, message, out)
}
