// Acknowledgement received: the sender's pending bit is cleared, if the version is the current one.
ghost use Rattle.std.specs.Prelude.{◌≡◌, true};
ghost use Rattle.document.specs.Tables.{table_of};
ghost use Rattle.document.specs.Sound.{sound_bytes};
ghost use Rattle.document.specs.Calls.{clear_in};
ghost use Rattle.answers.specs.Forms.{Answered, Leaves};
ghost use Rattle.service.specs.Acknowledging.{is_ack, Clears};
ghost use Rattle.service.specs.Promises.{AcknowledgedPromise};

use crate::judged::sound;
use answers::{Answer, Refusal};
use codec::{Record, Stored};
use messages::Acknowledgement;
use numbers::nodes;
use slots::Table;
use table::find;

// Whether the message is an acknowledgement in a cluster of n nodes.
fn is_acknowledgement(message: &[u8], n: u8) -> bool
    ensures { result ≡ is_ack n message.now }
{
    message.len() == Acknowledgement::SIZE
        && (Acknowledgement::in_range(message, 0, n)
            && u8::read(message, 2) != u8::read(message, 3))
}

// Clears the sender's pending bit in replica slot i, where the acknowledgement's id was found.
fn clear_slot(table: &mut Table, a: Acknowledgement, i: usize) -> Answer
    requires { Clears table.old a i }
    ensures { Leaves Answered (clear_in (table_of table.old) a) result
        table.old table.new }
{
    let o = 32 + 48 * i;
    let pending = u8::read(table, o + 44);
    if u32::read(table, o + 40) != a.version || !nodes::has(pending, a.sender) {
        return Err(Refusal::NotTold);
    }
    nodes::without(pending, a.sender).write(table, o + 44);
    Ok(0)
}

// Takes the acknowledgement, in a sound table.
fn clear(table: &mut Table, a: Acknowledgement) -> Answer
    requires { sound_bytes table.old ≡ true }
    ensures { Leaves Answered (clear_in (table_of table.old) a) result
        table.old table.new }
{
    if a.addressee != u8::read(table, 2) {
        return Err(Refusal::NotAddressed);
    }
    let m = find::replicas_used(table);
    let Some(i) = find::replica(table, m, a.id) else {
        return Err(Refusal::NotHeld);
    };
    clear_slot(table, a, i)
}

// Judges the message, and takes the acknowledgement.
fn take(table: &mut Table, message: &[u8]) -> Answer
    requires { sound_bytes table.old ≡ true }
    ensures { AcknowledgedPromise Answered table.old message.now result table.new }
{
    let n = u8::read(table, 3);
    if !is_acknowledgement(message, n) {
        return Err(Refusal::Malformed);
    }
    clear(table, Acknowledgement::read(message, 0))
}

// Takes an acknowledgement that came in.
pub fn acknowledged(table: &mut [u8], message: &[u8]) -> Answer
    ensures { AcknowledgedPromise Answered table.old message.now result table.new }
{
    let table = sound(table).ok_or(Refusal::NotSound)?;
    take(table, message)
}
