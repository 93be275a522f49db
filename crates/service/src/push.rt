// Push: what a pending node has to be told of a held replica, as one message.
// A cast loses nothing: that is proved where it stands, and `try_from` would add a refusal that never comes.
ghost use Rattle.std.specs.Prelude.{◌≡◌, true, length};
ghost use Rattle.document.specs.Tables.{table_of};
ghost use Rattle.document.specs.Sound.{sound_bytes};
ghost use Rattle.document.specs.Calls.{push_in};
ghost use Rattle.answers.specs.Forms.{Answered, Writes};
ghost use Rattle.service.specs.Pushing.{Pushes};
ghost use Rattle.service.specs.Promises.{PushPromise};

use crate::judged::judged;
use answers::{Answer, Refusal};
use changes::look;
use codec::Stored;
use numbers::nodes;
use pushes::write;
use slots::{Replica, Table};

// Pushes a held replica to another node.
fn push_held(t: &Table, r: Replica, node: u8, out: &mut [u8]) -> Answer
    requires { Pushes t.now r node }
    ensures { Writes Answered (push_in r.head.id node (length out.old) (table_of t.now)) result
        out.old out.new }
{
    let header = write::header_of(t, r, node);
    let size = write::size_of(header);
    if out.len() < size {
        return Err(Refusal::TooShort);
    }
    if !nodes::has(r.pending, node) {
        return Err(Refusal::NotPending);
    }
    write::write(t, r, header, out);
    Ok(size as u32)
}

// Pushes from a table that is sound.
fn push_sound(t: &Table, id: u64, node: u64, out: &mut [u8]) -> Answer
    requires { sound_bytes t.now ≡ true }
    ensures { Writes Answered (push_in id node (length out.old) (table_of t.now)) result out.old out.new }
{
    let n = u8::read(t, 3);
    let own = u8::read(t, 2);
    if !nodes::is_node(n, node) || node == u64::from(own) {
        return Err(Refusal::OutOfRange);
    }
    let Some(s) = look::slot_of(t, id) else {
        return Err(Refusal::NotHeld);
    };
    let r = Replica::read(t, 32 + 48 * s);
    push_held(t, r, node as u8, out)
}

// Writes the push of the replica for the node at the front of `out`; the value is its length.
pub fn push(table: &[u8], id: u64, node: u64, out: &mut [u8]) -> Answer
    ensures { PushPromise Answered table.now id node out.old result out.new }
{
    let t = judged(table)?;
    push_sound(t, id, node, out)
}
