// Remove a directory: a new stamp, dead. A live entry stands in the way, and so does a held live child,
// though its entry was struck early.
ghost use Rattle.std.specs.Prelude.{◌≡◌, true};
ghost use Rattle.document.specs.Tables.{table_of};
ghost use Rattle.document.specs.Sound.{sound_bytes};
ghost use Rattle.document.specs.Calls.{remove_in};
ghost use Rattle.answers.specs.Forms.{Answered, Leaves};

use crate::{look, unlink};
use answers::{Answer, Refusal};
use slots::Table;

// The id of the root.
const ROOT: u32 = 0;

// Removes the directory.
pub fn remove(table: &mut Table, time: u64, id: u64) -> Answer
    requires { sound_bytes table.old ≡ true }
    ensures { Leaves Answered (remove_in time id (table_of table.old)) result
        table.old table.new }
{
    let h = unlink::alive(table, time, id)?;
    if !h.is_directory() || h.id == ROOT {
        return Err(Refusal::WrongKind);
    }
    if look::is_any_shown(table, h.id) || look::is_child_live(table, h.id) {
        return Err(Refusal::NotEmpty);
    }
    unlink::kill(table, time, h)
}
