// Spread: the set is joined to the holders. Where that adds nothing, nothing has changed at the end, and
// no version is raised.
ghost use Rattle.std.specs.Prelude.{◌≡◌, true};
ghost use Rattle.document.specs.Tables.{table_of};
ghost use Rattle.document.specs.Sound.{sound_bytes};
ghost use Rattle.document.specs.Calls.{spread_in};
ghost use Rattle.answers.specs.Forms.{Answered, Leaves};
ghost use Rattle.changes.specs.Spreading.{Spreads};

use crate::{finish, look};
use answers::{Answer, Refusal};
use codec::Stored;
use numbers::nodes;
use records::Head;
use slots::Table;
use steps::{put, state};

// Spreads what is held.
fn spread_held(table: &mut Table, set: u8, h: Head) -> Answer
    requires { Spreads table.old set h }
    ensures { Leaves Answered (spread_in h.id set (table_of table.old)) result
        table.old table.new }
{
    let mut copy = *table;
    let wider = state::with_holders(h, nodes::join(h.holders, set));
    put::put(&mut copy, wider).or(Err(Refusal::NoRoom))?;
    finish::finish(table, &mut copy, 0)
}

// Spreads the replica to the nodes of the set.
pub fn spread(table: &mut Table, id: u64, set: u64) -> Answer
    requires { sound_bytes table.old ≡ true }
    ensures { Leaves Answered (spread_in id set (table_of table.old)) result
        table.old table.new }
{
    if !nodes::is_set(u8::read(table, 3), set) {
        return Err(Refusal::OutOfRange);
    }
    let h = look::held(table, id)?;
    // `is_set` has it below 256, so a try_from could not fail.
    spread_held(table, set as u8, h)
}
