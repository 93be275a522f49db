// Unlink a file, remove a directory: a new stamp, dead.
ghost use Rattle.std.specs.Prelude.{◌≡◌, true, MatchResult};
ghost use Rattle.document.specs.Tables.{table_of};
ghost use Rattle.document.specs.Sound.{sound_bytes};
ghost use Rattle.document.specs.Steps.{with_state};
ghost use Rattle.document.specs.Calls.{unlink_in};
ghost use Rattle.answers.specs.Forms.{Answered, Leaves};
ghost use Rattle.changes.specs.Killing.{Alive, Kills, kills, Spared};

use crate::{LATEST, finish, look};
use answers::{Answer, Refusal};
use records::Head;
use slots::Table;
use steps::state;

// The head with another state: dead, with the stamp.
fn dead(h: Head, stamp: u64) -> Head
    ensures { result ≡ with_state h 0 stamp }
{
    Head {
        live: 0,
        stamp,
        ..h
    }
}

// Gives the replica a new stamp, dead.
pub fn kill(table: &mut Table, time: u64, h: Head) -> Answer
    requires { Kills table.old time h }
    ensures { Leaves Answered (kills time (table_of table.old) h) result
        table.old table.new }
{
    let mut copy = *table;
    let stamp = state::draw(&mut copy, time);
    finish::change(table, &mut copy, dead(h, stamp), 0)
}

// The head of what is to be killed at that time: it is held, and live. What is refused here, unlink and
// remove refuse alike.
pub fn alive(table: &Table, time: u64, id: u64) -> Result<Head, Refusal>
    requires { sound_bytes table.now ≡ true }
    ensures { MatchResult result (Alive table.now time id) (Spared table.now time id) }
{
    if LATEST < time {
        return Err(Refusal::OutOfRange);
    }
    let h = look::held(table, id)?;
    if !h.is_live() {
        return Err(Refusal::Dead);
    }
    Ok(h)
}

// Unlinks the file.
pub fn unlink(table: &mut Table, time: u64, id: u64) -> Answer
    requires { sound_bytes table.old ≡ true }
    ensures { Leaves Answered (unlink_in time id (table_of table.old)) result
        table.old table.new }
{
    let h = alive(table, time, id)?;
    if h.is_directory() {
        return Err(Refusal::WrongKind);
    }
    kill(table, time, h)
}
