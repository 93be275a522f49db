// Rename a file: a new stamp, a new place.
ghost use Rattle.std.specs.Prelude.{◌≡◌, true, ◌<◌};
ghost use Rattle.document.specs.Tables.{table_of};
ghost use Rattle.document.specs.Sound.{sound_bytes};
ghost use Rattle.document.specs.Steps.{with_place};
ghost use Rattle.document.specs.Calls.{rename_in};
ghost use Rattle.answers.specs.Forms.{Answered, Leaves};
ghost use Rattle.changes.specs.Renaming.{Moves, moves, renamed_in, Renames};

use crate::{LATEST, finish, look};
use answers::{Answer, Refusal};
use names::Name;
use records::Head;
use slots::Table;
use steps::state;

// The head at another place, with the stamp.
fn placed(h: Head, p: Head, name: Name, stamp: u64) -> Head
    requires { p.depth < 16 }
    ensures { result ≡ with_place h p name stamp }
{
    Head {
        stamp,
        depth: p.depth + 1,
        directory: p.id,
        name,
        ..h
    }
}

// Moves the file to the directory, under the name.
fn move_to(table: &mut Table, time: u64, h: Head, p: Head, name: Name) -> Answer
    requires { Moves table.old time h p }
    ensures { Leaves Answered (moves time name (table_of table.old) h p) result
        table.old table.new }
{
    let mut copy = *table;
    let stamp = state::draw(&mut copy, time);
    finish::change(table, &mut copy, placed(h, p, name, stamp), 0)
}

// Renames what is held to a directory that is held.
fn rename_held(table: &mut Table, time: u64, h: Head, p: Head, name: Name) -> Answer
    requires { Renames table.old time h p }
    ensures { Leaves Answered (renamed_in time name (table_of table.old) h p) result
        table.old table.new }
{
    if !h.is_live() || !p.is_live() {
        return Err(Refusal::Dead);
    }
    if h.is_directory() || !p.is_directory() {
        return Err(Refusal::WrongKind);
    }
    look::room_for(table, p, name)?;
    move_to(table, time, h, p, name)
}

// Renames the file to the name in the directory.
pub fn rename(table: &mut Table, time: u64, id: u64, directory: u64, name: &[u8]) -> Answer
    requires { sound_bytes table.old ≡ true }
    ensures { Leaves Answered (rename_in time id directory name.now (table_of table.old)) result
        table.old table.new }
{
    if LATEST < time {
        return Err(Refusal::OutOfRange);
    }
    let Some(name) = Name::parse(name) else {
        return Err(Refusal::OutOfRange);
    };
    let h = look::held(table, id)?;
    let p = look::held(table, directory)?;
    rename_held(table, time, h, p, name)
}
