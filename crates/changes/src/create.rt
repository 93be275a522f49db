// Create a file or a directory: the next id, a new stamp, the given holders with the own node.
ghost use Rattle.std.specs.Prelude.{◌≡◌, true, ◌≤◌, ◌<◌};
ghost use Rattle.document.specs.Tables.{table_of};
ghost use Rattle.document.specs.Sound.{sound_bytes};
ghost use Rattle.document.specs.Calls.{create_in};
ghost use Rattle.answers.specs.Forms.{Answered, Leaves};
ghost use Rattle.changes.specs.Creating.{born_head, created_in, Makes, makes};
ghost use Rattle.changes.specs.Killing.{Takes};
ghost use Rattle.changes.specs.Kinds.{kind_byte};

use crate::kind::Kind;
use crate::{LATEST, finish, look};
use answers::{Answer, Refusal};
use codec::Stored;
use names::Name;
use numbers::nodes;
use records::Head;
use slots::Table;
use steps::state;

// The first head of a replica in the directory.
// Its values stand in the order of `born_head`; a struct that holds them would be the head itself.
fn born(kind: Kind, id: u32, stamp: u64, holders: u8, p: Head, name: Name) -> Head
    requires { p.depth < 16 }
    ensures { result ≡ born_head (kind_byte kind) id stamp holders p name }
{
    Head {
        kind: u8::from(kind),
        live: 1,
        id,
        stamp,
        holders,
        depth: p.depth + 1,
        directory: p.id,
        name,
    }
}

// Makes the replica in the directory.
fn make(table: &mut Table, time: u64, p: Head, kind: Kind, name: Name, set: u8) -> Answer
    requires { Makes table.old time p }
    ensures { Leaves Answered (makes time (kind_byte kind) name set (table_of table.old) p) result
        table.old table.new }
{
    let mut copy = *table;
    let id = state::take_id(&mut copy);
    let stamp = state::draw(&mut copy, time);
    let holders = nodes::join(set, nodes::single(u8::read(table, 2)));
    finish::change(
        table,
        &mut copy,
        born(kind, id, stamp, holders, p, name),
        id,
    )
}

// Creates in what is held.
fn create_in(table: &mut Table, time: u64, p: Head, kind: Kind, name: Name, set: u8) -> Answer
    requires { Takes table.old time p }
    ensures { Leaves Answered (created_in time (kind_byte kind) name set (table_of table.old) p) result
        table.old table.new }
{
    if !p.is_live() {
        return Err(Refusal::Dead);
    }
    if !p.is_directory() {
        return Err(Refusal::WrongKind);
    }
    look::room_for(table, p, name)?;
    make(table, time, p, kind, name, set)
}

// Creates a file (1) or a directory (2); the value is its id.
pub fn create(
    table: &mut Table,
    time: u64,
    directory: u64,
    kind: u64,
    name: &[u8],
    set: u64,
) -> Answer
    requires { sound_bytes table.old ≡ true }
    ensures { Leaves Answered (create_in time directory kind name.now set (table_of table.old)) result
        table.old table.new }
{
    if LATEST < time || !nodes::is_set(u8::read(table, 3), set) {
        return Err(Refusal::OutOfRange);
    }
    let kind = Kind::try_from(kind)?;
    let Some(name) = Name::parse(name) else {
        return Err(Refusal::OutOfRange);
    };
    let p = look::held(table, directory)?;
    // `is_set` has it below 256, so a try_from could not fail.
    create_in(table, time, p, kind, name, set as u8)
}
