// What a table shows, as text: the tree that the call `list` gives, drawn with branches, the path of a
// replica, and the entries that are struck out.
ghost use Rattle.std.specs.Prelude.{◌≤◌, ◌<◌, length, IfOk};

use crate::say::{Nodes, Outcome, Stamp, Text};
use answers::Refusal;
use codec::Stored;
use records::{Entry, Head};
use slots::{Listed, Replica, Table, TableHeader};
use std::fmt;
use table::find;

pub const ROOT: u32 = 0;

// How many levels a tree may have below its root.
const LEVELS: u8 = 16;

// Where a table's entries stand: behind its header and 64 replicas.
const ENTRIES: usize = TableHeader::SIZE + 64 * Replica::SIZE;

// The bytes of the longest listing.
pub const LISTING: usize = 32 * Entry::SIZE;

// The id of the replica in slot i.
pub fn id_in(t: &Table, i: usize) -> u32
    requires { i < 64 }
{
    u32::read(t, TableHeader::SIZE + Replica::SIZE * i + 4)
}

// The rows that the call lists for the directory with that id, each an entry's record, in the room given.
pub fn listed<'a>(t: &Table, id: u32, room: &'a mut [u8; LISTING]) -> Result<&'a [u8], Refusal>
    ensures { IfOk result (λ rows. length rows.now ≤ 1024) }
{
    let n = service::list::list(t, u64::from(id), room)?;
    // usize has no From<u32>.
    let end = room.len().min(Entry::SIZE * n as usize);
    Ok(&room[..end])
}

// What leads down to the rows of a directory: a bar below each directory above it that has later rows.
#[derive(Drop)]
enum Indent<'a> {
    Root,
    Below(&'a Indent<'a>, &'static str),
}

impl fmt::Display for Indent<'_> {
    fn fmt<W: fmt::Write>(&self, f: &mut fmt::Formatter<W>) -> fmt::Result {
        match self {
            Indent::Root => f.write_str("    "),
            Indent::Below(above, bar) => {
                (**above).fmt(f)?;
                f.write_str(bar)
            }
        }
    }
}

// What stands in a row of a listing: name, id, stamp, and which nodes hold the child, if its head is held.
#[derive(Clone, Copy)]
struct Row {
    entry: Entry,
    head: Option<Head>,
}

impl Row {
    fn is_directory(self) -> bool {
        self.head.is_some_and(|h| h.is_directory())
    }
}

impl fmt::Display for Row {
    fn fmt<W: fmt::Write>(&self, f: &mut fmt::Formatter<W>) -> fmt::Result {
        let Row { entry, head } = *self;
        let slash = if self.is_directory() { "/" } else { "" };
        let child = entry.child;
        write!(
            f,
            "{}{slash}  id {child}, {}, ",
            Text(entry.name),
            Stamp(entry.stamp)
        )?;
        match head {
            Some(h) => write!(f, "held by {}", Nodes(h.holders)),
            None => f.write_str("not held here"),
        }
    }
}

// Draws what the directory with that id lists, and below each directory what that lists. `levels` is how many
// may still come.
fn draw_rows<W: fmt::Write>(
    f: &mut fmt::Formatter<W>,
    t: &Table,
    id: u32,
    indent: &Indent<'_>,
    levels: u8,
) -> fmt::Result {
    if levels == 0 {
        return Ok(());
    }
    let mut room = [0; LISTING];
    let rows = match listed(t, id, &mut room) {
        Ok(rows) => rows,
        Err(refusal) => return writeln!(f, "{indent}{}", Outcome(Err(refusal))),
    };
    for (i, row) in rows.chunks_exact(Entry::SIZE).enumerate() {
        let (branch, bar) = if Entry::SIZE * (i + 1) == rows.len() {
            ("`-- ", "    ")
        } else {
            ("|-- ", "|   ")
        };
        let entry = Entry::read(row, 0);
        let head = find::head(t, entry.child);
        let shown = Row { entry, head };
        writeln!(f, "{indent}{branch}{shown}")?;
        if shown.is_directory() {
            draw_rows(f, t, entry.child, &Indent::Below(&*indent, bar), levels - 1)?;
        }
    }
    Ok(())
}

// The tree of a table.
#[derive(Drop)]
pub struct Tree<'a>(pub &'a Table);

impl fmt::Display for Tree<'_> {
    fn fmt<W: fmt::Write>(&self, f: &mut fmt::Formatter<W>) -> fmt::Result {
        f.write_str("    /\n")?;
        draw_rows(f, self.0, ROOT, &Indent::Root, LEVELS)
    }
}

// The path of the replica with that id; the root's is empty.
#[derive(Drop)]
pub struct Path<'a>(pub &'a Table, pub u32);

impl fmt::Display for Path<'_> {
    fn fmt<W: fmt::Write>(&self, f: &mut fmt::Formatter<W>) -> fmt::Result {
        write_path(f, self.0, self.1, LEVELS)
    }
}

// Writes a path: that of the place directory, and then the name.
fn write_path<W: fmt::Write>(
    f: &mut fmt::Formatter<W>,
    t: &Table,
    id: u32,
    levels: u8,
) -> fmt::Result {
    if id == ROOT || levels == 0 {
        return Ok(());
    }
    let Some(h) = find::head(t, id) else {
        return f.write_str("what is not held");
    };
    write_path(f, t, h.directory, levels - 1)?;
    write!(f, "/{}", Text(h.name))
}

// The entries of a table that are struck out, each by its path and stamp.
#[derive(Drop)]
pub struct Struck<'a>(pub &'a Table);

impl fmt::Display for Struck<'_> {
    fn fmt<W: fmt::Write>(&self, f: &mut fmt::Formatter<W>) -> fmt::Result {
        let table = self.0;
        for i in 0..find::entries_used(table) {
            let Listed { entry, directory } = Listed::read(table, ENTRIES + Listed::SIZE * i);
            if !entry.is_live() {
                let path = Path(table, directory);
                write!(f, " {path}/{}, {}.", Text(entry.name), Stamp(entry.stamp))?;
            }
        }
        Ok(())
    }
}
