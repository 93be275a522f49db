// The join of an entry: absent, it is added; else the greater stamp wins; equal stamps with equal
// flags change nothing.
ghost use Rattle.std.specs.Prelude.{◌≡◌, ◌≤◌, ◌<◌, length, IsOk, is_ok};
ghost use Rattle.document.specs.Tables.{entry_in, entries_used, table_of};
ghost use Rattle.document.specs.Steps.{joined};
ghost use Rattle.steps.specs.Standing.{Is, Stands};
ghost use Rattle.steps.specs.Joining.{Joins, meets, has_room, is_room};

use crate::NoRoom;
use codec::Stored;
use slots::{Listed, Table};
use table::find;

// What a join comes to: the entry is added behind the others, or replaces the one in a slot, or finds
// itself there, or a newer one; or stands with its stamp and another flag.
#[derive(Clone, Copy)]
pub enum Joined {
    Added,
    Replaced(usize),
    Same,
    AtOdds,
}

// What the entry comes to that meets the one in slot s.
fn meet(t: &[u8], s: usize, x: Listed) -> Joined
    requires { (13344 ≤ length t.now) × (s < 256) }
    ensures { result ≡ meets x (entry_in t.now s) s }
{
    let y = Listed::read(t, 3104 + 40 * s);
    if y.entry.stamp < x.entry.stamp {
        return Joined::Replaced(s);
    }
    if y.entry.stamp == x.entry.stamp && y.entry.live != x.entry.live {
        return Joined::AtOdds;
    }
    Joined::Same
}

// The entries of a table, and how many there are. The table may be any bytes as long as one, as a join asks no more. Not `table`'s Used, which counts the replicas too: a join asks nothing of them.
#[derive(Clone, Copy)]
pub struct Entries<'a> {
    pub t: &'a [u8],
    used: usize,
    ghost long: { 13344 ≤ length t.now },
    ghost used_are: { used ≡ entries_used t.now },
    ghost few: { used ≤ 256 },
}

impl<'a> Entries<'a> {
    // Those of the table.
    pub fn of(t: &'a [u8]) -> Self
        requires { 13344 ≤ length t.now }
        ensures { result.t.now ≡ t.now }
    {
        Self {
            t,
            used: find::entries_used(t),
        }
    }

    // What the join of the entry with them comes to.
    pub fn join(&self, x: Listed) -> Joined
        ensures { Joins self.now.t.now x result }
    {
        let t = self.t;
        let found = find::entry(t, self.used, x.directory, x.entry.child, x.entry.name);
        let Some(s) = found else {
            return Joined::Added;
        };
        meet(t, s, x)
    }

    // Whether one more may be added, in that directory.
    fn is_room(&self, directory: u32) -> bool
        ensures { result ≡ is_room directory (table_of self.now.t.now) }
    {
        let t = self.t;
        self.used < 256 && find::entries_in(t, self.used, directory) < 32
    }
}

// Joins the entry, unless it is to be added and there is no room.
pub fn set(t: &mut Table, x: Listed) -> Result<(), NoRoom>
    requires { Stands t.old }
    ensures { (is_ok result ≡ has_room x (table_of t.old))
        × (IsOk result → Is t.new (joined x (table_of t.old))) }
{
    let entries = Entries::of(t);
    match entries.join(x) {
        Joined::Added => {
            if !entries.is_room(x.directory) {
                return Err(NoRoom);
            }
            let k = entries.used;
            x.write(t, 3104 + 40 * k);
            Ok(())
        }
        Joined::Replaced(s) => {
            x.write(t, 3104 + 40 * s);
            Ok(())
        }
        Joined::Same | Joined::AtOdds => Ok(()),
    }
}
