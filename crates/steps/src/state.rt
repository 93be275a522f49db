// A new or changed state of a replica: the clock is drawn, the head put, and an entry joined at its
// place; then, if the old place differs, a dead one with the new stamp at the old place.
ghost use Rattle.std.specs.Prelude.{◌≡◌, ◌+◌, ◌≤◌, ◌<◌, ◌^◌, is_ok};
ghost use Rattle.std.proofs.Math.Option.{none, some};
ghost use Rattle.numbers.specs.Ids.{id_of};
ghost use Rattle.document.specs.Tables.{head_of, table_of, with_highest, with_next};
ghost use Rattle.document.specs.Steps.{clock_at, join_all, place_entry, same_place, set_by, stamp_at, strike, with_holders};
ghost use Rattle.steps.specs.Standing.{Is, Stands};
ghost use Rattle.steps.specs.States.{Made, Places, Ready, stated};

use crate::{NoRoom, join, put};
use codec::Stored;
use numbers::{Clock, Ticked, ids};
use records::{Entry, Head};
use slots::{Listed, Table, TableHeader};
use table::find;

// Draws the clock: the stamp of a new state.
pub fn draw(t: &mut Table, time: u64) -> u64
    requires { Stands t.old × ((table_of t.old).highest < 2 ^ 48) × (time < 2 ^ 48) }
    ensures { (result ≡ stamp_at time (table_of t.old))
        × Is t.new (with_highest (table_of t.old) (clock_at time (table_of t.old))) }
{
    let old = TableHeader::read(t, 0);
    let clock = Clock {
        highest: old.highest,
    };
    let Ticked {
        clock: Clock { highest },
        stamp,
    } = clock.tick(time, old.own);
    TableHeader { highest, ..old }.write(t, 0);
    stamp
}

// Takes the next id.
pub fn take_id(t: &mut Table) -> u32
    requires { Stands t.old × ((table_of t.old).own ≤ 8) × ((table_of t.old).next ≤ 16777216) }
    ensures { (result ≡ id_of (table_of t.old).own (table_of t.old).next)
        × Is t.new (with_next (table_of t.old) ((table_of t.old).next + 1)) }
{
    let old = TableHeader::read(t, 0);
    let new = TableHeader {
        next: old.next + 1,
        ..old
    };
    new.write(t, 0);
    ids::id_of(old.own, old.next)
}

// The entry at the state's place.
pub fn place_entry(h: Head) -> Listed
    ensures { result ≡ place_entry h }
{
    let entry = Entry {
        live: h.live,
        child: h.id,
        stamp: h.stamp,
        name: h.name,
    };
    Listed {
        entry,
        directory: h.directory,
    }
}

// The dead entry at the old place.
pub fn strike(h: Head, old: Head) -> Listed
    ensures { result ≡ strike h old }
{
    let dead = Head {
        live: 0,
        directory: old.directory,
        name: old.name,
        ..h
    };
    place_entry(dead)
}

// The head with other holders.
pub fn with_holders(h: Head, holders: u8) -> Head
    ensures { result ≡ with_holders h holders }
{
    Head { holders, ..h }
}

// Whether two heads have one place.
#[tactic(auto, using(names::specs::Names::same_derived))]
pub fn is_same_place(a: Head, b: Head) -> bool
    ensures { result ≡ same_place a b }
{
    a.directory == b.directory && a.name == b.name
}

// Sets the entries of a state that was another before.
pub fn set_places(t: &mut Table, h: Head, old: Head) -> Result<(), NoRoom>
    requires { Places t.old h old }
    ensures { Made (is_ok result) t.new (join_all (set_by h (some old)) (table_of t.old)) }
{
    join::set(t, place_entry(h))?;
    if is_same_place(h, old) {
        return Ok(());
    }
    join::set(t, strike(h, old))
}

// Puts the head and sets its entries.
pub fn state(t: &mut Table, h: Head) -> Result<(), NoRoom>
    requires { Ready t.old h }
    ensures { Made (is_ok result) t.new (stated h (table_of t.old)) }
{
    let Some(old) = find::head(t, h.id) else {
        return make(t, h);
    };
    put::put(t, h)?;
    set_places(t, h, old)
}

// Puts the head of a new replica and sets its entry.
fn make(t: &mut Table, h: Head) -> Result<(), NoRoom>
    requires { Ready t.old h × (head_of (table_of t.old) h.id ≡ none) }
    ensures { Made (is_ok result) t.new (stated h (table_of t.old)) }
{
    put::put(t, h)?;
    join::set(t, place_entry(h))
}
