// Step (f) of a receive: in slot order, each live replica whose place directory is dead has it made
// live. Making a directory live and setting its entry in its place directory call each other, up to
// the root; depth falls at each turn.
ghost use Rattle.std.specs.Prelude.{◌≡◌, ◌-◌, ◌^◌, ◌≤◌, is_ok};
ghost use Rattle.document.specs.Tables.{head_of, table_of};
ghost use Rattle.document.specs.Steps.{directory_of, is_dead, make_live, relive};
ghost use Rattle.document.specs.Receive.{mend, step_f};
ghost use Rattle.views.specs.Sounds.{Shown};
ghost use Rattle.kept.specs.Firm.{Base};
ghost use Rattle.steps.specs.States.{Made};
ghost use Rattle.merge.specs.Working.{Works};
ghost use Rattle.merge.specs.Live.{Lights, Mends, Revives, live_over};

use codec::Stored;
use records::Head;
use slots::Table;
use steps::{NoRoom, state};
use table::find;

// Whether the replica with that id is held and dead.
fn is_dead(t: &Table, id: u32) -> bool
    ensures { result ≡ is_dead (head_of (table_of t.now) id) }
{
    find::head(t, id).is_some_and(|h| !h.is_live())
}

// The place directory of the replica with that id, or the root if it is not held.
fn directory_of(t: &Table, id: u32) -> u32
    ensures { result ≡ directory_of (head_of (table_of t.now) id) }
{
    find::head(t, id).map_or(0, |h| h.directory)
}

// Gives the replica a new stamp at its last place, live, if it is held.
fn revive(t: &mut Table, id: u32, time: u64) -> Result<(), NoRoom>
    requires { Revives t.old id time }
    ensures { Made (is_ok result) t.new
        (relive time (head_of (table_of t.old) id) (table_of t.old)) }
{
    let Some(h) = find::head(t, id) else {
        return Ok(());
    };
    let stamp = state::draw(t, time);
    state::state(
        t,
        Head {
            live: 1,
            stamp,
            ..h
        },
    )
}

// Makes the directory live, at most `depth` deep: sets its entry in its place directory.
#[cycle(make_live_set_entry)]
fn make_live(t: &mut Table, id: u32, depth: u8, time: u64) -> Result<(), NoRoom>
    requires { Lights t.old id depth time }
    ensures { Made (is_ok result) t.new (make_live depth time id (table_of t.old)) }
{
    let place = directory_of(t, id);
    set_entry(t, id, place, depth, time)
}

// Sets the directory's entry in its place directory, with a new stamp; makes that live first, if it is
// dead.
#[cycle(make_live_set_entry)]
fn set_entry(t: &mut Table, id: u32, place: u32, depth: u8, time: u64) -> Result<(), NoRoom>
    requires { Lights t.old id depth time × (place ≡ directory_of (head_of (table_of t.old) id)) }
    ensures { Made (is_ok result) t.new (live_over (depth - 1) time id place (table_of t.old)) }
{
    if !is_dead(t, place) {
        return revive(t, id, time);
    }
    make_live(t, place, depth - 1, time)?;
    revive(t, id, time)
}

// Makes the replica's place directory live, if the replica is live and that is dead.
fn mend(t: &mut Table, id: u32, time: u64) -> Result<(), NoRoom>
    requires { Mends t.old time }
    ensures { Made (is_ok result) t.new
        (mend time (head_of (table_of t.old) id) (table_of t.old)) }
{
    let Some(h) = find::head(t, id) else {
        return Ok(());
    };
    if h.is_live() && is_dead(t, h.directory) {
        return make_live(t, h.directory, h.depth - 1, time);
    }
    Ok(())
}

// Makes live what live replicas are in, in slot order.
pub fn mend_all(t: &mut Table, time: u64) -> Result<(), NoRoom>
    requires { Works t.old × Base (table_of t.old) × Shown (table_of t.old)
        × ((table_of t.old).highest ≤ 2 ^ 40) × (time ≤ 2 ^ 40) }
    ensures { Made (is_ok result) t.new
        (step_f time (table_of t.old).replicas (table_of t.old)) }
{
    for i in 0..find::replicas_used(t) {
        let id = u32::read(t, 32 + 48 * i + 4);
        mend(t, id, time)?;
    }
    Ok(())
}
