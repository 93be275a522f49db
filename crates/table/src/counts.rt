// What one pass over the entries finds for each replica slot: how many entries are listed in it, and the
// entry to look at first for the one at its place.
ghost use Rattle.std.specs.Prelude.{◌≡◌, true, ◌+◌, ◌≤◌, ◌<◌, length, map};
ghost use Rattle.table.specs.Counts.{Tallied};

use crate::hints::Index;
use crate::slot;
use crate::slot::{Key, Keyed};
use slots::{Listed, Table};

#[derive(Clone, Copy)]
pub struct Tally {
    pub count: u16,
    pub place: u8,
}

// Raises the count of the directory of entry slot e, if it is held.
fn raise(index: &Index, e: usize, tallies: &mut [Tally; 64])
    requires { (e < index.now.used.entries) × Tallied index.now.used.t.now index.now.used.replicas e tallies.old }
    ensures { Tallied index.now.used.t.now index.now.used.replicas (e + 1) tallies.new }
{
    let t = index.used.t;
    let Some(s) = index.replica(slot::directory(t, e)) else {
        return;
    };
    tallies[s].count += 1;
}

// Whether entry slot e is at the place of replica slot s.
fn is_at_place(t: &Table, s: usize, e: usize) -> bool
    requires { (s < 64) × (e < 256) }
{
    Listed::has_key(t, e, Key::of_place(slot::head(t, s)))
}

// Notes entry slot e for the replica that is its child, if the index leads to it and it is at that place.
fn note_place(index: &Index, e: usize, tallies: &mut [Tally; 64])
    requires { e < index.now.used.entries }
    ensures { map (λ x. x.count) tallies.new ≡ map (λ x. x.count) tallies.old }
{
    let t = index.used.t;
    let Some(s) = index.led_to(slot::child(t, e)) else {
        return;
    };
    if is_at_place(t, s, e) {
        tallies[s].place = e as u8;
    }
}

// The tally of each replica slot, over all entries.
pub fn of_entries(index: &Index) -> [Tally; 64]
    ensures { Tallied index.now.used.t.now index.now.used.replicas index.now.used.entries result }
{
    let mut tallies = [Tally { count: 0, place: 0 }; 64];
    for e in 0..index.used.entries {
        raise(index, e, &mut tallies);
        note_place(index, e, &mut tallies);
    }
    tallies
}
