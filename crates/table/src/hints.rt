// Where to look first: an index of the replicas' ids. With it the judgement finds a replica at once, and
// not by a pass over the slots; the entry at a replica's place is looked for in the slot that was noted
// for it.
//
// A hint is compared with the table before it is believed, and where it fails, or there is none, the
// slots are passed one by one. So the answers are those of `find` for every content of the hints, and
// no contract says what they hold. Ids, or keys, have to be unique: then a slot that has the one that
// is looked for is the first that has it.
ghost use Rattle.std.specs.Prelude.{◌≡◌, ⊤, true, ◌≤◌, ◌<◌, length, MatchOption};
ghost use Rattle.std.proofs.Math.Option.{none, some};
ghost use Rattle.table.specs.Slots.{first_replica, first_entry};
ghost use Rattle.table.specs.Rules.{held_in, listed_in, ids_new, keys_new};
ghost use Rattle.table.specs.Hints.{HasId};

use crate::slot::{Key, Keyed};
use crate::used::Used;
use crate::{find, slot};
use records::{Entry, Head};
use slots::Listed;

// A cell of the index that holds no slot: not an `Option`, as a cell of one byte keeps the index in 256 bytes.
const EMPTY: u8 = 255;

// The used slots of a table whose ids and keys are unique, and the index: 256 cells, so that at most
// every fourth holds a slot.
#[derive(Drop)]
pub struct Index<'a> {
    pub used: Used<'a>,
    cells: [u8; 256],
    ghost ids: { ids_new used.t.now used.replicas ≡ true },
    ghost keys: { keys_new used.t.now used.entries ≡ true },
}

// The cell of the index at which an id is looked for first: the fraction of id times the golden ratio,
// which scatters the counts of one maker evenly, and those of several makers between them.
fn home(id: u32) -> usize
    ensures { result < 256 }
{
    (id.wrapping_mul(2654435769) >> 24) as usize
}

// Puts slot s into the first empty cell from the given one on.
fn put(cells: &mut [u8; 256], first: usize, s: u8)
    requires { first < 256 }
{
    for i in 0..256 {
        let at = (first + i) % 256;
        if cells[at] == EMPTY {
            cells[at] = s;
            return;
        }
    }
}

impl<'a> Index<'a> {
    // The index of a table's replicas.
    pub fn of(used: &Used<'a>) -> Self
        requires { (ids_new used.now.t.now used.now.replicas ≡ true) × (keys_new used.now.t.now used.now.entries ≡ true) }
        ensures { result.used ≡ used.now }
    {
        let used = *used;
        let t = used.t;
        let mut cells = [EMPTY; 256];
        for i in 0..used.replicas {
            put(&mut cells, home(slot::id(t, i)), i as u8);
        }
        Self { used, cells }
    }

    // A slot that has the id, if the index leads to one. An empty cell, or 64 cells, end the search.
    pub fn led_to(&self, id: u32) -> Option<usize>
        ensures { MatchOption result ⊤ (λ s. (s < self.now.used.replicas) × HasId self.now.used.t.now self.now.used.replicas id s) }
    {
        let t = self.used.t;
        let first = home(id);
        for i in 0..64 {
            let s = usize::from(self.cells[(first + i) % 256]);
            if self.used.replicas <= s {
                return None;
            }
            if slot::id(t, s) == id {
                return Some(s);
            }
        }
        None
    }

    // The first replica slot that has the id. The slots are passed for an id that is not held; there the
    // judgement ends, so it makes one such pass at most.
    // Not by `or_else`, which promises nothing of what its closure returns.
    pub fn replica(&self, id: u32) -> Option<usize>
        ensures { (result ≡ first_replica self.now.used.t.now self.now.used.replicas id)
            × MatchOption result ⊤ (λ s. s < self.now.used.replicas) }
    {
        let t = self.used.t;
        if let Some(s) = self.led_to(id) {
            return Some(s);
        }
        find::replica(t, self.used.replicas, id)
    }

    // The head of the replica with the id, if it is held.
    pub fn head(&self, id: u32) -> Option<Head>
        ensures { MatchOption result (held_in self.now.used.t.now self.now.used.replicas id ≡ none)
            (λ h. held_in self.now.used.t.now self.now.used.replicas id ≡ some h) }
    {
        let t = self.used.t;
        let s = self.replica(id)?;
        Some(slot::head(t, s))
    }

    // The first entry slot that has the key, looked for in the hinted slot first. A pass is made, as
    // above, only where there is none.
    fn entry_slot(&self, hint: u8, key: Key) -> Option<usize>
        ensures { (result ≡ first_entry self.now.used.t.now self.now.used.entries key.directory key.child key.name)
            × MatchOption result ⊤ (λ s. s < self.now.used.entries) }
    {
        let t = self.used.t;
        let s = usize::from(hint);
        if s < self.used.entries && Listed::has_key(t, s, key) {
            return Some(s);
        }
        find::entry(t, self.used.entries, key.directory, key.child, key.name)
    }

    // The first entry with the key, with the slot to look in first.
    pub fn entry(&self, hint: u8, key: Key) -> Option<Entry>
        ensures { MatchOption result (listed_in self.now.used.t.now self.now.used.entries key.directory key.child key.name ≡ none)
            (λ e. listed_in self.now.used.t.now self.now.used.entries key.directory key.child key.name ≡ some e) }
    {
        let t = self.used.t;
        let s = self.entry_slot(hint, key)?;
        Some(slot::entry(t, s))
    }
}
