// What stands in the slots: how many are used, the slot of a replica by its id, its head, the slot of an
// entry by its key, and how many entries a directory has.
//
// A table is any bytes as long as one, not a `Table`: `changes::look::slot_of`, which looks up here, is promised for such.
ghost use Rattle.std.specs.Prelude.{◌≡◌, ℕ, ◌≤◌, ◌<◌, length, MatchOption};
ghost use Rattle.std.proofs.Math.Option.{none, some};
ghost use Rattle.document.specs.Tables.{head_of, table_of, used, replicas_used, entries_used, entry_in, is_key};
ghost use Rattle.table.specs.Slots.{first_slot, first_replica, first_entry, entries_in};

use crate::slot;
use crate::slot::{Key, Keyed, Slot};
use names::Name;
use records::Head;
use slots::{Listed, Replica};

// How many slots of a kind are used: the leading ones that start with its mark.
fn used<S: Slot>(t: &[u8]) -> usize
    requires { 13344 ≤ length t.now }
    ensures { (result ≡ used S.First.MARK t.now S.FIRST S.SIZE S.COUNT) × (result ≤ S.COUNT) }
{
    (0..S::COUNT)
        .take_while(|&i| slot::is_used::<S>(t, i))
        .count()
}

// How many replica slots are used.
pub fn replicas_used(t: &[u8]) -> usize
    requires { 13344 ≤ length t.now }
    ensures { (result ≡ replicas_used t.now) × (result ≤ 64) }
{
    used::<Replica>(t)
}

// How many entry slots are used.
pub fn entries_used(t: &[u8]) -> usize
    requires { 13344 ≤ length t.now }
    ensures { (result ≡ entries_used t.now) × (result ≤ 256) }
{
    used::<Listed>(t)
}

// The first of n slots of a kind that has the key.
fn first<S: Keyed>(t: &[u8], n: usize, key: S::Key) -> Option<usize>
    requires { (13344 ≤ length t.now) × (n ≤ S.COUNT) }
    ensures { result ≡ first_slot (λ (i : ℕ). S.has_key t.now key i) 0 n }
{
    (0..n).find(|&i| S::has_key(t, i, key))
}

// The first of m replica slots that has the id.
pub fn replica(t: &[u8], m: usize, id: u32) -> Option<usize>
    requires { (13344 ≤ length t.now) × (m ≤ 64) }
    ensures { result ≡ first_replica t.now m id }
{
    first::<Replica>(t, m, id)
}

// The slot of the replica with the id, if it is held.
pub fn slot_of(t: &[u8], id: u32) -> Option<usize>
    requires { 13344 ≤ length t.now }
    ensures { result ≡ first_replica t.now (replicas_used t.now) id }
{
    replica(t, replicas_used(t), id)
}

// Whether entry slot s has the key.
pub fn has_key(t: &[u8], s: usize, directory: u32, child: u32, name: Name) -> bool
    requires { (13344 ≤ length t.now) × (s < 256) }
    ensures { result ≡ is_key directory child name (entry_in t.now s) }
{
    Listed::has_key(
        t,
        s,
        Key {
            directory,
            child,
            name,
        },
    )
}

// The first of k entry slots that has the key.
pub fn entry(t: &[u8], k: usize, directory: u32, child: u32, name: Name) -> Option<usize>
    requires { (13344 ≤ length t.now) × (k ≤ 256) }
    ensures { result ≡ first_entry t.now k directory child name }
{
    first::<Listed>(
        t,
        k,
        Key {
            directory,
            child,
            name,
        },
    )
}

// How many of k entry slots are listed in the directory.
pub fn entries_in(t: &[u8], k: usize, directory: u32) -> usize
    requires { (13344 ≤ length t.now) × (k ≤ 256) }
    ensures { result ≡ entries_in t.now k directory }
{
    (0..k)
        .filter(|&i| slot::directory(t, i) == directory)
        .count()
}

// The head of the replica with the id, if it is held.
pub fn head(t: &[u8], id: u32) -> Option<Head>
    requires { 13344 ≤ length t.now }
    ensures { MatchOption result (head_of (table_of t.now) id ≡ none) (λ h. head_of (table_of t.now) id ≡ some h) }
{
    let i = slot_of(t, id)?;
    Some(slot::head(t, i))
}
