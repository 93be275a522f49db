// The rules of a sound table beyond the ranges, in the order of document 01. Each function judges one
// sentence for one slot, or for all slots; a slot is read as a struct by value. But for the two
// sentences that say what is unique, each is judged by one pass, where ids do not collide: a slot that
// one slot names by an id or a key is found by hints, and entries are counted for all directories at
// once.
ghost use Rattle.std.specs.Prelude.{◌≡◌, true, ◌&&◌, ◌||◌, not, ℕ, ◌+◌, ◌-◌, ◌≤◌, ◌<◌, eqb, leb, ltb, length};
ghost use Rattle.codec.specs.Bytes.{u8_at};
ghost use Rattle.numbers.specs.Nodes.{has, without};
ghost use Rattle.numbers.specs.Ids.{maker, count};
ghost use Rattle.records.specs.Heads.{is_root};
ghost use Rattle.document.specs.Tables.{every_slot, replica_in, entry_in};
ghost use Rattle.document.specs.Sound.{is_root_id, is_live, is_place_of, held_and, is_parent, shows, maker_holds, is_part_of, replica_keeps, entry_keeps, rules};
ghost use Rattle.table.specs.Rules.{table_at, held_in, listed_in, slots_keep};
ghost use Rattle.table.specs.Counts.{Tallied};

use crate::counts::Tally;
use crate::hints::Index;
use crate::slot::{Key, Keyed};
use crate::used::Used;
use crate::{counts, slot};
use codec::Stored;
use numbers::{ids, nodes};
use records::{Entry, Head};
use slots::{Listed, Replica, Table, TableHeader};

// Whether holders include the maker and the own node; the root has no maker.
fn holders_include(h: Head, own: u8) -> bool
    ensures { result ≡ (maker_holds h && has h.holders own) }
{
    (h.id == 0 || nodes::has(h.holders, ids::maker(h.id))) && nodes::has(h.holders, own)
}

// Whether pending is within holders without the own node.
fn pending_within(pending: u8, holders: u8, own: u8) -> bool
    ensures { result ≡ is_part_of pending (without holders own) }
{
    let others = nodes::without(holders, own);
    nodes::join(pending, others) == others
}

// Whether an id of own making is below the next count.
fn own_below_next(id: u32, own: u8, next: u32) -> bool
    ensures { result ≡ (not (eqb (maker id) own) || ltb (count id) next) }
{
    ids::maker(id) != own || ids::count(id) < next
}

// Whether p is a directory, one less deep than h, and live if h is.
fn is_place_of(p: Head, h: Head) -> bool
    ensures { result ≡ is_place_of h p }
{
    p.is_directory()
        && u32::from(p.depth) + 1 == u32::from(h.depth)
        && (!h.is_live() || p.is_live())
}

// Whether a replica's place directory is held, is a directory, is one less deep, and live if the
// replica is; the root has no place.
fn place_held(index: &Index, h: Head) -> bool
    ensures { result ≡ (is_root_id h || held_and (is_place_of h) (held_in index.now.used.t.now index.now.used.replicas h.directory)) }
{
    h.id == 0 || index.head(h.directory).is_some_and(|p| is_place_of(p, h))
}

// Whether the entry has a stamp not below the given one, and is live if equal.
fn is_shown_by(e: Entry, stamp: u64) -> bool
    ensures { result ≡ (leb stamp e.stamp && (not (eqb stamp e.stamp) || eqb e.live 1)) }
{
    stamp <= e.stamp && (stamp != e.stamp || e.is_live())
}

// Whether a live replica but the root has an entry at its place with a stamp not below its own, and
// live if equal. The hint is the slot to look at first for that entry.
fn place_shown(index: &Index, hint: u8, h: Head) -> bool
    ensures { result ≡ (not (is_live h) || (is_root_id h
        || shows h (listed_in index.now.used.t.now index.now.used.entries h.directory h.id h.name))) }
{
    !h.is_live()
        || h.id == 0
        || index
            .entry(hint, Key::of_place(h))
            .is_some_and(|e| is_shown_by(e, h.stamp))
}

// Whether the replica in slot s keeps all that a replica has to keep.
fn replica_keeps(index: &Index, s: usize, tallies: &[Tally; 64]) -> bool
    requires { (s < index.now.used.replicas) × Tallied index.now.used.t.now index.now.used.replicas index.now.used.entries tallies.now }
    ensures { result ≡ replica_keeps (table_at index.now.used.t.now index.now.used.replicas index.now.used.entries)
        (replica_in index.now.used.t.now s) }
{
    let t = index.used.t;
    let header = TableHeader::read(t, 0);
    let r = slot::replica(t, s);
    let h = r.head;
    let tally = tallies[s];
    holders_include(h, header.own)
        && pending_within(r.pending, h.holders, header.own)
        && own_below_next(h.id, header.own, header.next)
        && place_held(index, h)
        && tally.count <= 32
        && place_shown(index, tally.place, h)
        && ids::clock_of(h.stamp) <= header.highest
}

// Whether each replica keeps it. This and its twin for entries are one `all` each, over rules that have nothing alike.
fn replicas_keep(index: &Index, tallies: &[Tally; 64]) -> bool
    requires { Tallied index.now.used.t.now index.now.used.replicas index.now.used.entries tallies.now }
    ensures { result ≡ every_slot (λ (s : ℕ). replica_keeps (table_at index.now.used.t.now index.now.used.replicas index.now.used.entries)
        (replica_in index.now.used.t.now s)) 0 index.now.used.replicas }
{
    (0..index.used.replicas).all(|s| replica_keeps(index, s, tallies))
}

// Whether a directory is held, is a directory and less than 16 deep.
fn is_parent(index: &Index, directory: u32) -> bool
    ensures { result ≡ held_and is_parent (held_in index.now.used.t.now index.now.used.replicas directory) }
{
    index
        .head(directory)
        .is_some_and(|h| h.is_directory() && h.depth < 16)
}

// Whether the entry in slot s keeps all that an entry has to keep.
fn entry_keeps(index: &Index, s: usize) -> bool
    requires { s < index.now.used.entries }
    ensures { result ≡ entry_keeps (table_at index.now.used.t.now index.now.used.replicas index.now.used.entries)
        (entry_in index.now.used.t.now s) }
{
    let t = index.used.t;
    let header = TableHeader::read(t, 0);
    let x = slot::listed(t, s);
    let e = x.entry;
    is_parent(index, x.directory) && e.child != 0 && ids::clock_of(e.stamp) <= header.highest
}

// Whether each entry keeps it.
fn entries_keep(index: &Index) -> bool
    ensures { result ≡ every_slot (λ (s : ℕ). entry_keeps (table_at index.now.used.t.now index.now.used.replicas index.now.used.entries)
        (entry_in index.now.used.t.now s)) 0 index.now.used.entries }
{
    (0..index.used.entries).all(|s| entry_keeps(index, s))
}

// Whether no later slot has the key of slot i.
fn is_new<S: Keyed>(t: &Table, n: usize, i: usize) -> bool
    requires { (n ≤ S.Slot.COUNT) × (i < n) }
    ensures { result ≡ every_slot (λ (j : ℕ). not (S.has_key t.now (S.key_in t.now i) j)) (i + 1) (n - (i + 1)) }
{
    let key = S::key(t, i);
    (i + 1..n).all(|j| !S::has_key(t, j, key))
}

// Whether the keys of n slots are unique.
fn are_unique<S: Keyed>(t: &Table, n: usize) -> bool
    requires { n ≤ S.Slot.COUNT }
    ensures { result ≡ every_slot (λ (i : ℕ). every_slot (λ (j : ℕ). not (S.has_key t.now (S.key_in t.now i) j)) (i + 1) (n - (i + 1))) 0 n }
{
    (0..n).all(|i| is_new::<S>(t, n, i))
}

// Whether the root stands in slot 0.
fn root_first(used: &Used) -> bool
    requires { u8_at used.now.t.now 3 ≤ 8 }
    ensures { result ≡ (ltb 0 used.now.replicas && is_root (table_at used.now.t.now used.now.replicas 0).nodes (replica_in used.now.t.now 0).head) }
{
    let t = used.t;
    let n = u8::read(t, 3);
    0 < used.replicas && slot::head(t, 0).is_root(n)
}

// Whether each entry and each replica keeps what it has to keep. Entries come first: where all their
// directories are held, no count has to pass the slots to find one.
fn slots_keep(index: &Index) -> bool
    ensures { result ≡ slots_keep index.now.used.t.now index.now.used.replicas index.now.used.entries }
{
    entries_keep(index) && replicas_keep(index, &counts::of_entries(index))
}

// Whether the used slots of a table keep every rule. Ids and keys come first: what is looked up after
// that relies on their being unique.
pub fn keeps(used: &Used) -> bool
    requires { u8_at used.now.t.now 3 ≤ 8 }
    ensures { result ≡ rules (table_at used.now.t.now used.now.replicas used.now.entries) }
{
    let t = used.t;
    root_first(used)
        && are_unique::<Replica>(t, used.replicas)
        && are_unique::<Listed>(t, used.entries)
        && slots_keep(&Index::of(used))
}
