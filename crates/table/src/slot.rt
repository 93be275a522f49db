// The two kinds of slots of a table: where they stand, how many there are, and what a used one starts with.
//
// A table is any bytes as long as one, not a `Table`: `find` asks no more, and says why.
ghost use Rattle.std.specs.Prelude.{◌≡◌, List, Bool, ℕ, ◌+◌, ◌*◌, ◌<◌, ◌≤◌, length};
ghost use Rattle.std.proofs.Common.{arith};
ghost use Rattle.codec.specs.Bytes.{chunk, marked_at};
ghost use Rattle.document.specs.Tables.{has_id, is_key, replica_in, entry_in};
ghost use Rattle.slots.specs.Replicas.{replica_in_range};
ghost use Rattle.slots.specs.Listings.{listed_in_range};

use codec::{Record, Stored};
use names::Name;
use records::{Entry, Head};
use slots::{Listed, Replica, TableHeader};

// A kind of slot. Slot i stands at FIRST + SIZE * i.
pub trait Slot: Stored {
    ghost FIRST: { ℕ };

    const FIRST: usize;

    ghost COUNT: { ℕ };

    const COUNT: usize;

    // The record that it begins with, whose mark says that it is used.
    type First: Record;

    ghost fits: { ℕ → List ℕ → Bool };

    // Whether what stands at o is in its range.
    fn is_in_range(t: &[u8], o: usize, n: u8) -> bool
        requires { (o + Self.SIZE ≤ length t.now) × (n ≤ 8) }
        ensures { result ≡ fits n (chunk t.now o Self.SIZE) };

    ghost holds_mark: { 2 ≤ Self.SIZE };

    ghost within: { FIRST + Self.SIZE * COUNT ≤ 13344 };
}

// Where slot i stands; it ends in the table.
pub fn at<S: Slot>(i: usize) -> usize
    requires { i < S.COUNT }
    ensures { (result ≡ S.FIRST + S.SIZE * i) × (result + S.SIZE ≤ 13344) }
{
    S::FIRST + S::SIZE * i
}

// Whether slot i is used.
pub fn is_used<S: Slot>(t: &[u8], i: usize) -> bool
    requires { (13344 ≤ length t.now) × (i < S.COUNT) }
    ensures { result ≡ marked_at t.now (S.FIRST + S.SIZE * i) S.First.MARK }
{
    codec::is_marked(t, at::<S>(i), S::First::MARK)
}

// Whether what stands in slot i is in its range. The kind's own function is told the place, as a kind's
// function cannot ask `at` of its own kind.
pub fn is_in_range<S: Slot>(t: &[u8], i: usize, n: u8) -> bool
    requires { (13344 ≤ length t.now) × (i < S.COUNT) × (n ≤ 8) }
    ensures { result ≡ S.fits n (chunk t.now (S.FIRST + S.SIZE * i) S.SIZE) }
{
    S::is_in_range(t, at::<S>(i), n)
}

// What stands in slot i, so many bytes behind its start.
fn get<S: Slot, R: Stored>(t: &[u8], i: usize, offset: usize) -> R
    requires { (13344 ≤ length t.now) × (i < S.COUNT) × (offset + R.SIZE ≤ S.SIZE) }
    ensures { result ≡ R.at t.now (S.FIRST + S.SIZE * i + offset) }
{
    R::read(t, at::<S>(i) + offset)
}

// The id of the replica in slot i.
#[tactic(auto, using(crate::specs::Slots::id_at))]
pub fn id(t: &[u8], i: usize) -> u32
    requires { (13344 ≤ length t.now) × (i < 64) }
    ensures { result ≡ (replica_in t.now i).head.id }
{
    get::<Replica, u32>(t, i, 4)
}

// The replica in slot i.
pub fn replica(t: &[u8], i: usize) -> Replica
    requires { (13344 ≤ length t.now) × (i < 64) }
    ensures { result ≡ replica_in t.now i }
{
    get::<Replica, Replica>(t, i, 0)
}

// The head of the replica in slot i.
#[tactic(auto, using(crate::specs::Slots::head_at_law))]
pub fn head(t: &[u8], i: usize) -> Head
    requires { (13344 ≤ length t.now) × (i < 64) }
    ensures { result ≡ (replica_in t.now i).head }
{
    get::<Replica, Head>(t, i, 0)
}

// The entry in slot i, and its directory.
pub fn listed(t: &[u8], i: usize) -> Listed
    requires { (13344 ≤ length t.now) × (i < 256) }
    ensures { result ≡ entry_in t.now i }
{
    get::<Listed, Listed>(t, i, 0)
}

// The entry in slot i.
#[tactic(auto, using(crate::specs::Slots::entry_at_law))]
pub fn entry(t: &[u8], i: usize) -> Entry
    requires { (13344 ≤ length t.now) × (i < 256) }
    ensures { result ≡ (entry_in t.now i).entry }
{
    get::<Listed, Entry>(t, i, 0)
}

// The child of the entry in slot i.
#[tactic(auto, using(crate::specs::Slots::child_at))]
pub fn child(t: &[u8], i: usize) -> u32
    requires { (13344 ≤ length t.now) × (i < 256) }
    ensures { result ≡ (entry_in t.now i).entry.child }
{
    get::<Listed, u32>(t, i, 4)
}

// The name of the entry in slot i.
#[tactic(auto, using(crate::specs::Slots::name_at_law))]
pub fn name(t: &[u8], i: usize) -> Name
    requires { (13344 ≤ length t.now) × (i < 256) }
    ensures { result ≡ (entry_in t.now i).entry.name }
{
    get::<Listed, Name>(t, i, 16)
}

// The directory that the entry in slot i is listed in.
#[tactic(auto, using(crate::specs::Slots::directory_at))]
pub fn directory(t: &[u8], i: usize) -> u32
    requires { (13344 ≤ length t.now) × (i < 256) }
    ensures { result ≡ (entry_in t.now i).directory }
{
    get::<Listed, u32>(t, i, 32)
}

impl Slot for Replica {
    ghost FIRST = { 32 };

    const FIRST: usize = TableHeader::SIZE;

    ghost COUNT = { 64 };

    const COUNT: usize = 64;

    type First = Head;

    ghost fits = { replica_in_range };

    fn is_in_range(t: &[u8], o: usize, n: u8) -> bool {
        Replica::in_range(t, o, n)
    }

    ghost holds_mark = { omega arith };

    ghost within = { omega arith };
}

impl Slot for Listed {
    ghost FIRST = { 3104 };

    const FIRST: usize = Replica::FIRST + Replica::SIZE * Replica::COUNT;

    ghost COUNT = { 256 };

    const COUNT: usize = 256;

    type First = Entry;

    ghost fits = { listed_in_range };

    fn is_in_range(t: &[u8], o: usize, n: u8) -> bool {
        Listed::in_range(t, o, n)
    }

    ghost holds_mark = { omega arith };

    ghost within = { omega arith };
}

// The key of an entry.
#[derive(Clone, Copy)]
pub struct Key {
    pub directory: u32,
    pub child: u32,
    pub name: Name,
}

impl Key {
    // The key of the entry at the place of a replica with that head.
    pub fn of_place(h: Head) -> Self
        ensures { result ≡ record { directory = h.directory; child = h.id; name = h.name } }
    {
        Self {
            directory: h.directory,
            child: h.id,
            name: h.name,
        }
    }
}

// A kind of slot with a key that no two used slots of a sound table share.
pub trait Keyed: Slot {
    type Key: Copy;

    ghost key_in: { List ℕ → ℕ → Self.Key };

    ghost has_key: { List ℕ → Self.Key → ℕ → Bool };

    // The key of slot i.
    fn key(t: &[u8], i: usize) -> Self::Key
        requires { (13344 ≤ length t.now) × (i < Self.COUNT) }
        ensures { result ≡ key_in t.now i };

    // Whether slot i has the key.
    fn has_key(t: &[u8], i: usize, key: Self::Key) -> bool
        requires { (13344 ≤ length t.now) × (i < Self.COUNT) }
        ensures { result ≡ has_key t.now key i };
}

impl Keyed for Replica {
    type Key = u32;

    ghost key_in = { λ l i. (replica_in l i).head.id };

    ghost has_key = { λ l id i. has_id id (replica_in l i) };

    fn key(t: &[u8], i: usize) -> u32 {
        id(t, i)
    }

    fn has_key(t: &[u8], i: usize, key: u32) -> bool {
        id(t, i) == key
    }
}

impl Keyed for Listed {
    type Key = Key;

    ghost key_in = { λ l i. record { directory = (entry_in l i).directory; child = (entry_in l i).entry.child; name = (entry_in l i).entry.name } };

    ghost has_key = { λ l k i. is_key k.directory k.child k.name (entry_in l i) };

    fn key(t: &[u8], i: usize) -> Key {
        Key {
            directory: directory(t, i),
            child: child(t, i),
            name: name(t, i),
        }
    }

    // The fields are read only as far as they are needed.
    #[tactic(auto, using(names::specs::Names::same_derived))]
    fn has_key(t: &[u8], i: usize, key: Key) -> bool {
        directory(t, i) == key.directory && child(t, i) == key.child && name(t, i) == key.name
    }
}
