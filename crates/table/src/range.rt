// Whether the bytes are those of a table, with everything in its range: the length, the header, used
// slots first, free slots zero.
ghost use Rattle.std.specs.Prelude.{◌≡◌, ℕ, ◌&&◌, ◌+◌, ◌-◌, ◌*◌, ◌≤◌, ◌<◌, length};
ghost use Rattle.codec.specs.Bytes.{chunk, u8_at, zero_at};
ghost use Rattle.document.specs.Tables.{every_slot, table_in_range};

use crate::slot::Slot;
use crate::{find, slot};
use codec::{Record, Stored};
use slots::{Listed, Replica, Table, TableHeader};

// Whether the used slots of a kind are in their range, and its free slots are zero.
fn slots_in_range<S: Slot>(t: &Table, used: usize) -> bool
    requires { (used ≤ S.COUNT) × (u8_at t.now 3 ≤ 8) }
    ensures { result ≡ (every_slot (λ (s : ℕ). S.fits (u8_at t.now 3) (chunk t.now (S.FIRST + S.SIZE * s) S.SIZE)) 0 used
        && zero_at t.now (S.FIRST + S.SIZE * used) (S.SIZE * (S.COUNT - used))) }
{
    let n = u8::read(t, 3);
    (0..used).all(|i| slot::is_in_range::<S>(t, i, n))
        && codec::is_zero(t, S::FIRST + S::SIZE * used, S::SIZE * (S::COUNT - used))
}

// Whether a table is in its range. One whose header is out of range is refused before any slot is counted, one
// with a replica out of range before the entries are.
pub fn in_range(t: &Table) -> bool
    ensures { result ≡ table_in_range t.now }
{
    if !TableHeader::in_range(t, 0, ()) {
        return false;
    }
    let replicas = find::replicas_used(t);
    slots_in_range::<Replica>(t, replicas) && slots_in_range::<Listed>(t, find::entries_used(t))
}
