// A head is put where its id stands, or takes the lowest free slot with version 0, which the end of
// the call raises.
ghost use Rattle.std.specs.Prelude.{◌≡◌, IsOk, is_ok};
ghost use Rattle.document.specs.Tables.{table_of};
ghost use Rattle.document.specs.Steps.{put};
ghost use Rattle.steps.specs.Standing.{Is, Stands};
ghost use Rattle.steps.specs.Putting.{has_slot, Adds};

use crate::NoRoom;
use codec::Stored;
use records::Head;
use slots::{Replica, Table};
use table::find;

// Puts the head, unless it is new and no slot is free.
pub fn put(t: &mut Table, h: Head) -> Result<(), NoRoom>
    requires { Stands t.old }
    ensures { (is_ok result ≡ has_slot h.id (table_of t.old))
        × (IsOk result → Is t.new (put h (table_of t.old))) }
{
    let Some(i) = find::slot_of(t, h.id) else {
        return add(t, h);
    };
    h.write(t, 32 + 48 * i);
    Ok(())
}

// Puts a new head behind the replicas that there are.
fn add(t: &mut Table, h: Head) -> Result<(), NoRoom>
    requires { Adds t.old h }
    ensures { (is_ok result ≡ has_slot h.id (table_of t.old))
        × (IsOk result → Is t.new (put h (table_of t.old))) }
{
    let m = find::replicas_used(t);
    if m == 64 {
        return Err(NoRoom);
    }
    let r = Replica {
        head: h,
        version: 0,
        pending: 0,
    };
    r.write(t, 32 + 48 * m);
    Ok(())
}
