// After a call: each older replica whose head or entries changed gets its version raised by one, a
// new one version 1, and both are pending for all other holders. What changed is seen by comparing the
// working copy with the table as it stood, slot by slot: steps add slots behind those that there
// were, and never move one.
ghost use Rattle.std.specs.Prelude.{◌≡◌, ◌≤◌, ◌<◌, ◌^◌, ltb, set, IsOk, is_ok};
ghost use Rattle.codec.specs.Bytes.{Bytes};
ghost use Rattle.document.specs.Tables.{every_slot, replica_in, table_of, with_replicas};
ghost use Rattle.document.specs.Steps.{settle, unchanged};
ghost use Rattle.views.specs.Settles.{settled};
ghost use Rattle.steps.specs.Standing.{Is};
ghost use Rattle.steps.specs.Settling.{Compares, Settles, is_slot_same, all_numbered};

use crate::PastEnd;
use codec::Stored;
use numbers::nodes;
use slots::{Replica, Table, TableHeader};
use table::find;
use table::used::Used;

// The used slots of the table before the call, and how many entry slots are used since.
#[derive(Clone, Copy)]
struct Before<'a> {
    was: Used<'a>,
    since: usize,
    ghost bytes: { Bytes was.t.now },
}

impl<'a> Before<'a> {
    // Whether entry slot s is none of the directory's, or is as it was.
    fn is_slot_same(&self, t: &Table, s: usize, directory: u32) -> bool
        requires { s < 256 }
        ensures { result ≡ is_slot_same self.now.was.t.now t.now directory s }
    {
        let old = self.was.t;
        let o = 3104 + 40 * s;
        u32::read(t, o + 32) != directory
            || s < self.was.entries
                && codec::same_bytes(codec::part(old, o, 32), codec::part(t, o, 32))
    }

    // Whether the directory's entries are those that it had.
    fn are_entries_same(&self, t: &Table, directory: u32) -> bool
        requires { self.now.since ≤ 256 }
        ensures { result ≡ every_slot (is_slot_same self.now.was.t.now t.now directory) 0 self.now.since }
    {
        (0..self.since).all(|s| self.is_slot_same(t, s, directory))
    }

    // Whether replica slot i has the head and the entries that it had.
    fn is_same(&self, t: &Table, i: usize) -> bool
        requires { Compares self.now.was.t.now t.now self.now.since i }
        ensures { result ≡ unchanged (table_of self.now.was.t.now) (table_of t.now) (replica_in t.now i).head }
    {
        let old = self.was.t;
        let o = 32 + 48 * i;
        i < self.was.replicas
            && codec::same_bytes(codec::part(old, o, 40), codec::part(t, o, 40))
            && self.are_entries_same(t, u32::read(t, o + 4))
    }

    // Raises the version in replica slot i, if its head or its entries changed.
    fn settle_slot(&self, t: &mut Table, i: usize) -> Result<(), PastEnd>
        requires { Compares self.now.was.t.now t.old self.now.since i }
        ensures { (is_ok result ≡ ltb (settled (table_of self.now.was.t.now) (table_of t.old)
            (replica_in t.old i)).version (2 ^ 32))
            × (IsOk result → Is t.new (with_replicas (table_of t.old)
            (set (table_of t.old).replicas i
            (settled (table_of self.now.was.t.now) (table_of t.old) (replica_in t.old i))))) }
    {
        if self.is_same(t, i) {
            return Ok(());
        }
        let r = Replica::read(t, 32 + 48 * i);
        if r.version == u32::MAX {
            return Err(PastEnd);
        }
        let own = TableHeader::read(t, 0).own;
        let raised = Replica {
            version: r.version + 1,
            pending: nodes::without(r.head.holders, own),
            ..r
        };
        raised.write(t, 32 + 48 * i);
        Ok(())
    }
}

// Raises the versions of what changed, each by one.
pub fn settle(old: &Table, t: &mut Table) -> Result<(), PastEnd>
    requires { Settles old.now t.old }
    ensures { (is_ok result ≡ all_numbered (settle (table_of old.now) (table_of t.old)))
        × (IsOk result → Is t.new (settle (table_of old.now) (table_of t.old))) }
{
    let before = Before {
        was: Used::of(old),
        since: find::entries_used(t),
    };
    for i in 0..find::replicas_used(t) {
        before.settle_slot(t, i)?;
    }
    Ok(())
}
