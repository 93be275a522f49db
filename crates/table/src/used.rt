// The slots of a table that are used, as what judges or compares them passes them on.
ghost use Rattle.std.specs.Prelude.{◌≡◌, ◌≤◌};
ghost use Rattle.document.specs.Tables.{replicas_used, entries_used};

use crate::find;
use slots::Table;

// A table, and how many slots of each kind are used.
#[derive(Clone, Copy)]
pub struct Used<'a> {
    pub t: &'a Table,
    pub replicas: usize,
    pub entries: usize,
    ghost replicas_are: { replicas ≡ replicas_used t.now },
    ghost entries_are: { entries ≡ entries_used t.now },
    ghost replicas_fit: { replicas ≤ 64 },
    ghost entries_fit: { entries ≤ 256 },
}

impl<'a> Used<'a> {
    // The used slots of a table.
    pub fn of(t: &'a Table) -> Self
        ensures { result.t.now ≡ t.now }
    {
        Self {
            t,
            replicas: find::replicas_used(t),
            entries: find::entries_used(t),
        }
    }
}
