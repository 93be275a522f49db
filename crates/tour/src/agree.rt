// Whether two tables show the same, row by row of what the call `list` gives.
use crate::tree::{self, LISTING};
use codec::Stored;
use records::Entry;
use slots::Table;
use table::find;

// The nodes that hold the replica with that id, as this table has it.
fn holders(t: &Table, id: u32) -> Option<u8> {
    find::head(t, id).map(|h| h.holders)
}

// Whether both tables list the same in the directory with that id, in whatever order, held by the same nodes.
fn directory_agrees(a: &Table, b: &Table, id: u32) -> bool {
    let mut x = [0; LISTING];
    let mut y = [0; LISTING];
    let x = tree::listed(a, id, &mut x).unwrap_or(&[]);
    let y = tree::listed(b, id, &mut y).unwrap_or(&[]);
    x.len() == y.len()
        && x.chunks_exact(Entry::SIZE).all(|row| {
            let child = Entry::read(row, 0).child;
            y.chunks_exact(Entry::SIZE).any(|other| other == row)
                && holders(a, child) == holders(b, child)
        })
}

// Whether both tables show the same: in each directory of the first, whose rows say which are held.
pub fn agree(a: &Table, b: &Table) -> bool {
    (0..find::replicas_used(a)).all(|i| directory_agrees(a, b, tree::id_in(a, i)))
}
