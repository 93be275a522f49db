// Scene 1, the first run of document 01: "Node 1 makes /alice (now 1) and /foo (2); node 2, once quiet,
// /bob (3). Quiet again; at 12 node 1 moves foo to /alice/foo1 and node 2 to /bob/foo2. At quiet: foo has
// 3074 at /bob/foo2; root's "foo" and alice's "foo1" are dead at 3074."
use crate::acts::Tour;
use crate::say::Node::{self, One, Two};
use crate::say::Nodes;
use crate::tree::ROOT;
use changes::kind::Kind;
use std::io;

const ALICE: u32 = 16777217;

const FOO: u32 = 16777218;

const BOB: u32 = 33554433;

pub fn scene(tour: &mut Tour<'_, impl Print>) -> io::Result<()> {
    print!(tour.rt;
        "\n\
         Scene 1. Two nodes move the same file before either hears of the other: which name does\n\
         it get? (The first run of document 01, with a third node that hears of all.)\n"
    )?;
    tour.start()?;
    tour.create(One, 1, Kind::Directory, ROOT, "alice", Nodes::ALL)?;
    tour.create(One, 2, Kind::File, ROOT, "foo", Nodes::ALL)?;
    tour.quiet(2)?;
    tour.create(Two, 3, Kind::Directory, ROOT, "bob", Nodes::ALL)?;
    tour.quiet(3)?;
    tour.rename(One, 12, FOO, ALICE, "foo1")?;
    tour.rename(Two, 12, FOO, BOB, "foo2")?;
    tour.show()?;
    tour.quiet(12)?;
    for node in Node::ALL {
        tour.struck(node)?;
    }
    print!(tour.rt;
        "  So: both moves have clock 12, and 3074, of node 2, is greater than 3073, of node 1.\n  \
           The file is /bob/foo2 on every node; the losing name and the old one are struck out\n  \
           everywhere, with the winner's stamp.\n"
    )
}
