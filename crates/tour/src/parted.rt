// Scene 4: node 3 is cut off, both sides move the same file, and the link returns. A node that hears
// nothing does not take that for an answer: a push stays pending until it is acknowledged.
use crate::acts::Tour;
use crate::say::Node::{One, Three, Two};
use crate::say::Nodes;
use crate::tree::ROOT;
use changes::kind::Kind;
use std::io;

const DOCS: u32 = 16777217;

const NOTE: u32 = 16777218;

pub fn scene(tour: &mut Tour<'_, impl Print>) -> io::Result<()> {
    print!(tour.rt;
        "\n\
         Scene 4. Node 3 is cut off, and both sides move the same file: what happens when the\n\
         link returns?\n"
    )?;
    tour.start()?;
    tour.create(One, 1, Kind::Directory, ROOT, "docs", Nodes::ALL)?;
    tour.create(One, 2, Kind::File, DOCS, "note", Nodes::ALL)?;
    tour.quiet(2)?;
    part(tour)?;
    tour.quiet(23)?;
    tour.struck(One)?;
    print!(tour.rt;
        "  So: 5379, of node 3, is greater than 5121, of node 1. The file is /memo on every node,\n  \
           though two of three had it at /docs/report, which is struck out. What either side made\n  \
           meanwhile is on all of them.\n"
    )
}

// Node 3 is cut off: both sides move the file and go on, and what is sent meanwhile is lost.
fn part(tour: &mut Tour<'_, impl Print>) -> io::Result<()> {
    println!(tour.rt; "  The link to node 3 is cut.")?;
    tour.rename(One, 20, NOTE, DOCS, "report")?;
    tour.rename(Three, 21, NOTE, ROOT, "memo")?;
    tour.create(Two, 22, Kind::File, DOCS, "list", Nodes::ALL)?;
    tour.create(Three, 22, Kind::File, ROOT, "trip", Nodes::ALL)?;
    for _ in 0..3 {
        tour.round(22, Some(Three))?;
    }
    tour.show()?;
    print!(tour.rt;
        "  Nodes 1 and 2 agree with each other. What is for node 3, or from it, is sent again in\n  \
           each round and lost; it stays pending, since nobody takes silence for an answer.\n  \
           The link to node 3 is back.\n"
    )
}
