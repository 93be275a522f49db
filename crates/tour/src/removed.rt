// Scene 2, the second run of document 01: "/d has stamp 257 on both, N 2. At 5 node 1 makes /d/f (1281) for
// itself, node 2 removes /d (1282). Node 1 receives that at 6: /d lives with 1537. At quiet both show it."
use crate::acts::Tour;
use crate::say::Node::{One, Two};
use crate::say::Nodes;
use crate::tree::ROOT;
use changes::kind::Kind;
use std::io;

const D: u32 = 16777217;

pub fn scene(tour: &mut Tour<'_, impl Print>) -> io::Result<()> {
    print!(tour.rt;
        "\n\
         Scene 2. A directory is removed at one node while another makes a file in it: where is\n\
         the file? (The second run of document 01, with a third node that hears of all.)\n"
    )?;
    tour.start()?;
    tour.create(One, 1, Kind::Directory, ROOT, "d", Nodes::ALL)?;
    tour.quiet(1)?;
    tour.create(One, 5, Kind::File, D, "f", Nodes::NONE)?;
    tour.remove(Two, 5, D)?;
    tour.show()?;
    tour.struck(Two)?;
    tour.tell(Two, One, 6, D)?;
    tour.show()?;
    tour.quiet(6)?;
    print!(tour.rt;
        "  So: 1282, of the removal, is greater than 257, and /d died at node 1 too; but a file\n  \
           lives in it there, so node 1 brought it back with a new stamp, 1537, and told the\n  \
           others. They list the file, which node 1 alone holds.\n"
    )
}
