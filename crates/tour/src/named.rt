// Scene 3: two nodes create the same name in the same directory. "directory, child and name together are
// unique": one name may stand there twice, for two children.
use crate::acts::Tour;
use crate::say::Node::{One, Three, Two};
use crate::say::Nodes;
use crate::tree::ROOT;
use changes::kind::Kind;
use std::io;

const SECOND: u32 = 33554433;

pub fn scene(tour: &mut Tour<'_, impl Print>) -> io::Result<()> {
    print!(tour.rt;
        "\n\
         Scene 3. Two nodes create the same name in the same directory: is one of the files lost?\n"
    )?;
    tour.start()?;
    tour.create(One, 4, Kind::File, ROOT, "plan", Nodes::ALL)?;
    tour.create(Two, 4, Kind::File, ROOT, "plan", Nodes::ALL)?;
    tour.quiet(4)?;
    print!(tour.rt;
        "  Both are kept and both are listed, under one name, told apart by id: directory, child\n  \
           and name together are unique, the name alone is not. Who has heard of them cannot take\n  \
           the name again; a file is moved by its id.\n"
    )?;
    tour.create(Three, 5, Kind::File, ROOT, "plan", Nodes::ALL)?;
    tour.rename(Two, 6, SECOND, ROOT, "plan2")?;
    tour.quiet(6)?;
    print!(tour.rt; "  So: neither file is lost, and each now has a name of its own.\n")
}
