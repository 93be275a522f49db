// A tour for a person to see: three nodes that share one tree, in four scenes. The first two are the
// runs of document 01, here with a third node that hears of all that it holds; then one name is
// created twice, and last a node is cut off and comes back. The nodes are three tables in memory, and
// all that is done to them is done by the library's calls.
//
// Proved here is that it is safe and ends. What it prints is held to `stdout`, which was read against
// document 01; `document` has both runs computed from the definitions. What opens a scene, and what it
// says at its end after "So:", is fixed text.
//
// A write that fails ends the tour with its error, and what was printed so far stays. A function that prints
// answers the first such error, and then does no more.
#![tactic(auto)]

mod acts;
mod agree;
mod cluster;
mod moved;
mod named;
mod parted;
mod removed;
mod rounds;
mod say;
mod tree;

use acts::Tour;
use cluster::Cluster;
use std::io;

fn main(rt: HostRuntime) -> io::Result<()> {
    print!(rt;
        "Three nodes share one tree: a tour in four scenes. A call changes the table of the\n\
         node that makes it. Pushes then tell the other nodes that hold what was changed; each\n\
         is pending until it is acknowledged. In a round each node in turn sends the others all\n\
         that it has pending: \"1->2: 3\" says that node 1 sent three pushes to node 2, which took\n\
         and acknowledged them, and \"Pending 4, 0, 1\" how many pushes are then pending at nodes\n\
         1, 2 and 3. A new file changes its directory too, so it is two things to tell to each of\n\
         the others, and a node passes on what it took in. Quiet is when none is pending. A stamp\n\
         is 256 * clock + node. Each scene is a cluster of its own.\n"
    )?;
    let cluster = Cluster::new();
    let mut tour = Tour { rt: &rt, cluster };
    moved::scene(&mut tour)?;
    removed::scene(&mut tour)?;
    named::scene(&mut tour)?;
    parted::scene(&mut tour)
}
