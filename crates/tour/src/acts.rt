// What the nodes do in the scenes: each act makes one of the library's calls at one node, and prints who does
// what, the answer in words, and what is pending then. An error in printing who does what leaves the tables as
// they were; one after that leaves them as the calls until then left them.
use crate::agree;
use crate::cluster::{Cluster, Link, Pending};
use crate::say::{Node, Nodes, Outcome};
use crate::tree::{Path, Struck, Tree};
use answers::Answer;
use changes::kind::Kind;
use std::io;

// A tour: where it is printed, and the cluster that it shows.
#[derive(Drop)]
pub struct Tour<'a, R: Print> {
    pub rt: &'a R,
    pub cluster: Cluster,
}

impl<R: Print> Tour<'_, R> {
    // Prints what was answered, and what is pending.
    fn done(&self, answer: Answer) -> io::Result<()> {
        println!(self.rt; ": {}. {}", Outcome(answer), Pending(&self.cluster))
    }

    // The three nodes start afresh.
    pub fn start(&mut self) -> io::Result<()> {
        print!(self.rt; "  Nodes 1, 2 and 3 start: ")?;
        let [one, two, three] = Node::ALL.map(|node| Outcome(self.cluster.start(node)));
        println!(self.rt; "{one}, {two}, {three}. {}", Pending(&self.cluster))
    }

    // A node creates a file or a directory with that name in the directory, for the nodes of the set and itself.
    pub fn create(
        &mut self,
        node: Node,
        time: u64,
        kind: Kind,
        directory: u32,
        name: &str,
        set: Nodes,
    ) -> io::Result<()> {
        let table = self.cluster.table_mut(node);
        let place = Path(table, directory);
        let whom = if set == Nodes::NONE {
            " for itself"
        } else {
            ""
        };
        print!(self.rt; "  Node {node} makes the {kind} {place}/{name}{whom} at {time}")?;
        let answer = service::tree::create(
            table,
            time,
            u64::from(directory),
            u64::from(u8::from(kind)),
            name.as_bytes(),
            u64::from(set.0),
        );
        self.done(answer)
    }

    // A node renames the file to the name in the directory.
    pub fn rename(
        &mut self,
        node: Node,
        time: u64,
        id: u32,
        directory: u32,
        name: &str,
    ) -> io::Result<()> {
        let table = self.cluster.table_mut(node);
        let file = Path(table, id);
        let place = Path(table, directory);
        print!(self.rt; "  Node {node} moves {file} (id {id}) to {place}/{name} at {time}")?;
        let answer = service::tree::rename(
            table,
            time,
            u64::from(id),
            u64::from(directory),
            name.as_bytes(),
        );
        self.done(answer)
    }

    // A node removes the directory.
    pub fn remove(&mut self, node: Node, time: u64, id: u32) -> io::Result<()> {
        let table = self.cluster.table_mut(node);
        let directory = Path(table, id);
        print!(self.rt; "  Node {node} removes {directory} (id {id}) at {time}")?;
        let answer = service::tree::remove(table, time, u64::from(id));
        self.done(answer)
    }

    // One node tells another of the replica with that id.
    pub fn tell(&mut self, from: Node, to: Node, time: u64, id: u32) -> io::Result<()> {
        let path = Path(self.cluster.table(from), id);
        print!(self.rt;
            "  Node {from} tells node {to} of {path} (id {id}), which receives that at {time}"
        )?;
        let answer = self.cluster.tell(from, to, time, id, Link::Whole);
        self.done(answer)
    }

    // Draws what the nodes show: one tree for those that show the same.
    pub fn show(&self) -> io::Result<()> {
        let mut drawn = Nodes::NONE;
        for node in Node::ALL {
            if !drawn.has(node) {
                let alike = self.alike(node);
                print!(self.rt; "  On {alike}:\n{}", Tree(self.cluster.table(node)))?;
                drawn = drawn.join(alike);
            }
        }
        Ok(())
    }

    // The nodes that show what this one does.
    fn alike(&self, node: Node) -> Nodes {
        let table = self.cluster.table(node);
        Node::ALL
            .iter()
            .filter(|other| agree::agree(table, self.cluster.table(**other)))
            .fold(Nodes::NONE, |set, other| set.join(Nodes::from(*other)))
    }

    // Prints the entries that are struck out at a node.
    pub fn struck(&self, node: Node) -> io::Result<()> {
        let struck = Struck(self.cluster.table(node));
        println!(self.rt; "  Struck out at node {node}:{struck}")
    }
}
