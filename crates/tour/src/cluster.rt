// The three nodes: their tables, what each shows of itself, and a message from one to another.
use crate::say::{Node, Outcome};
use answers::Answer;
use slots::{TABLE_SIZE, Table};
use std::fmt;

// The length of the longest push, and that of an acknowledgement.
const LONGEST_PUSH: usize = 1640;

const ACKNOWLEDGEMENT: usize = 16;

// Whether what is sent from one node to another comes there.
#[derive(Clone, Copy, PartialEq, Eq)]
pub enum Link {
    Whole,
    Cut,
}

// The tables, that of node 1 first.
#[derive(Drop)]
pub struct Cluster {
    tables: [Table; 3],
}

impl Cluster {
    // Room for the tables of three nodes, none of which has started.
    pub fn new() -> Self {
        Cluster {
            tables: [[0; TABLE_SIZE]; 3],
        }
    }

    // The table of a node.
    pub fn table(&self, node: Node) -> &Table {
        &self.tables[usize::from(u8::from(node)) - 1]
    }

    // The table of a node, to be changed.
    pub fn table_mut(&mut self, node: Node) -> &mut Table {
        &mut self.tables[usize::from(u8::from(node)) - 1]
    }

    // A node starts, as one of three.
    pub fn start(&mut self, node: Node) -> Answer {
        service::start::start(self.table_mut(node), u64::from(node), 3)
    }

    // How many pushes a node has pending.
    pub fn pending(&self, node: Node) -> Answer {
        service::pending::pending(self.table(node))
    }

    // Whether no node has anything pending.
    pub fn is_quiet(&self) -> bool {
        Node::ALL.iter().all(|node| self.pending(*node) == Ok(0))
    }

    // One node tells another of the replica with that id; where the link is cut, that is lost. The first
    // refusal that there is, of push, receive or acknowledged, is answered.
    pub fn tell(&mut self, from: Node, to: Node, time: u64, id: u32, link: Link) -> Answer {
        let mut message = [0; LONGEST_PUSH];
        let size = service::push::push(
            self.table(from),
            u64::from(id),
            u64::from(to),
            &mut message,
        )?;
        if link == Link::Cut {
            return Ok(0);
        }
        // usize has no From<u32>.
        let size = message.len().min(size as usize);
        let mut reply = [0; ACKNOWLEDGEMENT];
        service::receive::receive(self.table_mut(to), time, &message[..size], &mut reply)?;
        service::acknowledged::acknowledged(self.table_mut(from), &reply)
    }
}

// How many pushes each node has pending.
#[derive(Drop)]
pub struct Pending<'a>(pub &'a Cluster);

impl fmt::Display for Pending<'_> {
    fn fmt<W: fmt::Write>(&self, f: &mut fmt::Formatter<W>) -> fmt::Result {
        let cluster = self.0;
        f.write_str("Pending")?;
        for node in Node::ALL {
            f.write_str(if node == Node::One { " " } else { ", " })?;
            match cluster.pending(node) {
                Ok(count) => write!(f, "{count}")?,
                Err(refusal) => write!(f, "{}", Outcome(Err(refusal)))?,
            }
        }
        f.write_str(".")
    }
}
