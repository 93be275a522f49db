// How what is shown reads: nodes, sets of nodes, stamps, names, and what a call answers.
ghost use Rattle.std.specs.Prelude.{◌≤◌};

use answers::Answer;
use names::Name;
use numbers::nodes;
use std::fmt;

// A node of the three.
#[derive(Clone, Copy, PartialEq, Eq)]
pub enum Node {
    One = 1,
    Two,
    Three,
}

impl Node {
    pub const ALL: [Node; 3] = [Node::One, Node::Two, Node::Three];
}

impl From<Node> for u8 {
    ghost from_gives = { λ _ n. (1 ≤ n) × (n ≤ 3) };

    fn from(node: Node) -> u8 {
        node as u8
    }
}

impl From<Node> for u64 {
    fn from(node: Node) -> u64 {
        u64::from(u8::from(node))
    }
}

impl fmt::Display for Node {
    fn fmt<W: fmt::Write>(&self, f: &mut fmt::Formatter<W>) -> fmt::Result {
        let number = u8::from(*self);
        write!(f, "{number}")
    }
}

// A set of nodes, as document 01 has it: bit i-1 for node i.
#[derive(Clone, Copy, PartialEq, Eq)]
pub struct Nodes(pub u8);

impl Nodes {
    pub const NONE: Nodes = Nodes(0);

    pub const ALL: Nodes = Nodes(7);

    // Whether the node is in the set.
    pub fn has(self, node: Node) -> bool {
        nodes::has(self.0, u8::from(node))
    }

    // The nodes of both sets.
    pub fn join(self, other: Nodes) -> Nodes {
        Nodes(nodes::join(self.0, other.0))
    }
}

// The set of the node alone.
impl From<Node> for Nodes {
    fn from(node: Node) -> Nodes {
        Nodes(nodes::single(u8::from(node)))
    }
}

impl fmt::Display for Nodes {
    fn fmt<W: fmt::Write>(&self, f: &mut fmt::Formatter<W>) -> fmt::Result {
        f.write_str(match self.0 {
            0 => "no node",
            1 => "node 1",
            2 => "node 2",
            3 => "nodes 1 and 2",
            4 => "node 3",
            5 => "nodes 1 and 3",
            6 => "nodes 2 and 3",
            7 => "nodes 1, 2 and 3",
            _ => "nodes that are not in this cluster",
        })
    }
}

// A stamp, with its clock and node.
#[derive(Drop)]
pub struct Stamp(pub u64);

impl fmt::Display for Stamp {
    fn fmt<W: fmt::Write>(&self, f: &mut fmt::Formatter<W>) -> fmt::Result {
        let stamp = self.0;
        write!(
            f,
            "stamp {stamp} (clock {}, node {})",
            stamp / 256,
            stamp % 256
        )
    }
}

// A name: its text, with any byte that is not of ASCII's letters and signs escaped.
#[derive(Drop)]
pub struct Text(pub Name);

impl fmt::Display for Text {
    fn fmt<W: fmt::Write>(&self, f: &mut fmt::Formatter<W>) -> fmt::Result {
        let len = usize::from(self.0.len).min(15);
        write!(f, "{}", self.0.bytes[..len].escape_ascii())
    }
}

// What a call answered: that it is done, with the id if it made one, or why it was refused.
#[derive(Drop)]
pub struct Outcome(pub Answer);

impl fmt::Display for Outcome {
    fn fmt<W: fmt::Write>(&self, f: &mut fmt::Formatter<W>) -> fmt::Result {
        match self.0 {
            Ok(0) => f.write_str("done"),
            Ok(id) => write!(f, "done, id {id}"),
            Err(refusal) => {
                let number = u32::from(refusal);
                write!(f, "refused, {number} ({refusal})")
            }
        }
    }
}
