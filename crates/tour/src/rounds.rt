// Messages between the nodes, in rounds until none is pending. An error in printing leaves the tables as the
// messages until then left them.
use crate::acts::Tour;
use crate::cluster::{Link, Pending};
use crate::say::{Node, Outcome};
use crate::tree;
use answers::Refusal;
use std::io;
use table::find;

impl<R: Print> Tour<'_, R> {
    // One node tells another of all that is pending for it, and how many pushes these are is printed; what is
    // lost stays pending.
    fn exchange(&mut self, from: Node, to: Node, time: u64, link: Link) -> io::Result<()> {
        let mut sent = 0usize;
        for i in 0..find::replicas_used(self.cluster.table(from)) {
            let id = tree::id_in(self.cluster.table(from), i);
            let told = self.cluster.tell(from, to, time, id, link);
            if told == Err(Refusal::NotPending) {
                continue;
            }
            if told.is_err() {
                print!(self.rt; ", {}", Outcome(told))?;
            }
            sent += 1;
        }
        match (sent, link) {
            (0, _) => Ok(()),
            (_, Link::Whole) => print!(self.rt; ", {from}->{to}: {sent}"),
            (_, Link::Cut) => print!(self.rt; ", {from}->{to}: {sent} lost"),
        }
    }

    // One round: each node in turn tells the others of all that is pending. What goes to a node that is cut off,
    // or comes from it, is lost.
    pub fn round(&mut self, time: u64, cut_off: Option<Node>) -> io::Result<()> {
        print!(self.rt; "  A round")?;
        for from in Node::ALL {
            for to in Node::ALL {
                if from != to {
                    let is_cut = cut_off == Some(from) || cut_off == Some(to);
                    let link = if is_cut { Link::Cut } else { Link::Whole };
                    self.exchange(from, to, time, link)?;
                }
            }
        }
        println!(self.rt; ". {}", Pending(&self.cluster))
    }

    // Rounds until nothing is pending anywhere, never more than eight; then shows what the nodes hold.
    pub fn quiet(&mut self, time: u64) -> io::Result<()> {
        for _ in 0..8 {
            if self.cluster.is_quiet() {
                break;
            }
            self.round(time, None)?;
        }
        if self.cluster.is_quiet() {
            println!(self.rt; "  Quiet: nothing is pending anywhere.")?;
        } else {
            println!(self.rt; "  Not quiet after eight rounds.")?;
        }
        self.show()
    }
}
