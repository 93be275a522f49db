// Start: the bytes of a fresh table.
// A cast loses nothing: that is proved where it stands, and `try_from` would add a refusal that never comes.
ghost use Rattle.std.specs.Prelude.{◌≡◌, ◌≤◌};
ghost use Rattle.document.specs.Tables.{fresh, table_bytes};
ghost use Rattle.answers.specs.Forms.{Answered};
ghost use Rattle.service.specs.Promises.{StartPromise};

use answers::{Answer, Refusal};
use codec::Stored;
use numbers::nodes;
use records::Head;
use slots::{Replica, Table, TableHeader};

// Writes the fresh table of the node in a cluster of n.
fn refresh(t: &mut Table, node: u8, n: u8)
    requires { n ≤ 8 }
    ensures { t.new ≡ table_bytes (fresh node n) }
{
    t.fill(0);
    let header = TableHeader {
        own: node,
        nodes: n,
        next: 1,
        highest: 0,
    };
    header.write(t, 0);
    let root = Replica {
        head: Head::root(n),
        version: 1,
        pending: 0,
    };
    root.write(t, 32);
}

// Makes the table a fresh one.
pub fn start(table: &mut [u8], node: u64, n: u64) -> Answer
    ensures { StartPromise Answered table.old node n result table.new }
{
    let Some(t) = table.as_mut_array() else {
        return Err(Refusal::NotSound);
    };
    if !nodes::is_size(n) || !nodes::is_node(n as u8, node) {
        return Err(Refusal::OutOfRange);
    }
    refresh(t, node as u8, n as u8);
    Ok(0)
}
