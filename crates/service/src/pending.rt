// Count what is pending.
ghost use Rattle.std.specs.Prelude.{◌≡◌, ◌≤◌, length};
ghost use Rattle.document.specs.Tables.{slots_from, replica_in};
ghost use Rattle.document.specs.Calls.{pending_sum};
ghost use Rattle.answers.specs.Forms.{Answered};
ghost use Rattle.service.specs.Promises.{PendingPromise};

use crate::judged::judged;
use answers::Answer;
use codec::Stored;
use numbers::nodes;
use slots::Table;
use table::find;

// The sum of the pending bits of m replicas.
// A `for`: its invariant bounds the sum; `sum` and `fold` ask for the bound before they run.
fn pending_bits(t: &Table, m: usize) -> u32
    requires { m ≤ 64 }
    ensures { result ≡ pending_sum (slots_from (replica_in t.now) 0 m) }
{
    let mut n = 0;
    for i in 0..m {
        n += u32::from(nodes::size(u8::read(t, 32 + 48 * i + 44)));
    }
    n
}

// The sum of pending bits over all replicas.
pub fn pending(table: &[u8]) -> Answer
    ensures { PendingPromise Answered table.now result }
{
    let t = judged(table)?;
    Ok(pending_bits(t, find::replicas_used(t)))
}
