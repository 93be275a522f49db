// Receive on a working copy of a table, steps (a) to (f); versions are raised by `steps::settle`, and the
// call does (g). What is refused before is judged by the call, and so is line 17 of the refusals, on the
// outcome.
#![tactic(auto)]

pub mod clocks;
pub mod entries;
pub mod heads;
pub mod live;

ghost use Rattle.std.specs.Prelude.{IsOk, is_ok};
ghost use Rattle.document.specs.Tables.{table_of};
ghost use Rattle.document.specs.Messages.{message_of};
ghost use Rattle.steps.specs.Grown.{Grown};
ghost use Rattle.steps.specs.States.{Made};
ghost use Rattle.merge.specs.Keeping.{stepped};
ghost use Rattle.merge.specs.Merging.{Merges};

use slots::Table;
use steps::NoRoom;
use steps::message::Message;

// Merges the message into the working copy of the table as it stood, which is lent too.
pub fn merge(old: &Table, t: &mut Table, message: &[u8], time: u64) -> Result<(), NoRoom>
    requires { Merges old.now t.old message.now time }
    ensures { Made (is_ok result) t.new
        (stepped time (message_of message.now) (table_of old.now))
        × (IsOk result → Grown (table_of old.now) (table_of t.new)) }
{
    let message = Message::of(message);
    heads::take_heads(t, &message)?;
    entries::join_all(old, t, &message)?;
    live::mend_all(t, time)
}
