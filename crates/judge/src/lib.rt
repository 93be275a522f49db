// Line 13 of the refusals, a message against the table, judged before anything is changed. That this
// is exact is a law: in one receive no two joins meet the same directory, child and name.
#![tactic(auto)]

mod heads;
mod joins;

ghost use Rattle.std.specs.Prelude.{◌≡◌, true};
ghost use Rattle.std.proofs.Math.Option.{some};
ghost use Rattle.document.specs.Tables.{table_of};
ghost use Rattle.document.specs.Sound.{sound_bytes};
ghost use Rattle.document.specs.Messages.{message_of, read_push};
ghost use Rattle.document.specs.Receive.{odd};

use slots::Table;
use steps::join::Entries;
use steps::message::Message;

// Whether the message is at odds with the table: a head, an entry of the pushed directory, or one that
// a replica made, or whose state is taken, would set.
pub fn is_odd(table: &Table, message: &[u8]) -> bool
    requires { (sound_bytes table.now ≡ true)
        × (read_push (table_of table.now).nodes message.now ≡ some (message_of message.now)) }
    ensures { result ≡ odd (message_of message.now) (table_of table.now) }
{
    let message = Message::of(message);
    let entries = Entries::of(table);
    !(heads::agree(table, &message)
        && joins::entries_agree(&entries, &message)
        && joins::above_agree(&entries, &message)
        && joins::first_agrees(&entries, message.first))
}
