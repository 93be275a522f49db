// Step (a) of a receive: the highest clock takes in all clocks of the message.
ghost use Rattle.std.specs.Prelude.{◌≡◌, max};
ghost use Rattle.numbers.specs.Ids.{clock_of};
ghost use Rattle.document.specs.Tables.{table_of};
ghost use Rattle.document.specs.Messages.{message_of};
ghost use Rattle.document.specs.Receive.{step_a};
ghost use Rattle.steps.specs.Standing.{Is, Stands};

use codec::Stored;
use numbers::ids;
use slots::{Table, TableHeader};
use steps::message::Message;

// The larger of the clock and the stamp's.
fn later(clock: u64, stamp: u64) -> u64
    ensures { result ≡ max clock (clock_of stamp) }
{
    clock.max(ids::clock_of(stamp))
}

// Takes in the clocks of the message.
pub fn take_clocks(t: &mut Table, message: &Message)
    requires { Stands t.old }
    ensures { Is t.new (step_a (message_of message.now.bytes.now) (table_of t.old)) }
{
    let old = TableHeader::read(t, 0);
    let seen = (0..message.heads).fold(old.highest, |c, i| later(c, message.head(i).stamp));
    let all = (0..message.entries).fold(seen, |c, i| later(c, message.listed(i).entry.stamp));
    let new = TableHeader {
        highest: all,
        ..old
    };
    new.write(t, 0);
}
