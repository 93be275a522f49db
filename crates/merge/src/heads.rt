// Steps (a) to (c) of a receive: the clocks; then missing ancestors are made from the root side down, with the
// message's state and the own node added; the pushed replica is made, or its state taken if the stamp
// is greater, and holders are joined.
ghost use Rattle.std.specs.Prelude.{◌≡◌, is_ok};
ghost use Rattle.document.specs.Tables.{head_of, table_of};
ghost use Rattle.document.specs.Messages.{message_of};
ghost use Rattle.document.specs.Receive.{merged, step_b, step_c, taken, with_own};
ghost use Rattle.steps.specs.States.{Made};
ghost use Rattle.merge.specs.Working.{Owns};
ghost use Rattle.merge.specs.Heads.{missing};

use crate::clocks;
use codec::Stored;
use numbers::nodes;
use records::Head;
use slots::{Table, TableHeader};
use steps::message::Message;
use steps::{NoRoom, put};
use table::find;

// The head with the own node among its holders.
fn with_own(t: &Table, h: Head) -> Head
    requires { Owns t.now }
    ensures { result ≡ with_own h (table_of t.now) }
{
    let own = TableHeader::read(t, 0).own;
    Head {
        holders: nodes::join(h.holders, nodes::single(own)),
        ..h
    }
}

// Makes the ancestor if it is missing; one that is held is not touched.
fn make_missing(t: &mut Table, h: Head) -> Result<(), NoRoom>
    requires { Owns t.old }
    ensures { Made (is_ok result) t.new (missing h (table_of t.old)) }
{
    if find::head(t, h.id).is_some() {
        return Ok(());
    }
    let new = with_own(t, h);
    put::put(t, new)
}

// Makes the missing ancestors, root side first: the last head of the message is nearest to the root.
fn make_above(t: &mut Table, message: &Message) -> Result<(), NoRoom>
    requires { Owns t.old }
    ensures { Made (is_ok result) t.new
        (step_b (message_of message.now.bytes.now).above (table_of t.old)) }
{
    for j in (1..message.heads).rev() {
        make_missing(t, message.head(j))?;
    }
    Ok(())
}

// The head that the pushed replica comes to.
fn merged(t: &Table, h: Head) -> Head
    requires { Owns t.now }
    ensures { result ≡ merged (head_of (table_of t.now) h.id) h (table_of t.now) }
{
    let Some(old) = find::head(t, h.id) else {
        return with_own(t, h);
    };
    let holders = nodes::join(old.holders, h.holders);
    let newer = if old.stamp < h.stamp { h } else { old };
    Head { holders, ..newer }
}

// Makes the pushed replica, or takes its state, and joins holders.
fn take_first(t: &mut Table, message: &Message) -> Result<(), NoRoom>
    requires { Owns t.old }
    ensures { Made (is_ok result) t.new
        (step_c (message_of message.now.bytes.now).first (table_of t.old)) }
{
    let new = merged(t, message.first);
    put::put(t, new)
}

// Takes in the clocks of the message, makes the missing ancestors and makes or takes the pushed
// replica.
pub fn take_heads(t: &mut Table, message: &Message) -> Result<(), NoRoom>
    requires { Owns t.old }
    ensures { Made (is_ok result) t.new (taken (message_of message.now.bytes.now) (table_of t.old)) }
{
    clocks::take_clocks(t, message);
    make_above(t, message)?;
    take_first(t, message)
}
