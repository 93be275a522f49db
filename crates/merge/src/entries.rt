// Steps (d) and (e) of a receive: entries are joined in message order; then every replica made, or
// whose state was taken, sets its entries, root side first. Which were made or taken, and the place
// that was the old one, are seen in the table as it stood, which is lent too: any bytes as long as one.
ghost use Rattle.std.specs.Prelude.{◌≤◌, length, is_ok};
ghost use Rattle.document.specs.Tables.{head_of, table_of};
ghost use Rattle.document.specs.Steps.{join_all};
ghost use Rattle.document.specs.Messages.{message_of};
ghost use Rattle.document.specs.Receive.{joined_in, joins, set_above, set_if_made, set_if_taken, set_in};
ghost use Rattle.steps.specs.States.{Made};
ghost use Rattle.merge.specs.Working.{AllHeld, Works};
ghost use Rattle.merge.specs.Entries.{setting};

use records::Head;
use slots::Table;
use steps::message::Message;
use steps::{NoRoom, join, state};
use table::find;

// Joins the entries of the message, in order.
fn join_entries(t: &mut Table, message: &Message) -> Result<(), NoRoom>
    requires { Works t.old
        × AllHeld (joined_in (message_of message.now.bytes.now)) (table_of t.old) }
    ensures { Made (is_ok result) t.new
        (join_all (joined_in (message_of message.now.bytes.now)) (table_of t.old)) }
{
    for i in 0..message.entries {
        join::set(t, message.listed(i))?;
    }
    Ok(())
}

// Sets the entry of an ancestor, if it was made.
fn set_if_made(old: &[u8], t: &mut Table, h: Head) -> Result<(), NoRoom>
    requires { Works t.old × (13344 ≤ length old.now)
        × AllHeld (set_if_made (head_of (table_of old.now) h.id) h) (table_of t.old) }
    ensures { Made (is_ok result) t.new (setting (table_of old.now) h (table_of t.old)) }
{
    if find::head(old, h.id).is_some() {
        return Ok(());
    }
    join::set(t, state::place_entry(h))
}

// Sets the entries of the ancestors that were made, root side first.
fn set_above(old: &[u8], t: &mut Table, message: &Message) -> Result<(), NoRoom>
    requires { Works t.old × (13344 ≤ length old.now)
        × AllHeld (set_above (table_of old.now) (message_of message.now.bytes.now).above) (table_of t.old) }
    ensures { Made (is_ok result) t.new
        (join_all (set_above (table_of old.now) (message_of message.now.bytes.now).above)
        (table_of t.old)) }
{
    for j in (1..message.heads).rev() {
        set_if_made(old, t, message.head(j))?;
    }
    Ok(())
}

// Sets the entries of the pushed replica, if it was made or its state was taken: at its place, and
// struck at the old one.
fn set_if_taken(old: &[u8], t: &mut Table, h: Head) -> Result<(), NoRoom>
    requires { Works t.old × (13344 ≤ length old.now)
        × AllHeld (set_if_taken (head_of (table_of old.now) h.id) h) (table_of t.old) }
    ensures { Made (is_ok result) t.new
        (join_all (set_if_taken (head_of (table_of old.now) h.id) h) (table_of t.old)) }
{
    let Some(was) = find::head(old, h.id) else {
        return join::set(t, state::place_entry(h));
    };
    if was.stamp < h.stamp {
        return state::set_places(t, h, was);
    }
    Ok(())
}

// Sets the entries of every replica made, or whose state was taken.
fn set_in(old: &[u8], t: &mut Table, message: &Message) -> Result<(), NoRoom>
    requires { Works t.old × (13344 ≤ length old.now)
        × AllHeld (set_in (table_of old.now) (message_of message.now.bytes.now)) (table_of t.old) }
    ensures { Made (is_ok result) t.new
        (join_all (set_in (table_of old.now) (message_of message.now.bytes.now)) (table_of t.old)) }
{
    set_above(old, t, message)?;
    set_if_taken(old, t, message.first)
}

// Joins the entries of the message, then sets those of what was made or taken.
pub fn join_all(old: &[u8], t: &mut Table, message: &Message) -> Result<(), NoRoom>
    requires { Works t.old × (13344 ≤ length old.now)
        × AllHeld (joins (message_of message.now.bytes.now) (table_of old.now)) (table_of t.old) }
    ensures { Made (is_ok result) t.new
        (join_all (joins (message_of message.now.bytes.now) (table_of old.now)) (table_of t.old)) }
{
    join_entries(t, message)?;
    set_in(old, t, message)
}
