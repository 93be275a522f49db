// The joins of steps (d) and (e) of a receive against the entries of the table, as they stand before
// the call.
ghost use Rattle.std.specs.Prelude.{◌≡◌, not};
ghost use Rattle.std.proofs.Math.Option.{some};
ghost use Rattle.document.specs.Tables.{table_of};
ghost use Rattle.document.specs.Steps.{odd_join, set_by};
ghost use Rattle.judge.specs.Apart.{none_odd};
ghost use Rattle.judge.specs.Judging.{above_agree, entries_agree, first_agrees, made_agrees};

use records::Head;
use slots::Listed;
use steps::join::{Entries, Joined};
use steps::message::Message;
use steps::state;
use table::find;

// Whether the entry meets none with its stamp and another flag.
fn agrees(entries: &Entries, x: Listed) -> bool
    ensures { result ≡ not (odd_join x (table_of entries.now.t.now)) }
{
    !matches!(entries.join(x), Joined::AtOdds)
}

// Whether each of the message's entries agrees.
pub fn entries_agree(entries: &Entries, message: &Message) -> bool
    ensures { result ≡ entries_agree (table_of entries.now.t.now) message.now.bytes.now message.now.first.id
        message.now.heads message.now.entries }
{
    (0..message.entries).all(|j| agrees(entries, message.listed(j)))
}

// Whether what an ancestor sets agrees: nothing if it is held, else an entry at its place.
fn made_agrees(entries: &Entries, h: Head) -> bool
    ensures { result ≡ made_agrees (table_of entries.now.t.now) h }
{
    let t = entries.t;
    find::head(t, h.id).is_some() || agrees(entries, state::place_entry(h))
}

// Whether what each ancestor among the message's heads sets agrees: those behind the first.
pub fn above_agree(entries: &Entries, message: &Message) -> bool
    ensures { result ≡ above_agree (table_of entries.now.t.now) message.now.bytes.now message.now.heads }
{
    (1..message.heads).all(|j| made_agrees(entries, message.head(j)))
}

// Whether what the taken state sets agrees: the entry at its place, and the strike where it was.
#[tactic(auto, using(crate::specs::Deciding::set_tests))]
fn taken_agrees(entries: &Entries, h: Head, old: Head) -> bool
    ensures { result ≡ none_odd (table_of entries.now.t.now) (set_by h (some old)) }
{
    agrees(entries, state::place_entry(h))
        && (state::is_same_place(h, old) || agrees(entries, state::strike(h, old)))
}

// Whether what the pushed replica sets agrees: if it is not held, its entry; if its stamp is greater,
// what the taken state sets; else nothing.
pub fn first_agrees(entries: &Entries, h: Head) -> bool
    ensures { result ≡ first_agrees (table_of entries.now.t.now) h }
{
    let t = entries.t;
    match find::head(t, h.id) {
        Some(old) => h.stamp <= old.stamp || taken_agrees(entries, h, old),
        None => agrees(entries, state::place_entry(h)),
    }
}
