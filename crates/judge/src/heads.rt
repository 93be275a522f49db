// The heads of a message against those of the table. Ancestors already held are compared too, though
// a receive does not touch them.
ghost use Rattle.std.specs.Prelude.{◌≡◌, not, eqb};
ghost use Rattle.std.proofs.Math.Option.{some};
ghost use Rattle.numbers.specs.Ids.{maker};
ghost use Rattle.document.specs.Tables.{table_of};
ghost use Rattle.document.specs.Receive.{odd_head};
ghost use Rattle.judge.specs.Judging.{head_agrees, heads_agree, is_steady};

use codec::Stored;
use numbers::ids;
use records::Head;
use slots::{Table, TableHeader};
use steps::message::Message;
use steps::state;
use table::find;

// Whether a directory has the place and the depth that the table has for it.
fn is_steady(h: Head, o: Head) -> bool
    ensures { result ≡ is_steady h o }
{
    !o.is_directory() || state::is_same_place(o, h) && o.depth == h.depth
}

// Whether the head and the one that is held agree: in kind, of a directory in place and depth, of
// equal stamps in state.
fn is_like(h: Head, o: Head) -> bool
    ensures { result ≡ not (odd_head h (some o)) }
{
    o.kind == h.kind
        && is_steady(h, o)
        && (o.stamp != h.stamp || o.live == h.live && state::is_same_place(o, h))
}

// Whether an id is of another node's making.
fn is_foreign(t: &Table, id: u32) -> bool
    ensures { result ≡ not (eqb (maker id) (table_of t.now).own) }
{
    let header = TableHeader::read(t, 0);
    ids::maker(id) != header.own
}

// Whether the head agrees with the one of its id, if that is held, and else is not of own making.
fn agrees(t: &Table, h: Head) -> bool
    ensures { result ≡ head_agrees (table_of t.now) h }
{
    match find::head(t, h.id) {
        Some(o) => is_like(h, o),
        None => is_foreign(t, h.id),
    }
}

// Whether each of the message's heads agrees with the table.
pub fn agree(t: &Table, message: &Message) -> bool
    ensures { result ≡ heads_agree (table_of t.now) message.now.bytes.now message.now.heads }
{
    (0..message.heads).all(|j| agrees(t, message.head(j)))
}
