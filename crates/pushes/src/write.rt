// Writing the push of a held replica: the header, the heads up to the root, the directory's entries.
ghost use Rattle.std.specs.Prelude.{◌≡◌, ◌+◌, ◌*◌, ◌≤◌, ◌<◌, max, length};
ghost use Rattle.codec.specs.Bytes.{splice};
ghost use Rattle.records.specs.Heads.{head_bytes};
ghost use Rattle.records.specs.Entries.{entry_bytes};
ghost use Rattle.document.specs.Tables.{entries_of, rows, table_of};
ghost use Rattle.document.specs.Messages.{chain_up, entry_spot, header_of_push, message_bytes};
ghost use Rattle.pushes.specs.Writing.{Held, listed_at, push_of_held, Written};

use crate::read;
use codec::Stored;
use messages::PushHeader;
use records::{Entry, Head};
use slots::{Listed, Replica, Table};
use table::find;

// How many heads the push of a replica at that depth has.
pub fn head_count(depth: u8) -> u8
    ensures { result ≡ max 1 depth }
{
    depth.max(1)
}

// Writes the heads above h, up to the root and without it, as the heads behind the first.
fn write_above(t: &Table, h: Head, out: &mut [u8])
    requires { 56 + 40 * length (chain_up h.depth h.directory (table_of t.now)) ≤ length out.old }
    ensures { out.new
        ≡ splice out.old 56 (rows head_bytes (chain_up h.depth h.directory (table_of t.now))) }
{
    let mut d = h.directory;
    for i in 0..usize::from(h.depth) {
        if d == 0 {
            return;
        }
        let Some(up) = find::head(t, d) else {
            return;
        };
        up.write(out, 56 + Head::SIZE * i);
        d = up.directory;
    }
}

// Writes entry slot s at o, if it is listed in the directory: where the next record goes.
fn write_slot(t: &Table, s: usize, directory: u32, out: &mut [u8], o: usize) -> usize
    requires { (s < 256) × (o + 32 * length (listed_at t.now directory s) ≤ length out.old) }
    ensures { (result ≡ o + 32 * length (listed_at t.now directory s))
        × (out.new
        ≡ splice out.old o (rows entry_bytes (listed_at t.now directory s))) }
{
    let entry = 3104 + Listed::SIZE * s;
    if u32::read(t, entry + Entry::SIZE) != directory {
        return o;
    }
    Entry::read(t, entry).write(out, o);
    o + Entry::SIZE
}

// Writes the directory's entries from o on, in slot order.
fn write_entries(t: &Table, directory: u32, out: &mut [u8], o: usize)
    requires { o + 32 * length (entries_of directory (table_of t.now).entries) ≤ length out.old }
    ensures { out.new
        ≡ splice out.old o (rows entry_bytes (entries_of directory (table_of t.now).entries)) }
{
    let k = find::entries_used(t);
    let mut at = o;
    for i in 0..k {
        at = write_slot(t, i, directory, out, at);
    }
}

// The header of the push of a held replica for the node.
pub fn header_of(t: &Table, r: Replica, node: u8) -> PushHeader
    requires { Held t.now r }
    ensures { result ≡ header_of_push (push_of_held t.now r node) }
{
    let listed = find::entries_in(t, find::entries_used(t), r.head.id);
    PushHeader {
        sender: u8::read(t, 2),
        addressee: node,
        version: r.version,
        heads: head_count(r.head.depth),
        entries: listed as u8,
    }
}

// How many bytes a push with that header has.
pub fn size_of(header: PushHeader) -> usize
    ensures { result ≡ entry_spot header.heads header.entries }
{
    read::entry_at(usize::from(header.heads), usize::from(header.entries))
}

// Writes the push of a held replica for the node at the front of `out`, given its header.
pub fn write(t: &Table, r: Replica, header: PushHeader, out: &mut [u8])
    requires { Written t.now r header (length out.old) }
    ensures { out.new
        ≡ splice out.old 0 (message_bytes (push_of_held t.now r header.addressee)) }
{
    let h = r.head;
    header.write(out, 0);
    h.write(out, PushHeader::SIZE);
    write_above(t, h, out);
    let o = read::entry_at(usize::from(header.heads), 0);
    write_entries(t, h.id, out, o);
}
