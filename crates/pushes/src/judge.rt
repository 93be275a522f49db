// Whether bytes are a push: line 4 of the refusals, rule by rule. Records are read in order, each
// checked before the next: the header, the pushed replica's head, each head above it against those
// before it, and each entry against those before it.
//
// A message whose header is fine is a `Message`; a record is named by its place among its kind.
//
// `is_held` and `is_linked` stand in `table` too, for its slots: the must-fail edits of each crate change its own.
ghost use Rattle.std.specs.Prelude.{◌≡◌, ◌&&◌, ◌+◌, ◌*◌, ◌-◌, ◌≤◌, ◌<◌, length, false, true, MatchOption};
ghost use Rattle.numbers.specs.Nodes.{has};
ghost use Rattle.messages.specs.PushHeaders.{push_at};
ghost use Rattle.document.specs.Tables.{every_slot};
ghost use Rattle.document.specs.Messages.{entry_spot, same_child_name};
ghost use Rattle.document.specs.ReadingMessages.{head_in};
ghost use Rattle.document.specs.Sound.{maker_holds};
ghost use Rattle.pushes.specs.Judging.{is_push, header_fine, top_fine, linked, id_new, head_fine, first_fine, ends_at_root, child_new, entry_in, entry_fine};

use crate::read;
use codec::{Record, Stored};
use messages::PushHeader;
use names::Name;
use numbers::{ids, nodes};
use records::{Entry, Head};

// A message to a node of a cluster, whose header is fine: it is as long as its header says.
#[derive(Clone, Copy)]
struct Message<'a> {
    bytes: &'a [u8],
    nodes: u8,
    header: PushHeader,
    ghost few_nodes: { nodes ≤ 8 },
    ghost told: { header ≡ push_at bytes.now 0 },
    ghost fine: { header_fine nodes bytes.now ≡ true },
    ghost some_heads: { 1 ≤ header.heads },
    ghost few_heads: { header.heads ≤ 16 },
    ghost few_entries: { header.entries ≤ 32 },
    ghost whole: { length bytes.now ≡ entry_spot header.heads header.entries },
}

impl<'a> Message<'a> {
    // The message, if the header is in its range, from a node to another, and its counts are those
    // of the message.
    #[tactic(auto, using(crate::specs::Reading::no_header), unfolding(crate::specs::Judging::header_fine))]
    fn parse(bytes: &'a [u8], nodes: u8) -> Option<Message<'a>>
        requires { nodes ≤ 8 }
        ensures { MatchOption result (is_push nodes bytes.now ≡ false)
            (λ m. (m.bytes.now ≡ bytes.now) × (m.nodes ≡ nodes)) }
    {
        if bytes.len() < PushHeader::SIZE || !PushHeader::in_range(bytes, 0, nodes) {
            return None;
        }
        let header = read::header(bytes);
        if header.sender == header.addressee || bytes.len() != crate::write::size_of(header) {
            return None;
        }
        Some(Message {
            bytes,
            nodes,
            header,
        })
    }

    // Head i: the pushed replica's is 0.
    fn head(&self, i: usize) -> Head
        requires { i < self.now.header.heads }
        ensures { result ≡ head_in self.now.bytes.now i }
    {
        read::head(self.bytes, i)
    }

    // Whether the first head is in its range, is held as it has to be, and goes with the header.
    #[tactic(auto, unfolding(crate::specs::Judging::first_fine))]
    fn first_fine(&self) -> bool
        ensures { result ≡ first_fine self.now.nodes self.now.header self.now.bytes.now }
    {
        let h = self.head(0);
        Head::in_range(self.bytes, PushHeader::SIZE, self.nodes)
            && is_held(h, self.header.sender)
            && top_fine(h, self.header)
    }

    // Whether no head before head i has its id. This and `child_is_new` are each one `all`, over what differs.
    fn id_is_new(&self, i: usize) -> bool
        requires { i < self.now.header.heads }
        ensures { result ≡ id_new self.now.bytes.now i }
    {
        let id = self.id_of_head(i);
        (0..i).all(|j| self.id_of_head(j) != id)
    }

    // The id of head i, read in place.
    #[tactic(auto, using(crate::specs::Judging::id_at))]
    fn id_of_head(&self, i: usize) -> u32
        requires { i < self.now.header.heads }
        ensures { result ≡ (head_in self.now.bytes.now i).id }
    {
        u32::read(self.bytes, PushHeader::SIZE + Head::SIZE * i + 4)
    }

    // Whether head i, which is not the first, is in its range, is held as it has to be, is the place
    // of the head before it, and has an id of its own.
    #[tactic(auto, unfolding(crate::specs::Judging::head_fine))]
    fn head_fine(&self, i: usize) -> bool
        requires { (1 ≤ i) × (i < self.now.header.heads) }
        ensures { result ≡ head_fine self.now.nodes self.now.header.sender self.now.bytes.now i }
    {
        let g = self.head(i);
        Head::in_range(self.bytes, PushHeader::SIZE + Head::SIZE * i, self.nodes)
            && is_held(g, self.header.sender)
            && is_linked(self.head(i - 1), g)
            && self.id_is_new(i)
    }

    // Whether each head above the first is fine.
    fn heads_fine(&self) -> bool
        ensures { result ≡ every_slot (head_fine self.now.nodes self.now.header.sender self.now.bytes.now)
            1 (self.now.header.heads - 1) }
    {
        (1..usize::from(self.header.heads)).all(|i| self.head_fine(i))
    }

    // Whether no entry before entry i has its child and name.
    fn child_is_new(&self, i: usize) -> bool
        requires { i < self.now.header.entries }
        ensures { result ≡ child_new self.now.header.heads self.now.bytes.now i }
    {
        let e = read::entry(self.bytes, usize::from(self.header.heads), i);
        (0..i).all(|j| !self.is_same(j, e))
    }

    // Where entry i stands.
    fn entry_spot(&self, i: usize) -> usize
        requires { i < self.now.header.entries }
        ensures { result ≡ entry_spot self.now.header.heads i }
    {
        read::entry_at(usize::from(self.header.heads), i)
    }

    // Whether entry i has the child and the name of the entry e; the name is read only if the child is the same.
    #[tactic(auto, using(crate::specs::Judging::child_at, crate::specs::Judging::name_at_law, names::specs::Names::same_derived))]
    fn is_same(&self, i: usize, e: Entry) -> bool
        requires { i < self.now.header.entries }
        ensures { result ≡ same_child_name (entry_in self.now.header.heads self.now.bytes.now i) e }
    {
        let o = self.entry_spot(i);
        u32::read(self.bytes, o + 4) == e.child && Name::read(self.bytes, o + 16) == e.name
    }

    // Whether entry i is in its range, is not for the root, and has a child and name of its own.
    #[tactic(auto, using(crate::specs::Judging::child_at), unfolding(crate::specs::Judging::entry_fine))]
    fn entry_fine(&self, i: usize) -> bool
        requires { i < self.now.header.entries }
        ensures { result ≡ entry_fine self.now.nodes self.now.header.heads self.now.bytes.now i }
    {
        let o = self.entry_spot(i);
        Entry::in_range(self.bytes, o, self.nodes)
            && u32::read(self.bytes, o + 4) != 0
            && self.child_is_new(i)
    }

    // Whether each entry is fine.
    fn entries_fine(&self) -> bool
        ensures { result ≡ every_slot (entry_fine self.now.nodes self.now.header.heads self.now.bytes.now)
            0 self.now.header.entries }
    {
        (0..usize::from(self.header.entries)).all(|i| self.entry_fine(i))
    }

    // Whether the records are those of a push, in the order of reading.
    #[tactic(auto, using(crate::specs::Reading::push_tests))]
    fn is_fine(&self) -> bool
        ensures { result ≡ is_push self.now.nodes self.now.bytes.now }
    {
        self.first_fine()
            && self.heads_fine()
            && ends_at_root(self.head(0), self.head(usize::from(self.header.heads) - 1))
            && self.entries_fine()
    }
}

// Whether the maker and the sender hold what the head is of; the root has no maker.
fn is_held(h: Head, sender: u8) -> bool
    ensures { result ≡ (maker_holds h && has h.holders sender) }
{
    (h.id == 0 || nodes::has(h.holders, ids::maker(h.id))) && nodes::has(h.holders, sender)
}

// Whether g is the place of h: named by it, one less deep, a directory, and live if h is.
#[tactic(auto, unfolding(crate::specs::Judging::linked))]
fn is_linked(h: Head, g: Head) -> bool
    ensures { result ≡ linked h g }
{
    h.directory == g.id
        && u32::from(h.depth) == u32::from(g.depth) + 1
        && g.is_directory()
        && (!h.is_live() || g.is_live())
}

// Whether the pushed replica's head goes with the header: as many heads as it is deep, the addressee
// among its holders, and no entries under a file or at depth 16.
#[tactic(auto, unfolding(crate::specs::Judging::top_fine))]
fn top_fine(h: Head, header: PushHeader) -> bool
    ensures { result ≡ top_fine h header }
{
    header.heads == crate::write::head_count(h.depth)
        && nodes::has(h.holders, header.addressee)
        && (header.entries == 0 || h.is_directory() && h.depth < 16)
}

// Whether the chain of heads ends below the root: the root's own has no place.
#[tactic(auto, unfolding(crate::specs::Judging::ends_at_root))]
fn ends_at_root(first: Head, last: Head) -> bool
    ensures { result ≡ ends_at_root first last }
{
    first.id == 0 || last.directory == 0 && last.depth == 1
}

// Whether the bytes are a push in a cluster of n nodes.
pub fn is_push(m: &[u8], n: u8) -> bool
    requires { n ≤ 8 }
    ensures { result ≡ is_push n m.now }
{
    Message::parse(m, n).is_some_and(|p| p.is_fine())
}
