// Heads: what a replica is, without what its table alone knows of it.
ghost use Rattle.std.specs.Prelude.{◌≡◌, ◌≤◌, eqb};
ghost use Rattle.std.proofs.Common.{rules};
ghost use Rattle.codec.specs.Laws.{of_chunk};
ghost use Rattle.records.specs.Heads.{head_of, head_at, head_bytes, head_mark, root_head, is_root, head_fits, head_in_range, length_head_bytes, head_range_law};

use codec::{Record, Stored};
use names::Name;
use numbers::{ids, nodes};

#[derive(Clone, Copy, PartialEq, Eq)]
pub struct Head {
    // Kind and live are the bytes that stood there, any byte: the clause of `Head::read` holds of every byte string.
    pub kind: u8,
    pub live: u8,
    pub id: u32,
    pub stamp: u64,
    pub holders: u8,
    pub depth: u8,
    pub directory: u32,
    pub name: Name,
}

impl Head {
    // The root's head in a cluster of n nodes.
    pub fn root(n: u8) -> Head
        requires { n ≤ 8 }
        ensures { result ≡ root_head n }
    {
        Head {
            kind: 2,
            live: 1,
            id: 0,
            stamp: 0,
            holders: nodes::all(n),
            depth: 0,
            directory: 0,
            name: Name::none(),
        }
    }

    // Whether it is live, and not dead.
    pub fn is_live(self) -> bool
        ensures { result ≡ eqb self.live 1 }
    {
        self.live == 1
    }

    // Whether it is a directory's head, and not a file's.
    pub fn is_directory(self) -> bool
        ensures { result ≡ eqb self.kind 2 }
    {
        self.kind == 2
    }

    // Whether this is the root's head.
    pub fn is_root(self, n: u8) -> bool
        requires { n ≤ 8 }
        ensures { result ≡ is_root n self }
    {
        self == Head::root(n)
    }
}

impl Stored for Head {
    const SIZE: usize = 40;

    ghost SIZE = { 40 };

    ghost at = { head_at };

    ghost bytes = { head_bytes };

    #[tactic(auto, using(crate::specs::Heads::head_fields))]
    fn read(t: &[u8], o: usize) -> Head {
        Head {
            kind: u8::read(t, o + 2),
            live: u8::read(t, o + 3),
            id: u32::read(t, o + 4),
            stamp: u64::read(t, o + 8),
            holders: u8::read(t, o + 16),
            depth: u8::read(t, o + 17),
            directory: u32::read(t, o + 20),
            name: Name::read(t, o + 24),
        }
    }

    #[tactic(auto, using(crate::specs::Heads::head_stores))]
    fn write(self, t: &mut [u8], o: usize) {
        let [first, second] = Head::MARK;
        codec::put_bytes(t, o, [first, second, self.kind, self.live]);
        self.id.write(t, o + 4);
        self.stamp.write(t, o + 8);
        codec::put_bytes(t, o + 16, [self.holders, self.depth, 0, 0]);
        self.directory.write(t, o + 20);
        self.name.write(t, o + 24);
    }

    ghost sized = { length_head_bytes };

    ghost within = { of_chunk head_of 40 };
}

impl Record for Head {
    const MARK: [u8; 2] = [0x48, 0x44];

    ghost MARK = { head_mark };

    const ZEROS_AT: usize = 18;

    ghost ZEROS_AT = { 18 };

    const ZEROS: usize = 2;

    ghost ZEROS = { 2 };

    type Nodes = u8;

    ghost can_judge = { λ n. n ≤ 8 };

    ghost fits = { head_fits };

    ghost in_range = { head_in_range };

    // The root's fields are given; in any other head each is in its range.
    #[tactic(auto, unfolding(crate::specs::Heads::head_fits, crate::specs::Heads::is_ordinary))]
    fn fits(self, n: u8) -> bool {
        if self.id == 0 {
            return self.is_root(n);
        }
        (1..=2).contains(&self.kind)
            && self.live <= 1
            && ids::is_made(n, self.id)
            && ids::is_stamp(n, self.stamp)
            && nodes::is_set(n, u64::from(self.holders))
            && (1..=16).contains(&self.depth)
            && ids::is_id(n, self.directory)
            && self.name.is_name()
    }

    ghost inside = { Prim.search rules };

    ghost range = { head_range_law };
}
