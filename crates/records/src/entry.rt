// Entries: what a directory says of a child.
ghost use Rattle.std.specs.Prelude.{◌≡◌, eqb, ⊤};
ghost use Rattle.std.proofs.Common.{rules};
ghost use Rattle.codec.specs.Laws.{of_chunk};
ghost use Rattle.records.specs.Entries.{entry_of, entry_at, entry_bytes, entry_fits, entry_in_range, entry_mark, length_entry_bytes, entry_range_law};

use codec::{Record, Stored};
use names::Name;
use numbers::ids;

#[derive(Clone, Copy, PartialEq, Eq)]
pub struct Entry {
    // Live is the byte that stood there, any byte: the clause of `Entry::read` holds of every byte string.
    pub live: u8,
    pub child: u32,
    pub stamp: u64,
    pub name: Name,
}

impl Entry {
    // Whether it is live, and not struck out.
    pub fn is_live(self) -> bool
        ensures { result ≡ eqb self.live 1 }
    {
        self.live == 1
    }
}

impl Stored for Entry {
    const SIZE: usize = 32;

    ghost SIZE = { 32 };

    ghost at = { entry_at };

    ghost bytes = { entry_bytes };

    #[tactic(auto, using(crate::specs::Entries::entry_fields))]
    fn read(t: &[u8], o: usize) -> Entry {
        Entry {
            live: u8::read(t, o + 2),
            child: u32::read(t, o + 4),
            stamp: u64::read(t, o + 8),
            name: Name::read(t, o + 16),
        }
    }

    #[tactic(auto, using(crate::specs::Entries::entry_stores))]
    fn write(self, t: &mut [u8], o: usize) {
        let [first, second] = Entry::MARK;
        codec::put_bytes(t, o, [first, second, self.live, 0]);
        self.child.write(t, o + 4);
        self.stamp.write(t, o + 8);
        self.name.write(t, o + 16);
    }

    ghost sized = { length_entry_bytes };

    ghost within = { of_chunk entry_of 32 };
}

impl Record for Entry {
    const MARK: [u8; 2] = [0x45, 0x4E];

    ghost MARK = { entry_mark };

    const ZEROS_AT: usize = 3;

    ghost ZEROS_AT = { 3 };

    const ZEROS: usize = 1;

    ghost ZEROS = { 1 };

    type Nodes = u8;

    ghost can_judge = { λ _. ⊤ };

    ghost fits = { entry_fits };

    ghost in_range = { entry_in_range };

    #[tactic(auto, unfolding(crate::specs::Entries::entry_fits))]
    fn fits(self, n: u8) -> bool {
        self.live <= 1
            && ids::is_id(n, self.child)
            && ids::is_stamp(n, self.stamp)
            && self.name.is_name()
    }

    ghost inside = { Prim.search rules };

    ghost range = { entry_range_law };
}
