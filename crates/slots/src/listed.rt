// An entry slot: an entry, and the directory that it is listed in.
ghost use Rattle.std.specs.Prelude.{◌≡◌, ◌+◌, ◌≤◌, length};
ghost use Rattle.codec.specs.Bytes.{chunk};
ghost use Rattle.codec.specs.Laws.{of_chunk};
ghost use Rattle.slots.specs.Listings.{listed_of, listed_at, listed_bytes, listed_in_range, length_listed_bytes};

use codec::{Record, Stored};
use numbers::ids;
use records::Entry;

#[derive(Clone, Copy, PartialEq, Eq)]
pub struct Listed {
    pub entry: Entry,
    pub directory: u32,
}

impl Listed {
    // Whether the forty bytes from o on are an entry and its directory in their range.
    #[tactic(auto, using(crate::specs::Listings::listed_range))]
    pub fn in_range(t: &[u8], o: usize, n: u8) -> bool
        requires { o + 40 ≤ length t.now }
        ensures { result ≡ listed_in_range n (chunk t.now o 40) }
    {
        Entry::in_range(t, o, n)
            && ids::is_id(n, u32::read(t, o + Entry::SIZE))
            && codec::is_zero(t, o + 36, 4)
    }
}

impl Stored for Listed {
    const SIZE: usize = 40;

    ghost SIZE = { 40 };

    ghost at = { listed_at };

    ghost bytes = { listed_bytes };

    #[tactic(auto, using(crate::specs::Listings::listed_fields))]
    fn read(t: &[u8], o: usize) -> Listed {
        Listed {
            entry: Entry::read(t, o),
            directory: u32::read(t, o + Entry::SIZE),
        }
    }

    #[tactic(auto, using(crate::specs::Listings::listed_stores))]
    fn write(self, t: &mut [u8], o: usize) {
        self.entry.write(t, o);
        self.directory.write(t, o + Entry::SIZE);
        codec::put_bytes(t, o + 36, [0; 4]);
    }

    ghost sized = { length_listed_bytes };

    ghost within = { of_chunk listed_of 40 };
}
