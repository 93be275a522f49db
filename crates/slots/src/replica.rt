// A replica slot: a head, and what the table alone knows of it.
ghost use Rattle.std.specs.Prelude.{◌≡◌, ◌+◌, ◌≤◌, length};
ghost use Rattle.codec.specs.Bytes.{chunk};
ghost use Rattle.codec.specs.Laws.{of_chunk};
ghost use Rattle.slots.specs.Replicas.{replica_of, replica_at, replica_bytes, replica_in_range, length_replica_bytes};

use codec::{Record, Stored};
use numbers::{ids, nodes};
use records::Head;

#[derive(Clone, Copy, PartialEq, Eq)]
pub struct Replica {
    pub head: Head,
    pub version: u32,
    pub pending: u8,
}

impl Replica {
    // Whether the forty-eight bytes from o on are a replica in its range.
    #[tactic(auto, using(crate::specs::Replicas::replica_range))]
    pub fn in_range(t: &[u8], o: usize, n: u8) -> bool
        requires { (o + 48 ≤ length t.now) × (n ≤ 8) }
        ensures { result ≡ replica_in_range n (chunk t.now o 48) }
    {
        Head::in_range(t, o, n)
            && ids::is_version(u32::read(t, o + Head::SIZE))
            && nodes::is_set(n, u64::from(u8::read(t, o + 44)))
            && codec::is_zero(t, o + 45, 3)
    }
}

impl Stored for Replica {
    const SIZE: usize = 48;

    ghost SIZE = { 48 };

    ghost at = { replica_at };

    ghost bytes = { replica_bytes };

    #[tactic(auto, using(crate::specs::Replicas::replica_fields))]
    fn read(t: &[u8], o: usize) -> Replica {
        Replica {
            head: Head::read(t, o),
            version: u32::read(t, o + Head::SIZE),
            pending: u8::read(t, o + 44),
        }
    }

    #[tactic(auto, using(crate::specs::Replicas::replica_stores))]
    fn write(self, t: &mut [u8], o: usize) {
        self.head.write(t, o);
        self.version.write(t, o + Head::SIZE);
        codec::put_bytes(t, o + 44, [self.pending, 0, 0, 0]);
    }

    ghost sized = { length_replica_bytes };

    ghost within = { of_chunk replica_of 48 };
}
