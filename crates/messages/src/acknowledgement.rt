// The acknowledgement: who received which version of which file, and from whom.
ghost use Rattle.std.specs.Prelude.{⊤};
ghost use Rattle.std.proofs.Common.{rules};
ghost use Rattle.codec.specs.Laws.{of_chunk};
ghost use Rattle.messages.specs.Acknowledgements.{ack_of, ack_at, ack_bytes, ack_mark, ack_fits, ack_in_range, length_ack_bytes, ack_range};

use codec::{Record, Stored};
use numbers::{ids, nodes};

#[derive(Clone, Copy, PartialEq, Eq)]
pub struct Acknowledgement {
    pub sender: u8,
    pub addressee: u8,
    pub version: u32,
    pub id: u32,
}

impl Stored for Acknowledgement {
    const SIZE: usize = 16;

    ghost SIZE = { 16 };

    ghost at = { ack_at };

    ghost bytes = { ack_bytes };

    #[tactic(auto, using(crate::specs::Acknowledgements::ack_fields))]
    fn read(t: &[u8], o: usize) -> Acknowledgement {
        Acknowledgement {
            sender: u8::read(t, o + 2),
            addressee: u8::read(t, o + 3),
            version: u32::read(t, o + 4),
            id: u32::read(t, o + 8),
        }
    }

    #[tactic(auto, using(crate::specs::Acknowledgements::ack_stores))]
    fn write(self, t: &mut [u8], o: usize) {
        let [first, second] = Acknowledgement::MARK;
        codec::put_bytes(t, o, [first, second, self.sender, self.addressee]);
        self.version.write(t, o + 4);
        self.id.write(t, o + 8);
        codec::put_bytes(t, o + 12, [0; 4]);
    }

    ghost sized = { length_ack_bytes };

    ghost within = { of_chunk ack_of 16 };
}

impl Record for Acknowledgement {
    const MARK: [u8; 2] = [0x41, 0x4B];

    ghost MARK = { ack_mark };

    const ZEROS_AT: usize = 12;

    ghost ZEROS_AT = { 12 };

    const ZEROS: usize = 4;

    ghost ZEROS = { 4 };

    type Nodes = u8;

    ghost can_judge = { λ _. ⊤ };

    ghost fits = { ack_fits };

    ghost in_range = { ack_in_range };

    #[tactic(auto, unfolding(crate::specs::Acknowledgements::ack_fits))]
    fn fits(self, n: u8) -> bool {
        nodes::is_node(n, u64::from(self.sender))
            && nodes::is_node(n, u64::from(self.addressee))
            && ids::is_version(self.version)
            && ids::is_id(n, self.id)
    }

    ghost inside = { Prim.search rules };

    ghost range = { ack_range };
}
