// The sixteen bytes that a push starts with: who tells whom which version, and how many records follow.
ghost use Rattle.std.specs.Prelude.{⊤};
ghost use Rattle.std.proofs.Common.{rules};
ghost use Rattle.codec.specs.Laws.{of_chunk};
ghost use Rattle.messages.specs.PushHeaders.{push_of, push_at, push_bytes, push_mark, push_fits, push_in_range, length_push_bytes, push_range};

use codec::{Record, Stored};
use numbers::{ids, nodes};

#[derive(Clone, Copy, PartialEq, Eq)]
pub struct PushHeader {
    pub sender: u8,
    pub addressee: u8,
    pub version: u32,
    pub heads: u8,
    pub entries: u8,
}

impl Stored for PushHeader {
    const SIZE: usize = 16;

    ghost SIZE = { 16 };

    ghost at = { push_at };

    ghost bytes = { push_bytes };

    #[tactic(auto, using(crate::specs::PushHeaders::push_fields))]
    fn read(t: &[u8], o: usize) -> PushHeader {
        PushHeader {
            sender: u8::read(t, o + 2),
            addressee: u8::read(t, o + 3),
            version: u32::read(t, o + 4),
            heads: u8::read(t, o + 8),
            entries: u8::read(t, o + 9),
        }
    }

    #[tactic(auto, using(crate::specs::PushHeaders::push_stores))]
    fn write(self, t: &mut [u8], o: usize) {
        let [first, second] = PushHeader::MARK;
        codec::put_bytes(t, o, [first, second, self.sender, self.addressee]);
        self.version.write(t, o + 4);
        codec::put_bytes(t, o + 8, [self.heads, self.entries, 0, 0]);
        codec::put_bytes(t, o + 12, [0; 4]);
    }

    ghost sized = { length_push_bytes };

    ghost within = { of_chunk push_of 16 };
}

impl Record for PushHeader {
    const MARK: [u8; 2] = [0x50, 0x55];

    ghost MARK = { push_mark };

    const ZEROS_AT: usize = 10;

    ghost ZEROS_AT = { 10 };

    const ZEROS: usize = 6;

    ghost ZEROS = { 6 };

    type Nodes = u8;

    ghost can_judge = { λ _. ⊤ };

    ghost fits = { push_fits };

    ghost in_range = { push_in_range };

    #[tactic(auto, unfolding(crate::specs::PushHeaders::push_fits))]
    fn fits(self, n: u8) -> bool {
        nodes::is_node(n, u64::from(self.sender))
            && nodes::is_node(n, u64::from(self.addressee))
            && ids::is_version(self.version)
            && (1..=16).contains(&self.heads)
            && self.entries <= 32
    }

    ghost inside = { Prim.search rules };

    ghost range = { push_range };
}
