// The thirty-two bytes that a table starts with: whose it is, and what its node gives next.
ghost use Rattle.std.specs.Prelude.{⊤};
ghost use Rattle.std.proofs.Common.{rules};
ghost use Rattle.codec.specs.Laws.{of_chunk};
ghost use Rattle.slots.specs.TableHeaders.{table_header_of, table_header_at, table_header_bytes, table_mark, table_header_fits, table_header_in_range, length_table_header_bytes, table_range};

use codec::{Record, Stored};
use numbers::nodes;

#[derive(Clone, Copy, PartialEq, Eq)]
pub struct TableHeader {
    pub own: u8,
    pub nodes: u8,
    pub next: u32,
    pub highest: u64,
}

impl Stored for TableHeader {
    const SIZE: usize = 32;

    ghost SIZE = { 32 };

    ghost at = { table_header_at };

    ghost bytes = { table_header_bytes };

    #[tactic(auto, using(crate::specs::TableHeaders::table_fields))]
    fn read(t: &[u8], o: usize) -> TableHeader {
        TableHeader {
            own: u8::read(t, o + 2),
            nodes: u8::read(t, o + 3),
            next: u32::read(t, o + 4),
            highest: u64::read(t, o + 8),
        }
    }

    #[tactic(auto, using(crate::specs::TableHeaders::table_stores))]
    fn write(self, t: &mut [u8], o: usize) {
        let [first, second] = TableHeader::MARK;
        codec::put_bytes(t, o, [first, second, self.own, self.nodes]);
        self.next.write(t, o + 4);
        self.highest.write(t, o + 8);
        codec::put_bytes(t, o + 16, [0; 16]);
    }

    ghost sized = { length_table_header_bytes };

    ghost within = { of_chunk table_header_of 32 };
}

impl Record for TableHeader {
    const MARK: [u8; 2] = [0x4E, 0x54];

    ghost MARK = { table_mark };

    const ZEROS_AT: usize = 16;

    ghost ZEROS_AT = { 16 };

    const ZEROS: usize = 16;

    ghost ZEROS = { 16 };

    // It holds N itself.
    type Nodes = ();

    ghost can_judge = { λ _. ⊤ };

    ghost fits = { λ _. table_header_fits };

    ghost in_range = { λ _. table_header_in_range };

    #[tactic(auto, unfolding(crate::specs::TableHeaders::table_header_fits))]
    fn fits(self, _: ()) -> bool {
        nodes::is_size(u64::from(self.nodes))
            && nodes::is_node(self.nodes, u64::from(self.own))
            && (1..=16777216).contains(&self.next)
            && self.highest < 1099511627776
    }

    ghost inside = { Prim.search rules };

    ghost range = { λ _. table_range };
}
