// What a table is made of: its header, replica slots and entry slots. Structs by value, read, written
// and judged at an offset, as the records are. Where the slots stand in a table is not known here.
#![tactic(auto)]

pub mod listed;
pub mod replica;
pub mod table_header;

pub use listed::Listed;
pub use replica::Replica;
pub use table_header::TableHeader;

// The bytes of a table: header, 64 replica slots, 256 entry slots.
pub const TABLE_SIZE: usize = 13344;

pub type Table = [u8; TABLE_SIZE];
