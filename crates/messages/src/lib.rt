// What stands in a message beside heads and entries: the acknowledgement, and the header of a push.
// Structs by value, read, written and judged at an offset, as the records are.
#![tactic(auto)]

pub mod acknowledgement;
pub mod push_header;

pub use acknowledgement::Acknowledgement;
pub use push_header::PushHeader;
