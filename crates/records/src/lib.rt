// Heads and entries: records of document 01, each a struct by value, read, written and judged at an
// offset of the bytes that hold it, as `codec::Stored` and `codec::Record` say. Size and mark are
// constants of the type.
//
// Of the tables and messages that are made of them, nothing is known here. A function asks that the
// record lies within the slice, and a judgement of a head that N is at most 8; every answer is one
// equation with a definition of specs/, where the layout stands beside document 01's words.
#![tactic(auto)]

pub mod entry;
pub mod head;

pub use entry::Entry;
pub use head::Head;
