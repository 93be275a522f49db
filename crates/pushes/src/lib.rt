// Pushes: writing the push of a held replica, and judging and reading one that came in, record by
// record: a whole record by a reader that stands where it does, its mark, zeros and single fields in place.
//
// What a table does with a push is not known here. Writing asks for a sound table and a held replica;
// judging takes any bytes.
#![tactic(auto)]

pub mod judge;
pub mod read;
pub mod reader;
pub mod write;
