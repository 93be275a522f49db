// The calls. Each takes any table, message and number, judges them itself, gives the lowest number
// that holds, and else does what document 01 says: its contract is equations with the call of
// that name in `document`, for the answer's number and value and for every byte lent. None has a
// `requires`.
#![tactic(auto)]

pub mod acknowledged;
mod judged;
pub mod list;
pub mod pending;
pub mod push;
pub mod receive;
pub mod start;
pub mod tree;
