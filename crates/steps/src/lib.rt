// The steps of document 01 on a working copy of a table: a head is put, an entry joined, a state sets
// its entries, versions are raised. Which call asks is not known here.
#![tactic(auto)]

pub mod join;
pub mod message;
pub mod put;
pub mod settle;
pub mod state;

// There is no slot for one more: the copy is then of no use.
#[derive(Clone, Copy, Debug, PartialEq, Eq)]
pub struct NoRoom;

// A version is past its end: the copy is then of no use.
#[derive(Clone, Copy, Debug, PartialEq, Eq)]
pub struct PastEnd;
