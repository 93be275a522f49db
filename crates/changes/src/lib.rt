// The calls that change the tree of one node, on a table that is sound: refusal by refusal, then the
// steps on a copy, which comes back as the last act, so that a refusal changes no byte.
#![tactic(auto)]

pub mod create;
pub mod finish;
pub mod kind;
pub mod look;
pub mod remove;
pub mod rename;
pub mod spread;
pub mod unlink;

// No clock is past 2^40-1, and no call is made later.
pub const LATEST: u64 = (1 << 40) - 1;
