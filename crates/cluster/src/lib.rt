// Demand 3: the cluster as definitions, and what holds whenever no node has anything pending. All of it stands in specs/
// and proofs/; there is no code here but one function, since a crate has one.
//
// To believe: Cluster. The theorem: Theorem (demand_3), with Issued (which states are ever issued), Quiet and Runs (the
// first run of document 01 as an instance). The invariants and why they suffice: Ranks, Sets, Invariants, Facts, Final.
// One accepted call keeps them, once for every call: Adds, Directory, Settle, Keeps. What each call shows of its own
// table: Accepted, Issue, Users, Net, Receive. From bytes to tables and back: Reached, Makes, Begun; Drawn. What falls
// with an edit of Cluster stands in proofs/: Theorem, Issued, Quiet, Runs, Makes, Begun, Drawn.
#![tactic(auto)]

ghost use Rattle.std.specs.Prelude.{◌≡◌};

// The most nodes that a cluster has.
pub fn most_nodes() -> usize
    ensures { result ≡ 8 }
{
    8
}
