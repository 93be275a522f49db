// Numbers of document 01: nodes and node sets, ids, stamps and versions, and the clock. Each is a
// machine number. Most functions take any value; those on sets of N nodes ask that N is at most 8,
// `id_of` and `tick` that the result fits.
#![tactic(auto)]

pub mod clock;
pub mod ids;
pub mod nodes;

ghost use Rattle.std.specs.Prelude.{◌≡◌};
ghost use Rattle.numbers.specs.Nodes.{is_within};

pub use clock::{Clock, Ticked};

// Whether x is low to high.
pub fn is_within(low: u64, x: u64, high: u64) -> bool
    ensures { result ≡ is_within low x high }
{
    (low..=high).contains(&x)
}
