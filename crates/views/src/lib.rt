// What stands in a table after each step of document 01, and what a sound table is, as laws: all of it stands in specs/.
// There is no code here but one function, since a crate has one.
#![tactic(auto)]

ghost use Rattle.std.specs.Prelude.{◌≡◌};
ghost use Rattle.document.specs.Tables.{replica_slots};

// The replica slots of a table.
pub fn replica_slots() -> usize
    ensures { result ≡ replica_slots }
{
    64
}
