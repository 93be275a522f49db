// Soundness is kept, as laws: every call that is accepted leaves a sound table sound, whatever it was given. Kept has the
// calls but receive, ReceiveSound has receive. All of it stands in specs/, and there is no code here but one function,
// since a crate has one.
#![tactic(auto)]

ghost use Rattle.std.specs.Prelude.{◌≡◌};
ghost use Rattle.document.specs.Tables.{entry_slots};

// The entry slots of a table.
pub fn entry_slots() -> usize
    ensures { result ≡ entry_slots }
{
    256
}
