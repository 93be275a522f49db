// What every call but `start` judges first: whether the bytes are a sound table.
ghost use Rattle.std.specs.Prelude.{◌≡◌, true, false, MatchOption, MatchResult};
ghost use Rattle.std.specs.Borrow.{sem};
ghost use Rattle.document.specs.Sound.{sound_bytes};
ghost use Rattle.answers.specs.declared.refusal.Refusal.TheVariants.{NotSound};
ghost use Rattle.service.specs.Lending.{LendsTable};

use answers::Refusal;
use slots::Table;

// The bytes as a table, if they are a sound one.
pub fn judged(table: &[u8]) -> Result<&Table, Refusal>
    ensures { MatchResult result (λ t. (t.now ≡ table.now) × (sound_bytes table.now ≡ true))
        (λ e. (e ≡ NotSound) × (sound_bytes table.now ≡ false)) }
{
    if !table::is_sound(table) {
        return Err(Refusal::NotSound);
    }
    table.as_array().ok_or(Refusal::NotSound)
}

// The bytes as a table that is to be changed, if they are a sound one.
// An `Option`, as `as_mut_array` hands it on: `writes_back` isn't proved of a `Result` that is made of it.
pub fn sound(table: &mut [u8]) -> Option<&mut Table>
    ensures* writes_back { sem 𝓛 (LendsTable table.entry result) }
    ensures cases { MatchOption result (sound_bytes table.old ≡ false)
        (λ t. (t.now ≡ table.old) × (sound_bytes table.old ≡ true)) }
{
    if !table::is_sound(table) {
        return None;
    }
    table.as_mut_array()
}
