// The table in the lent bytes: how many slots are used, what stands in them, and the judgement that
// every call makes first, "this table is sound". Slots are read in place; no table is copied.
//
// The functions of `find` ask that the slice is as long as a table and that the slots they are given are
// slots; the judgement itself asks nothing.
#![tactic(auto)]

mod counts;
pub mod find;
mod hints;
mod range;
mod rules;
mod slot;
pub mod used;

ghost use Rattle.std.specs.Prelude.{◌≡◌};
ghost use Rattle.document.specs.Sound.{sound_bytes};

use slots::Table;
use used::Used;

// Whether the bytes are a sound table.
pub fn is_sound(t: &[u8]) -> bool
    ensures { result ≡ sound_bytes t.now }
{
    let Ok(table) = <&Table>::try_from(t) else {
        return false;
    };
    range::in_range(table) && rules::keeps(&Used::of(table))
}
