// Document 01's refusals.
ghost use Rattle.std.specs.Prelude.{◌≡◌, Some};
ghost use Rattle.answers.specs.Refusals.{code, words};

use std::error::Error;
use std::fmt;

// In the order of their numbers, which start at 1.
#[derive(Clone, Copy, Debug, Drop, PartialEq, Eq)]
pub enum Refusal {
    NotSound = 1,
    OutOfRange,
    TooShort,
    Malformed,
    NotAddressed,
    NotHeld,
    Dead,
    WrongKind,
    NameTaken,
    NotEmpty,
    TooDeep,
    NoPlace,
    AtOdds,
    NotPending,
    NotTold,
    NoRoom,
    PastEnd,
}

// A refusal's number.
impl From<Refusal> for u32 {
    ghost from_gives = { λ refusal n. n ≡ code refusal };

    fn from(refusal: Refusal) -> u32 {
        refusal as u32
    }
}

// Document 01's words.
impl fmt::Display for Refusal {
    ghost output = { λ refusal. Some (words refusal) };

    fn fmt<W: fmt::Write>(&self, f: &mut fmt::Formatter<W>) -> fmt::Result {
        match self {
            Refusal::NotSound => f.write_str("table not sound"),
            Refusal::OutOfRange => f.write_str(
                "node, N, set, kind or name outside its range; now above 2^40-1; push to oneself",
            ),
            Refusal::TooShort => f.write_str("output buffer too short"),
            Refusal::Malformed => f.write_str("message malformed"),
            Refusal::NotAddressed => f.write_str("not addressed to this node"),
            Refusal::NotHeld => f.write_str("an id named isn't held"),
            Refusal::Dead => f.write_str("it is dead"),
            Refusal::WrongKind => f.write_str("wrong kind, or removal of the root"),
            Refusal::NameTaken => f.write_str("a live entry there has that name"),
            Refusal::NotEmpty => f.write_str("a live entry, or a held live child"),
            Refusal::TooDeep => f.write_str("the directory is 16 deep"),
            Refusal::NoPlace => f.write_str("the place directory isn't held"),
            Refusal::AtOdds => f.write_str("message against table"),
            Refusal::NotPending => f.write_str("that node isn't pending"),
            Refusal::NotTold => f.write_str("another version, or that node not pending"),
            Refusal::NoRoom => f.write_str(
                "needs more than 64 replicas, 256 entries, or 32 in a directory",
            ),
            Refusal::PastEnd => f.write_str("needs a clock, version or count past its end"),
        }
    }
}

impl Error for Refusal {}
