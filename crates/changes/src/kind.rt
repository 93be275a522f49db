// What can be created.
ghost use Rattle.std.specs.Prelude.{◌≡◌, false, Some, MatchResult};
ghost use Rattle.numbers.specs.Nodes.{is_within};
ghost use Rattle.answers.specs.declared.refusal.Refusal.TheVariants.{OutOfRange};
ghost use Rattle.changes.specs.Kinds.{kind_byte, kind_word};

use answers::Refusal;
use std::fmt;

// A replica's kind, by its number.
#[derive(Clone, Copy, PartialEq, Eq)]
pub enum Kind {
    File = 1,
    Directory,
}

// The kind that a caller's number names.
impl TryFrom<u64> for Kind {
    type Error = Refusal;

    ghost try_from_gives = { λ number r. MatchResult r (λ kind. kind_byte kind ≡ number)
        (λ e. (e ≡ OutOfRange) × (is_within 1 number 2 ≡ false)) };

    fn try_from(number: u64) -> Result<Kind, Refusal> {
        match number {
            1 => Ok(Kind::File),
            2 => Ok(Kind::Directory),
            _ => Err(Refusal::OutOfRange),
        }
    }
}

// The byte that a head has for it.
impl From<Kind> for u8 {
    ghost from_gives = { λ kind byte. byte ≡ kind_byte kind };

    fn from(kind: Kind) -> u8 {
        kind as u8
    }
}

impl fmt::Display for Kind {
    ghost output = { λ kind. Some (kind_word kind) };

    fn fmt<W: fmt::Write>(&self, f: &mut fmt::Formatter<W>) -> fmt::Result {
        match self {
            Kind::File => f.write_str("file"),
            Kind::Directory => f.write_str("directory"),
        }
    }
}
