// What a call answers: the value of what was done, or a refusal of document 01. The calls and the crates
// that they are made of share it.
#![tactic(auto)]

pub mod refusal;

ghost use Rattle.std.specs.Prelude.{◌≡◌, ◌<◌};
ghost use Rattle.answers.specs.Answers.{number, value, packed_answer};

pub use refusal::Refusal;

// The value of what was done; it is 0 where a call gives none.
pub type Answer = Result<u32, Refusal>;

// The number that a call answers: 0 is done, any other the refusal of that number.
pub fn number(answer: Answer) -> u32
    ensures { result ≡ number answer }
{
    match answer {
        Ok(_) => 0,
        Err(refusal) => u32::from(refusal),
    }
}

// The value that a call answers; 0 goes with a refusal.
pub fn value(answer: Answer) -> u32
    ensures { result ≡ value answer }
{
    answer.unwrap_or(0)
}

// Number and value in one, as an exported call answers; the value takes the lower half.
pub fn pack(answer: Answer) -> u64
    ensures { (result ≡ packed_answer answer) × (value answer < 4294967296) }
{
    u64::from(number(answer)) * 4294967296 + u64::from(value(answer))
}
