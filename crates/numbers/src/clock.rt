// The clock of a table by value. A tick hands back the advanced clock and the stamp that it gives;
// that a clock is past its end is seen afterwards, so a tick has room above 2^40-1.
ghost use Rattle.std.specs.Prelude.{◌≡◌, ◌<◌, ◌^◌};
ghost use Rattle.numbers.specs.Clocks.{ticked};

#[derive(Clone, Copy, PartialEq, Eq)]
pub struct Clock {
    pub highest: u64,
}

#[derive(Clone, Copy, PartialEq, Eq)]
pub struct Ticked {
    pub clock: Clock,
    pub stamp: u64,
}

impl Clock {
    // The larger of now and the highest seen plus one, and the node's stamp with it.
    pub fn tick(self, now: u64, node: u8) -> Ticked
        requires { (self.highest < 2 ^ 48) × (now < 2 ^ 48) }
        ensures { result ≡ ticked self now node }
    {
        let highest = now.max(self.highest + 1);
        Ticked {
            clock: Clock { highest },
            stamp: highest * 256 + u64::from(node),
        }
    }
}
