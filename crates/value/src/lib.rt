// The number of a parameter or of a result. Arithmetic looks inside; whoever else has a value hands it on, or asks one of the
// functions here.
#![tactic(auto)]

ghost use Rattle.std.specs.Prelude.{◌≡◌, leb};
ghost use Rattle.value.specs.Number.{number_of};

#[derive(Clone, Copy, PartialEq, Eq)]
pub struct Value {
    pub low: u64,
}

impl Value {
    // The value of a number of 64 bits.
    pub fn of(n: u64) -> Value
        ensures { number_of result ≡ n }
    {
        Value { low: n }
    }

    // The lowest 64 bits of the number, which today is all of it.
    pub fn low(self) -> u64
        ensures { result ≡ number_of self }
    {
        self.low
    }

    // Whether the number is at most n.
    pub fn at_most(self, n: u64) -> bool
        ensures { result ≡ leb (number_of self) n }
    {
        self.low <= n
    }
}
