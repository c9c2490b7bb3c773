// The options that calls take by value.
#![tactic(auto)]

ghost use Rattle.std.specs.Prelude.{◌≡◌};
ghost use Rattle.options.specs.Units.{unit_rank};

// What becomes of a field that is out of its range.
#[derive(Clone, Copy, Debug, PartialEq, Eq)]
pub enum Overflow {
    Constrain,
    Reject,
}

// A unit of a duration or a rounding, the largest first.
#[derive(Clone, Copy, Debug, PartialEq, Eq, PartialOrd, Ord)]
pub enum Unit {
    Year,
    Month,
    Week,
    Day,
    Hour,
    Minute,
    Second,
    Millisecond,
    Microsecond,
    Nanosecond,
}

impl Unit {
    // A unit's place from the largest on.
    pub fn rank(self) -> u8
        ensures { result ≡ unit_rank self }
    {
        self as u8
    }
}
