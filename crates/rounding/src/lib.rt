// Rounding of a number to a step, exactly.
#![tactic(auto)]

pub mod inner;

ghost use Rattle.std.specs.Prelude.{◌≡◌};
ghost use Rattle.refusal.specs.Refusals.{answer_of};
ghost use Rattle.rounding.specs.Paper.{round_number, round_number_as_if_positive};

use refusal::Refusal;

#[derive(Clone, Copy, Debug, PartialEq, Eq)]
pub enum RoundingMode {
    Ceil,
    Floor,
    Expand,
    Trunc,
    HalfCeil,
    HalfFloor,
    HalfExpand,
    HalfTrunc,
    HalfEven,
}

// What becomes of a size between two multiples. Infinity is away from zero.
#[derive(Clone, Copy, Debug, PartialEq, Eq)]
pub enum UnsignedRoundingMode {
    Infinity,
    Zero,
    HalfInfinity,
    HalfZero,
    HalfEven,
}

// A number rounded to a multiple of the step: by its size, with the rule of its sign. A step of 0 is 6, an exact result that 64 bits
// with a sign do not hold is 7.
pub fn round(number: i64, step: u64, mode: RoundingMode) -> Result<i64, Refusal>
    ensures { answer_of result ≡ round_number number step mode }
{
    let rule = inner::get_unsigned_round_mode(mode, number < 0);
    inner::round_by_size(number, step, rule)
}

// The same with one rule for both signs, that of positive numbers: below zero too the two choices are the floor and the next multiple.
// The floor of a negative number has the larger size, so by sizes the rule is mirrored there.
pub fn round_as_if_positive(number: i64, step: u64, mode: RoundingMode) -> Result<i64, Refusal>
    ensures { answer_of result ≡ round_number_as_if_positive number step mode }
{
    let rule = inner::get_unsigned_round_mode(mode, false);
    if number < 0 {
        inner::round_by_size(number, step, inner::mirrored(rule))
    } else {
        inner::round_by_size(number, step, rule)
    }
}
