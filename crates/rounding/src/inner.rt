// The rounder on sizes: a quotient and what it leaves, the choice between the two multiples, and the size that comes out.
ghost use Rattle.std.specs.Prelude.{◌≡◌, cond, ◌+◌, ◌-◌, ◌*◌, ◌/◌, ◌%◌, ◌≤◌, ◌<◌, ◌^◌, eqb, leb, ltb, pos, neg_ℤ, ◌<ℤ◌, SomeIff};
ghost use Rattle.refusal.specs.Refusals.{answer_of};
ghost use Rattle.rounding.specs.Proposal.{get_unsigned_rounding_mode};
ghost use Rattle.rounding.specs.Paper.{rounded};
ghost use Rattle.rounding.specs.Inner.{mode_row, takes_up, rounded_size, mirrored, by_size};

use crate::{RoundingMode, UnsignedRoundingMode};
use refusal::Refusal;
use whole::inner::negated;

// The rule for a size between two multiples, by mode and sign: the first column is for positive numbers, the second for negative ones.
// A table, which the users asked for.
const RULES: [[UnsignedRoundingMode; 2]; 9] = [
    // ceil
    [UnsignedRoundingMode::Infinity, UnsignedRoundingMode::Zero],
    // floor
    [UnsignedRoundingMode::Zero, UnsignedRoundingMode::Infinity],
    // expand
    [
        UnsignedRoundingMode::Infinity,
        UnsignedRoundingMode::Infinity,
    ],
    // trunc
    [UnsignedRoundingMode::Zero, UnsignedRoundingMode::Zero],
    // half-ceil
    [
        UnsignedRoundingMode::HalfInfinity,
        UnsignedRoundingMode::HalfZero,
    ],
    // half-floor
    [
        UnsignedRoundingMode::HalfZero,
        UnsignedRoundingMode::HalfInfinity,
    ],
    // half-expand
    [
        UnsignedRoundingMode::HalfInfinity,
        UnsignedRoundingMode::HalfInfinity,
    ],
    // half-trunc
    [
        UnsignedRoundingMode::HalfZero,
        UnsignedRoundingMode::HalfZero,
    ],
    // half-even
    [
        UnsignedRoundingMode::HalfEven,
        UnsignedRoundingMode::HalfEven,
    ],
];

// The largest size of an answer above and below zero.
pub const MOST_ABOVE: u64 = 0x7fff_ffff_ffff_ffff;

pub const MOST_BELOW: u64 = 0x8000_0000_0000_0000;

impl RoundingMode {
    // The row of a mode in the table.
    fn row(self) -> usize
        ensures { (result ≡ mode_row self) × (result < 9) }
    {
        self as usize
    }
}

// The rule of a mode for numbers of a sign.
pub fn get_unsigned_round_mode(mode: RoundingMode, negative: bool) -> UnsignedRoundingMode
    ensures { result ≡ get_unsigned_rounding_mode mode negative }
{
    RULES[mode.row()][usize::from(negative)]
}

// The rule that takes the other of two multiples, seen from the other side of zero.
pub fn mirrored(rule: UnsignedRoundingMode) -> UnsignedRoundingMode
    ensures { result ≡ mirrored rule }
{
    match rule {
        UnsignedRoundingMode::Infinity => UnsignedRoundingMode::Zero,
        UnsignedRoundingMode::Zero => UnsignedRoundingMode::Infinity,
        UnsignedRoundingMode::HalfInfinity => UnsignedRoundingMode::HalfZero,
        UnsignedRoundingMode::HalfZero => UnsignedRoundingMode::HalfInfinity,
        UnsignedRoundingMode::HalfEven => UnsignedRoundingMode::HalfEven,
    }
}

// Whether the upper of two multiples is taken, by the distance down to the lower one and the distance to the one above. The tie test
// compares the two distances, so nothing is doubled. A tie goes to the even multiple, so up where the lower one is odd.
#[tactic(auto, unfolding(crate::specs::Inner::takes_up))]
pub fn takes_up(rule: UnsignedRoundingMode, odd: bool, down: u64, above: u64) -> bool
    ensures { result ≡ takes_up rule odd down above }
{
    if down == 0 {
        return false;
    }
    match rule {
        UnsignedRoundingMode::Infinity => true,
        UnsignedRoundingMode::Zero => false,
        UnsignedRoundingMode::HalfInfinity => above <= down,
        UnsignedRoundingMode::HalfZero => above < down,
        UnsignedRoundingMode::HalfEven => past_half_or_odd(odd, down, above),
    }
}

// The same for half-even. With `odd` as a guard in the match above this became a branch, which a processor mispredicts on random numbers.
fn past_half_or_odd(odd: bool, down: u64, above: u64) -> bool
    ensures { result ≡ cond odd (leb above down) (ltb above down) }
{
    if odd { above <= down } else { above < down }
}

// The lower multiple or the one a step above it, where it is at most `most`.
pub fn multiple(lower: u64, step: u64, up: bool, most: u64) -> Option<u64>
    requires { lower ≤ most }
    ensures { SomeIff result (lower + cond up step 0 ≤ most) (lower + cond up step 0) }
{
    if !up {
        return Some(lower);
    }
    if most - lower < step {
        None
    } else {
        Some(lower + step)
    }
}

// The largest multiple of a step that a size reaches, and whether the rule takes the next one. One division; the rest is what it leaves.
fn lower_multiple(size: u64, step: u64, rule: UnsignedRoundingMode) -> (u64, bool)
    requires { 0 < step }
    ensures lower { (result.0 ≡ size / step * step) × (result.0 ≤ size) }
    ensures up { result.1 ≡ takes_up rule (eqb (size / step % 2) 1) (size - size / step * step) (step - (size - size / step * step)) }
{
    let q = size / step;
    let lower = q * step;
    let left = size - lower;
    (lower, takes_up(rule, q % 2 == 1, left, step - left))
}

// A size rounded to a step by a rule, where it is at most `most`.
pub fn round_size(size: u64, step: u64, rule: UnsignedRoundingMode, most: u64) -> Option<u64>
    requires { (0 < step) × (size ≤ most) }
    ensures { SomeIff result (rounded_size size step rule ≤ most) (rounded_size size step rule) }
{
    let (lower, up) = lower_multiple(size, step, rule);
    multiple(lower, step, up, most)
}

// The same where both are small enough that the result is a number of 64 bits. It stands beside the other, so that rounding a time does
// not pay for a check that cannot fail.
pub fn round_small(size: u64, step: u64, rule: UnsignedRoundingMode) -> u64
    requires { (0 < step) × (size + step < 2 ^ 63) }
    ensures { (result ≡ rounded_size size step rule) × (result ≤ size + step) }
{
    let (lower, up) = lower_multiple(size, step, rule);
    if up { lower + step } else { lower }
}

// The size of a negative number.
fn size_of_negative(x: i64) -> u64
    requires { x <ℤ pos 0 }
    ensures { (x ≡ neg_ℤ (pos result)) × ((1 ≤ result) × (result ≤ 2 ^ 63)) }
{
    x.unsigned_abs()
}

// A number rounded by its size: a step of 0 is 6, an exact result that 64 bits with a sign do not hold is 7.
pub fn round_by_size(number: i64, step: u64, rule: UnsignedRoundingMode) -> Result<i64, Refusal>
    ensures { answer_of result ≡ rounded step (by_size number step rule) }
{
    if step == 0 {
        return Err(Refusal::Increment);
    }
    if number < 0 {
        let below = size_of_negative(number);
        let size = round_size(below, step, rule, MOST_BELOW).ok_or(Refusal::Bound)?;
        Ok(negated(size))
    } else {
        let size = round_size(number.unsigned_abs(), step, rule, MOST_ABOVE).ok_or(Refusal::Bound)?;
        Ok(size as i64)
    }
}
