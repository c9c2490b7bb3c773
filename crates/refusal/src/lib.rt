// Why a call refuses. Each reason has the number that is reported; an answer carries 0.
#![tactic(auto)]

ghost use Rattle.std.specs.Prelude.{◌≡◌, Some};
ghost use Rattle.refusal.specs.Refusals.{refusal_number, refusal_words};

use std::error::Error;
use std::fmt;

#[derive(Clone, Copy, Debug, PartialEq, Eq)]
pub enum Refusal {
    // A field names no date or no time.
    Field = 1,
    // The date is too far from the epoch.
    DateLimits = 2,
    // The date with its time is too far from the epoch.
    DateTimeLimits = 3,
    // The count of days leaves the balanced range.
    DayCount = 4,
    // This call does not work in that unit.
    Unit = 5,
    // The unit has no such increment, or the step of the number rounder is 0.
    Increment = 6,
    // A plain number is outside its bound: a field of a time to be balanced, a part of an instant, the result of the number rounder.
    Bound = 7,
    // The parts make no duration.
    Duration = 8,
    // The text is of another form.
    Form = 9,
    // The lent slice is too short.
    Room = 10,
}

impl Refusal {
    // The number that is reported.
    pub fn number(self) -> u8
        ensures { result ≡ refusal_number self }
    {
        self as u8
    }
}

impl fmt::Display for Refusal {
    ghost output = { λ refusal. Some (refusal_words refusal) };

    ghost styled_output = { λ refusal spec. Some (refusal_words refusal) };

    fn fmt<W: fmt::Write>(&self, f: &mut fmt::Formatter<W>) -> fmt::Result {
        f.write_str(match self {
            Refusal::Field => "a field is not valid",
            Refusal::DateLimits => "the date is outside its limits",
            Refusal::DateTimeLimits => "the date with its time is outside its limits",
            Refusal::DayCount => "the count of days is outside the balanced range",
            Refusal::Unit => "the unit is not usable here",
            Refusal::Increment => "the increment is not allowed",
            Refusal::Bound => "a number is outside its bound",
            Refusal::Duration => "the duration is not valid",
            Refusal::Form => "the text is of another form",
            Refusal::Room => "the slice is too short",
        })
    }
}

impl Error for Refusal {}
