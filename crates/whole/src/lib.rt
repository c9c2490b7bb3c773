// The way between signed numbers and naturals. Nothing of calendars.
//
// A signed number is raised to a natural at the edge of a function, worked with as a natural, and lowered back. What does so asks
// something of its caller, so it stands in `inner`, for the crates of this repository.
#![tactic(auto)]

pub mod inner;
