// Dates and times as text: read off the front of one, written at a place of one.
#![tactic(auto)]

pub mod inner;
