// The calls of the line protocol that read or write text.
#![tactic(auto)]

pub mod inner;
