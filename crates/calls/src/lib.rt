// The calls of the line protocol, each on the numbers of a request.
#![tactic(auto)]

pub mod inner;
