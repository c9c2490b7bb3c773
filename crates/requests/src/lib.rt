// The requests of the line protocol and their answers: a line in, the line that answers it out.
#![tactic(auto)]

pub mod inner;
