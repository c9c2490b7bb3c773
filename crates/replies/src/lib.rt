// The answers of the calls as replies: an answer's 0 with its values, or a refusal's number.
#![tactic(auto)]

pub mod inner;
