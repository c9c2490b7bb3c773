// An input of bytes: how it is cut into lines, and the bytes that answer it. All of it asks for room in lent buffers, so it stands in
// `inner`.
#![tactic(auto)]

pub mod inner;
