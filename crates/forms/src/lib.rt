// The pieces that texts of fixed forms are made of.
#![tactic(auto)]

pub mod inner;

// The digits of a fraction without the zeros at its end: how many there are, and the number that they say.
// No invariant says so (`Trims`): `put_fraction` takes any count and value, and an invariant would ask more of who makes them.
#[derive(Clone, Copy, Debug, PartialEq, Eq)]
pub struct Trimmed {
    pub count: usize,
    pub value: u64,
}
