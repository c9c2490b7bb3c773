// The numbers of a request: each word after the name, read as a number of its parameter's type.
#![tactic(auto)]

pub mod inner;

ghost use Rattle.std.specs.Prelude.{◌≡◌, ◌≤◌, ◌-◌, drop, length, pos, replicate};

// The numbers of a request, one for each parameter of its call: the first `count` of the cells. The others are 0.
#[derive(Clone, Copy, Debug, PartialEq, Eq)]
pub struct Numbers {
    pub count: usize,
    pub cells: [i128; 24],
    pub ghost count_fits: { count ≤ 24 },
    pub ghost sized: { length cells ≡ 24 },
    pub ghost others_blank: { drop count cells ≡ replicate (24 - count) (pos 0) },
}

impl Numbers {
    ghost use Rattle.std.specs.Prelude.{◌+◌, ◌<◌, ◌++◌, [], ◌∷◌};
    ghost use Rattle.parameters.specs.Meaning.{numbers_in};

    // None yet.
    pub fn new() -> Numbers
        ensures { (numbers_in result ≡ []) × (result.count ≡ 0) }
    {
        Numbers {
            count: 0,
            cells: [0; 24],
        }
    }

    pub fn as_slice(&self) -> &[i128]
        ensures { result.now ≡ numbers_in self.now }
    {
        &self.cells[..self.count]
    }

    // Puts a number behind the others.
    fn push(&mut self, number: i128)
        requires { self.old.count < 24 }
        ensures { (numbers_in self.new ≡ numbers_in self.old ++ number ∷ []) × (self.new.count ≡ self.old.count + 1) }
    {
        self.cells[self.count] = number;
        self.count += 1;
    }
}

// The numbers that a parameter takes: so many below zero, and from zero to the highest.
#[derive(Clone, Copy, Debug, PartialEq, Eq)]
pub struct Bounds {
    pub below: u64,
    pub high: u64,
}
