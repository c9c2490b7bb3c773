// Each function asks of its caller what it needs to give back a number that fits, and says what that is as a whole number.
ghost use Rattle.std.specs.Prelude.{◌≡◌, cond, ◌+◌, ◌<◌, ◌≤◌, ◌^◌, pos, negsuc, neg_ℤ, ◌≤ℤ◌, ◌<ℤ◌};
ghost use Rattle.whole.specs.Whole.{◌⊖◌};

// x + k, a natural.
pub fn raise(x: i64, k: u64) -> u64
    requires { (k < 2 ^ 63) × (((0 ⊖ k) ≤ℤ x) × (x <ℤ ((2 ^ 63) ⊖ k))) }
    ensures { (x ≡ result ⊖ k) × (result < 2 ^ 63) }
{
    (x + k as i64) as u64
}

// u - k, of either sign.
pub fn lower(u: u64, k: u64) -> i64
    requires { (u < 2 ^ 63) × (k < 2 ^ 63) }
    ensures { result ≡ u ⊖ k }
{
    u as i64 - k as i64
}

// y + k, a natural, for every y of 32 bits.
#[tactic(auto, using(crate::proofs::Edges::raises))]
pub fn raise32(y: i32, k: u64) -> u64
    requires { (2 ^ 31 ≤ k) × (k < 2 ^ 62) }
    ensures { (y ≡ result ⊖ k) × ((result < 2 ^ 31 + k) × (k ≤ result + 2 ^ 31)) }
{
    raise(i64::from(y), k)
}

// The number that lies n below -1: n is its depth.
pub fn from_depth(n: u64) -> i64
    requires { n < 2 ^ 63 }
    ensures { result ≡ negsuc n }
{
    -1 - n as i64
}

// -n, for an n up to 2^63.
pub fn negated(n: u64) -> i64
    requires { n ≤ 2 ^ 63 }
    ensures { result ≡ neg_ℤ (pos n) }
{
    if n == 0 { 0 } else { from_depth(n - 1) }
}

// A count in a direction: n forward, -n backward.
pub fn directed(forward: bool, n: u64) -> i64
    requires { n < 2 ^ 63 }
    ensures { result ≡ cond forward (pos n) (neg_ℤ (pos n)) }
{
    if forward { n as i64 } else { negated(n) }
}
