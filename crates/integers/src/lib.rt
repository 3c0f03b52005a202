// Arithmetic that the machine does not have: division by a positive number that rounds down, and powers; tests of ranges.
#![tactic(auto)]

ghost use Rattle.std.specs.Prelude.{◌≡◌, ◌^◌, ◌<◌, ◌≤◌, min, pos, nat_abs, ◌≤ℤ◌};
ghost use Rattle.integers.specs.Floor.{floor_div, floor_mod, reciprocal};
ghost use Rattle.integers.specs.Vectors.{within, small};

// The greatest whole number that is at most x / m.
pub fn floor_div(x: i64, m: i64) -> i64
    requires { pos 1 ≤ℤ m }
    ensures { result ≡ floor_div x (nat_abs m) }
{
    if x >= 0 { x / m } else { (x + 1) / m - 1 }
}

// What x is above m times that quotient, from 0 to m - 1.
pub fn floor_mod(x: i64, m: i64) -> i64
    requires { pos 1 ≤ℤ m }
    ensures { result ≡ pos (floor_mod x (nat_abs m)) }
{
    let r = x % m;
    if r < 0 { r + m } else { r }
}

// 2^32 over m: one division serves all remainders of m.
pub fn reciprocal(m: i64) -> i64
    requires { pos 1 ≤ℤ m }
    ensures { result ≡ pos (reciprocal (nat_abs m)) }
{
    4294967296 / m
}

// What x is above a multiple of m, from 0 to m - 1. The quotient guessed by the reciprocal w is right, or one too low: then m or more is left.
pub fn remainder(x: i64, m: i64, w: i64) -> i64
    requires { (pos 2 ≤ℤ m) × (nat_abs m ≤ 2 ^ 16) × (nat_abs x ≤ 2 ^ 31) × (w ≡ pos (reciprocal (nat_abs m))) }
    ensures { result ≡ pos (floor_mod x (nat_abs m)) }
{
    let t = (x * w - 2147483648) >> 32;
    let r = x - m * t;
    if r < m { r } else { r - m }
}

// A byte as a count.
pub fn wide(b: u8) -> usize
    ensures { (result ≡ b) × (result < 256) }
{
    usize::from(b)
}

// q to the power m.
pub fn power(q: u64, m: u64) -> u64
    requires { q ^ m < 2 ^ 64 }
    ensures { result ≡ q ^ m }
{
    let mut p = 1;
    for _ in 0..m {
        p *= q;
    }
    p
}

// The smaller of two counts.
pub fn smaller(a: usize, b: usize) -> usize
    ensures { result ≡ min a b }
{
    a.min(b)
}

// Whether x lies from least to most.
pub fn within(x: i32, least: i32, most: i32) -> bool
    ensures { result ≡ within least most x }
{
    least <= x && x <= most
}

// Whether every number is at most `most` in magnitude.
pub fn small(a: &[i32], most: i32) -> bool
    requires { pos 0 ≤ℤ most }
    ensures { result ≡ small (nat_abs most) a.now }
{
    a.iter().all(|x| within(*x, -most, most))
}
