// Membership of E8 doubled (01, The lattice).
ghost use Rattle.std.specs.Prelude.{◌≡◌, ◌^◌, eqb};
ghost use Rattle.integers.specs.Vectors.{sum_v, Sized};
ghost use Rattle.lattice.specs.Doubled.{par, odds, is_point};

// Whether a number is odd.
pub fn odd(t: i64) -> bool
    ensures { result ≡ eqb (par t) 1 }
{
    t % 2 != 0
}

// How many of eight numbers are odd.
fn odds(e: &[i64; 8]) -> usize
    requires { Sized 8 (2 ^ 32) e.now }
    ensures { result ≡ odds e.now }
{
    let mut n = 0;
    for x in e {
        n += usize::from(odd(*x));
    }
    n
}

// The sum of eight numbers.
fn sum(f: &[i64; 8]) -> i64
    requires { Sized 8 (2 ^ 32) f.now }
    ensures { result ≡ sum_v f.now }
{
    let mut t = 0;
    for x in f {
        t += *x;
    }
    t
}

// Whether eight numbers are a doubled point of E8: none or all of them odd, and their sum divisible by 4.
pub fn is_point(e: &[i64; 8]) -> bool
    requires { Sized 8 (2 ^ 32) e.now }
    ensures { result ≡ is_point e.now }
{
    odds(e) % 8 == 0 && integers::floor_mod(sum(e), 4) == 0
}
