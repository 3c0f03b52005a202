// One coordinate: rounded to the nearest multiple of 2s, what that leaves, and the key that orders what is left.
ghost use Rattle.std.specs.Prelude.{◌≡◌, cond, ◌+◌, ◌*◌, ◌^◌, ◌≤◌, ◌<◌, min, max, pos, nat_abs, ◌*ℤ◌};
ghost use Rattle.std.specs.Int.Signed.{lt_z};
ghost use Rattle.rounding.specs.Rounding.{Divisor, reciprocal, rounded, sign, lowered, key, spot};

use crate::number::{Count, Number};

// A coordinate rounded, and what that leaves of it.
#[derive(Clone, Copy)]
pub(crate) struct Rounded {
    pub whole: i64,
    pub rest: i64,
}

// 2^31 over s: one division serves all eight roundings of a call.
pub(crate) fn reciprocal(s: i64) -> i64
    requires { Divisor s }
    ensures { result ≡ pos (reciprocal s) }
{
    (2147483648 / s as u32) as i64
}

// The whole number nearest to x / 2s, the lower of two. The guess by the reciprocal w is right, or one too low: then more than s is left.
pub(crate) fn round(x: i64, s: i64, w: i64) -> Rounded
    requires { Divisor s × (nat_abs x ≤ 2 ^ 30) × (w ≡ pos (reciprocal s)) }
    ensures { result ≡ rounded (pos 2 *ℤ s) x }
{
    let m = s + s;
    let q = ((x + s - 1) * w - 2147483648) >> 32;
    let r = x - m * q;
    if r > s {
        Rounded {
            whole: q + 1,
            rest: r - m,
        }
    } else {
        Rounded { whole: q, rest: r }
    }
}

// Whether more than nothing is left.
pub(crate) fn positive<T: Number>(x: T) -> bool
    ensures { result ≡ lt_z (pos 0) (T.value x) }
{
    x > T::of(0)
}

// 1 where more than nothing is left, else -1: the way from the rounding to the input, down where they meet.
pub fn sign<T: Number>(x: T) -> T
    ensures { T.value result ≡ sign (T.value x) }
{
    if positive(x) { T::of(1) } else { T::of(-1) }
}

// What the odd half leaves of a coordinate of which the even half leaves x.
pub fn lowered<T: Number>(x: T, s: T) -> T
    requires { nat_abs (T.value x) + nat_abs (T.value s) ≤ T.most }
    ensures { T.value result ≡ lowered (T.value s) (T.value x) }
{
    if positive(x) { x - s } else { x + s }
}

// The size first; then those that go down, the first of them; then the last of those that go up.
pub(crate) fn key<T: Number>(x: T, i: usize) -> T::Key
    requires { (16 * nat_abs (T.value x) + 22 ≤ T.most) × (i < 8) }
    ensures { T.Key.count result ≡ key i (T.value x) }
{
    let b = T::of(16) * x + T::of(i as i8);
    if b <= T::of(7) {
        (T::of(15) - b).key()
    } else {
        b.key()
    }
}

// The greater of two keys.
pub(crate) fn greater<K: Count>(a: K, b: K) -> K
    ensures { K.count result ≡ max (K.count a) (K.count b) }
{
    if a < b { b } else { a }
}

// The smaller of two keys.
pub(crate) fn smaller<K: Count>(a: K, b: K) -> K
    ensures { K.count result ≡ min (K.count a) (K.count b) }
{
    if a < b { a } else { b }
}

// The entry that a key is of.
pub(crate) fn spot<K: Count>(k: K) -> K
    ensures { K.count result ≡ spot (K.count k) }
{
    let l = k % K::of(16);
    if l < K::of(8) { l } else { K::of(15) - l }
}

// The first of two values, or the second: a value and no jump.
pub fn either<A: Copy>(first: bool, x: A, y: A) -> A
    ensures { result ≡ cond first x y }
{
    if first { x } else { y }
}
