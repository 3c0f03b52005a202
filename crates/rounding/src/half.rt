// Both halves of the lattice from one rounding: what one pass over it sees, and how a half is mended by that.
ghost use Rattle.std.specs.Prelude.{◌≡◌, cond, map, ◌+◌, ◌*◌, ◌/◌, ◌%◌, ◌^◌, ◌≤◌, ◌<◌, ltb, pos, negsuc, nat_abs, ◌-ℤ◌, ◌*ℤ◌, length};
ghost use Rattle.integers.specs.Vectors.{Sized};
ghost use Rattle.rounding.specs.Rounding.{Divisor, Step, reciprocal, round, left};
ghost use Rattle.rounding.specs.Pass.{Fair, seen, scanned_from, mended, scan_of, mend_of};

use crate::coordinate;
use crate::number::{Count, Number};

// What one pass sees: the greatest and the least key, the sum of all keys, that of all roundings, and the squares of what the even half leaves and of what the odd one does.
#[derive(Clone, Copy)]
pub struct Scan<K, T> {
    pub most: K,
    pub least: K,
    pub keys: K,
    pub sum: T,
    pub even: T,
    pub odd: T,
}

// How a half is mended: a step at a place, doubled as the point is, 0 where nothing is to be mended; and what it adds to the cost.
#[derive(Clone, Copy)]
pub struct Mend<K, T> {
    pub place: K,
    pub step: T,
    pub cost: T,
}

// Every coordinate rounded into f; what that leaves into a.
pub(crate) fn rounds(d: &[i64; 8], s: i64, w: i64, f: &mut [i64; 8], a: &mut [i64; 8])
    requires { Divisor s × Sized 8 (2 ^ 30) d.now × (w ≡ pos (reciprocal s)) × (length f.old ≡ 8) × (length a.old ≡ 8) }
    ensures { (f.new ≡ map (round (pos 2 *ℤ s)) d.now) × (a.new ≡ map (left (pos 2 *ℤ s)) d.now) }
{
    for i in 0..8 {
        let r = coordinate::round(d[i], s, w);
        f[i] = r.whole;
        a[i] = r.rest;
    }
}

// One entry more: the rounding f, which leaves a, at the place i.
fn seen<T: Number>(c: Scan<T::Key, T>, f: T, a: T, s: T, i: usize) -> Scan<T::Key, T>
    requires { Fair T.step T.whole (scan_of T.Key.count T.value c) × (nat_abs (T.value f) ≤ T.whole) × (nat_abs (T.value a) ≤ T.step) × Step T.step (T.value s) × (i < 8) }
    ensures { scan_of T.Key.count T.value result ≡ seen (T.value s) (scan_of T.Key.count T.value c) (T.value f) (T.value a) i }
{
    let k = coordinate::key(a, i);
    let b = coordinate::lowered(a, s);
    Scan {
        most: coordinate::greater(c.most, k),
        least: coordinate::smaller(c.least, k),
        keys: c.keys + k,
        sum: c.sum + f,
        even: c.even + a * a,
        odd: c.odd + b * b,
    }
}

// The pass over n entries, from one on.
pub fn scanned<T: Number>(f: &[T; 8], a: &[T; 8], s: T, from: usize, n: usize) -> Scan<T::Key, T>
    requires { Sized 8 T.whole (map T.value f.now) × Sized 8 T.step (map T.value a.now) × Step T.step (T.value s) × (from < 8) × (from + n ≤ 8) }
    ensures { scan_of T.Key.count T.value result ≡ scanned_from (T.value s) from n (map T.value f.now) (map T.value a.now) }
{
    let k = coordinate::key(a[from], from);
    let mut c = Scan {
        most: k,
        least: k,
        keys: T::Key::of(0),
        sum: T::of(0),
        even: T::of(0),
        odd: T::of(0),
    };
    for j in 0..n {
        let i = from + j;
        c = seen(c, f[i], a[i], s, i);
    }
    c
}

// The step at the entry of a key, doubled: the way on from the rounding.
fn step<T: Number>(k: T::Key) -> T
    ensures { T.value result ≡ cond (ltb (T.Key.count k % 16) 8) (pos 2) (negsuc 1) }
{
    if k % T::Key::of(16) < T::Key::of(8) {
        T::of(2)
    } else {
        T::of(-2)
    }
}

// What that step adds to the cost.
fn cost<T: Number>(k: T::Key, s: T) -> T
    requires { Step T.step (T.value s) × (T.Key.count k ≤ 16 * T.step + 15) }
    ensures { T.value result ≡ pos 4 *ℤ T.value s *ℤ (T.value s -ℤ pos (T.Key.count k / 16)) }
{
    T::of(4) * s * (s - T::of_key(k / T::Key::of(16)))
}

// The mend of a half whose greatest key is k, and whose sum is odd or not.
pub(crate) fn mended<T: Number>(k: T::Key, odd: bool, s: T) -> Mend<T::Key, T>
    requires { Step T.step (T.value s) × (T.Key.count k ≤ 16 * T.step + 15) }
    ensures { mend_of T.Key.count T.value result ≡ mended (T.value s) (T.Key.count k) odd }
{
    Mend {
        place: coordinate::spot(k),
        step: coordinate::either(odd, step(k), T::of(0)),
        cost: coordinate::either(odd, cost(k, s), T::of(0)),
    }
}
