// The nearest point: the nearest of each half, and the closer of the two.
ghost use Rattle.std.specs.Prelude.{◌≡◌, cond, map, ◌*◌, ◌^◌, ◌≤◌, pos, nat_abs, ◌+ℤ◌, ◌*ℤ◌, length};
ghost use Rattle.std.specs.Int.Signed.{lt_z};
ghost use Rattle.integers.specs.Vectors.{«at», Sized};
ghost use Rattle.lattice.specs.Computed.{nearest_point};
ghost use Rattle.rounding.specs.Rounding.{Divisor, Step, round, left, sign};
ghost use Rattle.rounding.specs.Pass.{Ready, Mild, first, lead, scanned, chosen, spread_by, scan_of, mend_of, choice_of};

use crate::half::{Mend, Scan};
use crate::number::{Count, Number};
use crate::{coordinate, half};

// The half that is chosen, by its parity, and where and how it is mended.
#[derive(Clone, Copy)]
pub struct Choice<K, T> {
    pub parity: T,
    pub place: K,
    pub step: T,
}

// The step at the first entry.
fn first<T: Number>(m: Mend<T::Key, T>) -> T
    ensures { T.value result ≡ first (mend_of T.Key.count T.value m) }
{
    coordinate::either(m.place < T::Key::of(1), m.step, T::of(0))
}

// 1 where the first entry of the even half, mended by x, comes before that of the odd one, by y, else 0.
fn earlier<T: Number>(x: Mend<T::Key, T>, y: Mend<T::Key, T>, way: T) -> T
    requires { (nat_abs (T.value y.step) ≤ 2) × (nat_abs (T.value way) ≤ 1) }
    ensures { T.value result ≡ cond (lt_z (first (mend_of T.Key.count T.value x)) (T.value way +ℤ first (mend_of T.Key.count T.value y))) (pos 1) (pos 0) }
{
    coordinate::either(first(x) < way + first(y), T::of(1), T::of(0))
}

// Above 0 where the even half, which leaves the squares a and is mended by x, comes before the odd one, by b and y: by the costs, and on equality by the first entries.
fn lead<T: Number>(a: T, b: T, x: Mend<T::Key, T>, y: Mend<T::Key, T>, way: T) -> T
    requires { (nat_abs (T.value a) ≤ 8 * (T.step * T.step)) × (nat_abs (T.value b) ≤ 32 * (T.step * T.step)) × Mild T.step (mend_of T.Key.count T.value x) × Mild T.step (mend_of T.Key.count T.value y) × (nat_abs (T.value way) ≤ 1) }
    ensures { T.value result ≡ lead (T.value a) (T.value b) (mend_of T.Key.count T.value x) (mend_of T.Key.count T.value y) (T.value way) }
{
    let z = (a + x.cost) - (b + y.cost);
    earlier(x, y, way) - T::of(2) * z
}

// The choice, from what the pass has seen and the way of the first entry: values and no jump, since which half is closer cannot be foreseen. The odd half has the keys 16s + 15 less those of the even one, and its sum the parity of the sum and the keys together.
pub fn chosen<T: Number>(c: Scan<T::Key, T>, way: T, s: T) -> Choice<T::Key, T>
    requires { Step T.step (T.value s) × Ready T.step T.whole (T.value s) (scan_of T.Key.count T.value c) × (nat_abs (T.value way) ≤ 1) }
    ensures { choice_of T.Key.count T.value result ≡ chosen (T.value s) (scan_of T.Key.count T.value c) (T.value way) }
{
    let x = half::mended(c.most, c.sum.is_odd(), s);
    let all = (T::of(16) * s + T::of(15)).key();
    let y = half::mended(all - c.least, (c.sum + T::of_key(c.keys)).is_odd(), s);
    let even = coordinate::positive(lead(c.even, c.odd, x, y, way));
    Choice {
        parity: coordinate::either(even, T::of(0), T::of(1)),
        place: coordinate::either(even, x.place, y.place),
        step: coordinate::either(even, x.step, y.step),
    }
}

// The half of parity p, doubled and not yet mended: twice f, and in the odd half one more on the way to the input.
fn spread(p: i64, f: &[i64; 8], a: &[i64; 8]) -> [i64; 8]
    requires { (nat_abs p ≤ 1) × Sized 8 (2 ^ 32) f.now × Sized 8 (2 ^ 14) a.now }
    ensures { result ≡ spread_by p f.now a.now }
{
    let mut e: [i64; 8] = [0; 8];
    for i in 0..8 {
        e[i] = 2 * f[i] + p * coordinate::sign(a[i]);
    }
    e
}

// Every coordinate rounded into f, what that leaves into a, and the choice that they lead to.
fn choose(d: &[i64; 8], s: i64, f: &mut [i64; 8], a: &mut [i64; 8]) -> Choice<usize, i64>
    requires { Divisor s × Sized 8 (2 ^ 30) d.now × (length f.old ≡ 8) × (length a.old ≡ 8) }
    ensures { (f.new ≡ map (round (pos 2 *ℤ s)) d.now) × (a.new ≡ map (left (pos 2 *ℤ s)) d.now) × (result ≡ chosen s (scanned s 8 f.new a.new) (sign («at» a.new 0))) }
{
    half::rounds(d, s, coordinate::reciprocal(s), f, a);
    chosen(half::scanned(f, a, s, 0, 8), coordinate::sign(a[0]), s)
}

// The doubled point of E8 nearest to d / s, of equals the lexicographically smallest.
pub fn nearest_point(d: &[i64; 8], s: i64) -> [i64; 8]
    requires { Divisor s × Sized 8 (2 ^ 30) d.now }
    ensures { result ≡ nearest_point s d.now }
{
    let mut f: [i64; 8] = [0; 8];
    let mut a: [i64; 8] = [0; 8];
    let c = choose(d, s, &mut f, &mut a);
    let mut e = spread(c.parity, &f, &a);
    e[c.place] = e[c.place] + c.step;
    e
}
