// What the nearest point leaves of a small vector. In narrow numbers and without a jump, so that a compiler does many vectors at once.
ghost use Rattle.std.specs.Prelude.{◌≡◌, cond, map, ◌+◌, ◌≤◌, ◌<◌, pos, nat_abs, ◌*ℤ◌, length};
ghost use Rattle.std.specs.Int.Signed.{lt_z};
ghost use Rattle.integers.specs.Vectors.{sub_v, scale_v, Sized};
ghost use Rattle.lattice.specs.Computed.{nearest_point};
ghost use Rattle.columns.specs.Narrow.{Few, Near, Narrow, Slender, wide, brief, left_by};
ghost use Rattle.rounding.specs.Pass.{chosen, scanned_from};
ghost use Rattle.rounding.specs.Rounding.{round, left, lowered};

pub use rounding::coordinate::sign;
use rounding::{coordinate, half, point};

// What one pass sees, and the half that is chosen by it.
pub type Scan = half::Scan<u16, i16>;

pub type Choice = point::Choice<u16, i16>;

// 1 where x is above y, else 0.
fn above(x: i16, y: i16) -> i16
    ensures { result ≡ cond (lt_z y x) (pos 1) (pos 0) }
{
    if x > y { 1 } else { 0 }
}

// What the odd half leaves of a coordinate of which the even half leaves x.
pub fn lowered(x: i16, s: i16) -> i16
    requires { (nat_abs x ≤ 16) × Few s }
    ensures { result ≡ lowered s x }
{
    coordinate::lowered(x, s)
}

// The whole number nearest to x / 2s, the lower of two: -1 to 2, by three comparisons.
fn round(x: i16, s: i16) -> i16
    requires { Few s × Near s x }
    ensures { result ≡ round (pos 2 *ℤ s) x }
{
    above(x, s) + above(x, 3 * s) - above(1 - s, x)
}

// Every coordinate rounded into f; what that leaves into a.
pub fn rounds(d: &[i16; 8], s: i16, f: &mut [i16; 8], a: &mut [i16; 8])
    requires { Narrow s d.now × (length f.old ≡ 8) × (length a.old ≡ 8) }
    ensures { (f.new ≡ map (round (pos 2 *ℤ s)) d.now) × (a.new ≡ map (left (pos 2 *ℤ s)) d.now) }
{
    for i in 0..8 {
        let w = round(d[i], s);
        f[i] = w;
        a[i] = d[i] - 2 * s * w;
    }
}

// The pass over n entries, from one on.
pub fn scanned(f: &[i16; 8], a: &[i16; 8], s: i16, from: usize, n: usize) -> Scan
    requires { Sized 8 2 f.now × Sized 8 16 a.now × Few s × (from < 8) × (from + n ≤ 8) }
    ensures { wide result ≡ scanned_from s from n f.now a.now }
{
    half::scanned(f, a, s, from, n)
}

// The choice, from what the pass has seen and the way of the first entry.
pub fn chosen(c: Scan, way: i16, s: i16) -> Choice
    requires { Few s × Slender s (wide c) × (nat_abs way ≤ 1) }
    ensures { result ≡ brief (chosen s (wide c) way) }
{
    point::chosen(c, way, s)
}

// What the chosen half, mended, leaves where the rounding leaves a. The step is asked for at every place, so that nothing is stored at a computed one.
fn left(a: &[i16; 8], c: Choice, s: i16) -> [i16; 8]
    requires { Sized 8 16 a.now × Few s × (nat_abs c.parity ≤ 1) × (nat_abs c.step ≤ 2) }
    ensures { result ≡ left_by s c a.now }
{
    let mut r: [i16; 8] = [0; 8];
    for j in 0..8 {
        let step = coordinate::either(j as u16 == c.place, c.step, 0);
        r[j] = a[j] - s * (c.parity * sign(a[j]) + step);
    }
    r
}

// What the nearest point leaves of a small vector d: d less s times that point.
pub fn rest(d: &[i16; 8], s: i16) -> [i16; 8]
    requires { Narrow s d.now }
    ensures { result ≡ sub_v d.now (scale_v s (nearest_point s d.now)) }
{
    let mut f: [i16; 8] = [0; 8];
    let mut a: [i16; 8] = [0; 8];
    rounds(d, s, &mut f, &mut a);
    let c = chosen(scanned(&f, &a, s, 0, 8), sign(a[0]), s);
    left(&a, c, s)
}
