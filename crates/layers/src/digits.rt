// From a point to digits: one layer, and all with what is left over.
ghost use Rattle.std.specs.Prelude.{◌≡◌, ◌++◌, ◌*◌, ◌^◌, ◌≤◌, pos, nat_abs, length, drop};
ghost use Rattle.integers.specs.Floor.{floor_mod, reciprocal};
ghost use Rattle.integers.specs.Vectors.{Sized};
ghost use Rattle.layers.specs.E8.{e8, digits8, leftover8};
ghost use Rattle.layers.specs.Layers.{remainders, layer_digits};
ghost use Rattle.layers.specs.Sizes.{Base};

use lattice::basis;
use rounding::point;

// One digit: what x is above a multiple of q, from 0 to q - 1. (w is the reciprocal of q.)
fn remainder(x: i64, q: i64, w: i64) -> u8
    requires { Base q × (nat_abs x ≤ 2 ^ 31) × (w ≡ pos (reciprocal (nat_abs q))) }
    ensures { result ≡ floor_mod x (nat_abs q) }
{
    integers::remainder(x, q, w) as u8
}

// Eight digits, written to the front of the lent bytes; the rest stay as found.
fn remainders(c: &[i64; 8], q: i64, w: i64, out: &mut [u8])
    requires { Base q × Sized 8 (2 ^ 31) c.now × (w ≡ pos (reciprocal (nat_abs q))) × (8 ≤ length out.old) }
    ensures { out.new ≡ remainders (nat_abs q) c.now ++ drop 8 out.old }
{
    for k in 0..8 {
        out[k] = remainder(c[k], q, w);
    }
}

// One layer's digits, the coefficients of e modulo q, written to the front of the lent bytes.
fn layer_digits(e: &[i64; 8], q: i64, w: i64, out: &mut [u8])
    requires { Base q × Sized 8 (2 ^ 26) e.now × (w ≡ pos (reciprocal (nat_abs q))) × (8 ≤ length out.old) }
    ensures { out.new ≡ layer_digits e8 (nat_abs q) e.now ++ drop 8 out.old }
{
    let c = basis::coefficients(e);
    remainders(&c, q, w, out)
}

// The digits of m layers, layer 0 first, written to the front of the lent bytes; what is left over is the answer.
pub fn digits(e: &[i64; 8], q: i64, m: usize, out: &mut [u8]) -> [i64; 8]
    requires { Base q × Sized 8 (2 ^ 26) e.now × (8 * m ≤ length out.old) }
    ensures { (result ≡ leftover8 (nat_abs q) m e.now) × (out.new ≡ digits8 (nat_abs q) m e.now ++ drop (8 * m) out.old) }
{
    let w = integers::reciprocal(q);
    let mut g = *e;
    for i in 0..m {
        let at = 8 * i;
        let end = at + 8;
        layer_digits(&g, q, w, &mut out[at..end]);
        g = point::nearest_point(&g, q);
    }
    g
}
