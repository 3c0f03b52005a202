// From digits to a point: one layer, and the whole.
ghost use Rattle.std.specs.Prelude.{◌≡◌, map, ◌^◌, ◌≤◌, pos, nat_abs, length};
ghost use Rattle.integers.specs.Vectors.{add_v, scale_v, Sized};
ghost use Rattle.lattice.specs.Basis.{point_of};
ghost use Rattle.layers.specs.Digits.{IsLayer, IsCode};
ghost use Rattle.layers.specs.E8.{layer_point8, decode8};
ghost use Rattle.layers.specs.Sizes.{Base, long_power};
ghost use Rattle.layers.specs.Table.{TableFor};

use crate::{lookup, table};
use lattice::basis;
use rounding::point;

// a and k times b.
fn plus_times(a: &[i64; 8], b: &[i64; 8], k: i64) -> [i64; 8]
    requires { Sized 8 (2 ^ 30) a.now × Sized 8 (2 ^ 30) b.now × (nat_abs k ≤ 2 ^ 30) }
    ensures { result ≡ add_v a.now (scale_v k b.now) }
{
    std::array::from_fn(|i| a[i] + k * b[i])
}

// The point whose coefficients are eight digits.
fn digit_point(ds: &[u8]) -> [i64; 8]
    requires { length ds.now ≡ 8 }
    ensures { result ≡ point_of (map pos ds.now) }
{
    basis::point_of(&std::array::from_fn(|k| i64::from(ds[k])))
}

// The layer point of eight digits by its rule: the digits' point p, less q times the point that p / q rounds to.
fn ruled_point(ds: &[u8], q: i64) -> [i64; 8]
    requires { Base q × IsLayer 8 (nat_abs q) ds.now }
    ensures { result ≡ layer_point8 (nat_abs q) ds.now }
{
    let p = digit_point(ds);
    let n = point::nearest_point(&p, q);
    plus_times(&p, &n, -q)
}

// The layer point of eight digits: for q = 2 from the table t, else by the rule.
pub fn layer_point(t: &[i8], ds: &[u8], q: i64) -> [i64; 8]
    requires { TableFor (nat_abs q) t.now × Base q × IsLayer 8 (nat_abs q) ds.now }
    ensures { result ≡ layer_point8 (nat_abs q) ds.now }
{
    if q == 2 {
        let l = lookup::table_point(t, ds);
        std::array::from_fn(|k| i64::from(l[k]))
    } else {
        ruled_point(ds, q)
    }
}

// The whole point of m layers, from the top one down: a layer's point, and q times what the layers above it gave.
pub fn decode(t: &[i8], ds: &[u8], q: i64, m: usize) -> [i64; 8]
    requires { TableFor (nat_abs q) t.now × Base q × (nat_abs q ^ m ≤ long_power) × IsCode 8 (nat_abs q) m ds.now }
    ensures { result ≡ decode8 (nat_abs q) m ds.now }
{
    let mut e = [0; 8];
    for i in (0..m).rev() {
        let at = 8 * i;
        let end = at + 8;
        let l = layer_point(t, &ds[at..end], q);
        e = plus_times(&l, &e, q);
    }
    e
}

// The same, having the table itself. (Who decodes much has it once, and lends it to `decode`.)
pub fn decode_one(ds: &[u8], q: i64, m: usize) -> [i64; 8]
    requires { Base q × (nat_abs q ^ m ≤ long_power) × IsCode 8 (nat_abs q) m ds.now }
    ensures { result ≡ decode8 (nat_abs q) m ds.now }
{
    if q == 2 {
        decode(&table::layer_points(), ds, q, m)
    } else {
        decode(&[0; 1], ds, q, m)
    }
}
