// Eight layers side by side, in narrow numbers: row j holds the digit or coordinate j of each.
#![tactic(auto)]

pub mod narrow;

ghost use Rattle.std.specs.Prelude.{◌≡◌, [], map, ◌+◌, ◌<◌, ◌≤◌, pos, nat_abs, ◌+ℤ◌, ◌-ℤ◌, ◌*ℤ◌, get_or};
ghost use Rattle.integers.specs.Vectors.{«at», Sized};
ghost use Rattle.lattice.specs.Basis.{point_of};
ghost use Rattle.columns.specs.Columns.{column, Square8, LayerColumns, PointColumns};
ghost use Rattle.layers.specs.Digits.{IsLayer};
ghost use Rattle.layers.specs.E8.{layer_point8};
ghost use Rattle.layers.specs.Sizes.{Base};

// The entry t of each of eight rows.
pub fn column<T: Copy>(rows: &[[T; 8]; 8], t: usize) -> [T; 8]
    requires { (t < 8) × Square8 rows.now }
    ensures { (blank : T) → result ≡ column blank t rows.now }
{
    std::array::from_fn(
        |j: usize| -> T
            requires { (j < 8) × (t < 8) × Square8 rows.now }
            ensures { (blank : T) → result ≡ get_or (get_or rows.entry.now j []) t blank }
        { rows[j][t] },
    )
}

// Eight digits below 16 as coefficients.
pub fn widened(ds: &[u8; 8]) -> [i16; 8]
    requires { IsLayer 8 16 ds.now }
    ensures { result ≡ map pos ds.now }
{
    std::array::from_fn(|k| i16::from(ds[k]))
}

// A middle coordinate of a doubled point: twice the coefficient k, less twice the next, and the last.
fn middle(c: &[i16; 8], k: usize) -> i16
    requires { (k < 7) × Sized 8 16 c.now }
    ensures { (result ≡ pos 2 *ℤ «at» c.now k -ℤ pos 2 *ℤ «at» c.now (k + 1) +ℤ «at» c.now 7) × (nat_abs result ≤ 128) }
{
    2 * c[k] - 2 * c[k + 1] + c[7]
}

// The doubled point of eight coefficients up to 16.
pub fn point_of(c: &[i16; 8]) -> [i16; 8]
    requires { Sized 8 16 c.now }
    ensures { result ≡ point_of c.now }
{
    [
        2 * c[0] + middle(c, 0),
        middle(c, 1),
        middle(c, 2),
        middle(c, 3),
        middle(c, 4),
        middle(c, 5),
        2 * c[6] + c[7],
        c[7],
    ]
}

// The layer point of the layer t.
fn layer_column(c: &[[u8; 8]; 8], t: usize, q: i16) -> [i16; 8]
    requires { (t < 8) × Base q × (nat_abs q ≤ 16) × LayerColumns (nat_abs q) c.now }
    ensures { result ≡ layer_point8 (nat_abs q) (column 0 t c.now) }
{
    let ds = column(c, t);
    let w = widened(&ds);
    let p = point_of(&w);
    narrow::rest(&p, q)
}

// The layer points of eight layers, side by side as their digits are. Nothing here jumps and nothing needs more than 16 bits, so a compiler does all eight at once.
pub fn layer_points(c: &[[u8; 8]; 8], q: i16) -> [[i16; 8]; 8]
    requires { Base q × (nat_abs q ≤ 16) × LayerColumns (nat_abs q) c.now }
    ensures { PointColumns (nat_abs q) c.now result }
{
    let mut l: [[i16; 8]; 8] = [[0; 8]; 8];
    for t in 0..8 {
        let r = layer_column(c, t, q);
        for j in 0..8 {
            l[j][t] = r[j];
        }
    }
    l
}
