// The basis of E8 doubled and its inverse, as tables; points and coefficients (01, The lattice).
ghost use Rattle.std.specs.Prelude.{◌≡◌, [], ◌^◌, ◌<◌, get_or};
ghost use Rattle.integers.specs.Floor.{floor_div};
ghost use Rattle.integers.specs.Vectors.{dot, Sized};
ghost use Rattle.lattice.specs.Basis.{Table8, point_of, coefficients};

// Row k gives e_k of the coefficients.
pub const BASIS: [[i64; 8]; 8] = [
    [4, -2, 0, 0, 0, 0, 0, 1],
    [0, 2, -2, 0, 0, 0, 0, 1],
    [0, 0, 2, -2, 0, 0, 0, 1],
    [0, 0, 0, 2, -2, 0, 0, 1],
    [0, 0, 0, 0, 2, -2, 0, 1],
    [0, 0, 0, 0, 0, 2, -2, 1],
    [0, 0, 0, 0, 0, 0, 2, 1],
    [0, 0, 0, 0, 0, 0, 0, 1],
];

// Row k gives 4 c_k of the point.
pub const INVERSE: [[i64; 8]; 8] = [
    [1, 1, 1, 1, 1, 1, 1, -7],
    [0, 2, 2, 2, 2, 2, 2, -12],
    [0, 0, 2, 2, 2, 2, 2, -10],
    [0, 0, 0, 2, 2, 2, 2, -8],
    [0, 0, 0, 0, 2, 2, 2, -6],
    [0, 0, 0, 0, 0, 2, 2, -4],
    [0, 0, 0, 0, 0, 0, 2, -2],
    [0, 0, 0, 0, 0, 0, 0, 4],
];

// Row i of a table by a vector.
fn row(t: &[[i64; 8]; 8], i: usize, c: &[i64; 8]) -> i64
    requires { (i < 8) × Table8 t.now × Sized 8 (2 ^ 32) c.now }
    ensures { result ≡ dot (get_or t.now i []) c.now }
{
    let mut s = 0;
    for j in 0..8 {
        s += t[i][j] * c[j];
    }
    s
}

// A quarter, rounded down.
fn quarter(x: i64) -> i64
    ensures { result ≡ floor_div x 4 }
{
    x >> 2
}

// The doubled point of eight coefficients. The compiler folds the table into sums.
pub fn point_of(c: &[i64; 8]) -> [i64; 8]
    requires { Sized 8 (2 ^ 32) c.now }
    ensures { result ≡ point_of c.now }
{
    std::array::from_fn(|k| row(&BASIS, k, c))
}

// The eight coefficients of a doubled point: a quarter of each row by it, rounded down.
pub fn coefficients(e: &[i64; 8]) -> [i64; 8]
    requires { Sized 8 (2 ^ 32) e.now }
    ensures { result ≡ coefficients e.now }
{
    std::array::from_fn(|k| quarter(row(&INVERSE, k, e)))
}
