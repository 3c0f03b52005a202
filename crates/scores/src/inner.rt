// Inner products of eight numbers, and the parts that they are taken of (01, Scores).
ghost use Rattle.std.specs.Prelude.{◌≡◌, ◌+◌, ◌*◌, ◌-◌, ◌^◌, ◌<◌, ◌≤◌, pos, length, take, drop};
ghost use Rattle.integers.specs.Vectors.{dot, Sized};
ghost use Rattle.columns.specs.Columns.{column};
ghost use Rattle.scores.specs.Scores.{inner};

// The part i of a row, of n entries each.
pub(crate) fn part<T>(a: &[T], n: usize, i: usize) -> &[T]
    requires { n * i + n ≤ length a.now }
    ensures { result.now ≡ take n (drop (n * i) a.now) }
{
    let at = n * i;
    &a[at..at + n]
}

// Eight readings and a doubled point: the sum of X_i·e_i.
pub(crate) fn point_dot(x: &[i32], e: &[i16; 8]) -> i64
    requires { Sized 8 (2 ^ 24) x.now × Sized 8 (2 ^ 14 - 1) e.now }
    ensures { result ≡ dot x.now e.now }
{
    let mut t = 0;
    for i in 0..8 {
        t += i64::from(x[i]) * i64::from(e[i]);
    }
    t
}

// Eight readings and the doubled point in column b of eight side by side, read where it stands: the sum of X_j·e_j.
pub(crate) fn column_dot(x: &[i32], e: &[[i16; 8]; 8], b: usize) -> i64
    requires { Sized 8 (2 ^ 24) x.now × Sized 8 (2 ^ 14 - 1) (column (pos 0) b e.now) × (b < 8) }
    ensures { result ≡ dot x.now (column (pos 0) b e.now) }
{
    let mut t = 0;
    for j in 0..8 {
        t += i64::from(x[j]) * i64::from(e[j][b]);
    }
    t
}

// Two doubled points: the sum of e_i·f_i, which 32 bits hold.
fn points_dot(e: &[i16; 8], f: &[i16; 8]) -> i32
    requires { Sized 8 (2 ^ 14 - 1) e.now × Sized 8 (2 ^ 14 - 1) f.now }
    ensures { result ≡ dot e.now f.now }
{
    let mut t = 0;
    for i in 0..8 {
        t += i32::from(e[i]) * i32::from(f[i]);
    }
    t
}

// Their inner product: a quarter of that sum, since both are held doubled.
pub fn points_inner(e: &[i16; 8], f: &[i16; 8]) -> i64
    requires { Sized 8 (2 ^ 14 - 1) e.now × Sized 8 (2 ^ 14 - 1) f.now }
    ensures { result ≡ inner e.now f.now }
{
    i64::from(points_dot(e, f) >> 2)
}
