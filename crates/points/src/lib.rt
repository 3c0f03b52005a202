// The doubled points of blocks of a code record, in narrow numbers: eight side by side, or in lent rows (01, Layers and steps).
#![tactic(auto)]

ghost use Rattle.std.specs.Prelude.{◌≡◌, ◌++◌, map, ◌+◌, ◌*◌, ◌<◌, ◌≤◌, pos, nat_abs, length, take, drop};
ghost use Rattle.integers.specs.Vectors.{add_v, scale_v, range};
ghost use Rattle.columns.specs.Columns.{column, Square8};
ghost use Rattle.layers.specs.Digits.{IsCode, cut};
ghost use Rattle.layers.specs.E8.{decode8};
ghost use Rattle.layers.specs.Table.{TableFor, layer_table};
ghost use Rattle.refusals.specs.Limits.{m_most};
ghost use Rattle.records.specs.Eight.Codes.{Digital, AreCodes, block_size, whole_point};
ghost use Rattle.points.specs.Lanes.{LayerPut, Blank, Gathered, AllGathered, Taken, BlockPoints, Summable, SummableRows, SummedRows, whole_coordinate, Foldable, FoldableRow, FoldableRows, FoldedRow, FoldedRows};

use layers::lookup;
use records::codes;

// The eight digits from the place a on, as the column t.
fn put_layer(body: &[u8], a: usize, t: usize, c: &mut [[u8; 8]; 8])
    requires { (a + 8 ≤ length body.now) × (t < 8) × Square8 c.old }
    ensures { LayerPut t (take 8 (drop a body.now)) c.old c.new }
{
    for j in 0..8 {
        c[j][t] = body[a + j];
    }
}

// The layer i of n blocks side by side in the lent array. Lent and not inlined, so that the bytes are stored one by one; a compiler that sees them on their way into the layers' pass puts them together in registers, which is slower.
#[inline(never)]
fn gather(body: &[u8], m: usize, i: usize, n: usize, c: &mut [[u8; 8]; 8])
    requires { (m ≤ m_most) × (i < m) × (n ≤ 8) × (block_size m * n ≤ length body.now) × Blank c.old }
    ensures { Gathered m n i body.now c.new }
{
    let size = codes::block_size(m);
    for b in 0..n {
        put_layer(body, size * b + (8 * i + 1), b, c);
    }
}

// The layer i of n blocks side by side, with zeros past the last.
fn gathered(body: &[u8], m: usize, i: usize, n: usize) -> [[u8; 8]; 8]
    requires { (m ≤ m_most) × (i < m) × (n ≤ 8) × (block_size m * n ≤ length body.now) }
    ensures { Gathered m n i body.now result }
{
    let mut c = [[0; 8]; 8];
    gather(body, m, i, n, &mut c);
    c
}

// All layers of n blocks side by side, block after block, with zeros past the last.
fn gathered_layers(body: &[u8], m: usize, n: usize) -> [[u8; 8]; 8]
    requires { (m ≤ m_most) × (n * m ≤ 8) × (block_size m * n ≤ length body.now) }
    ensures { AllGathered m n body.now result }
{
    let size = codes::block_size(m);
    let mut c = [[0; 8]; 8];
    for b in 0..n {
        for i in 0..m {
            let t = m * b + i;
            put_layer(body, size * b + (8 * i + 1), t, &mut c);
        }
    }
    c
}

// The layers that one pass takes: all of them where they are at most eight, else the layer i of each block.
fn taken(body: &[u8], m: usize, i: usize, n: usize) -> [[u8; 8]; 8]
    requires { (m ≤ m_most) × (i < m) × (n ≤ 8) × (block_size m * n ≤ length body.now) }
    ensures { Taken m n i body.now result }
{
    if n * m <= 8 {
        gathered_layers(body, m, n)
    } else {
        gathered(body, m, i, n)
    }
}

// l and q times e.
fn plus_times(l: &[i16; 8], e: &[i16; 8], q: i16) -> [i16; 8]
    requires { Summable q l.now e.now }
    ensures { result ≡ add_v l.now (scale_v q e.now) }
{
    std::array::from_fn(|i| l[i] + q * e[i])
}

// The same, row by row.
fn rows_plus_times(l: &[[i16; 8]; 8], e: &[[i16; 8]; 8], q: i16) -> [[i16; 8]; 8]
    requires { SummableRows q l.now e.now }
    ensures { SummedRows q l.now e.now result }
{
    let mut r = [[0; 8]; 8];
    for j in 0..8 {
        r[j] = plus_times(&l[j], &e[j], q);
    }
    r
}

// One coordinate of a whole point from those of its m layers, which stand in l from t on: from the top one down, each and q times what those above it gave.
fn whole_coordinate(l: &[i16; 8], t: usize, q: i16, m: usize) -> i16
    requires { Foldable q m t l.now }
    ensures { result ≡ whole_coordinate q m t l.now }
{
    let mut z = 0;
    for i in (0..m).rev() {
        z = l[t + i] + q * z;
    }
    z
}

// One coordinate of n whole points, from those of all their layers, into the first n of the lent row.
fn fold_row(l: &[i16; 8], n: usize, q: i16, m: usize, r: &mut [i16; 8])
    requires { (n ≤ 8) × FoldableRow q m n l.now × (length r.old ≡ 8) }
    ensures { FoldedRow q m n l.now r.new }
{
    for b in 0..n {
        r[b] = whole_coordinate(l, m * b, q, m);
    }
}

// The same, row by row.
fn folded(l: &[[i16; 8]; 8], n: usize, q: i16, m: usize) -> [[i16; 8]; 8]
    requires { (n ≤ 8) × FoldableRows q m n l.now }
    ensures { FoldedRows q m n l.now result }
{
    let mut e = [[0; 8]; 8];
    for j in 0..8 {
        fold_row(&l[j], n, q, m, &mut e[j]);
    }
    e
}

// The points of n blocks side by side. Where one pass takes all layers, from their points; else from the top layer down, each layer's points and q times what the layers above it gave.
pub fn eight_points(body: &[u8], n: usize, q: i16, m: usize) -> [[i16; 8]; 8]
    requires { Digital q m × AreCodes (nat_abs q) m n body.now × (n ≤ 8) }
    ensures { BlockPoints (nat_abs q) m n body.now result }
{
    let mut e = [[0; 8]; 8];
    for i in (0..m).rev() {
        let c = taken(body, m, i, n);
        let l = columns::layer_points(&c, q);
        if n * m <= 8 {
            return folded(&l, n, q, m);
        }
        e = rows_plus_times(&l, &e, q);
    }
    e
}

// The first n columns into the lent rows from i on.
fn put_columns(e: &[[i16; 8]; 8], n: usize, i: usize, rows: &mut [[i16; 8]; 64])
    requires { Square8 e.now × (n ≤ 8) × (i + n ≤ 64) × (length rows.old ≡ 64) }
    ensures { rows.new ≡ (take i rows.old ++ map (λ t. column (pos 0) t e.now) (range 0 n)) ++ drop (i + n) rows.old }
{
    for b in 0..n {
        rows[i + b] = columns::column(e, b);
    }
}

// The points of k blocks by the rule, eight side by side.
fn ruled_points(body: &[u8], q: i16, m: usize, k: usize, rows: &mut [[i16; 8]; 64])
    requires { Digital q m × AreCodes (nat_abs q) m k body.now × (k ≤ 64) × (length rows.old ≡ 64) }
    ensures { rows.new ≡ map (whole_point (nat_abs q) m) (cut (block_size m) k body.now) ++ drop k rows.old }
{
    let size = codes::block_size(m);
    for i in (0..k).step_by(8) {
        let n = (k - i).min(8);
        let e = eight_points(&body[size * i..], n, q, m);
        put_columns(&e, n, i, rows);
    }
}

// The whole point of m layers of digits below 2, from the top one down.
fn table_point(t: &[i8], ds: &[u8], m: usize) -> [i16; 8]
    requires { (t.now ≡ layer_table) × (m ≤ m_most) × IsCode 8 2 m ds.now }
    ensures { result ≡ decode8 2 m ds.now }
{
    let mut e = [0; 8];
    for i in (0..m).rev() {
        let at = 8 * i;
        let l = lookup::table_point(t, &ds[at..at + 8]);
        e = plus_times(&l, &e, 2);
    }
    e
}

// The points of k blocks from the table.
fn table_points(t: &[i8], body: &[u8], m: usize, k: usize, rows: &mut [[i16; 8]; 64])
    requires { (t.now ≡ layer_table) × (m ≤ m_most) × AreCodes 2 m k body.now × (k ≤ 64) × (length rows.old ≡ 64) }
    ensures { rows.new ≡ map (whole_point 2 m) (cut (block_size m) k body.now) ++ drop k rows.old }
{
    let size = codes::block_size(m);
    for i in 0..k {
        let at = size * i + 1;
        rows[i] = table_point(t, &body[at..at + 8 * m], m);
    }
}

// The doubled points of k coded blocks into the first k of the lent rows; the other rows stay as found. For q = 2 from the table t, else by the rule.
pub fn whole_points(t: &[i8], body: &[u8], q: i64, m: usize, k: usize, rows: &mut [[i16; 8]; 64])
    requires { TableFor (nat_abs q) t.now × Digital q m × AreCodes (nat_abs q) m k body.now × (k ≤ 64) × (length rows.old ≡ 64) }
    ensures { rows.new ≡ map (whole_point (nat_abs q) m) (cut (block_size m) k body.now) ++ drop k rows.old }
{
    if q == 2 {
        table_points(t, body, m, k, rows)
    } else {
        ruled_points(body, q as i16, m, k, rows)
    }
}
