// The query score: whole readings against one code record, in halves of 1/1024 squared (01, Scores).
ghost use Rattle.std.specs.Prelude.{◌≡◌, cond, ◌++◌, map, ◌*◌, ◌/◌, ◌^◌, ◌<◌, ◌≤◌, eqb, pos, nat_abs, ◌*ℤ◌, length, drop};
ghost use Rattle.integers.specs.Vectors.{dot, Sized};
ghost use Rattle.columns.specs.Columns.{column};
ghost use Rattle.layers.specs.Digits.{cut};
ghost use Rattle.layers.specs.Table.{TableFor, layer_table};
ghost use Rattle.layers.specs.Code.{code8, size_of, code_of};
ghost use Rattle.records.specs.Codes.{Coder, AreBlocks, block_bytes, step_of, whole_point, CoderTaken};
ghost use Rattle.records.specs.Vectors.{units_hour, fvecs_hour, UnitsTaken};
ghost use Rattle.refusals.specs.Answers.{valued};
ghost use Rattle.scores.specs.Scores.{Scored, total, block_query, query_total, check_code, query_score};

use crate::{hours, inner};
use layers::table;
use readings::words;
use records::codes;
use refusals::settings::Settings;
use refusals::{Refusal, settings};

// Eight readings and a coded block, whose point is e: s times the sum of X_i·e_i.
fn block_query(steps: &[i32], x: &[i32], b: &[u8], e: &[i16; 8]) -> i64
    requires { Sized 8 (2 ^ 24) x.now × Scored steps.now b.now e.now }
    ensures { result ≡ step_of steps.now b.now *ℤ dot x.now e.now }
{
    codes::step_of(steps, b) * inner::point_dot(x, e)
}

// The same of a block whose point is the column t of eight side by side.
fn column_query(steps: &[i32], x: &[i32], b: &[u8], e: &[[i16; 8]; 8], t: usize) -> i64
    requires { Sized 8 (2 ^ 24) x.now × (t < 8) × Scored steps.now b.now (column (pos 0) t e.now) }
    ensures { result ≡ step_of steps.now b.now *ℤ dot x.now (column (pos 0) t e.now) }
{
    codes::step_of(steps, b) * inner::column_dot(x, e, t)
}

// The sum over k blocks of readings and as many coded ones, whose points are made in the first k of the lent rows: for q = 2, from the table t.
fn table_total(
    t: &[i8],
    steps: &[i32],
    x: &[i32],
    body: &[u8],
    q: i64,
    m: usize,
    k: usize,
    rows: &mut [[i16; 8]; 64],
) -> i64
    requires { (t.now ≡ layer_table) × Coder q m steps.now × Sized (8 * k) (2 ^ 24) x.now × AreBlocks (length steps.now) (code8 (nat_abs q) m) k body.now × (k ≤ 64) × (length rows.old ≡ 64) }
    ensures answer { result ≡ total (block_query (code8 (nat_abs q) m) steps.now) (cut 8 k x.now) (cut (block_bytes 8 m) k body.now) }
    ensures room { rows.new ≡ map (whole_point (code8 (nat_abs q) m)) (cut (block_bytes 8 m) k body.now) ++ drop k rows.old }
{
    points::whole_points(t, body, q, m, k, rows);
    let n = codes::block_size(m);
    let mut z = 0;
    for i in 0..k {
        let b = inner::part(body, n, i);
        z += block_query(steps, inner::part(x, 8, i), b, &rows[i]);
    }
    z
}

// The same sum by the rule, the points standing eight side by side.
fn ruled_total(steps: &[i32], x: &[i32], body: &[u8], q: i64, m: usize, k: usize) -> i64
    requires { Coder q m steps.now × Sized (8 * k) (2 ^ 24) x.now × AreBlocks (length steps.now) (code8 (nat_abs q) m) k body.now × (k ≤ 64) }
    ensures { result ≡ total (block_query (code8 (nat_abs q) m) steps.now) (cut 8 k x.now) (cut (block_bytes 8 m) k body.now) }
{
    let n = codes::block_size(m);
    let mut e = [[0; 8]; 8];
    let mut z = 0;
    for i in 0..k {
        if i % 8 == 0 {
            e = points::eight_points(&body[n * i..], (k - i).min(8), q as i16, m);
        }
        let b = inner::part(body, n, i);
        z += column_query(steps, inner::part(x, 8, i), b, &e, i % 8);
    }
    z
}

// The sum over k blocks of readings and as many coded ones. For q = 2 the points are made in the first k of the lent rows; all other rows stay as found.
pub fn query_total(
    t: &[i8],
    steps: &[i32],
    x: &[i32],
    body: &[u8],
    q: i64,
    m: usize,
    k: usize,
    rows: &mut [[i16; 8]; 64],
) -> i64
    requires { TableFor (nat_abs q) t.now × Coder q m steps.now × Sized (8 * k) (2 ^ 24) x.now × AreBlocks (length steps.now) (code8 (nat_abs q) m) k body.now × (k ≤ 64) × (length rows.old ≡ 64) }
    ensures answer { result ≡ total (block_query (code8 (nat_abs q) m) steps.now) (cut 8 k x.now) (cut (block_bytes 8 m) k body.now) }
    ensures room { rows.new ≡ cond (eqb (nat_abs q) 2) (map (whole_point (code8 (nat_abs q) m)) (cut (block_bytes 8 m) k body.now) ++ drop k rows.old) rows.old }
{
    if q == 2 {
        table_total(t, steps, x, body, q, m, k, rows)
    } else {
        ruled_total(steps, x, body, q, m, k)
    }
}

// The same, with a table, where there is one, and rows of its own.
fn query_body(steps: &[i32], x: &[i32], body: &[u8], q: i64, m: usize, k: usize) -> i64
    requires { Coder q m steps.now × Sized (8 * k) (2 ^ 24) x.now × AreBlocks (length steps.now) (code8 (nat_abs q) m) k body.now × (k ≤ 64) }
    ensures { result ≡ total (block_query (code8 (nat_abs q) m) steps.now) (cut 8 k x.now) (cut (block_bytes 8 m) k body.now) }
{
    let total = |t: &[i8]| query_total(t, steps, x, body, q, m, k, &mut [[0; 8]; 64]);
    if q == 2 {
        total(&table::layer_points())
    } else {
        total(&[])
    }
}

// The core on X: the record is checked, with as many blocks as there are of X, then scored.
fn score_units(s: Settings, steps: &[i32], x: &[i32], code: &[u8]) -> Result<i64, Refusal>
    requires { CoderTaken s steps.now × UnitsTaken (size_of (code_of s)) x.now }
    ensures { result ≡ valued (check_code (length steps.now) (code_of s) (length x.now / size_of (code_of s)) (length x.now / size_of (code_of s)) 0 0 code.now) (query_total (code_of s) steps.now x.now code.now) }
{
    let k = x.len() / 8;
    let m = settings::layers(s);
    crate::codes::check_code(code, steps.len(), settings::digit_values(s), m, k, k, 0, 0)?;
    Ok(query_body(steps, x, &code[4..], settings::base(s), m, k))
}

// The score of an hour in whole units against a code record.
pub fn query_score_units(s: Settings, steps: &[i32], x: &[i32], code: &[u8]) -> Result<i64, Refusal>
    ensures answer { result ≡ query_score (code_of s) s steps.now (units_hour (size_of (code_of s)) x.now) code.now }
{
    hours::check_units_hour(s, steps, x)?;
    score_units(s, steps, x, code)
}

// The score of an hour that is an fvecs record.
pub fn query_score(s: Settings, steps: &[i32], query: &[u8], code: &[u8]) -> Result<i64, Refusal>
    ensures answer { result ≡ query_score (code_of s) s steps.now (fvecs_hour (size_of (code_of s)) query.now) code.now }
{
    let mut x: [i32; hours::READINGS_MOST] = [0; hours::READINGS_MOST];
    hours::take_fvecs_hour(s, steps, query, &mut x)?;
    let n = words::word_at(query, 0) as usize;
    score_units(s, steps, &x[0..n], code)
}
