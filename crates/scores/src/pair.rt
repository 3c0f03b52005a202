// The pair score: two code records, each with its own step list, in units of 1/1024 squared (01, Scores).
ghost use Rattle.std.specs.Prelude.{◌≡◌, ◌≤◌, nat_abs, ◌*ℤ◌, length};
ghost use Rattle.layers.specs.Digits.{cut};
ghost use Rattle.layers.specs.Table.{TableFor};
ghost use Rattle.layers.specs.Code.{code8, code_of};
ghost use Rattle.records.specs.Codes.{Coder, AreBlocks, block_bytes, step_of};
ghost use Rattle.scores.specs.Scores.{Scored, total, inner, block_pair, check_pair, pair_score};

use crate::{codes, inner};
use layers::table;
use records::asked;
use refusals::settings::Settings;
use refusals::{Refusal, settings};

// Two coded blocks, whose points are e and f: s·t times the inner product of their points.
fn block_pair(steps: &[i32], b: &[u8], e: &[i16; 8], steps2: &[i32], b2: &[u8], f: &[i16; 8]) -> i64
    requires { Scored steps.now b.now e.now × Scored steps2.now b2.now f.now }
    ensures { result ≡ (step_of steps.now b.now *ℤ step_of steps2.now b2.now) *ℤ inner e.now f.now }
{
    let s = records::codes::step_of(steps, b);
    let s2 = records::codes::step_of(steps2, b2);
    s * s2 * inner::points_inner(e, f)
}

// The sum over k coded blocks and as many others.
pub fn pair_total(
    t: &[i8],
    steps: &[i32],
    body: &[u8],
    steps2: &[i32],
    body2: &[u8],
    q: i64,
    m: usize,
    k: usize,
) -> i64
    requires { TableFor (nat_abs q) t.now × Coder q m steps.now × Coder q m steps2.now × AreBlocks (length steps.now) (code8 (nat_abs q) m) k body.now × AreBlocks (length steps2.now) (code8 (nat_abs q) m) k body2.now × (k ≤ 64) }
    ensures { result ≡ total (block_pair (code8 (nat_abs q) m) steps.now steps2.now) (cut (block_bytes 8 m) k body.now) (cut (block_bytes 8 m) k body2.now) }
{
    let mut rows = [[0; 8]; 64];
    let mut rows2 = [[0; 8]; 64];
    points::whole_points(t, body, q, m, k, &mut rows);
    points::whole_points(t, body2, q, m, k, &mut rows2);
    let n = records::codes::block_size(m);
    let mut z = 0;
    for i in 0..k {
        let b = inner::part(body, n, i);
        let b2 = inner::part(body2, n, i);
        z += block_pair(steps, b, &rows[i], steps2, b2, &rows2[i]);
    }
    z
}

// The same, having the table itself, once for all blocks.
fn pair_body(
    steps: &[i32],
    body: &[u8],
    steps2: &[i32],
    body2: &[u8],
    q: i64,
    m: usize,
    k: usize,
) -> i64
    requires { Coder q m steps.now × Coder q m steps2.now × AreBlocks (length steps.now) (code8 (nat_abs q) m) k body.now × AreBlocks (length steps2.now) (code8 (nat_abs q) m) k body2.now × (k ≤ 64) }
    ensures { result ≡ total (block_pair (code8 (nat_abs q) m) steps.now steps2.now) (cut (block_bytes 8 m) k body.now) (cut (block_bytes 8 m) k body2.now) }
{
    let total = |t: &[i8]| pair_total(t, steps, body, steps2, body2, q, m, k);
    if q == 2 {
        total(&table::layer_points())
    } else {
        total(&[])
    }
}

// Refusals 1, then 2 for the first list and for the second, then the first record whole, then the second.
fn check_pair(
    s: Settings,
    steps: &[i32],
    code: &[u8],
    steps2: &[i32],
    code2: &[u8],
) -> Result<(), Refusal>
    ensures { result ≡ check_pair (code_of s) s steps.now code.now steps2.now code2.now }
{
    asked::check_coder(s, steps)?;
    refusals::steps::check_steps(1, steps2)?;
    let q = settings::digit_values(s);
    let m = settings::layers(s);
    codes::check_codes(code, steps.len(), code2, steps2.len(), q, m)
}

// The score of two code records.
pub fn pair_score(
    s: Settings,
    steps: &[i32],
    code: &[u8],
    steps2: &[i32],
    code2: &[u8],
) -> Result<i64, Refusal>
    ensures answer { result ≡ pair_score (code_of s) s steps.now code.now steps2.now code2.now }
{
    check_pair(s, steps, code, steps2, code2)?;
    let q = settings::base(s);
    let m = settings::layers(s);
    let k = records::codes::blocks_in(code, m);
    Ok(pair_body(steps, &code[4..], steps2, &code2[4..], q, m, k))
}
