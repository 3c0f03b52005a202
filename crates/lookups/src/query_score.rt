// The query score of a code record by the query table: sums of what the lent table holds (01, Scores).
ghost use Rattle.std.specs.Prelude.{◌≡◌, ◌*◌, ◌^◌, ◌≤◌, pos, nat_abs, length};
ghost use Rattle.layers.specs.Digits.{cut};
ghost use Rattle.records.specs.Eight.Codes.{Coder, IsBlock, AreBlocks, block_size};
ghost use Rattle.scores.specs.Scores.{total};
ghost use Rattle.records.specs.Eight.Asked.{CoderTaken};
ghost use Rattle.refusals.specs.Answers.{valued};
ghost use Rattle.lookups.specs.Scoring.{block_query_by, query_total_by, record_by, query_score_by};
ghost use Rattle.tables.specs.Tables.{query_most, part_size};

use layers::lookup;
use records::{asked, codes, frames};
use refusals::settings::Settings;
use refusals::{Refusal, settings};
use tables::{parts, query_table};

// A coded block by its part of the table, from the top layer down: its entry, and q times what the layers above it gave; all of it s times.
fn block_query_by<const Q: usize, const M: usize>(part: &[i32], steps: &[i32], b: &[u8]) -> i64
    requires { Coder (pos Q) M steps.now × IsBlock (length steps.now) Q M b.now × (Q ≤ query_most) × (length part.now ≡ part_size Q) }
    ensures value { result ≡ block_query_by Q M steps.now part.now b.now }
    ensures small { nat_abs result ≤ 2 ^ 53 }
{
    let mut z: i64 = 0;
    for i in (0..M).rev() {
        let at = 8 * i + 1;
        let end = at + 8;
        let n = lookup::entry_number(&b[at..end], Q);
        z = part[n] as i64 + Q as i64 * z;
    }
    codes::step_of(steps, b) * z
}

// The sum over k coded blocks, each by its own part of the table.
fn total_by<const Q: usize, const M: usize>(
    table: &[i32],
    steps: &[i32],
    body: &[u8],
    k: usize,
) -> i64
    requires { Coder (pos Q) M steps.now × AreBlocks (length steps.now) Q M k body.now × (Q ≤ query_most) × (part_size Q * k ≤ length table.now) × (k ≤ 64) }
    ensures { result ≡ total (block_query_by Q M steps.now) (cut (part_size Q) k table.now) (cut (block_size M) k body.now) }
{
    let size = parts::part_size(Q as i64);
    let n = codes::block_size(M);
    let mut z: i64 = 0;
    for i in 0..k {
        let from = size * i;
        let to = from + size;
        let at = n * i;
        let end = at + n;
        z += block_query_by::<Q, M>(&table[from..to], steps, &body[at..end]);
    }
    z
}

// The same for each M there is, so that a compiler makes a line of the layers; no layers give 0.
fn layers_total_by<const Q: usize>(
    table: &[i32],
    steps: &[i32],
    body: &[u8],
    m: usize,
    k: usize,
) -> i64
    requires { Coder (pos Q) m steps.now × AreBlocks (length steps.now) Q m k body.now × (Q ≤ query_most) × (part_size Q * k ≤ length table.now) × (k ≤ 64) }
    ensures { result ≡ total (block_query_by Q m steps.now) (cut (part_size Q) k table.now) (cut (block_size m) k body.now) }
{
    match m {
        0 => 0,
        1 => total_by::<Q, 1>(table, steps, body, k),
        2 => total_by::<Q, 2>(table, steps, body, k),
        3 => total_by::<Q, 3>(table, steps, body, k),
        _ => total_by::<Q, 4>(table, steps, body, k),
    }
}

// The same for each q that there is a table for, so that a compiler makes shifts of the products with q.
pub fn query_total_by(table: &[i32], steps: &[i32], body: &[u8], q: i64, m: usize, k: usize) -> i64
    requires { Coder q m steps.now × AreBlocks (length steps.now) (nat_abs q) m k body.now × (nat_abs q ≤ query_most) × (part_size (nat_abs q) * k ≤ length table.now) × (k ≤ 64) }
    ensures { result ≡ total (block_query_by (nat_abs q) m steps.now) (cut (part_size (nat_abs q)) k table.now) (cut (block_size m) k body.now) }
{
    match q {
        2 => layers_total_by::<2>(table, steps, body, m, k),
        3 => layers_total_by::<3>(table, steps, body, m, k),
        _ => layers_total_by::<4>(table, steps, body, m, k),
    }
}

// Of a record and the lent table: refusal 10, 3 where the table is shorter than K·q^8 with the record's K, then 7; else its score.
fn score_record(s: Settings, steps: &[i32], code: &[u8], table: &[i32]) -> Result<i64, Refusal>
    requires { CoderTaken s steps.now × (nat_abs s.q ≤ query_most) }
    ensures { result ≡ valued (record_by (length steps.now) (nat_abs s.q) (nat_abs s.m) code.now (length table.now)) (query_total_by (nat_abs s.q) (nat_abs s.m) steps.now table.now code.now) }
{
    let m = settings::layers(s);
    let size = codes::block_size(m);
    if frames::good_record(code, 1, size, 1, frames::BLOCKS_MOST) {
        let k = codes::blocks_in(code, m);
        query_table::check_entries(s, k, table.len())?;
        let q = settings::digit_values(s);
        codes::check_blocks(&code[4..], k, size, steps.len(), q, 0)?;
        Ok(query_total_by(table, steps, &code[4..], settings::base(s), m, k))
    } else {
        Err(Refusal::Record(0))
    }
}

// The score of a code record by the lent table: refusals 1, 2 and 8, then those of the record and the table.
pub fn query_score_by_table(
    s: Settings,
    steps: &[i32],
    code: &[u8],
    table: &[i32],
) -> Result<i64, Refusal>
    ensures answer { result ≡ query_score_by s steps.now code.now table.now }
{
    asked::check_coder(s, steps)?;
    query_table::check_table(s)?;
    score_record(s, steps, code, table)
}
