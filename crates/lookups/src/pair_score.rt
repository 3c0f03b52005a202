// The pair score of two code records by the pair table, for q = 2: sums of what the lent table holds (01, Scores).
ghost use Rattle.std.specs.Prelude.{◌≡◌, map, ◌*◌, ◌^◌, ◌≤◌, pos, nat_abs, length};
ghost use Rattle.integers.specs.Vectors.{«at»};
ghost use Rattle.layers.specs.Digits.{Below, IsCode, cut, entry_of};
ghost use Rattle.records.specs.Eight.Codes.{Coder, IsBlock, AreBlocks, block_size};
ghost use Rattle.refusals.specs.Limits.{m_most};
ghost use Rattle.scores.specs.Scores.{total};
ghost use Rattle.lookups.specs.Laws.Sums.{power_sum};
ghost use Rattle.lookups.specs.Scoring.{block_pair_by, check_pair_by, pair_score_by};
ghost use Rattle.tables.specs.Tables.{pair_size};

use layers::lookup;
use records::{asked, codes};
use refusals::settings::Settings;
use refusals::{Refusal, settings};
use tables::pair_table;

// The entry numbers of M layers, layer 0 first.
fn entry_numbers<const M: usize>(ds: &[u8]) -> [usize; M]
    requires { (M ≤ m_most) × IsCode 8 2 M ds.now }
    ensures { result ≡ map (entry_of 2) (cut 8 M ds.now) }
{
    let mut numbers: [usize; M] = [0; M];
    for i in 0..M {
        let at = 8 * i;
        let end = at + 8;
        numbers[i] = lookup::entry_number(&ds[at..end], 2);
    }
    numbers
}

// The entries of one row of the table in M places, from the last down: each, and twice what those after it gave.
fn row_sum<const M: usize>(row: &[i8], numbers: &[usize; M]) -> i64
    requires { (length row.now ≡ 256) × (M ≤ m_most) × Below 256 numbers.now }
    ensures value { result ≡ power_sum 2 (map («at» row.now) numbers.now) }
    ensures small { nat_abs result ≤ 2 ^ 7 * 2 ^ m_most }
{
    let mut z: i64 = 0;
    for i in (0..M).rev() {
        z = row[numbers[i]] as i64 + 2 * z;
    }
    z
}

// Two coded blocks, from the first one's top layer down: the sum of its row, and twice what the layers above it gave; all of it s·t times.
fn block_pair_by<const M: usize>(
    table: &[i8],
    steps: &[i32],
    b: &[u8],
    steps2: &[i32],
    b2: &[u8],
) -> i64
    requires { Coder (pos 2) M steps.now × Coder (pos 2) M steps2.now × IsBlock (length steps.now) 2 M b.now × IsBlock (length steps2.now) 2 M b2.now × (pair_size ≤ length table.now) }
    ensures value { result ≡ block_pair_by M steps.now steps2.now table.now b.now b2.now }
    ensures small { nat_abs result ≤ 2 ^ 35 }
{
    let numbers: [usize; M] = entry_numbers(&b2[1..]);
    let mut z: i64 = 0;
    for i in (0..M).rev() {
        let at = 8 * i + 1;
        let end = at + 8;
        let from = 256 * lookup::entry_number(&b[at..end], 2);
        let to = from + 256;
        z = row_sum(&table[from..to], &numbers) + 2 * z;
    }
    codes::step_of(steps, b) * codes::step_of(steps2, b2) * z
}

// The sum over k coded blocks and as many others.
fn total_by<const M: usize>(
    table: &[i8],
    steps: &[i32],
    body: &[u8],
    steps2: &[i32],
    body2: &[u8],
    k: usize,
) -> i64
    requires { Coder (pos 2) M steps.now × Coder (pos 2) M steps2.now × AreBlocks (length steps.now) 2 M k body.now × AreBlocks (length steps2.now) 2 M k body2.now × (pair_size ≤ length table.now) × (k ≤ 64) }
    ensures { result ≡ total (block_pair_by M steps.now steps2.now table.now) (cut (block_size M) k body.now) (cut (block_size M) k body2.now) }
{
    let n = codes::block_size(M);
    let mut z: i64 = 0;
    for i in 0..k {
        let at = n * i;
        let end = at + n;
        z += block_pair_by::<M>(table, steps, &body[at..end], steps2, &body2[at..end]);
    }
    z
}

// The same for each M there is, so that a compiler makes a line of the layers; no layers give 0.
pub fn pair_total_by(
    table: &[i8],
    steps: &[i32],
    body: &[u8],
    steps2: &[i32],
    body2: &[u8],
    m: usize,
    k: usize,
) -> i64
    requires { Coder (pos 2) m steps.now × Coder (pos 2) m steps2.now × AreBlocks (length steps.now) 2 m k body.now × AreBlocks (length steps2.now) 2 m k body2.now × (pair_size ≤ length table.now) × (k ≤ 64) }
    ensures { result ≡ total (block_pair_by m steps.now steps2.now table.now) (cut (block_size m) k body.now) (cut (block_size m) k body2.now) }
{
    match m {
        0 => 0,
        1 => total_by::<1>(table, steps, body, steps2, body2, k),
        2 => total_by::<2>(table, steps, body, steps2, body2, k),
        3 => total_by::<3>(table, steps, body, steps2, body2, k),
        _ => total_by::<4>(table, steps, body, steps2, body2, k),
    }
}

// Refusals 1, 2 for the first list and for the second, those of the table, then the first record whole, then the second.
fn check_pair_by(
    s: Settings,
    steps: &[i32],
    code: &[u8],
    steps2: &[i32],
    code2: &[u8],
    room: usize,
) -> Result<(), Refusal>
    ensures { result ≡ check_pair_by s steps.now code.now steps2.now code2.now room }
{
    asked::check_coder(s, steps)?;
    refusals::steps::check_steps(1, steps2)?;
    pair_table::check_lent(s, room)?;
    let q = settings::digit_values(s);
    let m = settings::layers(s);
    scores::codes::check_codes(code, steps.len(), code2, steps2.len(), q, m)
}

// The score of two code records by the lent table.
pub fn pair_score_by_table(
    s: Settings,
    steps: &[i32],
    code: &[u8],
    steps2: &[i32],
    code2: &[u8],
    table: &[i8],
) -> Result<i64, Refusal>
    ensures answer { result ≡ pair_score_by s steps.now code.now steps2.now code2.now table.now }
{
    check_pair_by(s, steps, code, steps2, code2, table.len())?;
    let m = settings::layers(s);
    let k = codes::blocks_in(code, m);
    Ok(pair_total_by(table, steps, &code[4..], steps2, &code2[4..], m, k))
}
