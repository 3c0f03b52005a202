// Code records: the one check that decoding, scores and searches make (01, When the unit says no).
ghost use Rattle.std.specs.Prelude.{◌≡◌, true, ◌+◌, ◌*◌, ◌/◌, ◌^◌, ◌<◌, ◌≤◌, length, get_or};
ghost use Rattle.layers.specs.Digits.{cut};
ghost use Rattle.readings.specs.Words.{word_at};
ghost use Rattle.records.specs.Codes.{block_bytes, step_of, check_block, check_blocks, AllAccepted, Raised};
ghost use Rattle.refusals.specs.Limits.{m_most};

use coding::asked;
use readings::words;
use refusals::Refusal;

// The bytes of a block of m layers.
pub fn block_size(m: usize) -> usize
    requires { m ≤ 256 }
    ensures { result ≡ block_bytes 8 m }
{
    8 * m + 1
}

// K of a code record whose dimension is there.
pub fn blocks_in(b: &[u8], m: usize) -> usize
    requires { (m ≤ 256) × (4 ≤ length b.now) }
    ensures { result ≡ word_at b.now 0 / block_bytes 8 m }
{
    words::word_at(b, 0) as usize / block_size(m)
}

// The step that a coded block names.
pub fn step_of(steps: &[i32], b: &[u8]) -> i64
    requires { (1 ≤ length b.now) × (get_or b.now 0 0 < length steps.now) }
    ensures { result ≡ step_of steps.now b.now }
{
    steps[b[0] as usize] as i64
}

// Refusal 7 in a block whose first byte has the place `first`: T not below the number of steps, or a digit not below q.
fn check_block(b: &[u8], steps: usize, q: usize, first: usize) -> Result<(), Refusal>
    requires { (1 ≤ length b.now) × (first + length b.now < 2 ^ 64) }
    ensures { result ≡ check_block steps q first b.now }
{
    if integers::wide(b[0]) < steps {
        asked::check_below(&b[1..], q, first + 1)
    } else {
        Err(Refusal::Byte(first))
    }
}

// 1 where a block's first byte names no step, else 0.
fn fault(t: u8, steps: usize) -> usize
    ensures { (result ≤ 1) × (result ≡ 0 → t < steps) }
{
    if integers::wide(t) < steps { 0 } else { 1 }
}

// Eight digits, and what was found of those before: the greater of each two.
fn raised(top: &[u8; 8], ds: &[u8], at: usize) -> [u8; 8]
    requires { (length top.now ≡ 8) × (at + 8 ≤ length ds.now) }
    ensures { Raised top.now ds.now at 8 result }
{
    std::array::from_fn(|i| asked::larger(top[i], ds[at + i]))
}

// Whether k blocks of M layers have only steps and digits that there are: the greatest digits side by side, and the faults of the first bytes, without a jump for any.
fn all_below<const M: usize>(body: &[u8], k: usize, steps: usize, q: usize) -> bool
    requires { (M ≤ m_most) × (block_bytes 8 M * k ≤ length body.now) }
    ensures { result ≡ true → AllAccepted steps q (block_bytes 8 M) k body.now }
{
    let n = block_size(M);
    let mut faults: usize = 0;
    let mut top: [u8; 8] = [0; 8];
    for i in 0..k {
        let at = n * i;
        faults += fault(body[at], steps);
        for j in 0..M {
            top = raised(&top, body, at + 1 + 8 * j);
        }
    }
    if faults == 0 {
        (asked::greatest(&top) as usize) < q
    } else {
        false
    }
}

// The same with each size of a block as a constant, so that a compiler knows how many layers there are. Of another size it says nothing.
fn all_good(body: &[u8], k: usize, n: usize, steps: usize, q: usize) -> bool
    requires { n * k ≤ length body.now }
    ensures { result ≡ true → AllAccepted steps q n k body.now }
{
    match n {
        9 => all_below::<1>(body, k, steps, q),
        17 => all_below::<2>(body, k, steps, q),
        25 => all_below::<3>(body, k, steps, q),
        33 => all_below::<4>(body, k, steps, q),
        _ => false,
    }
}

// Refusal 7 at the first byte at fault of k blocks of n bytes, the first byte in the place `first`: block by block.
fn first_fault(
    body: &[u8],
    k: usize,
    n: usize,
    steps: usize,
    q: usize,
    first: usize,
) -> Result<(), Refusal>
    requires { (1 ≤ n) × (n * k ≤ length body.now) × (first + length body.now < 2 ^ 64) }
    ensures { result ≡ check_blocks steps q n first (cut n k body.now) }
{
    for i in 0..k {
        let at = n * i;
        let end = at + n;
        check_block(&body[at..end], steps, q, first + at)?;
    }
    Ok(())
}

// The same, at a glance where every byte is good, as in most records.
pub fn check_blocks(
    body: &[u8],
    k: usize,
    n: usize,
    steps: usize,
    q: usize,
    first: usize,
) -> Result<(), Refusal>
    requires { (1 ≤ n) × (n * k ≤ length body.now) × (first + length body.now < 2 ^ 64) }
    ensures { result ≡ check_blocks steps q n first (cut n k body.now) }
{
    if all_good(body, k, n, steps, q) {
        return Ok(());
    }
    first_fault(body, k, n, steps, q, first)
}
