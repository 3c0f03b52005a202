// Code records that are scored: the one check of a record, by itself or in a store.
ghost use Rattle.std.specs.Prelude.{◌≡◌, [], ◌∷◌, ◌+◌, ◌^◌, ◌<◌, ◌≤◌, length};
ghost use Rattle.layers.specs.Code.{code8};
ghost use Rattle.records.specs.Codes.{blocks_in};
ghost use Rattle.refusals.specs.Limits.{blocks_most};
ghost use Rattle.refusals.specs.Verdicts.{first_refusal};
ghost use Rattle.scores.specs.Scores.{check_code};

use records::{codes, frames};
use refusals::Refusal;

// Refusal 10 at `place` unless the record is K blocks, K from least to most, then 7, the first byte after the dimension in the place `first`.
pub fn check_code(
    b: &[u8],
    steps: usize,
    q: usize,
    m: usize,
    least: usize,
    most: usize,
    place: usize,
    first: usize,
) -> Result<(), Refusal>
    requires { (m ≤ 256) × (first + length b.now < 2 ^ 64) }
    ensures { result ≡ check_code steps (code8 q m) least most place first b.now }
{
    let size = codes::block_size(m);
    if frames::good_record(b, 1, size, least, most) {
        let k = codes::blocks_in(b, m);
        codes::check_blocks(&b[4..], k, size, steps, q, first)
    } else {
        Err(Refusal::Record(place))
    }
}

// Two records of one K: the first is checked whole, then the second, which must have as many blocks.
pub fn check_codes(
    code: &[u8],
    steps: usize,
    code2: &[u8],
    steps2: usize,
    q: usize,
    m: usize,
) -> Result<(), Refusal>
    requires { m ≤ 256 }
    ensures { result ≡ first_refusal (check_code steps (code8 q m) 1 blocks_most 0 0 code.now ∷ check_code steps2 (code8 q m) (blocks_in (code8 q m) code.now) (blocks_in (code8 q m) code.now) 0 0 code2.now ∷ []) }
{
    check_code(code, steps, q, m, 1, frames::BLOCKS_MOST, 0, 0)?;
    let k = codes::blocks_in(code, m);
    check_code(code2, steps2, q, m, k, k, 0, 0)
}
