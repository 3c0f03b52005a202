// The one check of a store, whatever it is searched by (01, When the unit says no).
ghost use Rattle.std.specs.Prelude.{◌≡◌, ◌+◌, ◌^◌, ◌<◌, ◌≤◌, length, take};
ghost use Rattle.records.specs.Eight.Codes.{code_length};
ghost use Rattle.scores.specs.Eight.Scores.{check_code};
ghost use Rattle.stores.specs.Stores.{pieces, check_records, check_store};

use records::codes;
use refusals::Refusal;

// The bytes of a code record of k blocks, its dimension included.
pub(crate) fn code_length(m: usize, k: usize) -> usize
    requires { (m ≤ 256) × (k ≤ 64) }
    ensures { result ≡ code_length m k }
{
    4 + codes::block_size(m) * k
}

// Refusal 10 or 7 of the piece of n bytes that stands first in the rest of a store, from its byte `at` on; the last piece may be shorter.
fn check_piece(
    rest: &[u8],
    n: usize,
    steps: usize,
    q: usize,
    m: usize,
    k: usize,
    at: usize,
) -> Result<(), Refusal>
    requires { (m ≤ 256) × (at + 4 + length rest.now < 2 ^ 64) }
    ensures { result ≡ check_code steps q m k k at (at + 4) (take n rest.now) }
{
    if n < rest.len() {
        scores::codes::check_code(&rest[0..n], steps, q, m, k, k, at, at + 4)
    } else {
        scores::codes::check_code(rest, steps, q, m, k, k, at, at + 4)
    }
}

// Refusal 10 or 7 of the first record at fault.
fn check_records(store: &[u8], steps: usize, q: usize, m: usize, k: usize) -> Result<(), Refusal>
    requires { (m ≤ 256) × (k ≤ 64) }
    ensures { result ≡ check_records steps q m k 0 (pieces (code_length m k) store.now) }
{
    let n = code_length(m, k);
    for at in (0..store.len()).step_by(n) {
        check_piece(&store[at..], n, steps, q, m, k, at)?;
    }
    Ok(())
}

// Refusal 11 for a store of no bytes, then its records in turn.
pub(crate) fn check_store(
    store: &[u8],
    steps: usize,
    q: usize,
    m: usize,
    k: usize,
) -> Result<(), Refusal>
    requires { (m ≤ 256) × (k ≤ 64) }
    ensures { result ≡ check_store steps q m k store.now }
{
    if 0 < store.len() {
        check_records(store, steps, q, m, k)
    } else {
        Err(Refusal::EmptyStore)
    }
}
