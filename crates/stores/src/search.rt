// The best hour of a store by plain scores, for a query in either form (01, Scores).
ghost use Rattle.std.specs.Prelude.{◌≡◌, ◌*◌, ◌/◌, ◌^◌, ◌≤◌, nat_abs, length};
ghost use Rattle.integers.specs.Vectors.{Sized};
ghost use Rattle.layers.specs.Table.{TableFor};
ghost use Rattle.records.specs.Eight.Codes.{Coder};
ghost use Rattle.records.specs.Eight.Asked.{CoderTaken, RecordTaken};
ghost use Rattle.records.specs.Eight.Vectors.{units_hour, fvecs_hour, UnitsTaken};
ghost use Rattle.scores.specs.Eight.Scores.{query_total};
ghost use Rattle.stores.specs.Tabled.{LookUp};
ghost use Rattle.stores.specs.Stores.{StoreTaken, best_in, check_store, found, best_hour};

use crate::{Best, checks};
use layers::table;
use lookups::query_score;
use readings::words;
use refusals::settings::Settings;
use refusals::{Refusal, settings};
use scores::{hours, query};

// The score of readings X with one record: looked up where entries are lent, and else summed from its points, for which the rows are lent.
fn record_total(
    t: &[i8],
    entries: &[i32],
    steps: &[i32],
    x: &[i32],
    code: &[u8],
    q: i64,
    m: usize,
    k: usize,
    rows: &mut [[i16; 8]; 64],
) -> i64
    requires { TableFor (nat_abs q) t.now × LookUp (nat_abs q) x.now entries.now × Coder q m steps.now × Sized (8 * k) (2 ^ 24) x.now × RecordTaken (length steps.now) (nat_abs q) m k k code.now × (k ≤ 64) × (length rows.old ≡ 64) }
    ensures answer { result ≡ query_total (nat_abs q) m steps.now x.now code.now }
    ensures room { length rows.new ≡ 64 }
{
    if entries.len() == 0 {
        query::query_total(t, steps, x, &code[4..], q, m, k, rows)
    } else {
        query_score::query_total_by(entries, steps, &code[4..], q, m, k)
    }
}

// The best of the store's records, each of k blocks, one after the other.
fn best_of(
    t: &[i8],
    entries: &[i32],
    steps: &[i32],
    x: &[i32],
    store: &[u8],
    q: i64,
    m: usize,
    k: usize,
) -> Best
    requires { TableFor (nat_abs q) t.now × LookUp (nat_abs q) x.now entries.now × Coder q m steps.now × Sized (8 * k) (2 ^ 24) x.now × StoreTaken (length steps.now) (nat_abs q) m k store.now × (k ≤ 64) }
    ensures { result ≡ best_in (nat_abs q) m steps.now x.now k store.now }
{
    let n = checks::code_length(m, k);
    let count = store.len() / n;
    let mut rows: [[i16; 8]; 64] = [[0; 8]; 64];
    let mut best = Best {
        hour: 0,
        score: record_total(t, entries, steps, x, &store[0..n], q, m, k, &mut rows),
    };
    for i in 1..count {
        let at = n * i;
        let end = at + n;
        let z = record_total(t, entries, steps, x, &store[at..end], q, m, k, &mut rows);
        best = crate::better(best, i, z);
    }
    best
}

// The same, having the fixed table of layer points itself, once for all records.
pub(crate) fn best_body(
    entries: &[i32],
    steps: &[i32],
    x: &[i32],
    store: &[u8],
    q: i64,
    m: usize,
    k: usize,
) -> Best
    requires { LookUp (nat_abs q) x.now entries.now × Coder q m steps.now × Sized (8 * k) (2 ^ 24) x.now × StoreTaken (length steps.now) (nat_abs q) m k store.now × (k ≤ 64) }
    ensures { result ≡ best_in (nat_abs q) m steps.now x.now k store.now }
{
    let best = |t: &[i8]| best_of(t, entries, steps, x, store, q, m, k);
    if q == 2 {
        best(&table::layer_points())
    } else {
        best(&[])
    }
}

// The core on X: the store is checked whole, with as many blocks a record as there are of X, then searched.
fn search_units(s: Settings, steps: &[i32], x: &[i32], store: &[u8]) -> Result<Best, Refusal>
    requires { CoderTaken s steps.now × UnitsTaken x.now }
    ensures { result ≡ found (check_store (length steps.now) (nat_abs s.q) (nat_abs s.m) (length x.now / 8) store.now) (best_in (nat_abs s.q) (nat_abs s.m) steps.now x.now (length x.now / 8) store.now) }
{
    let k = x.len() / 8;
    let m = settings::layers(s);
    checks::check_store(store, steps.len(), settings::digit_values(s), m, k)?;
    Ok(best_body(&x[0..0], steps, x, store, settings::base(s), m, k))
}

// The best hour for a query in whole units.
pub fn best_hour_units(s: Settings, steps: &[i32], x: &[i32], store: &[u8]) -> Result<Best, Refusal>
    ensures answer { result ≡ best_hour s steps.now (units_hour x.now) store.now }
{
    hours::check_units_hour(s, steps, x)?;
    search_units(s, steps, x, store)
}

// The best hour for a query that is an fvecs record.
pub fn best_hour(s: Settings, steps: &[i32], query: &[u8], store: &[u8]) -> Result<Best, Refusal>
    ensures answer { result ≡ best_hour s steps.now (fvecs_hour query.now) store.now }
{
    let mut x: [i32; hours::READINGS_MOST] = [0; hours::READINGS_MOST];
    hours::take_fvecs_hour(s, steps, query, &mut x)?;
    let n = words::word_at(query, 0) as usize;
    search_units(s, steps, &x[0..n], store)
}
