// The best hour of a store by a lent table, which is filled for the query; q is 2, 3 or 4 (01, Scores).
ghost use Rattle.std.specs.Prelude.{◌≡◌, [], ◌∷◌, ◌*◌, ◌/◌, ◌≤◌, nat_abs, length};
ghost use Rattle.records.specs.Eight.Asked.{CoderTaken};
ghost use Rattle.records.specs.Eight.Vectors.{units_hour, fvecs_hour, check_readings, UnitsTaken};
ghost use Rattle.refusals.specs.Answers.{written};
ghost use Rattle.refusals.specs.Settings.{check_settings};
ghost use Rattle.refusals.specs.Steps.{check_steps};
ghost use Rattle.refusals.specs.Verdicts.{first_refusal};
ghost use Rattle.stores.specs.Stores.{best_in, check_store, found};
ghost use Rattle.stores.specs.Tabled.{table_asked, best_hour_by, best_hour_table};
ghost use Rattle.tables.specs.Filling.{check_table};
ghost use Rattle.tables.specs.Tables.{query_most, part_size, query_table};

use crate::{Best, checks, search};
use readings::words;
use records::{asked, vectors};
use refusals::settings::Settings;
use refusals::{Refusal, settings};
use scores::hours;
use tables::query_table;

// Refusals 1 and 2, and 8 where q is past 4.
fn check_coder_table(s: Settings, steps: &[i32]) -> Result<(), Refusal>
    ensures { result ≡ first_refusal (check_settings s ∷ check_steps 0 steps.now ∷ check_table query_most s ∷ []) }
{
    asked::check_coder(s, steps)?;
    query_table::check_table(s)
}

// These, then all that is checked of a query in whole units: 3 for its count and for the table, and 5.
fn check_units_asked(s: Settings, steps: &[i32], x: &[i32], room: usize) -> Result<(), Refusal>
    ensures { result ≡ first_refusal (table_asked s steps.now (units_hour x.now) room ∷ check_readings 0 (units_hour x.now).readings ∷ []) }
{
    check_coder_table(s, steps)?;
    query_table::check_units_lent(s, x, room)
}

// Or of a query that is an fvecs record before its readings are taken: 10, and 3 for the table.
fn check_fvecs_asked(s: Settings, steps: &[i32], query: &[u8], room: usize) -> Result<(), Refusal>
    ensures { result ≡ table_asked s steps.now (fvecs_hour query.now) room }
{
    check_coder_table(s, steps)?;
    query_table::check_fvecs_lent(s, query, room)
}

// The core on X: the store is checked whole, the table is filled, and each record's score is looked up.
fn search_units_by(
    s: Settings,
    steps: &[i32],
    x: &[i32],
    store: &[u8],
    entries: &mut [i32],
) -> Result<Best, Refusal>
    requires { CoderTaken s steps.now × UnitsTaken x.now × (nat_abs s.q ≤ query_most) × (part_size (nat_abs s.q) * (length x.now / 8) ≤ length entries.old) }
    ensures answer { result ≡ found (check_store (length steps.now) (nat_abs s.q) (nat_abs s.m) (length x.now / 8) store.now) (best_in (nat_abs s.q) (nat_abs s.m) steps.now x.now (length x.now / 8) store.now) }
    ensures room { entries.new ≡ written (check_store (length steps.now) (nat_abs s.q) (nat_abs s.m) (length x.now / 8) store.now) (query_table (nat_abs s.q) x.now) entries.old }
{
    let k = x.len() / 8;
    let m = settings::layers(s);
    checks::check_store(store, steps.len(), settings::digit_values(s), m, k)?;
    let q = settings::base(s);
    query_table::fill_blocks(x, q, k, entries);
    Ok(search::best_body(entries, steps, x, store, q, m, k))
}

// The best hour for a query in whole units, whose table is filled on acceptance.
pub fn best_hour_with_table_units(
    s: Settings,
    steps: &[i32],
    x: &[i32],
    store: &[u8],
    entries: &mut [i32],
) -> Result<Best, Refusal>
    ensures answer { result ≡ best_hour_by s steps.now (units_hour x.now) store.now (length entries.old) }
    ensures room { entries.new ≡ best_hour_table s steps.now (units_hour x.now) store.now entries.old }
{
    check_units_asked(s, steps, x, entries.len())?;
    search_units_by(s, steps, x, store, entries)
}

// The best hour for a query that is an fvecs record. All that can be refused is checked before the first entry is written.
pub fn best_hour_with_table(
    s: Settings,
    steps: &[i32],
    query: &[u8],
    store: &[u8],
    entries: &mut [i32],
) -> Result<Best, Refusal>
    ensures answer { result ≡ best_hour_by s steps.now (fvecs_hour query.now) store.now (length entries.old) }
    ensures room { entries.new ≡ best_hour_table s steps.now (fvecs_hour query.now) store.now entries.old }
{
    check_fvecs_asked(s, steps, query, entries.len())?;
    let n = words::word_at(query, 0) as usize;
    let mut x: [i32; hours::READINGS_MOST] = [0; hours::READINGS_MOST];
    vectors::take_readings(query, n, &mut x)?;
    search_units_by(s, steps, &x[0..n], store, entries)
}
