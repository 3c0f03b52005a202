// Filling the query table: the sums of X_i·e_i over every layer point, block after block (01, Scores).
ghost use Rattle.std.specs.Prelude.{Ok, ◌≡◌, [], ◌∷◌, ◌++◌, map, ◌+◌, ◌*◌, ◌/◌, ◌^◌, ◌≤◌, pos, nat_abs, length, drop};
ghost use Rattle.integers.specs.Vectors.{Sized};
ghost use Rattle.layers.specs.Digits.{joined, cut};
ghost use Rattle.layers.specs.Sizes.{Base};
ghost use Rattle.records.specs.Eight.Vectors.{units_hour, fvecs_hour, check_readings, UnitsTaken};
ghost use Rattle.refusals.specs.Answers.{valued, written};
ghost use Rattle.refusals.specs.Settings.{check_settings, Allowed};
ghost use Rattle.refusals.specs.Verdicts.{first_refusal};
ghost use Rattle.slices.specs.Slices.{Sizes, point_by};
ghost use Rattle.tables.specs.Filling.{check_table, check_entries, lent_asked, query_table_asked, check_query_table, query_filled, query_table_room};
ghost use Rattle.tables.specs.Groups.{GroupFilled};
ghost use Rattle.tables.specs.Tables.{query_most, part_size, query_part, query_table};

use crate::parts;
use readings::words;
use records::{frames, vectors};
use refusals::settings::Settings;
use refusals::{Refusal, settings};
use scores::hours;
use slices::Halves;

// The greatest q that the table is for.
const QUERY_MOST: usize = 4;

// In the parts of k blocks the entries of one slice, from the first on: the sums of each block's readings with the points that the choices and rests give. All else stays as found.
fn fill_slices(
    q: i16,
    halves: &Halves,
    x: &[i32],
    size: usize,
    k: usize,
    first: usize,
    n: usize,
    entries: &mut [i32],
)
    requires { Sizes q halves.now.choices halves.now.lows halves.now.highs × (n ≡ nat_abs q ^ 7) × Sized (8 * k) (2 ^ 24) x.now × (first + n ≤ size) × (size ≤ 65536) × (k ≤ 64) × (size * k ≤ length entries.old) }
    ensures { GroupFilled size first n (point_by q halves.now.choices halves.now.lows halves.now.highs) x.now entries.old k entries.new }
{
    for b in 0..k {
        let at = 8 * b;
        let end = at + 8;
        let from = size * b + first;
        let to = from + n;
        halves.fill_part(q, &x[at..end], &mut entries[from..to]);
    }
}

// The halves before anything is found. A function of its own: the parts that a compiler makes them of then lie where later arrays do, and take no stack beside them.
fn no_halves() -> Halves
    ensures { (length result.choices ≡ 16384) × (length result.lows ≡ 256) × (length result.highs ≡ 256) }
{
    Halves {
        choices: [0; 16384],
        lows: [[0; 3]; 256],
        highs: [[0; 5]; 256],
    }
}

// The parts of k blocks at the front of the lent table, slice after slice, whose choices and rests are found once for all blocks. The entries past the last part stay as found.
pub fn fill_blocks(x: &[i32], q: i64, k: usize, entries: &mut [i32])
    requires { Base q × (nat_abs q ≤ query_most) × Sized (8 * k) (2 ^ 24) x.now × (part_size (nat_abs q) * k ≤ length entries.old) × (k ≤ 64) }
    ensures { entries.new ≡ joined (map (query_part (nat_abs q)) (cut 8 k x.now)) ++ drop (part_size (nat_abs q) * k) entries.old }
{
    let size = parts::part_size(q);
    let n = size / q as usize;
    let base = q as i16;
    let values = q as u8;
    let mut halves = no_halves();
    for last in 0..values {
        halves.fill(base, last);
        fill_slices(base, &halves, x, size, k, n * last as usize, n, entries);
    }
}

// Refusal 8 where q is past 4.
pub fn check_table(s: Settings) -> Result<(), Refusal>
    requires { Allowed s.q s.m }
    ensures { result ≡ check_table query_most s }
{
    if settings::digit_values(s) <= QUERY_MOST {
        Ok(())
    } else {
        Err(Refusal::Table)
    }
}

// Refusals 1, and 8 where q is past 4.
fn check_q(s: Settings) -> Result<(), Refusal>
    ensures { result ≡ first_refusal (check_settings s ∷ check_table query_most s ∷ []) }
{
    settings::check_settings(s)?;
    check_table(s)
}

// Refusal 3 where the lent table has fewer than K·q^8 entries.
pub fn check_entries(s: Settings, k: usize, room: usize) -> Result<(), Refusal>
    requires { Allowed s.q s.m × (nat_abs s.q ≤ query_most) × (k ≤ 64) }
    ensures { result ≡ check_entries (part_size (nat_abs s.q) * k) room }
{
    if parts::part_size(settings::base(s)) * k <= room {
        Ok(())
    } else {
        Err(Refusal::Size(2))
    }
}

// Of a query in whole units and the lent table: refusal 3 for its count, then for the table, then 5.
pub fn check_units_lent(s: Settings, x: &[i32], room: usize) -> Result<(), Refusal>
    requires { Allowed s.q s.m × (nat_abs s.q ≤ query_most) }
    ensures { result ≡ first_refusal (lent_asked s (units_hour x.now) room ∷ check_readings 0 (units_hour x.now).readings ∷ []) }
{
    if frames::whole_blocks(x.len(), 8, 1, frames::BLOCKS_MOST) {
        check_entries(s, x.len() / 8, room)?;
        vectors::check_units(x)
    } else {
        Err(Refusal::Size(0))
    }
}

// Of a query that is an fvecs record and the lent table, before its readings are taken: refusal 10, then 3.
pub fn check_fvecs_lent(s: Settings, query: &[u8], room: usize) -> Result<(), Refusal>
    requires { Allowed s.q s.m × (nat_abs s.q ≤ query_most) }
    ensures { result ≡ lent_asked s (fvecs_hour query.now) room }
{
    if frames::good_record(query, 4, 8, 1, frames::BLOCKS_MOST) {
        check_entries(s, words::word_at(query, 0) as usize / 8, room)
    } else {
        Err(Refusal::Record(0))
    }
}

// All that is checked of a query in whole units: refusals 1 and 8, then 3 for its count and for the table, and 5.
fn check_units_query(s: Settings, x: &[i32], room: usize) -> Result<(), Refusal>
    ensures { result ≡ check_query_table s (units_hour x.now) room }
{
    check_q(s)?;
    check_units_lent(s, x, room)
}

// All that is checked of a query that is an fvecs record before its readings are taken: refusals 1 and 8, then 10 and 3.
fn check_fvecs_query(s: Settings, query: &[u8], room: usize) -> Result<(), Refusal>
    ensures { result ≡ query_table_asked s (fvecs_hour query.now) room }
{
    check_q(s)?;
    check_fvecs_lent(s, query, room)
}

// The core on X: its table at the front of the lent entries; the value is how many entries these are.
fn fill_units(x: &[i32], q: i64, entries: &mut [i32]) -> Result<i64, Refusal>
    requires { Base q × (nat_abs q ≤ query_most) × UnitsTaken x.now × (part_size (nat_abs q) * (length x.now / 8) ≤ length entries.old) }
    ensures answer { result ≡ valued (Ok tt) (pos (part_size (nat_abs q) * (length x.now / 8))) }
    ensures room { entries.new ≡ written (Ok tt) (query_table (nat_abs q) x.now) entries.old }
{
    let k = x.len() / 8;
    fill_blocks(x, q, k, entries);
    Ok((parts::part_size(q) * k) as i64)
}

// Fills the front of the lent table for a query in whole units; its value is how many entries that are.
pub fn fill_query_table_units(s: Settings, x: &[i32], entries: &mut [i32]) -> Result<i64, Refusal>
    ensures answer { result ≡ query_filled s (units_hour x.now) (length entries.old) }
    ensures room { entries.new ≡ query_table_room s (units_hour x.now) entries.old }
{
    check_units_query(s, x, entries.len())?;
    fill_units(x, settings::base(s), entries)
}

// Fills it for a query that is an fvecs record. All its readings are taken before the first entry is written.
pub fn fill_query_table(s: Settings, query: &[u8], entries: &mut [i32]) -> Result<i64, Refusal>
    ensures answer { result ≡ query_filled s (fvecs_hour query.now) (length entries.old) }
    ensures room { entries.new ≡ query_table_room s (fvecs_hour query.now) entries.old }
{
    check_fvecs_query(s, query, entries.len())?;
    let n = words::word_at(query, 0) as usize;
    let mut x: [i32; hours::READINGS_MOST] = [0; hours::READINGS_MOST];
    vectors::take_readings(query, n, &mut x)?;
    fill_units(&x[0..n], settings::base(s), entries)
}
