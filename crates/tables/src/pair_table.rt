// Filling the pair table: the inner products of each two layer points, for q = 2 (01, Scores).
ghost use Rattle.std.specs.Prelude.{◌≡◌, [], ◌∷◌, ◌++◌, ◌≤◌, length, drop};
ghost use Rattle.layers.specs.Digits.{IsLayer};
ghost use Rattle.layers.specs.E8.{layer_point8};
ghost use Rattle.layers.specs.Table.{layer_table};
ghost use Rattle.refusals.specs.Settings.{Allowed};
ghost use Rattle.refusals.specs.Verdicts.{first_refusal};
ghost use Rattle.tables.specs.Filling.{check_table, check_entries, check_pair_table, pair_filled, pair_table_room};
ghost use Rattle.tables.specs.Tables.{pair_most, pair_size, pair_row, pair_table};

use coding::counting;
use layers::{lookup, table};
use refusals::settings::Settings;
use refusals::{Refusal, settings};
use scores::inner;

// The greatest q that the table is for, and its entries.
const PAIR_MOST: usize = 2;

const PAIR_SIZE: usize = 65536;

// One row: the inner product of the layer point of the digits with each layer point in turn.
fn fill_row(t: &[i8], ds: &[u8], row: &mut [i8])
    requires { (t.now ≡ layer_table) × IsLayer 8 2 ds.now × (length row.old ≡ 256) }
    ensures { row.new ≡ pair_row (layer_point8 2 ds.now) }
{
    let e = lookup::table_point(t, ds);
    let mut js: [u8; 8] = [0; 8];
    for entry in row.iter_mut() {
        let f = lookup::table_point(t, &js);
        *entry = inner::points_inner(&e, &f) as i8;
        counting::count_up(&mut js, 2);
    }
}

// Each of the 256 rows in its own part of the lent table; the entries past the last stay as found.
fn fill_rows(t: &[i8], entries: &mut [i8])
    requires { (t.now ≡ layer_table) × (pair_size ≤ length entries.old) }
    ensures { entries.new ≡ pair_table ++ drop pair_size entries.old }
{
    let mut ds: [u8; 8] = [0; 8];
    for i in 0..256 {
        let from = 256 * i;
        let to = from + 256;
        fill_row(t, &ds, &mut entries[from..to]);
        counting::count_up(&mut ds, 2);
    }
}

// Of a lent pair table and the settings: refusal 8 where q is not 2, 3 where the table is shorter than 65,536.
pub fn check_lent(s: Settings, room: usize) -> Result<(), Refusal>
    requires { Allowed s.q s.m }
    ensures { result ≡ first_refusal (check_table pair_most s ∷ check_entries pair_size room ∷ []) }
{
    if settings::digit_values(s) <= PAIR_MOST {
        if PAIR_SIZE <= room {
            Ok(())
        } else {
            Err(Refusal::Size(2))
        }
    } else {
        Err(Refusal::Table)
    }
}

// Refusal 1, then those of the table.
fn check_pair_table(s: Settings, room: usize) -> Result<(), Refusal>
    ensures { result ≡ check_pair_table s room }
{
    settings::check_settings(s)?;
    check_lent(s, room)
}

// Fills the front of the lent table with the 65,536 entries of the pair table; its value is that number.
pub fn fill_pair_table(s: Settings, entries: &mut [i8]) -> Result<i64, Refusal>
    ensures answer { result ≡ pair_filled s (length entries.old) }
    ensures room { entries.new ≡ pair_table_room s entries.old }
{
    check_pair_table(s, entries.len())?;
    fill_rows(&table::layer_points(), entries);
    Ok(PAIR_SIZE as i64)
}
