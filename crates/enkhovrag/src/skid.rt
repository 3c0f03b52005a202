// For the skid: hours as records, scores, tables, the best hour of a store.
ghost use Rattle.std.specs.Prelude.{◌≡◌, length};
ghost use Rattle.decoding.specs.Decode.{decoded, decoded_room};
ghost use Rattle.layers.specs.Code.{code_of};
ghost use Rattle.encoding.specs.Encode.{encoded, encoded_room};
ghost use Rattle.records.specs.Eight.Vectors.{units_hour, fvecs_hour};
ghost use Rattle.scores.specs.Eight.Scores.{pair_score, query_score};
ghost use Rattle.stores.specs.Stores.{best_hour};
ghost use Rattle.stores.specs.Tabled.{best_hour_by, best_hour_table};
ghost use Rattle.tables.specs.Filling.{pair_filled, pair_table_room, query_filled, query_table_room};
ghost use Rattle.lookups.specs.Scoring.{pair_score_by, query_score_by};
ghost use Rattle.enkhovrag.specs.Answers.{settings, answer_out, hour_out};

use crate::answers;
use crate::answers::{EkAnswer, EkHour, EkSettings};

// Codes an hour that is an fvecs record as a bvecs record at the front of the lent bytes (01, Bytes).
#[unsafe(no_mangle)]
pub extern "C" fn ek_encode(s: EkSettings, steps: &[i32], hour: &[u8], out: &mut [u8]) -> EkAnswer
    ensures answer { result ≡ answer_out (encoded (code_of (settings s)) (settings s) steps.now (fvecs_hour hour.now) (length out.old)) }
    ensures room { out.new ≡ encoded_room (code_of (settings s)) (settings s) steps.now (fvecs_hour hour.now) out.old }
{
    answers::answer_out(encoding::encode(answers::settings_in(s), steps, hour, out))
}

// The same of an hour in whole units of 1/1024.
#[unsafe(no_mangle)]
pub extern "C" fn ek_encode_units(
    s: EkSettings,
    steps: &[i32],
    units: &[i32],
    out: &mut [u8],
) -> EkAnswer
    ensures answer { result ≡ answer_out (encoded (code_of (settings s)) (settings s) steps.now (units_hour units.now) (length out.old)) }
    ensures room { out.new ≡ encoded_room (code_of (settings s)) (settings s) steps.now (units_hour units.now) out.old }
{
    answers::answer_out(encoding::encode_units(answers::settings_in(s), steps, units, out))
}

// Decodes a bvecs record as an fvecs record at the front of the lent bytes.
#[unsafe(no_mangle)]
pub extern "C" fn ek_decode(s: EkSettings, steps: &[i32], code: &[u8], out: &mut [u8]) -> EkAnswer
    ensures answer { result ≡ answer_out (decoded (settings s) steps.now code.now (length out.old)) }
    ensures room { out.new ≡ decoded_room (settings s) steps.now code.now out.old }
{
    answers::answer_out(decoding::decode(answers::settings_in(s), steps, code, out))
}

// The pair score of two bvecs records, each with its own steps (01, Scores).
#[unsafe(no_mangle)]
pub extern "C" fn ek_pair_score(
    s: EkSettings,
    steps0: &[i32],
    record0: &[u8],
    steps1: &[i32],
    record1: &[u8],
) -> EkAnswer
    ensures { result ≡ answer_out (pair_score (settings s) steps0.now record0.now steps1.now record1.now) }
{
    answers::answer_out(scores::pair::pair_score(
        answers::settings_in(s),
        steps0,
        record0,
        steps1,
        record1,
    ))
}

// The query score of an fvecs record with a bvecs record.
#[unsafe(no_mangle)]
pub extern "C" fn ek_query_score(
    s: EkSettings,
    steps: &[i32],
    query: &[u8],
    code: &[u8],
) -> EkAnswer
    ensures { result ≡ answer_out (query_score (settings s) steps.now (fvecs_hour query.now) code.now) }
{
    answers::answer_out(scores::query::query_score(answers::settings_in(s), steps, query, code))
}

// Fills the pair table, 65,536 entries.
#[unsafe(no_mangle)]
pub extern "C" fn ek_fill_pair_table(s: EkSettings, table: &mut [i8]) -> EkAnswer
    ensures answer { result ≡ answer_out (pair_filled (settings s) (length table.old)) }
    ensures room { table.new ≡ pair_table_room (settings s) table.old }
{
    answers::answer_out(tables::pair_table::fill_pair_table(answers::settings_in(s), table))
}

// Fills the query table of an fvecs record, K·q^8 entries.
#[unsafe(no_mangle)]
pub extern "C" fn ek_fill_query_table(s: EkSettings, query: &[u8], table: &mut [i32]) -> EkAnswer
    ensures answer { result ≡ answer_out (query_filled (settings s) (fvecs_hour query.now) (length table.old)) }
    ensures room { table.new ≡ query_table_room (settings s) (fvecs_hour query.now) table.old }
{
    answers::answer_out(tables::query_table::fill_query_table(
        answers::settings_in(s),
        query,
        table,
    ))
}

// The pair score by a lent table.
#[unsafe(no_mangle)]
pub extern "C" fn ek_pair_score_by_table(
    s: EkSettings,
    steps0: &[i32],
    record0: &[u8],
    steps1: &[i32],
    record1: &[u8],
    table: &[i8],
) -> EkAnswer
    ensures { result ≡ answer_out (pair_score_by (settings s) steps0.now record0.now steps1.now record1.now table.now) }
{
    answers::answer_out(lookups::pair_score::pair_score_by_table(
        answers::settings_in(s),
        steps0,
        record0,
        steps1,
        record1,
        table,
    ))
}

// The query score by a lent table.
#[unsafe(no_mangle)]
pub extern "C" fn ek_query_score_by_table(
    s: EkSettings,
    steps: &[i32],
    code: &[u8],
    table: &[i32],
) -> EkAnswer
    ensures { result ≡ answer_out (query_score_by (settings s) steps.now code.now table.now) }
{
    answers::answer_out(lookups::query_score::query_score_by_table(
        answers::settings_in(s),
        steps,
        code,
        table,
    ))
}

// The best hour of a store for an fvecs record.
#[unsafe(no_mangle)]
pub extern "C" fn ek_best_hour(s: EkSettings, steps: &[i32], query: &[u8], store: &[u8]) -> EkHour
    ensures { result ≡ hour_out (best_hour (settings s) steps.now (fvecs_hour query.now) store.now) }
{
    answers::hour_out(stores::search::best_hour(answers::settings_in(s), steps, query, store))
}

// The same by a query table, filled in the lent room.
#[unsafe(no_mangle)]
pub extern "C" fn ek_best_hour_with_table(
    s: EkSettings,
    steps: &[i32],
    query: &[u8],
    store: &[u8],
    table: &mut [i32],
) -> EkHour
    ensures answer { result ≡ hour_out (best_hour_by (settings s) steps.now (fvecs_hour query.now) store.now (length table.old)) }
    ensures room { table.new ≡ best_hour_table (settings s) steps.now (fvecs_hour query.now) store.now table.old }
{
    answers::hour_out(stores::tabled::best_hour_with_table(
        answers::settings_in(s),
        steps,
        query,
        store,
        table,
    ))
}
