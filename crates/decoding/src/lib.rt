// From codes to readings: a code record decoded into an fvecs record (01, Layers and steps; Bytes).
#![tactic(auto)]

ghost use Rattle.std.specs.Prelude.{◌≡◌, ◌++◌, map, ◌*◌, ◌≤◌, nat_abs, length, drop};
ghost use Rattle.layers.specs.Digits.{joined, cut};
ghost use Rattle.layers.specs.Table.{TableFor};
ghost use Rattle.records.specs.Eight.Codes.{Coder, AreBlocks, block_size, blocks_in, code_blocks};
ghost use Rattle.decoding.specs.Decode.{Readable, reading_bytes, decoded_bytes, fvecs_length, decoded_record, check_decode, decoded, decoded_room};

use layers::table;
use readings::words;
use records::{asked, codes, frames};
use refusals::settings::Settings;
use refusals::{Refusal, settings};

// Eight decoded readings s·e/2048 as their binary32 patterns, little-endian.
fn put_readings(s: i64, e: &[i16; 8], out: &mut [u8])
    requires { Readable s e.now × (length out.old ≡ 32) }
    ensures { out.new ≡ joined (map (reading_bytes s) e.now) }
{
    for i in 0..8 {
        words::put_decoded(out, 4 * i, s, e[i] as i64);
    }
}

// The first k blocks of a record's body, decoded each into its own part of the lent bytes; the rest stay as found.
fn put_blocks(t: &[i8], steps: &[i32], body: &[u8], q: i64, m: usize, k: usize, out: &mut [u8])
    requires { TableFor (nat_abs q) t.now × Coder q m steps.now × AreBlocks (length steps.now) (nat_abs q) m k body.now × (k ≤ 64) × (32 * k ≤ length out.old) }
    ensures { out.new ≡ joined (map (decoded_bytes (nat_abs q) m steps.now) (cut (block_size m) k body.now)) ++ drop (32 * k) out.old }
{
    let mut rows: [[i16; 8]; 64] = [[0; 8]; 64];
    points::whole_points(t, body, q, m, k, &mut rows);
    let n = codes::block_size(m);
    for i in 0..k {
        let at = n * i;
        let end = at + n;
        let from = 32 * i;
        let to = from + 32;
        let s = codes::step_of(steps, &body[at..end]);
        put_readings(s, &rows[i], &mut out[from..to]);
    }
}

// The same, having the table itself, once for all blocks.
fn put_body(steps: &[i32], body: &[u8], q: i64, m: usize, k: usize, out: &mut [u8])
    requires { Coder q m steps.now × AreBlocks (length steps.now) (nat_abs q) m k body.now × (k ≤ 64) × (32 * k ≤ length out.old) }
    ensures { out.new ≡ joined (map (decoded_bytes (nat_abs q) m steps.now) (cut (block_size m) k body.now)) ++ drop (32 * k) out.old }
{
    if q == 2 {
        put_blocks(&table::layer_points(), steps, body, q, m, k, out)
    } else {
        put_blocks(&[0; 1], steps, body, q, m, k, out)
    }
}

// A checked record, decoded: the dimension, then the blocks; how many bytes these are.
fn put_record(steps: &[i32], code: &[u8], q: i64, m: usize, out: &mut [u8]) -> usize
    requires { Coder q m steps.now × (4 ≤ length code.now) × (blocks_in m code.now ≤ 64) × AreBlocks (length steps.now) (nat_abs q) m (blocks_in m code.now) (drop 4 code.now) × (fvecs_length (blocks_in m code.now) ≤ length out.old) }
    ensures answer { result ≡ fvecs_length (blocks_in m code.now) }
    ensures room { out.new ≡ decoded_record (nat_abs q) m steps.now (blocks_in m code.now) (code_blocks m code.now) ++ drop (fvecs_length (blocks_in m code.now)) out.old }
{
    let k = codes::blocks_in(code, m);
    words::put_word(out, 0, (8 * k) as u32);
    put_body(steps, &code[4..], q, m, k, &mut out[4..]);
    4 + 32 * k
}

// Refusals 1 and 2, 10 for the record, 3 where the room is under 4 + 32 K bytes, 7 for the record's bytes.
fn check_decode(s: Settings, steps: &[i32], code: &[u8], room: usize) -> Result<(), Refusal>
    ensures { result ≡ check_decode s steps.now code.now room }
{
    asked::check_coder(s, steps)?;
    let m = settings::layers(s);
    let size = codes::block_size(m);
    if frames::good_record(code, 1, size, 1, frames::BLOCKS_MOST) {
        let k = codes::blocks_in(code, m);
        if room < 4 + 32 * k {
            return Err(Refusal::Size(1));
        }
        let q = settings::digit_values(s);
        codes::check_blocks(&code[4..], k, size, steps.len(), q, 0)
    } else {
        Err(Refusal::Record(0))
    }
}

// Decodes a code record into an fvecs record at the front of the lent bytes; its value is how many bytes were written.
pub fn decode(s: Settings, steps: &[i32], code: &[u8], out: &mut [u8]) -> Result<i64, Refusal>
    ensures answer { result ≡ decoded s steps.now code.now (length out.old) }
    ensures room { out.new ≡ decoded_room s steps.now code.now out.old }
{
    check_decode(s, steps, code, out.len())?;
    let n = put_record(steps, code, settings::base(s), settings::layers(s), out);
    Ok(n as i64)
}
