// From readings to codes: an hour as an fvecs record or as whole units, over one core on X (01, Layers and steps; Bytes).
#![tactic(auto)]

ghost use Rattle.std.specs.Prelude.{Ok, ◌≡◌, [], ◌∷◌, ◌++◌, ◌+◌, ◌*◌, ◌/◌, ◌^◌, ◌≤◌, leb, pos, nat_abs, length, take, drop};
ghost use Rattle.integers.specs.Vectors.{Sized};
ghost use Rattle.layers.specs.Digits.{cut};
ghost use Rattle.layers.specs.Sizes.{long_power, Base};
ghost use Rattle.blocks.specs.Limits.{UsedSteps};
ghost use Rattle.refusals.specs.declared.Refusal.TheVariants.{Size};
ghost use Rattle.refusals.specs.Answers.{valued, written};
ghost use Rattle.refusals.specs.Verdicts.{unless, first_refusal};
ghost use Rattle.layers.specs.Code.{code8, size_of, code_of};
ghost use Rattle.records.specs.Codes.{Coder, block_bytes, code_length};
ghost use Rattle.encoding.specs.Encode.{check_fits, code_bytes, code_record, encode_asked, encoded, encoded_room};
ghost use Rattle.records.specs.Vectors.{units_hour, fvecs_hour, check_readings, in_blocks, UnitsTaken};

use readings::words;
use records::{asked, codes, frames, vectors};
use refusals::settings::Settings;
use refusals::{Refusal, settings};

// The most readings of an hour, and the most bytes that its blocks take: 64 blocks of 4 layers.
const READINGS_MOST: usize = 512;

const BYTES_MOST: usize = 2112;

// Codes each of k blocks into its own part of the lent bytes; refusal 6 at the first that no listed step fits.
fn code_blocks(
    x: &[i32],
    steps: &[i32],
    q: i64,
    m: usize,
    k: usize,
    out: &mut [u8],
) -> Result<(), Refusal>
    requires { Sized (8 * k) (2 ^ 24) x.now × UsedSteps steps.now × Base q × (m ≤ 256) × (nat_abs q ^ m ≤ long_power) × (block_bytes 8 m * k ≤ length out.old) }
    ensures answer { result ≡ check_fits (code8 (nat_abs q) m) steps.now 0 (cut 8 k x.now) }
    ensures room { result ≡ Ok tt → out.new ≡ code_bytes (code8 (nat_abs q) m) steps.now (cut 8 k x.now) ++ drop (block_bytes 8 m * k) out.old }
{
    let n = codes::block_size(m);
    for i in 0..k {
        let at = 8 * i;
        let end = at + 8;
        let from = n * i;
        let to = from + n;
        if blocks::code_block(&x[at..end], steps, q, m, &mut out[from..to]) >= steps.len() {
            return Err(Refusal::Overload(i));
        }
    }
    Ok(())
}

// Each of k blocks of n bytes in its own place of the lent record; the rest stays.
fn put_blocks(code: &[u8], n: usize, k: usize, out: &mut [u8])
    requires { (n * k ≤ length code.now) × (n * k ≤ length out.old) }
    ensures { out.new ≡ take (n * k) code.now ++ drop (n * k) out.old }
{
    for i in 0..k {
        let at = n * i;
        let end = at + n;
        out[at..end].copy_from_slice(&code[at..end]);
    }
}

// The core on X: k blocks coded, then their record at the front of the lent bytes; refusal 6 where a block has no step that fits.
fn put_record(x: &[i32], steps: &[i32], q: i64, m: usize, out: &mut [u8]) -> Result<i64, Refusal>
    requires { Coder q m steps.now × UnitsTaken 8 x.now × (code_length (code8 (nat_abs q) m) (length x.now / 8) ≤ length out.old) }
    ensures answer { result ≡ valued (check_fits (code8 (nat_abs q) m) steps.now 0 (in_blocks 8 x.now)) (pos (code_length (code8 (nat_abs q) m) (length x.now / 8))) }
    ensures room { out.new ≡ written (check_fits (code8 (nat_abs q) m) steps.now 0 (in_blocks 8 x.now)) (code_record (code8 (nat_abs q) m) steps.now (in_blocks 8 x.now)) out.old }
{
    let k = x.len() / 8;
    let mut code: [u8; BYTES_MOST] = [0; BYTES_MOST];
    code_blocks(x, steps, q, m, k, &mut code)?;
    let n = codes::block_size(m);
    words::put_word(out, 0, (n * k) as u32);
    put_blocks(&code, n, k, &mut out[4..]);
    Ok((4 + n * k) as i64)
}

// Refusal 3 where the room is under 4 + K (8 M + 1) bytes.
fn check_room(m: usize, k: usize, room: usize) -> Result<(), Refusal>
    requires { (m ≤ 256) × (k ≤ 2 ^ 32) }
    ensures { result ≡ unless (leb (4 + block_bytes 8 m * k) room) (Size 1) }
{
    if 4 + codes::block_size(m) * k <= room {
        Ok(())
    } else {
        Err(Refusal::Size(1))
    }
}

// All that is checked of an hour in whole units before it is coded: refusals 1, 2, 3 and 4 or 5.
fn check_units_hour(s: Settings, steps: &[i32], x: &[i32], room: usize) -> Result<(), Refusal>
    ensures { result ≡ first_refusal (encode_asked (code_of s) s steps.now (units_hour (size_of (code_of s)) x.now) room ∷ check_readings 0 (units_hour (size_of (code_of s)) x.now).readings ∷ []) }
{
    asked::check_coder(s, steps)?;
    if frames::whole_blocks(x.len(), 8, 1, frames::BLOCKS_MOST) {
        check_room(settings::layers(s), x.len() / 8, room)?;
        vectors::check_units(x)
    } else {
        Err(Refusal::Size(0))
    }
}

// All that is checked of an fvecs record before its readings are taken: refusals 1, 2, 10 and 3.
fn check_fvecs_hour(s: Settings, steps: &[i32], hour: &[u8], room: usize) -> Result<(), Refusal>
    ensures { result ≡ encode_asked (code_of s) s steps.now (fvecs_hour (size_of (code_of s)) hour.now) room }
{
    asked::check_coder(s, steps)?;
    if frames::good_record(hour, 4, 8, 1, frames::BLOCKS_MOST) {
        check_room(
            settings::layers(s),
            words::word_at(hour, 0) as usize / 8,
            room,
        )
    } else {
        Err(Refusal::Record(0))
    }
}

// Codes an hour in whole units as a bvecs record at the front of the lent bytes; its value is how many bytes were written.
pub fn encode_units(s: Settings, steps: &[i32], x: &[i32], out: &mut [u8]) -> Result<i64, Refusal>
    ensures answer { result ≡ encoded (code_of s) s steps.now (units_hour (size_of (code_of s)) x.now) (length out.old) }
    ensures room { out.new ≡ encoded_room (code_of s) s steps.now (units_hour (size_of (code_of s)) x.now) out.old }
{
    check_units_hour(s, steps, x, out.len())?;
    put_record(x, steps, settings::base(s), settings::layers(s), out)
}

// Codes an hour that is an fvecs record.
pub fn encode(s: Settings, steps: &[i32], hour: &[u8], out: &mut [u8]) -> Result<i64, Refusal>
    ensures answer { result ≡ encoded (code_of s) s steps.now (fvecs_hour (size_of (code_of s)) hour.now) (length out.old) }
    ensures room { out.new ≡ encoded_room (code_of s) s steps.now (fvecs_hour (size_of (code_of s)) hour.now) out.old }
{
    check_fvecs_hour(s, steps, hour, out.len())?;
    let n = words::word_at(hour, 0) as usize;
    let mut x: [i32; READINGS_MOST] = [0; READINGS_MOST];
    vectors::take_readings(hour, n, &mut x)?;
    put_record(&x[0..n], steps, settings::base(s), settings::layers(s), out)
}
