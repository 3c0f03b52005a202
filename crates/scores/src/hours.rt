// The hour that code records are scored against: in whole units as lent, or taken from an fvecs record.
ghost use Rattle.std.specs.Prelude.{◌≡◌, ◌≤◌, length};
ghost use Rattle.layers.specs.Code.{size_of, code_of};
ghost use Rattle.records.specs.Vectors.{units_hour, fvecs_hour};
ghost use Rattle.scores.specs.Hours.{check_hour, hour_room};

use readings::words;
use records::{asked, frames, vectors};
use refusals::Refusal;
use refusals::settings::Settings;

// The most readings of an hour.
pub const READINGS_MOST: usize = 512;

// Refusals 1 and 2, then of an hour in whole units: 3 for its count, 5 for the first that is out of range.
pub fn check_units_hour(s: Settings, steps: &[i32], x: &[i32]) -> Result<(), Refusal>
    ensures { result ≡ check_hour s steps.now (units_hour (size_of (code_of s)) x.now) }
{
    asked::check_coder(s, steps)?;
    if frames::whole_blocks(x.len(), 8, 1, frames::BLOCKS_MOST) {
        vectors::check_units(x)
    } else {
        Err(Refusal::Size(0))
    }
}

// Refusals 1 and 2, then of an hour that is an fvecs record: 10, and 4 or 5 for the first reading that is none. Its units go to the front of x.
pub fn take_fvecs_hour(
    s: Settings,
    steps: &[i32],
    hour: &[u8],
    x: &mut [i32],
) -> Result<(), Refusal>
    requires { 512 ≤ length x.old }
    ensures answer { result ≡ check_hour s steps.now (fvecs_hour (size_of (code_of s)) hour.now) }
    ensures room { x.new ≡ hour_room s steps.now (fvecs_hour (size_of (code_of s)) hour.now) x.old }
{
    asked::check_coder(s, steps)?;
    if frames::good_record(hour, 4, 8, 1, frames::BLOCKS_MOST) {
        let n = words::word_at(hour, 0) as usize;
        vectors::take_readings(hour, n, x)
    } else {
        Err(Refusal::Record(0))
    }
}
