// For the bench: one reading, one point, one block.
ghost use Rattle.std.specs.Prelude.{◌≡◌, length};
ghost use Rattle.readings.specs.Taking.{take_bits, take_units};
ghost use Rattle.lattice.specs.Answers.{nearest};
ghost use Rattle.coding.specs.Answers.{coded, digit_room, decoded};
ghost use Rattle.reports.specs.Report.{report};
ghost use Rattle.enkhovrag.specs.Answers.{settings, taken_out, point_out, report_out};

use crate::answers;
use crate::answers::{EkPoint, EkReportAnswer, EkSettings, EkTaken};

// Takes a reading that arrives as a binary32 pattern (01, Readings and units).
#[unsafe(no_mangle)]
pub extern "C" fn ek_take_bits(bits: u32) -> EkTaken
    ensures { result ≡ taken_out (take_bits bits) }
{
    answers::taken_out(readings::take_bits(bits))
}

// Takes a reading that arrives as whole units of 1/1024.
#[unsafe(no_mangle)]
pub extern "C" fn ek_take_units(x: i32) -> EkTaken
    ensures { result ≡ taken_out (take_units x) }
{
    answers::taken_out(readings::take_units(x))
}

// The doubled point of E8 nearest to d / s (01, The lattice).
#[unsafe(no_mangle)]
pub extern "C" fn ek_nearest(d: &[i32], s: i32) -> EkPoint
    ensures { result ≡ point_out (nearest d.now s) }
{
    answers::point_out(rounding::nearest(d, s))
}

// The digits of a doubled point to the front of the lent bytes, and what is left over (01, Layers and steps).
#[unsafe(no_mangle)]
pub extern "C" fn ek_digits_of_point(s: EkSettings, e: &[i32], out: &mut [u8]) -> EkPoint
    ensures answer { result ≡ point_out (coded (settings s) e.now (length out.old)) }
    ensures room { out.new ≡ digit_room (settings s) e.now out.old }
{
    answers::point_out(coding::digits_of_point(answers::settings_in(s), e, out))
}

// The doubled point of digits.
#[unsafe(no_mangle)]
pub extern "C" fn ek_point_of_digits(s: EkSettings, digits: &[u8]) -> EkPoint
    ensures { result ≡ point_out (decoded (settings s) digits.now) }
{
    answers::point_out(coding::point_of_digits(answers::settings_in(s), digits))
}

// The report on a block of eight readings in whole units.
#[unsafe(no_mangle)]
pub extern "C" fn ek_report(s: EkSettings, steps: &[i32], units: &[i32]) -> EkReportAnswer
    ensures { result ≡ report_out (report (settings s) steps.now units.now) }
{
    answers::report_out(reports::report(answers::settings_in(s), steps, units))
}
