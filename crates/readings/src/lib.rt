// Readings: what is a number, what is missing or out of range, and what single precision holds exactly.
#![tactic(auto)]

ghost use Rattle.std.specs.Prelude.{◌≡◌};
ghost use Rattle.readings.specs.Taking.{measure_units, measure_bits, InRange, taken_of, take_units, take_bits};
ghost use Rattle.readings.specs.Report.{Reportable, report_reading};

pub mod exact;
mod pattern;
pub mod words;

// Why there is no reading.
#[derive(Clone, Copy, Debug, PartialEq, Eq)]
pub enum Fault {
    Missing,
    OutOfRange,
}

// Whole units X of 1/1024: past 2^24 either way they are out of range.
pub fn measure_units(x: i32) -> Result<i32, Fault>
    ensures { result ≡ measure_units x }
{
    if integers::within(x, -16777216, 16777216) {
        Ok(x)
    } else {
        Err(Fault::OutOfRange)
    }
}

// A binary32 pattern: a NaN is missing, an infinity is out of range, and any other is judged by its nearest whole units.
// From 32768 on, an infinity too, it is out of range before it is rounded.
#[tactic(auto, using(crate::proofs::Laws::Patterns::sizes))]
pub fn measure_bits(bits: u32) -> Result<i32, Fault>
    ensures { result ≡ measure_bits bits }
{
    let size = bits % pattern::SIGN;
    if size > pattern::INFINITY {
        return Err(Fault::Missing);
    }
    if size >= pattern::TOO_LARGE {
        return Err(Fault::OutOfRange);
    }
    measure_units(pattern::whole_units(bits))
}

// What a measured reading is handed out as.
fn taken_of(m: Result<i32, Fault>) -> Result<f32, Fault>
    requires { InRange m }
    ensures { result ≡ taken_of m }
{
    Ok(exact::units_value(m?))
}

// Takes a reading that arrives as whole units.
pub fn take_units(x: i32) -> Result<f32, Fault>
    ensures { result ≡ take_units x }
{
    taken_of(measure_units(x))
}

// Takes a reading that arrives as a binary32 pattern.
pub fn take_bits(bits: u32) -> Result<f32, Fault>
    ensures { result ≡ take_bits bits }
{
    taken_of(measure_bits(bits))
}

// One reading of a report, in single precision: as taken X/1024, as decoded s·e/2048, and taken less decoded.
#[derive(Clone, Copy, Debug, PartialEq)]
pub struct Reading {
    pub taken: f32,
    pub decoded: f32,
    pub difference: f32,
}

// The report on a reading X that was decoded as s·e/2048. All three numbers are exact.
pub fn report_reading(x: i32, s: i64, e: i64) -> Reading
    requires { Reportable x s e }
    ensures { result ≡ report_reading x s e }
{
    let taken = exact::units_value(x);
    let decoded = exact::decoded_value(s, e);
    let difference = taken - decoded;
    Reading {
        taken,
        decoded,
        difference,
    }
}
