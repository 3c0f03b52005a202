// What C hands over, and answers as it takes them. include/enkhovrag.h describes them to their callers.
ghost use Rattle.std.specs.Prelude.{◌≡◌, map, length};
ghost use Rattle.reports.specs.Report.{no_readings};
ghost use Rattle.enkhovrag.specs.Answers.{settings, taken_out, point_out, answer_out, hour_out, reading_out, report_out};

use readings::{Fault, Reading};
use refusals::Refusal;
use refusals::settings::Settings;
use stores::Best;

// q and M.
#[repr(C)]
#[derive(Clone, Copy)]
pub struct EkSettings {
    pub q: i32,
    pub m: i32,
}

// A reading as taken: number 0 and its value, or 4 (missing) or 5 (out of range) and 0.0.
#[repr(C)]
#[derive(Clone, Copy)]
pub struct EkTaken {
    pub number: u64,
    pub value: f32,
}

// A doubled point: number 0, or a refusal's number and place and zeros.
#[repr(C)]
#[derive(Clone, Copy)]
pub struct EkPoint {
    pub number: u64,
    pub place: u64,
    pub e: [i32; 8],
}

// How many bytes were written, or a score: number 0 and the value, or a refusal's number and place and 0.
#[repr(C)]
#[derive(Clone, Copy)]
pub struct EkAnswer {
    pub number: u64,
    pub place: u64,
    pub value: i64,
}

// The best hour: number 0, a stored record's number and its score, or a refusal's number and place and zeros.
#[repr(C)]
#[derive(Clone, Copy)]
pub struct EkHour {
    pub number: u64,
    pub place: u64,
    pub hour: u64,
    pub score: i64,
}

// One reading of a report.
#[repr(C)]
#[derive(Clone, Copy)]
pub struct EkReading {
    pub taken: f32,
    pub decoded: f32,
    pub difference: f32,
}

// A report: number 0 and eight readings, or a refusal's number and place and +0.0 throughout.
#[repr(C)]
#[derive(Clone, Copy)]
pub struct EkReportAnswer {
    pub number: u64,
    pub place: u64,
    pub reading: [EkReading; 8],
}

// Settings as C hands them over.
pub(crate) fn settings_in(s: EkSettings) -> Settings
    ensures { result ≡ settings s }
{
    Settings { q: s.q, m: s.m }
}

// A taken reading as C takes it.
pub(crate) fn taken_out(t: Result<f32, Fault>) -> EkTaken
    ensures { result ≡ taken_out t }
{
    match t {
        Ok(value) => EkTaken { number: 0, value },
        Err(Fault::Missing) => EkTaken {
            number: 4,
            value: 0.0,
        },
        Err(Fault::OutOfRange) => EkTaken {
            number: 5,
            value: 0.0,
        },
    }
}

// A point as C takes it.
pub(crate) fn point_out(a: Result<[i32; 8], Refusal>) -> EkPoint
    ensures { result ≡ point_out a }
{
    EkPoint {
        number: refusals::number_of(a) as u64,
        place: refusals::place_of(a) as u64,
        e: a.unwrap_or([0; 8]),
    }
}

// An answer whose value is one number, as C takes it.
pub(crate) fn answer_out(a: Result<i64, Refusal>) -> EkAnswer
    ensures { result ≡ answer_out a }
{
    EkAnswer {
        number: refusals::number_of(a) as u64,
        place: refusals::place_of(a) as u64,
        value: a.unwrap_or(0),
    }
}

// The best hour as C takes it.
pub(crate) fn hour_out(a: Result<Best, Refusal>) -> EkHour
    ensures { result ≡ hour_out a }
{
    let best = a.unwrap_or(Best { hour: 0, score: 0 });
    EkHour {
        number: refusals::number_of(a) as u64,
        place: refusals::place_of(a) as u64,
        hour: best.hour as u64,
        score: best.score,
    }
}

// One reading of a report as C takes it.
pub(crate) fn reading_out(r: Reading) -> EkReading
    ensures { result ≡ reading_out r }
{
    EkReading {
        taken: r.taken,
        decoded: r.decoded,
        difference: r.difference,
    }
}

// +0.0 throughout.
fn no_readings() -> [Reading; 8]
    ensures { result ≡ no_readings }
{
    let none = Reading {
        taken: 0.0,
        decoded: 0.0,
        difference: 0.0,
    };
    [none; 8]
}

// The eight of them.
fn readings_out(given: &[Reading; 8]) -> [EkReading; 8]
    requires { length given.now ≡ 8 }
    ensures { result ≡ map reading_out given.now }
{
    let none = EkReading {
        taken: 0.0,
        decoded: 0.0,
        difference: 0.0,
    };
    let mut out = [none; 8];
    for i in 0..8 {
        out[i] = reading_out(given[i]);
    }
    out
}

// A report as C takes it.
pub(crate) fn report_out(a: Result<[Reading; 8], Refusal>) -> EkReportAnswer
    ensures { result ≡ report_out a }
{
    EkReportAnswer {
        number: refusals::number_of(a) as u64,
        place: refusals::place_of(a) as u64,
        reading: readings_out(&a.unwrap_or(no_readings())),
    }
}
