// The report on one block: each of its eight readings as taken, as decoded, and the difference (01, Layers and steps).
#![tactic(auto)]

ghost use Rattle.std.specs.Prelude.{◌≡◌, [], ◌∷◌, nat_abs};
ghost use Rattle.blocks.specs.Limits.{Block};
ghost use Rattle.records.specs.Eight.Codes.{Coder};
ghost use Rattle.layers.specs.Code.{code8};
ghost use Rattle.encoding.specs.Encode.{check_fits};
ghost use Rattle.reports.specs.Report.{check_given, reading_reports, block_report, reported, report, Reportables};

use layers::points;
use readings::Reading;
use records::{asked, codes, vectors};
use refusals::settings::Settings;
use refusals::{Refusal, settings};

// What is refused before a step is tried: 1 and 2, 3 unless there are eight readings, 4 or 5 at the first that is none.
fn check_given(s: Settings, steps: &[i32], x: &[i32]) -> Result<(), Refusal>
    ensures { result ≡ check_given s steps.now x.now }
{
    asked::check_coder(s, steps)?;
    if x.len() == 8 {
        vectors::check_units(x)
    } else {
        Err(Refusal::Size(0))
    }
}

// The report on eight readings that were decoded at the step s as the point e.
fn report_readings(x: &[i32], s: i64, e: &[i64; 8]) -> [Reading; 8]
    requires { Reportables x.now s e.now }
    ensures { result ≡ reading_reports x.now s e.now }
{
    std::array::from_fn(|i| readings::report_reading(x[i], s, e[i]))
}

// The report on a block: it is coded at the first step that fits, and decoded from its bytes. Refusal 6 where none fits.
fn report_block(x: &[i32], steps: &[i32], q: i64, m: usize) -> Result<[Reading; 8], Refusal>
    requires { Block x.now × Coder q m steps.now }
    ensures { result ≡ reported (check_fits (code8 (nat_abs q) m) steps.now 0 (x.now ∷ [])) (block_report (nat_abs q) m steps.now x.now) }
{
    let size = codes::block_size(m);
    let mut code: [u8; 33] = [0; 33];
    let t = blocks::code_block(x, steps, q, m, &mut code[0..size]);
    if t >= steps.len() {
        return Err(Refusal::Overload(0));
    }
    let e = points::decode_one(&code[1..size], q, m);
    Ok(report_readings(x, steps[t] as i64, &e))
}

// The report on a block of eight whole readings. Refusals 1 to 6, each in its turn.
pub fn report(s: Settings, steps: &[i32], x: &[i32]) -> Result<[Reading; 8], Refusal>
    ensures answer { result ≡ report s steps.now x.now }
{
    check_given(s, steps, x)?;
    report_block(x, steps, settings::base(s), settings::layers(s))
}
