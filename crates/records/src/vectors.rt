// Vectors of readings as they are lent: which readings are none, and the whole units of the others.
ghost use Rattle.std.specs.Prelude.{◌≡◌, ◌++◌, ◌+◌, ◌*◌, ◌≤◌, length, drop};
ghost use Rattle.readings.specs.Words.{word_at};
ghost use Rattle.records.specs.Vectors.{refused_at, unit_readings, fvecs_readings, check_readings, units_taken};

use readings::{Fault, words};
use refusals::Refusal;

// The refusal of the reading with the index i: 4 where it is missing, 5 where it is out of range.
fn refused_at(fault: Fault, i: usize) -> Refusal
    ensures { result ≡ refused_at fault i }
{
    match fault {
        Fault::Missing => Refusal::Missing(i),
        Fault::OutOfRange => Refusal::OutOfRange(i),
    }
}

// Refusal 4 or 5 with the index of the first of a slice of whole units that is no reading.
pub fn check_units(x: &[i32]) -> Result<(), Refusal>
    ensures { result ≡ check_readings 0 (unit_readings x.now) }
{
    for i in 0..x.len() {
        readings::measure_units(x[i]).map_err(|f| refused_at(f, i))?;
    }
    Ok(())
}

// The whole units of the n readings of an fvecs record to the front of x, up to the first that is none; refusal 4 or 5 with its index.
pub fn take_readings(b: &[u8], n: usize, x: &mut [i32]) -> Result<(), Refusal>
    requires { (n ≡ word_at b.now 0) × (4 + 4 * n ≤ length b.now) × (n ≤ length x.old) }
    ensures answer { result ≡ check_readings 0 (fvecs_readings b.now) }
    ensures room { x.new ≡ units_taken (fvecs_readings b.now) ++ drop (length (units_taken (fvecs_readings b.now))) x.old }
{
    for i in 0..n {
        x[i] = words::measure_at(b, 4 + 4 * i).map_err(|f| refused_at(f, i))?;
    }
    Ok(())
}
