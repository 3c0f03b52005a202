// What is refused where a point is coded or decoded by itself, in the order of the checks.
ghost use Rattle.std.specs.Prelude.{◌≡◌, ◌&&◌, suc, ◌+◌, ◌^◌, ◌<◌, ◌≤◌, length};
ghost use Rattle.integers.specs.Vectors.{small};
ghost use Rattle.refusals.specs.Limits.{point_most};
ghost use Rattle.lattice.specs.Doubled.{is_point};
ghost use Rattle.coding.specs.Answers.{check_point, check_below, check_digits};
ghost use Rattle.layers.specs.Digits.{Below};

use refusals::settings::Settings;
use refusals::{Refusal, settings};

// Whether eight numbers are a doubled point with no coordinate past its limit.
fn good_point(e: &[i32]) -> bool
    requires { length e.now ≡ 8 }
    ensures { result ≡ small point_most e.now && is_point e.now }
{
    integers::small(e, lattice::POINT_MOST) && lattice::member::is_point(&lattice::lent::widen(e))
}

// Refusal 1 for the settings, 3 where there are not eight numbers or the room is under 8 M, 9 where they are no point.
pub fn check_point(s: Settings, e: &[i32], room: usize) -> Result<(), Refusal>
    ensures { result ≡ check_point s e.now room }
{
    settings::check_settings(s)?;
    if e.len() != 8 {
        return Err(Refusal::Size(0));
    }
    if room < 8 * settings::layers(s) {
        return Err(Refusal::Size(1));
    }
    if good_point(e) {
        Ok(())
    } else {
        Err(Refusal::Point)
    }
}

// A number that neither of two is past: the greater.
pub fn larger(a: u8, b: u8) -> u8
    ensures { (a ≤ result) × (b ≤ result) }
{
    a.max(b)
}

// A number that no digit is past: the greatest of them, found without a jump for each.
pub fn greatest(ds: &[u8]) -> u8
    ensures { Below (suc result) ds.now }
{
    let mut top = 0;
    for d in ds {
        top = larger(top, *d);
    }
    top
}

// Refusal 7 with the place of the first digit that is not below q, where the first digit's place is `first`: digit by digit.
fn first_above(ds: &[u8], q: usize, first: usize) -> Result<(), Refusal>
    requires { first + length ds.now < 2 ^ 64 }
    ensures { result ≡ check_below q first ds.now }
{
    for (i, d) in ds.iter().enumerate() {
        if *d as usize >= q {
            return Err(Refusal::Byte(first + i));
        }
    }
    Ok(())
}

// The same at a glance: most digits are good.
pub fn check_below(ds: &[u8], q: usize, first: usize) -> Result<(), Refusal>
    requires { first + length ds.now < 2 ^ 64 }
    ensures { result ≡ check_below q first ds.now }
{
    if (greatest(ds) as usize) < q {
        return Ok(());
    }
    first_above(ds, q, first)
}

// Refusal 1 for the settings, 3 where there are not exactly 8 M digits, 7 where one is not below q.
pub fn check_digits(s: Settings, ds: &[u8]) -> Result<(), Refusal>
    ensures { result ≡ check_digits s ds.now }
{
    settings::check_settings(s)?;
    if ds.len() == 8 * settings::layers(s) {
        check_below(ds, settings::digit_values(s), 0)
    } else {
        Err(Refusal::Size(0))
    }
}
