// The nearest point of E8 to d / s (01, The lattice).
#![tactic(auto)]

pub mod coordinate;
pub mod half;
pub mod number;
pub mod point;

ghost use Rattle.std.specs.Prelude.{◌≡◌, IfOk};
ghost use Rattle.lattice.specs.Answers.{check_nearest, nearest};
ghost use Rattle.lattice.specs.Doubled.{E8};
ghost use Rattle.lattice.specs.Nearest.{Nearest};

use lattice::lent;
use refusals::Refusal;

// Refusal 3, place 0, where d is not eight numbers; refusal 9 where some |d_i| is past 2^26 or s is outside 1 to 1024.
fn check_nearest(d: &[i32], s: i32) -> Result<(), Refusal>
    ensures { result ≡ check_nearest d.now s }
{
    if d.len() != 8 {
        return Err(Refusal::Size(0));
    }
    if integers::small(d, lattice::POINT_MOST) {
        if integers::within(s, 1, refusals::steps::STEP_MOST) {
            Ok(())
        } else {
            Err(Refusal::Point)
        }
    } else {
        Err(Refusal::Point)
    }
}

// The doubled point of E8 nearest to d / s, of equals the lexicographically smallest.
pub fn nearest(d: &[i32], s: i32) -> Result<[i32; 8], Refusal>
    ensures answer { result ≡ nearest d.now s }
    ensures closest { IfOk result (Nearest E8 s d.now) }
{
    check_nearest(d, s)?;
    let e = point::nearest_point(&lent::widen(d), s as i64);
    Ok(lent::narrow(&e))
}
