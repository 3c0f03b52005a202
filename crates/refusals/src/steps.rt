// Step lists.
ghost use Rattle.std.specs.Prelude.{◌≡◌, pos};
ghost use Rattle.refusals.specs.Steps.{rising, good_steps, check_steps};

use crate::Refusal;

pub const STEPS_MOST: usize = 4;

pub const STEP_MOST: i32 = 1024;

// Whether every step is above the one before, the first above 0, and none is past the greatest.
fn rising(steps: &[i32]) -> bool
    ensures { result ≡ rising (pos 0) steps.now }
{
    let mut last: i32 = 0;
    for s in steps {
        if *s <= last {
            return false;
        }
        if *s > STEP_MOST {
            return false;
        }
        last = *s;
    }
    true
}

// Whether a list has 1 to 4 steps from 1 to 1024, strictly increasing.
fn good_steps(steps: &[i32]) -> bool
    ensures { result ≡ good_steps steps.now }
{
    if steps.len() < 1 {
        false
    } else {
        if steps.len() <= STEPS_MOST {
            rising(steps)
        } else {
            false
        }
    }
}

// Refusal 2, with the place of the list, where it does not.
pub fn check_steps(place: usize, steps: &[i32]) -> Result<(), Refusal>
    ensures { result ≡ check_steps place steps.now }
{
    if good_steps(steps) {
        Ok(())
    } else {
        Err(Refusal::Steps(place))
    }
}
