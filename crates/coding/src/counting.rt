// Digits counted up, from one entry number to the next.
ghost use Rattle.std.specs.Prelude.{◌≡◌};
ghost use Rattle.layers.specs.Digits.{Below};
ghost use Rattle.coding.specs.Counting.{counted_up};

// The digits of the next entry number, in place of those of one; after the last comes the first.
pub fn count_up(ds: &mut [u8], q: u8)
    requires { Below q ds.old }
    ensures { ds.new ≡ counted_up q ds.old }
{
    for x in ds.iter_mut() {
        let d = *x + 1;
        if d < q {
            *x = d;
            return;
        }
        *x = 0;
    }
}
