// A binary32 pattern to the whole units that are nearest to its value, by its sign, exponent and digits.
ghost use Rattle.std.specs.Prelude.{◌≡◌, cond, ◌≤◌, ◌<◌, ◌^◌, ◌%◌};
ghost use Rattle.readings.specs.Fractions.{signed, nearest};
ghost use Rattle.readings.specs.Taking.{measure_units, measure_bits};

// The weight of a pattern's sign, and of the lowest digit of its exponent.
pub(crate) const SIGN: u32 = 0x8000_0000;

const EXPONENT: u32 = 0x80_0000;

// The pattern of an infinity, past which a NaN's lie, and that of 32768.0.
pub(crate) const INFINITY: u32 = 0x7f80_0000;

pub(crate) const TOO_LARGE: u32 = 0x4700_0000;

// n, or -n where the sign is set.
fn with_sign(n: u32, negative: bool) -> i32
    requires { n ≤ 2 ^ 27 }
    ensures { result ≡ signed negative n }
{
    if negative { -(n as i32) } else { n as i32 }
}

// What is taken off so that an exact half stays below: nothing where it is to go up.
fn half_less(up: bool) -> u32
    ensures { (result ≡ cond up 0 1) × (result ≤ 1) }
{
    if up { 0 } else { 1 }
}

// The size of the whole number nearest to m/2^k, or to -m/2^k where negative. An exact half goes to the lower number,
// which is the larger in size where negative.
fn nearest_size(m: u32, k: u32, negative: bool) -> u32
    requires { (m < 2 ^ 25) × (k ≤ 25) }
    ensures small { result ≤ 2 ^ 27 }
    ensures nearest { signed negative result ≡ nearest (signed negative m) (2 ^ k) }
{
    let p = 1u32 << k;
    (m + m + p - half_less(negative)) >> (k + 1)
}

// The whole units nearest to the value of a pattern below 32768 in size. An exponent below 116 makes it less than half a
// unit; with any other it is 2·digits/2^(141 - exponent) units.
pub(crate) fn whole_units(bits: u32) -> i32
    requires { bits % 2147483648 < 0x4700_0000 }
    ensures { measure_units result ≡ measure_bits bits }
{
    let size = bits % SIGN;
    let exponent = size / EXPONENT;
    if exponent < 116 {
        return 0;
    }
    let digits = size % EXPONENT + EXPONENT;
    let negative = bits >= SIGN;
    with_sign(
        nearest_size(digits + digits, 141 - exponent, negative),
        negative,
    )
}
