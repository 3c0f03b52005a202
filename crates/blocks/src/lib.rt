// One block of eight readings: what a step makes of it, and the first step of a list that fits (01, Layers and steps).
#![tactic(auto)]

ghost use Rattle.std.specs.Prelude.{◌≡◌, ◌++◌, ◌+◌, ◌*◌, ◌^◌, ◌<◌, ◌≤◌, pos, nat_abs, length, drop};
ghost use Rattle.integers.specs.Vectors.{scale_v};
ghost use Rattle.rounding.specs.Rounding.{Divisor};
ghost use Rattle.layers.specs.E8.{e8, nearest, digits8};
ghost use Rattle.layers.specs.Sizes.{width, long_power, Base};
ghost use Rattle.blocks.specs.Trials.{nothing_left, point_at, trial8, fits, first_fitting, room_at, tried_room};
ghost use Rattle.blocks.specs.Limits.{Block, UsedSteps};

// What a step makes of a block: the doubled point nearest to X / s, and what M layers leave over of it.
#[derive(Clone, Copy)]
pub struct Trial {
    pub point: [i64; 8],
    pub leftover: [i64; 8],
}

// Twice eight readings.
fn doubled(x: &[i32]) -> [i64; 8]
    requires { Block x.now }
    ensures { result ≡ scale_v (pos 2) x.now }
{
    std::array::from_fn(|i| 2 * i64::from(x[i]))
}

// Whether nothing is left over: all eight numbers are 0.
fn nothing_left(e: &[i64; 8]) -> bool
    requires { length e.now ≡ 8 }
    ensures { result ≡ nothing_left e.now }
{
    e.iter().all(|x| *x == 0)
}

// The trial of a block at a step. The digits of its point are written to the front of the lent bytes, layer 0 first.
pub fn try_step(x: &[i32], s: i64, q: i64, m: usize, out: &mut [u8]) -> Trial
    requires { Block x.now × Divisor s × Base q × (8 * m ≤ length out.old) }
    ensures answer { result ≡ trial8 (nat_abs q) m s x.now }
    ensures room { out.new ≡ digits8 (nat_abs q) m (point_at e8 nearest s x.now) ++ drop (8 * m) out.old }
{
    let point = rounding::point::nearest_point(&doubled(x), s);
    let leftover = layers::digits::digits(&point, q, m, out);
    Trial { point, leftover }
}

// W, which bounds what m layers reach.
fn width(q: i64, m: usize) -> i64
    requires { Base q × (nat_abs q ^ m ≤ long_power) }
    ensures { result ≡ pos (width (nat_abs q) m) }
{
    let mut w = 0;
    for _ in 0..m {
        w = q + q * w;
    }
    w
}

// Whether the step in the place t fits. Its bytes are written where the readings are in its reach, and else the room stays.
fn try_place(x: &[i32], s: i64, t: usize, reach: i64, q: i64, m: usize, out: &mut [u8]) -> bool
    requires { Block x.now × Divisor s × (t < 256) × (reach ≡ pos (width (nat_abs q) m + 1)) × Base q × (nat_abs q ^ m ≤ long_power) × (length out.old ≡ 8 * m + 1) }
    ensures answer { result ≡ fits e8 nearest (nat_abs q) m s x.now }
    ensures room { out.new ≡ room_at e8 nearest (nat_abs q) m t s x.now out.old }
{
    if integers::small(x, (s * reach) as i32) {
        out[0] = t as u8;
        let found = try_step(x, s, q, m, &mut out[1..]);
        let leftover = found.leftover;
        return nothing_left(&leftover);
    }
    false
}

// T, the place of the first listed step that fits, or the list's length where none does. The block's bytes hold the trials in
// turn: T and the digits of the one that fits, or else of the last. A step too small for a reading is not tried.
pub fn code_block(x: &[i32], steps: &[i32], q: i64, m: usize, out: &mut [u8]) -> usize
    requires { Block x.now × UsedSteps steps.now × Base q × (nat_abs q ^ m ≤ long_power) × (length out.old ≡ 8 * m + 1) }
    ensures answer { result ≡ first_fitting e8 nearest (nat_abs q) m steps.now x.now }
    ensures room { out.new ≡ tried_room e8 nearest (nat_abs q) m 0 steps.now x.now out.old }
{
    let reach = width(q, m) + 1;
    for (t, s) in steps.iter().enumerate() {
        if try_place(x, i64::from(*s), t, reach, q, m, out) {
            return t;
        }
    }
    steps.len()
}
