// The entries of a slice for one block: what the low digits leave, what the high ones leave, and the mend, each summed with the readings and looked up.
ghost use Rattle.std.specs.Prelude.{◌≡◌, map, ◌+◌, ◌*◌, ◌^◌, ◌<◌, ◌≤◌, nat_abs, ◌+ℤ◌, length};
ghost use Rattle.integers.specs.Vectors.{«at», dot, Sized, Bounded, range};
ghost use Rattle.columns.specs.Narrow.{Few};
ghost use Rattle.rounding.specs.Rounding.{lowered};
ghost use Rattle.slices.specs.Slices.{Sizes, Dots, point_by};
ghost use Rattle.slices.specs.Sums.{even_at, odd_at, mend_at, Threes, Paired, Run, run_at};

use crate::Halves;
use columns::narrow;

// The sums of readings with what the even half leaves of as many coordinates, and with what the odd one leaves.
fn half_sums(x: &[i32], a: &[i16], s: i16) -> (i32, i32)
    requires { (length x.now ≡ length a.now) × (length x.now ≤ 8) × Bounded (2 ^ 24) x.now × Bounded 4 a.now × Few s × (nat_abs s ≤ 4) }
    ensures even { result.0 ≡ dot x.now a.now }
    ensures odd { result.1 ≡ dot x.now (map (lowered s) a.now) }
{
    let mut even = 0;
    let mut odd = 0;
    for i in 0..x.len() {
        even += x[i] * i32::from(a[i]);
        odd += x[i] * i32::from(narrow::lowered(a[i], s));
    }
    (even, odd)
}

// Three readings with what the halves leave of the first n rows, a pair of sums a row.
fn low_sums(x: &[i32], lows: &[[i16; 3]; 256], s: i16, n: usize, sums: &mut [i32; 512])
    requires { Sized 3 (2 ^ 24) x.now × (length lows.now ≡ 256) × Threes n lows.now × Few s × (nat_abs s ≤ 4) × (n ≤ 256) × Sized 512 (2 ^ 29) sums.old }
    ensures { Sized 512 (2 ^ 29) sums.new × Paired (even_at x.now lows.now) (odd_at s x.now lows.now) n sums.new }
{
    for j in 0..n {
        let (even, odd) = half_sums(x, &lows[j], s);
        sums[2 * j] = even;
        sums[2 * j + 1] = odd;
    }
}

// The readings with the mend of the choice c.
fn mend(x: &[i32], s: i16, c: usize) -> i32
    requires { Sized 8 (2 ^ 24) x.now × (nat_abs s ≤ 4) × (c < 48) }
    ensures { result ≡ mend_at s x.now c }
{
    i32::from(s) * (2 - 2 * (c / 16) as i32) * x[c / 2 % 8]
}

// And with that of each choice.
fn mends(x: &[i32], s: i16) -> [i32; 48]
    requires { Sized 8 (2 ^ 24) x.now × (nat_abs s ≤ 4) }
    ensures { result ≡ map (mend_at s x.now) (range 0 48) }
{
    std::array::from_fn(|c| mend(x, s, c))
}

// Each choice's sum: its mend, and what its half leaves.
fn add_high(z: &[i32; 48], even: i32, odd: i32, y: &mut [i32; 48])
    requires { Sized 48 (2 ^ 27) z.now × (nat_abs even ≤ 40 * 2 ^ 24) × (nat_abs odd ≤ 40 * 2 ^ 24) × Sized 48 (2 ^ 30) y.old }
    ensures { Sized 48 (2 ^ 30) y.new × Paired (λ c. «at» z.now (2 * c) +ℤ even) (λ c. «at» z.now (2 * c + 1) +ℤ odd) 24 y.new }
{
    for c in 0..24 {
        y[2 * c] = z[2 * c] + even;
        y[2 * c + 1] = z[2 * c + 1] + odd;
    }
}

// Entries in a row: each is looked up by its choice.
fn fill_run(sums: &[i32], y: &[i32; 48], choices: &[u8], run: &mut [i32])
    requires { Run (length run.old) sums.now y.now choices.now }
    ensures { run.new ≡ map (run_at sums.now y.now choices.now) (range 0 (length run.old)) }
{
    for (t, entry) in run.iter_mut().enumerate() {
        let c = usize::from(choices[t]);
        *entry = sums[2 * t + c % 2] + y[c];
    }
}

impl Halves {
    // The sums of eight readings with the points of all entries of the slice.
    pub fn fill_part(&self, q: i16, x: &[i32], part: &mut [i32])
        requires { Sizes q self.now.choices self.now.lows self.now.highs × Sized 8 (2 ^ 24) x.now × (length part.old ≡ nat_abs q ^ 7) }
        ensures { Dots (nat_abs q ^ 7) (point_by q self.now.choices self.now.lows self.now.highs) x.now part.new }
    {
        let values = q as usize;
        let three = values * values * values;
        let four = values * three;
        let mut sums: [i32; 512] = [0; 512];
        low_sums(&x[0..3], &self.lows, q, four, &mut sums);
        let z = mends(x, q);
        let mut y: [i32; 48] = [0; 48];
        for g in 0..four {
            let (even, odd) = half_sums(&x[3..8], &self.highs[g], q);
            add_high(&z, even, odd, &mut y);
            let at = 2 * (three * (g % values));
            let end = at + 2 * three;
            let from = three * g;
            let to = from + three;
            fill_run(
                &sums[at..end],
                &y,
                &self.choices[from..to],
                &mut part[from..to],
            );
        }
    }
}
