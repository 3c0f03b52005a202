// Which half the layer point of each entry of a slice lies in, and how it is mended; what the halves leave by the low digits and by the high ones.
ghost use Rattle.std.specs.Prelude.{◌≡◌, ◌+◌, ◌<◌, ◌≤◌, pos, nat_abs, length};
ghost use Rattle.columns.specs.Columns.{column, Grid};
ghost use Rattle.columns.specs.Narrow.{Few, Part, Slim, Slender, wide, brief};
ghost use Rattle.layers.specs.Digits.{IsLayer};
ghost use Rattle.layers.specs.Sizes.{Base};
ghost use Rattle.rounding.specs.Pass.{chosen};
ghost use Rattle.slices.specs.Lanes.{lane_of, scan_of, Whole, LanePut, Lows, Lanes, Run, RunPut};
ghost use Rattle.slices.specs.Slices.{Slice, rounds_of, rests_of, low_digits, high_digits, merge, code_of};

use crate::Halves;
use coding::counting;
use columns::narrow;
use columns::narrow::Scan;

// Four digits as the first four of eight, with the last.
fn low_digits(ds: &[u8; 4], last: u8) -> [u8; 8]
    requires { length ds.now ≡ 4 }
    ensures { result ≡ low_digits ds.now last }
{
    [ds[0], ds[1], ds[2], ds[3], 0, 0, 0, last]
}

// And as the four before the last.
fn high_digits(ds: &[u8; 4], last: u8) -> [u8; 8]
    requires { length ds.now ≡ 4 }
    ensures { result ≡ high_digits ds.now last }
{
    [0, 0, 0, ds[0], ds[1], ds[2], ds[3], last]
}

// The point of eight digits, rounded into f; what that leaves into a.
fn round_digits(ds: &[u8; 8], q: i16, f: &mut [i16; 8], a: &mut [i16; 8])
    requires { Base q × (nat_abs q ≤ 16) × IsLayer 8 (nat_abs q) ds.now × (length f.old ≡ 8) × (length a.old ≡ 8) }
    ensures { (f.new ≡ rounds_of q ds.now) × (a.new ≡ rests_of q ds.now) }
{
    let w = columns::widened(ds);
    let p = columns::point_of(&w);
    narrow::rounds(&p, q, f, a);
}

// What two passes have seen, together.
fn merged(a: Scan, b: Scan) -> Scan
    requires { Slim (wide a) × Slim (wide b) }
    ensures { wide result ≡ merge (wide a) (wide b) }
{
    Scan {
        most: a.most.max(b.most),
        least: a.least.min(b.least),
        keys: a.keys + b.keys,
        sum: a.sum + b.sum,
        even: a.even + b.even,
        odd: a.odd + b.odd,
    }
}

// The choice as one number.
fn code(c: Scan, way: i16, q: i16) -> u16
    requires { Few q × Slender q (wide c) × (nat_abs way ≤ 1) }
    ensures { (result ≡ code_of (brief (chosen q (wide c) way))) × (result < 48) }
{
    let h = narrow::chosen(c, way, q);
    h.parity as u16 + 2 * h.place + 8 * (h.step + 2) as u16
}

// What a pass has seen, and the way of the first entry, as a column.
fn lane_of(c: Scan, way: i16) -> [i16; 7]
    requires { Part 16 8 (wide c) }
    ensures { result ≡ lane_of (wide c) way }
{
    [
        c.most as i16,
        c.least as i16,
        c.keys as i16,
        c.sum,
        c.even,
        c.odd,
        way,
    ]
}

// A column t.
fn put_lane(lanes: &mut [[i16; 256]; 7], t: usize, l: &[i16; 7])
    requires { Grid 7 256 lanes.old × (t < 256) × (length l.now ≡ 7) }
    ensures { LanePut t l.now lanes.old lanes.new }
{
    for j in 0..7 {
        lanes[j][t] = l[j];
    }
}

// What the pass of the column t has seen.
fn scan_at(lanes: &[[i16; 256]; 7], t: usize) -> Scan
    requires { Grid 7 256 lanes.now × (t < 256) × Whole (column (pos 0) t lanes.now) }
    ensures { wide result ≡ scan_of (column (pos 0) t lanes.now) }
{
    Scan {
        most: lanes[0][t] as u16,
        least: lanes[1][t] as u16,
        keys: lanes[2][t] as u16,
        sum: lanes[3][t],
        even: lanes[4][t],
        odd: lanes[5][t],
    }
}

// For all low digits: what is left of the first three coordinates, and a column of what a pass over them sees.
fn fill_lows(q: i16, last: u8, n: usize, lanes: &mut [[i16; 256]; 7], lows: &mut [[i16; 3]; 256])
    requires { Base q × (nat_abs q ≤ 4) × (last < nat_abs q) × (n ≤ 256) × Grid 7 256 lanes.old × (length lows.old ≡ 256) }
    ensures { Lows q last n lanes.new lows.new }
{
    let mut ds: [u8; 4] = [0; 4];
    let mut f: [i16; 8] = [0; 8];
    let mut a: [i16; 8] = [0; 8];
    for t in 0..n {
        round_digits(&low_digits(&ds, last), q, &mut f, &mut a);
        let c = narrow::scanned(&f, &a, q, 0, 3);
        put_lane(lanes, t, &lane_of(c, narrow::sign(a[0])));
        lows[t] = [a[0], a[1], a[2]];
        counting::count_up(&mut ds, q as u8);
    }
}

// The choices of a run: columns from one on, each with what the pass over the high coordinates has seen.
fn choose_run(lanes: &[[i16; 256]; 7], from: usize, high: Scan, q: i16, run: &mut [u8])
    requires { Few q × Grid 7 256 lanes.now × (from + length run.old ≤ 256) × Lanes q from (length run.old) lanes.now × Part (nat_abs q) 5 (wide high) }
    ensures { Run q from (length run.old) lanes.now (wide high) run.new }
{
    for (t, choice) in run.iter_mut().enumerate() {
        let low = scan_at(lanes, from + t);
        *choice = code(merged(low, high), lanes[6][from + t], q) as u8;
    }
}

// The same as n entries of the choices, from one on.
fn put_run(
    lanes: &[[i16; 256]; 7],
    from: usize,
    high: Scan,
    q: i16,
    choices: &mut [u8],
    i: usize,
    n: usize,
)
    requires { Few q × Grid 7 256 lanes.now × (from + n ≤ 256) × Lanes q from n lanes.now × Part (nat_abs q) 5 (wide high) × (i + n ≤ length choices.old) × (length choices.old ≤ 16384) }
    ensures { RunPut q from n lanes.now (wide high) i choices.old choices.new }
{
    let to = i + n;
    choose_run(lanes, from, high, q, &mut choices[i..to]);
}

impl Halves {
    // Of the slice of the last digit: the choices of all entries, and what is left by the low digits and by the high ones.
    pub fn fill(&mut self, q: i16, last: u8)
        requires { Base q × (nat_abs q ≤ 4) × (last < nat_abs q) × (length self.old.choices ≡ 16384) × (length self.old.lows ≡ 256) × (length self.old.highs ≡ 256) }
        ensures { Slice q last self.new.choices self.new.lows self.new.highs }
    {
        let values = q as usize;
        let three = values * values * values;
        let four = values * three;
        let mut lanes: [[i16; 256]; 7] = [[0; 256]; 7];
        fill_lows(q, last, four, &mut lanes, &mut self.lows);
        let mut ds: [u8; 4] = [0; 4];
        let mut f: [i16; 8] = [0; 8];
        let mut a: [i16; 8] = [0; 8];
        for g in 0..four {
            round_digits(&high_digits(&ds, last), q, &mut f, &mut a);
            self.highs[g] = [a[3], a[4], a[5], a[6], a[7]];
            let high = narrow::scanned(&f, &a, q, 3, 5);
            let from = three * usize::from(ds[0]);
            put_run(&lanes, from, high, q, &mut self.choices, three * g, three);
            counting::count_up(&mut ds, q as u8);
        }
    }
}
