// Reading what is asked for: words as numbers, lines of them, and the three lines of a text.
#![tactic(auto)]

ghost use Rattle.std.specs.Prelude.{◌≡◌, true, false, ◌+◌, ◌*◌, ◌-◌, ◌≤◌, min, length, drop, position, ◌==◌};
ghost use Rattle.std.proofs.lemmas.List.Edits.{sets};
ghost use Rattle.texts.specs.Answers.{piece_length, cap, size_of, signed, number_told, counted, pair_told, LinesFound, asked_told, text_told};
ghost use Rattle.texts.specs.Text.{text_most, newline, is_digit, numeric, numbers, is_asked, line_of, well_formed};

use refusals::settings::Settings;

// The most bytes of a text, and the most numbers that so many bytes hold.
pub const TEXT_MOST: usize = 4096;

pub const NUMBERS_MOST: usize = 2048;

// A number past every one that is taken.
const CAP: u64 = 4294967296;

// Where the first newline is, if there is one.
fn first_newline(s: &[u8]) -> Option<usize>
    ensures { result ≡ position (λ b. b == newline) s.now }
{
    s.iter().position(|b| *b == b'\n')
}

// Where the line that begins at `from` ends: at the next newline, or with the text.
fn line_end(text: &[u8], from: usize) -> usize
    requires { from ≤ length text.now }
    ensures is { result ≡ from + piece_length newline (drop from text.now) }
    ensures within { (from ≤ result) × (result ≤ length text.now) }
{
    let rest = &text[from..];
    from + first_newline(rest).unwrap_or(rest.len())
}

// The value of digits and one digit more, up to the cap.
fn next_value(v: u64, b: u8) -> u64
    requires { (v ≤ cap) × (is_digit b ≡ true) }
    ensures { result ≡ min (10 * v + (b - 48)) cap }
{
    (10 * v + (b - b'0') as u64).min(CAP)
}

// The value of digits, up to the cap; none where there is no digit, or another byte.
fn digits_size(ds: &[u8]) -> Option<u64>
    ensures { result ≡ size_of ds.now }
{
    if ds.is_empty() {
        return None;
    }
    let mut v = 0;
    for b in ds {
        if !b.is_ascii_digit() {
            return None;
        }
        v = next_value(v, *b);
    }
    Some(v)
}

// A number of that size, after a minus or without one, within signed 32 bits.
fn signed(neg: bool, size: Option<u64>) -> Option<i32>
    ensures { result ≡ signed neg size }
{
    let size = i64::try_from(size?).ok()?;
    i32::try_from(if neg { -size } else { size }).ok()
}

// A word as a number within signed 32 bits.
fn read_word(word: &[u8]) -> Option<i32>
    ensures { result ≡ number_told word.now }
{
    match word.strip_prefix(b"-") {
        Some(ds) => signed(true, digits_size(ds)),
        None => signed(false, digits_size(word)),
    }
}

// The numbers of a line to the front of the lent array, and how many; none where it holds something else.
fn read_numbers(line: &[u8], out: &mut [i32]) -> Option<usize>
    requires { (length line.now ≤ text_most) × (text_most ≤ 2 * length out.old) }
    ensures answer { result ≡ counted line.now }
    ensures room { numeric line.now ≡ true → out.new ≡ sets out.old 0 (numbers line.now) }
{
    let mut n = 0;
    for word in line.split(|b| *b == b' ') {
        if !word.is_empty() {
            out[n] = read_word(word)?;
            n += 1;
        }
    }
    Some(n)
}

// q and M; none where the line is not two numbers.
fn read_pair(line: &[u8]) -> Option<Settings>
    requires { length line.now ≤ text_most }
    ensures { result ≡ pair_told line.now }
{
    let mut two = [0; NUMBERS_MOST];
    if read_numbers(line, &mut two)? != 2 {
        return None;
    }
    Some(Settings {
        q: two[0],
        m: two[1],
    })
}

// Where each of three lines ends; none for a text of another kind.
fn find_lines(text: &[u8]) -> Option<(usize, usize, usize)>
    ensures { LinesFound text.now result }
{
    let n = text.len();
    if n > TEXT_MOST {
        return None;
    }
    let a = line_end(text, 0);
    if a >= n {
        return None;
    }
    let b = line_end(text, a + 1);
    if b + 1 >= n {
        return None;
    }
    let c = line_end(text, b + 1);
    if c + 1 < n {
        return None;
    }
    Some((a, b, c))
}

// What three lines ask for: q and M, and how many steps there are, or none where it is malformed. The steps and X go to the front of the
// lent arrays.
fn read_lines(
    first: &[u8],
    second: &[u8],
    third: &[u8],
    steps: &mut [i32],
    x: &mut [i32],
) -> Option<(Settings, usize)>
    requires { (length first.now ≤ text_most) × (length second.now ≤ text_most) × (length third.now ≤ text_most) × (text_most ≤ 2 * length steps.old) × (text_most ≤ 2 * length x.old) }
    ensures answer { result ≡ asked_told first.now second.now third.now }
    ensures room { is_asked first.now second.now third.now ≡ true → (steps.new ≡ sets steps.old 0 (numbers second.now)) × (x.new ≡ sets x.old 0 (numbers third.now)) }
{
    let s = read_pair(first)?;
    let n = read_numbers(second, steps)?;
    if read_numbers(third, x)? != 8 {
        return None;
    }
    Some((s, n))
}

// What a text asks for: q and M, and how many steps there are, or none where it is malformed. The steps and X go to the front of the
// lent arrays.
pub fn read_text(text: &[u8], steps: &mut [i32], x: &mut [i32]) -> Option<(Settings, usize)>
    requires { (text_most ≤ 2 * length steps.old) × (text_most ≤ 2 * length x.old) }
    ensures answer { result ≡ text_told text.now }
    ensures room { well_formed text.now ≡ true → (steps.new ≡ sets steps.old 0 (numbers (line_of text.now 1))) × (x.new ≡ sets x.old 0 (numbers (line_of text.now 2))) }
{
    let (a, b, c) = find_lines(text)?;
    read_lines(&text[..a], &text[a + 1..b], &text[b + 1..c], steps, x)
}
