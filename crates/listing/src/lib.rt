// The showing program's work: from the text that it reads to the text that it prints (01, The proved blocks).
#![tactic(auto)]

mod lines;

ghost use Rattle.std.specs.Prelude.{◌≡◌, ◌++◌, ◌^◌, ◌≤◌, nat_abs, length, drop};
ghost use Rattle.refusals.specs.Verdicts.{spot_of};
ghost use Rattle.records.specs.Eight.Codes.{Coder, IsBlock};
ghost use Rattle.listing.specs.Listing.{room_most, refusal_line, block_listing, block_shown, shown};
ghost use Rattle.listing.specs.Pages.{HasRoom, Puts};

use layers::points;
use lines::Page;
use records::codes;
use refusals::settings::Settings;
use refusals::{Refusal, settings};
use texts::NUMBERS_MOST;

// The bytes of the record of one block of four layers.
const CODE_MOST: usize = 37;

// Puts the line of a refusal.
fn put_refusal(r: Refusal, page: &mut Page<'_>)
    requires { (spot_of r ≤ 2 ^ 32) × HasRoom page.old room_most }
    ensures { Puts page.old page.new (refusal_line r) }
{
    let l = [r.number() as i64, r.place() as i64];
    page.line(b"refused", &l);
}

// Puts the listing of a block from its code.
fn put_block(q: i64, m: usize, steps: &[i32], code: &[u8], page: &mut Page<'_>)
    requires { Coder q m steps.now × IsBlock (length steps.now) (nat_abs q) m code.now × HasRoom page.old room_most }
    ensures { Puts page.old page.new (block_listing (nat_abs q) m steps.now code.now) }
{
    let step = [code[0] as i64, codes::step_of(steps, code)];
    page.line(b"step", &step);
    page.layers(m, &code[1..]);
    let e = points::decode_one(&code[1..], q, m);
    page.line(b"point", &e);
}

// Puts what is shown of eight X: the listing of their block, or the refusal.
fn show_block(s: Settings, steps: &[i32], x: &[i32], page: &mut Page<'_>)
    requires { (length x.now ≡ 8) × HasRoom page.old room_most }
    ensures { Puts page.old page.new (block_shown s steps.now x.now) }
{
    let mut code: [u8; CODE_MOST] = [0; CODE_MOST];
    match encoding::encode_units(s, steps, x, &mut code) {
        Err(r) => put_refusal(r, page),
        Ok(_) => {
            let m = settings::layers(s);
            let end = 4 + codes::block_size(m);
            put_block(settings::base(s), m, steps, &code[4..end], page)
        }
    }
}

// Puts what is shown of a text.
fn show_text(given: &[u8], page: &mut Page<'_>)
    requires { HasRoom page.old room_most }
    ensures { Puts page.old page.new (shown given.now) }
{
    let mut steps = [0; NUMBERS_MOST];
    let mut x = [0; NUMBERS_MOST];
    match texts::read_text(given, &mut steps, &mut x) {
        None => put_refusal(Refusal::Record(0), page),
        Some((s, n)) => show_block(s, &steps[..n], &x[..8], page),
    }
}

// What the showing program prints for a text, at the front of the room that it lends; how many bytes that is.
pub fn show(given: &[u8], out: &mut [u8]) -> usize
    requires { room_most ≤ length out.old }
    ensures answer { result ≡ length (shown given.now) }
    ensures room { out.new ≡ shown given.now ++ drop (length (shown given.now)) out.old }
{
    let mut page = Page::new(out);
    show_text(given, &mut page);
    page.used
}
