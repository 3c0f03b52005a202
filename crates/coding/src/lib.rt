// A point of E8 coded and decoded by itself (01, Layers and steps).
#![tactic(auto)]

pub mod asked;
pub mod counting;

ghost use Rattle.std.specs.Prelude.{◌≡◌, length};
ghost use Rattle.coding.specs.Answers.{coded, digit_room, decoded};

use layers::{digits, points};
use refusals::settings::Settings;
use refusals::{Refusal, settings};

// The point coder: writes the 8 M digits of a doubled point, layer 0 first, to the front of the lent bytes, and answers what is left over.
pub fn digits_of_point(s: Settings, e: &[i32], out: &mut [u8]) -> Result<[i32; 8], Refusal>
    ensures answer { result ≡ coded s e.now (length out.old) }
    ensures room { out.new ≡ digit_room s e.now out.old }
{
    asked::check_point(s, e, out.len())?;
    let g = digits::digits(
        &lattice::lent::widen(e),
        settings::base(s),
        settings::layers(s),
        out,
    );
    Ok(lattice::lent::narrow(&g))
}

// The point decoder: the doubled point of 8 M digits, layer 0 first.
pub fn point_of_digits(s: Settings, ds: &[u8]) -> Result<[i32; 8], Refusal>
    ensures answer { result ≡ decoded s ds.now }
{
    asked::check_digits(s, ds)?;
    let e = points::decode_one(ds, settings::base(s), settings::layers(s));
    Ok(lattice::lent::narrow(&e))
}
