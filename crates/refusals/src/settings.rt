// The settings q and M.
ghost use Rattle.std.specs.Prelude.{◌≡◌, nat_abs};
ghost use Rattle.refusals.specs.Settings.{good_settings, check_settings, Allowed};

use crate::Refusal;

pub const Q_LEAST: i32 = 2;

pub const Q_MOST: i32 = 16;

pub const M_LEAST: i32 = 1;

pub const M_MOST: i32 = 4;

pub const POWER_MOST: u64 = 4096;

// q and M, in a type that can hold a wrong value, so that a wrong one is refused and never wrapped.
#[derive(Clone, Copy, Debug, PartialEq, Eq)]
pub struct Settings {
    pub q: i32,
    pub m: i32,
}

// Whether q, M and q^M are within their limits. The power is worked out only where q and M are, so it cannot wrap.
fn good_settings(q: i32, m: i32) -> bool
    ensures { result ≡ good_settings q m }
{
    if integers::within(q, Q_LEAST, Q_MOST) {
        if integers::within(m, M_LEAST, M_MOST) {
            integers::power(q as u64, m as u64) <= POWER_MOST
        } else {
            false
        }
    } else {
        false
    }
}

// Refusal 1 where they are not.
pub fn check_settings(s: Settings) -> Result<(), Refusal>
    ensures { result ≡ check_settings s }
{
    if good_settings(s.q, s.m) {
        Ok(())
    } else {
        Err(Refusal::Settings)
    }
}

// q of allowed settings, as a number to calculate with.
pub fn base(s: Settings) -> i64
    requires { Allowed s.q s.m }
    ensures { result ≡ s.q }
{
    s.q as i64
}

// The same as a count: how many values a digit has.
pub fn digit_values(s: Settings) -> usize
    requires { Allowed s.q s.m }
    ensures { result ≡ nat_abs s.q }
{
    s.q as usize
}

// M of allowed settings: how many layers.
pub fn layers(s: Settings) -> usize
    requires { Allowed s.q s.m }
    ensures { result ≡ nat_abs s.m }
{
    s.m as usize
}
