// Whole numbers over a power of two as floats, with nothing lost.
ghost use Rattle.std.specs.Prelude.{◌≡◌, ◌≤◌, ◌^◌, nat_abs, ◌*ℤ◌};
ghost use Rattle.readings.specs.Taking.{units_value};
ghost use Rattle.readings.specs.Report.{decoded_value};

// The value of X units: X/1024.
pub fn units_value(x: i32) -> f32
    requires { nat_abs x ≤ 2 ^ 24 }
    ensures { result ≡ units_value x }
{
    x as f32 / 1024.0
}

// A reading as decoded: s·e/2048, for a step s and a doubled coordinate e.
pub fn decoded_value(s: i64, e: i64) -> f32
    requires { nat_abs (s *ℤ e) ≤ 2 ^ 24 }
    ensures { result ≡ decoded_value s e }
{
    (s * e) as f32 / 2048.0
}
