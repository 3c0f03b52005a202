// Eight lent numbers as the floors below take them, and back.
ghost use Rattle.std.specs.Prelude.{◌≡◌, ◌-◌, ◌^◌, length};
ghost use Rattle.integers.specs.Vectors.{Sized};

// The same eight numbers in 64 bits.
pub fn widen(a: &[i32]) -> [i64; 8]
    requires { length a.now ≡ 8 }
    ensures { result ≡ a.now }
{
    std::array::from_fn(|i| i64::from(a[i]))
}

// The same eight numbers in 32 bits.
pub fn narrow(a: &[i64; 8]) -> [i32; 8]
    requires { Sized 8 (2 ^ 31 - 1) a.now }
    ensures { result ≡ a.now }
{
    std::array::from_fn(|i| a[i] as i32)
}
