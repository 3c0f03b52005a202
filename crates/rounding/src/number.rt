// The numbers that the pass runs in: 64 bits wide for any vector, 16 bits for a small one.
ghost use Rattle.std.specs.Prelude.{◌≡◌, Some, ℕ, ◌+◌, ◌-◌, ◌/◌, ◌%◌, ◌^◌, ◌<◌, ◌≤◌, eqb, ℤ, pos, nat_abs, ◌+ℤ◌, ◌-ℤ◌, ◌*ℤ◌, ◌≤ℤ◌};
ghost use Rattle.std.specs.Ordering.{int_cmp, nat_cmp};
ghost use Rattle.std.proofs.Common.{rules, arith};
ghost use Rattle.lattice.specs.Doubled.{par};
ghost use Rattle.rounding.specs.Rounding.{Room};

use lattice::member;
use std::ops::{Add, Div, Mul, Rem, Sub};

// A key or a place: a count, with exact arithmetic where the answer fits.
pub trait Count: Copy
    + PartialOrd
    + Add<Self, Output = Self>
    + Sub<Self, Output = Self>
    + Div<Self, Output = Self>
    + Rem<Self, Output = Self> {
    // The count that a value stands for, and the greatest that the type has.
    ghost count: { Self → ℕ };

    ghost most: { ℕ };

    // A small count.
    fn of(n: u8) -> Self
        ensures { count result ≡ n };

    ghost order_law: { (a b : Self) → Self.partial_cmp a b ≡ Some (nat_cmp (count a) (count b)) };

    ghost can_add_law: { (a b : Self) → count a + count b ≤ most → Self.can_add a b };

    ghost add_law: { (a b c : Self) → Self.add_gives a b c → count c ≡ count a + count b };

    ghost can_sub_law: { (a b : Self) → count b ≤ count a → Self.can_sub a b };

    ghost sub_law: { (a b c : Self) → Self.sub_gives a b c → count c ≡ count a - count b };

    ghost can_div_law: { (a b : Self) → 0 < count b → Self.can_div a b };

    ghost div_law: { (a b c : Self) → Self.div_gives a b c → count c ≡ count a / count b };

    ghost can_rem_law: { (a b : Self) → 0 < count b → Self.can_rem a b };

    ghost rem_law: { (a b c : Self) → Self.rem_gives a b c → count c ≡ count a % count b };
}

impl Count for usize {
    ghost count = { λ n. n };

    ghost most = { 2 ^ 64 - 1 };

    fn of(n: u8) -> usize {
        n as usize
    }

    ghost order_law = { Prim.search rules };

    ghost can_add_law = { Prim.search rules };

    ghost add_law = { Prim.search rules };

    ghost can_sub_law = { Prim.search rules };

    ghost sub_law = { Prim.search rules };

    ghost can_div_law = { Prim.search rules };

    ghost div_law = { Prim.search rules };

    ghost can_rem_law = { Prim.search rules };

    ghost rem_law = { Prim.search rules };
}

impl Count for u16 {
    ghost count = { λ n. n };

    ghost most = { 2 ^ 16 - 1 };

    fn of(n: u8) -> u16 {
        n as u16
    }

    ghost order_law = { Prim.search rules };

    ghost can_add_law = { Prim.search rules };

    ghost add_law = { Prim.search rules };

    ghost can_sub_law = { Prim.search rules };

    ghost sub_law = { Prim.search rules };

    ghost can_div_law = { Prim.search rules };

    ghost div_law = { Prim.search rules };

    ghost can_rem_law = { Prim.search rules };

    ghost rem_law = { Prim.search rules };
}

// A whole number, with exact arithmetic where the answer fits, and the counts that its keys are.
pub trait Number: Copy
    + PartialOrd
    + Add<Self, Output = Self>
    + Sub<Self, Output = Self>
    + Mul<Self, Output = Self> {
    type Key: Count;

    // The whole number that a value stands for, and a size that the type has on both sides of 0.
    ghost value: { Self → ℤ };

    ghost most: { ℕ };

    // The greatest divisor that the pass takes, and the greatest rounding.
    ghost step: { ℕ };

    ghost whole: { ℕ };

    // A small number.
    fn of(n: i8) -> Self
        ensures { value result ≡ n };

    fn is_odd(self) -> bool
        ensures { result ≡ eqb (par (value self)) 1 };

    // A number from 0 on as a count, and back.
    fn key(self) -> Self::Key
        requires { pos 0 ≤ℤ value self }
        ensures { Self.Key.count result ≡ nat_abs (value self) };

    fn of_key(k: Self::Key) -> Self
        requires { Self.Key.count k ≤ most }
        ensures { value result ≡ pos (Self.Key.count k) };

    ghost order_law: { (x y : Self) → Self.partial_cmp x y ≡ Some (int_cmp (value x) (value y)) };

    ghost can_add_law: { (x y : Self) → nat_abs (value x +ℤ value y) ≤ most → Self.can_add x y };

    ghost add_law: { (x y z : Self) → Self.add_gives x y z → value z ≡ value x +ℤ value y };

    ghost can_sub_law: { (x y : Self) → nat_abs (value x -ℤ value y) ≤ most → Self.can_sub x y };

    ghost sub_law: { (x y z : Self) → Self.sub_gives x y z → value z ≡ value x -ℤ value y };

    ghost can_mul_law: { (x y : Self) → nat_abs (value x *ℤ value y) ≤ most → Self.can_mul x y };

    ghost mul_law: { (x y z : Self) → Self.mul_gives x y z → value z ≡ value x *ℤ value y };

    ghost room_law: { Room step whole most Self.Key.most };
}

impl Number for i64 {
    type Key = usize;

    ghost value = { λ x. x };

    ghost most = { 2 ^ 63 - 1 };

    ghost step = { 2 ^ 14 };

    ghost whole = { 2 ^ 32 };

    fn of(n: i8) -> i64 {
        n as i64
    }

    fn is_odd(self) -> bool {
        member::odd(self)
    }

    fn key(self) -> usize {
        self as usize
    }

    fn of_key(k: usize) -> i64 {
        k as i64
    }

    ghost order_law = { Prim.search rules };

    ghost can_add_law = { Prim.search rules };

    ghost add_law = { Prim.search rules };

    ghost can_sub_law = { Prim.search rules };

    ghost sub_law = { Prim.search rules };

    ghost can_mul_law = { Prim.search rules };

    ghost mul_law = { Prim.search rules };

    ghost room_law = { record { keys = Prim.omega arith; sums = Prim.omega arith; squares = Prim.omega arith } };
}

impl Number for i16 {
    type Key = u16;

    ghost value = { λ x. x };

    ghost most = { 2 ^ 15 - 1 };

    ghost step = { 16 };

    ghost whole = { 2 };

    fn of(n: i8) -> i16 {
        n as i16
    }

    fn is_odd(self) -> bool {
        self % 2 != 0
    }

    fn key(self) -> u16 {
        self as u16
    }

    fn of_key(k: u16) -> i16 {
        k as i16
    }

    ghost order_law = { Prim.search rules };

    ghost can_add_law = { Prim.search rules };

    ghost add_law = { Prim.search rules };

    ghost can_sub_law = { Prim.search rules };

    ghost sub_law = { Prim.search rules };

    ghost can_mul_law = { Prim.search rules };

    ghost mul_law = { Prim.search rules };

    ghost room_law = { record { keys = Prim.omega arith; sums = Prim.omega arith; squares = Prim.omega arith } };
}
