//! Arithmetic. Intermediate values have 128 bits, so every result is exact before its range is tested.
ghost use Rattle.std.specs.Prelude.{◌≡◌, ◌<◌, ◌≤◌, ◌^◌, ◌-ℤ◌, ◌*ℤ◌, pos, true, false, unsigned_abs, IfOk};
ghost use Rattle.ha_value.specs.Numbers.{is_in_range, is_zero};
ghost use Rattle.ha_value.specs.Arithmetic.{absolute, add, checked, div, floor_div, floored_quotient, modulo, mul, negate, sub, to_fixed};

use crate::num::exact::{floor, remainder, rounded};
use crate::num::{FIXED_LIMIT, NumFault, UNIT, WHOLE_LIMIT};
use crate::value::Num;

/// The whole number, where it is in range.
fn whole(value: i128) -> Result<Num, NumFault>
    ensures value { result ≡ checked (Num.Whole value) }
    ensures in_range { IfOk result (λ n. is_in_range n ≡ true) }
{
    if value.unsigned_abs() <= WHOLE_LIMIT as u128 {
        Ok(Num::Whole(value as i64))
    } else {
        Err(NumFault::Range)
    }
}

/// The number of that many millionths, where it is in range.
fn fixed(value: i128) -> Result<Num, NumFault>
    ensures value { result ≡ checked (Num.Fixed value) }
    ensures in_range { IfOk result (λ n. is_in_range n ≡ true) }
{
    if value.unsigned_abs() <= FIXED_LIMIT as u128 {
        Ok(Num::Fixed(value as i64))
    } else {
        Err(NumFault::Range)
    }
}

/// The exact product.
fn product(a: i64, b: i64) -> i128
    ensures value { result ≡ a *ℤ b }
    ensures size { unsigned_abs result ≤ 2 ^ 126 }
{
    a as i128 * b as i128
}

/// The exact difference.
fn difference(a: i128, b: i128) -> i128
    requires a_room { unsigned_abs a < 2 ^ 83 }
    requires b_room { unsigned_abs b < 2 ^ 83 }
    ensures { result ≡ a -ℤ b }
{
    a - b
}

/// The number of millionths of that many units.
fn scaled(value: i128) -> i128
    requires { unsigned_abs value < 2 ^ 83 }
    ensures value { result ≡ value *ℤ pos 1_000_000 }
    ensures size { unsigned_abs result ≤ 2 ^ 126 }
{
    value * UNIT
}

impl Num {
    fn floored_quotient(&self, other: &Num) -> i128
        requires { is_zero other.now ≡ false }
        ensures value { result ≡ floored_quotient self.now other.now }
        ensures size { unsigned_abs result < 2 ^ 83 }
    {
        floor(self.millionths(), other.millionths())
    }

    /// The sum: whole where both numbers are, else fixed-point.
    #[tactic(auto, unfolding(crate::specs::Arithmetic::add))]
    pub fn add(&self, other: &Num) -> Result<Num, NumFault>
        ensures value { result ≡ add self.now other.now }
        ensures in_range { IfOk result (λ n. is_in_range n ≡ true) }
    {
        match (*self, *other) {
            (Num::Whole(a), Num::Whole(b)) => whole(a as i128 + b as i128),
            _ => fixed(self.millionths() + other.millionths()),
        }
    }

    /// The difference: whole where both numbers are, else fixed-point.
    #[tactic(auto, unfolding(crate::specs::Arithmetic::sub))]
    pub fn sub(&self, other: &Num) -> Result<Num, NumFault>
        ensures value { result ≡ sub self.now other.now }
        ensures in_range { IfOk result (λ n. is_in_range n ≡ true) }
    {
        match (*self, *other) {
            (Num::Whole(a), Num::Whole(b)) => whole(difference(a as i128, b as i128)),
            _ => fixed(difference(self.millionths(), other.millionths())),
        }
    }

    /// The product: whole where both numbers are, else fixed-point and rounded half to even.
    #[tactic(auto, using(crate::proofs::NumberLemmas::products), unfolding(crate::specs::Arithmetic::mul))]
    pub fn mul(&self, other: &Num) -> Result<Num, NumFault>
        ensures value { result ≡ mul self.now other.now }
        ensures in_range { IfOk result (λ n. is_in_range n ≡ true) }
    {
        match (*self, *other) {
            (Num::Whole(a), Num::Whole(b)) => whole(product(a, b)),
            (Num::Fixed(a), Num::Fixed(b)) => fixed(rounded(product(a, b), UNIT)),
            (Num::Whole(a), Num::Fixed(b)) => fixed(product(a, b)),
            (Num::Fixed(a), Num::Whole(b)) => fixed(product(a, b)),
        }
    }

    /// The quotient, always fixed-point and rounded half to even.
    #[tactic(auto, unfolding(crate::specs::Arithmetic::div))]
    pub fn div(&self, other: &Num) -> Result<Num, NumFault>
        ensures value { result ≡ div self.now other.now }
        ensures in_range { IfOk result (λ n. is_in_range n ≡ true) }
    {
        if other.is_zero() {
            return Err(NumFault::Zero);
        }
        fixed(rounded(scaled(self.millionths()), other.millionths()))
    }

    /// The greatest whole value that is not above the quotient; fixed-point unless both numbers are whole.
    #[tactic(auto, unfolding(crate::specs::Arithmetic::floor_div))]
    pub fn floor_div(&self, other: &Num) -> Result<Num, NumFault>
        ensures value { result ≡ floor_div self.now other.now }
        ensures in_range { IfOk result (λ n. is_in_range n ≡ true) }
    {
        if other.is_zero() {
            return Err(NumFault::Zero);
        }
        match (*self, *other) {
            (Num::Whole(a), Num::Whole(b)) => whole(floor(a as i128, b as i128)),
            _ => fixed(scaled(self.floored_quotient(other))),
        }
    }

    /// `a - b * (a // b)`, also where `a // b` would be out of range.
    #[tactic(auto, unfolding(crate::specs::Arithmetic::modulo))]
    pub fn modulo(&self, other: &Num) -> Result<Num, NumFault>
        ensures value { result ≡ modulo self.now other.now }
        ensures in_range { IfOk result (λ n. is_in_range n ≡ true) }
    {
        if other.is_zero() {
            return Err(NumFault::Zero);
        }
        match (*self, *other) {
            (Num::Whole(a), Num::Whole(b)) => whole(remainder(a as i128, b as i128)),
            _ => fixed(remainder(self.millionths(), other.millionths())),
        }
    }

    /// The number with the other sign; Range comes only where the number is itself out of range.
    #[tactic(auto, unfolding(crate::specs::Arithmetic::negate))]
    pub fn negate(&self) -> Result<Num, NumFault>
        ensures value { result ≡ negate self.now }
        ensures in_range { IfOk result (λ n. is_in_range n ≡ true) }
    {
        match self {
            Num::Whole(a) => whole(-(*a as i128)),
            Num::Fixed(a) => fixed(-(*a as i128)),
        }
    }

    /// The number without its sign; Range comes only where the number is itself out of range.
    #[tactic(auto, unfolding(crate::specs::Arithmetic::absolute))]
    pub fn absolute(&self) -> Result<Num, NumFault>
        ensures value { result ≡ absolute self.now }
        ensures in_range { IfOk result (λ n. is_in_range n ≡ true) }
    {
        match self {
            Num::Whole(a) => whole((*a as i128).abs()),
            Num::Fixed(a) => fixed((*a as i128).abs()),
        }
    }

    /// The same value as a fixed-point number; Range comes only where the number is itself out of range.
    #[tactic(auto, unfolding(crate::specs::Arithmetic::to_fixed))]
    pub fn to_fixed(&self) -> Result<Num, NumFault>
        ensures value { result ≡ to_fixed self.now }
        ensures in_range { IfOk result (λ n. is_in_range n ≡ true) }
    {
        fixed(self.millionths())
    }
}
