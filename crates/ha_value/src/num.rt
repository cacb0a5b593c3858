//! Numbers: whole ones, and fixed-point ones in millionths.
ghost use Rattle.std.specs.Prelude.{◌≡◌, ◌<◌, ◌^◌, not, false, unsigned_abs};
ghost use Rattle.ha_value.specs.Numbers.{compare, is_in_range, is_zero, millionths};

mod arithmetic;
mod exact;
mod print;
mod read;
mod round;

use crate::plain::Plain;
use crate::value::Num;
pub use read::begins_number;
use std::alloc::{AllocError, Global};
use std::cmp::Ordering;
use thiserror::Error;

/// Why an operation on numbers has no result.
#[derive(Clone, Copy, Debug, PartialEq, Eq, Error)]
pub enum NumFault {
    /// The exact result is not from -10^12 to 10^12.
    #[error("the result is out of range")]
    Range = 1,
    /// The divisor is zero.
    #[error("the divisor is zero")]
    Zero = 2,
}

/// The range of numbers, in whole units and in millionths.
const WHOLE_LIMIT: u64 = 1_000_000_000_000;

const FIXED_LIMIT: u64 = 1_000_000_000_000_000_000;

/// The millionths of a unit.
const UNIT: i128 = 1_000_000;

impl Num {
    /// Whether the value is from -10^12 to 10^12, ends included.
    pub fn is_in_range(&self) -> bool
        ensures { result ≡ is_in_range self.now }
    {
        match self {
            Num::Whole(whole) => whole.unsigned_abs() <= WHOLE_LIMIT,
            Num::Fixed(fixed) => fixed.unsigned_abs() <= FIXED_LIMIT,
        }
    }

    pub fn is_zero(&self) -> bool
        ensures { result ≡ is_zero self.now }
    {
        match self {
            Num::Whole(whole) => *whole == 0,
            Num::Fixed(fixed) => *fixed == 0,
        }
    }

    /// Zero is false, and every other number true.
    pub fn truth(&self) -> bool
        ensures { result ≡ not (is_zero self.now) }
    {
        !self.is_zero()
    }

    /// The order of the values: 3 and 3.0 are equal.
    pub fn compare(&self, other: &Num) -> Ordering
        ensures { result ≡ compare self.now other.now }
    {
        self.millionths().cmp(&other.millionths())
    }

    fn millionths(&self) -> i128
        ensures value { result ≡ millionths self.now }
        ensures size { unsigned_abs result < 2 ^ 83 }
        ensures zero { is_zero self.now ≡ false → 0 < unsigned_abs result }
    {
        match self {
            Num::Whole(whole) => *whole as i128 * UNIT,
            Num::Fixed(fixed) => *fixed as i128,
        }
    }
}

impl Plain for Num {
    fn copy(&self, alloc: Global) -> Result<Num, AllocError> {
        Ok(*self)
    }

    fn same(&self, other: &Num) -> bool {
        *self == *other
    }
}
