//! Rounding to places, and cutting to a whole number.
ghost use Rattle.std.specs.Prelude.{◌≡◌, ◌<◌, ◌≤◌, ◌-◌, ◌%◌, ◌^◌, ◌*ℤ◌, pos, unsigned_abs, IsTrue};
ghost use Rattle.ha_value.specs.Numbers.{is_in_range, rounded};
ghost use Rattle.ha_value.specs.Arithmetic.{round, to_whole};

use crate::num::UNIT;
use crate::num::exact::{nearest, rounded};
use crate::value::Num;

/// The multiple of the place that is nearest to the value, and the even one of two.
#[tactic(auto, using(crate::proofs::NumberLemmas::rounding))]
fn nearest_multiple(value: i128, place: u64) -> i64
    requires value_room { unsigned_abs value ≤ 1_000_000_000_000_000_000 }
    requires place { 0 < place }
    requires divides { 1_000_000_000_000_000_000 % place ≡ 0 }
    ensures value { result ≡ rounded value (pos place) *ℤ pos place }
    ensures size { unsigned_abs result ≤ 1_000_000_000_000_000_000 }
{
    let size = (nearest(value.unsigned_abs(), place as u128) * place as u128) as i64;
    if value < 0 { -size } else { size }
}

/// The millionths of the last of that many places.
fn millionths_of_place(places: u8) -> u64
    requires at_least { 1 ≤ places }
    requires at_most { places ≤ 6 }
    ensures value { result ≡ 10 ^ (6 - places) }
    ensures place { 0 < result }
    ensures divides { 1_000_000_000_000_000_000 % result ≡ 0 }
{
    match places {
        1 => 100_000,
        2 => 10_000,
        3 => 1_000,
        4 => 100,
        5 => 10,
        _ => 1,
    }
}

impl Num {
    /// Half to even at that many places: a whole number at none, else a fixed-point one.
    #[tactic(auto, unfolding(crate::specs::Arithmetic::round))]
    pub fn round(&self, places: u8) -> Num
        requires places { places ≤ 6 }
        requires in_range { IsTrue (is_in_range self.now) }
        ensures value { result ≡ round self.now places }
        ensures in_range { IsTrue (is_in_range result) }
    {
        if places == 0 {
            return Num::Whole(rounded(self.millionths(), UNIT) as i64);
        }
        Num::Fixed(nearest_multiple(self.millionths(), millionths_of_place(places)))
    }

    /// The whole number of the value, cut towards zero.
    #[tactic(auto, unfolding(crate::specs::Arithmetic::to_whole))]
    pub fn to_whole(&self) -> Num
        ensures { result ≡ to_whole self.now }
    {
        match self {
            Num::Whole(whole) => Num::Whole(*whole),
            Num::Fixed(fixed) => Num::Whole(*fixed / 1_000_000),
        }
    }
}
