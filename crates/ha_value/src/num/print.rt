//! Printing numbers.
ghost use Rattle.std.specs.Prelude.{◌≡◌, ◌<◌, ◌≤◌, ◌∷◌, ◌++◌, decimal, IfOk, OnOk};
ghost use Rattle.ha_value.specs.Lists.{before_end};
ghost use Rattle.ha_value.specs.Numbers.{digit, is_digit_zero, places_text, print_number, sign_text};

use crate::value::Num;
use crate::word::Word;
use itoa::Buffer;
use std::alloc::{AllocError, Global};

/// The last digit.
fn digit(number: u64) -> u8
    ensures value { result ≡ digit number }
    ensures size { result < 58 }
{
    b'0' + (number % 10) as u8
}

#[tactic(auto, using(crate::proofs::CutLemmas::cuts))]
fn without_zeros_behind(digits: &[u8]) -> &[u8]
    ensures { result.now ≡ before_end is_digit_zero digits.now }
{
    let mut end = digits.len();
    while 0 < end && digits[end - 1] == b'0' {
        end -= 1;
    }
    &digits[..end]
}

/// Appends the places of the millionths, without zeros at the end.
fn push_places(text: &mut Word, millionths: u64) -> Result<(), AllocError>
    ensures { OnOk result (text.new ≡ text.old ++ places_text millionths) }
{
    text.push_byte(digit(millionths / 100_000))?;
    let digits = [
        digit(millionths / 10_000),
        digit(millionths / 1_000),
        digit(millionths / 100),
        digit(millionths / 10),
        digit(millionths),
    ];
    text.push_bytes(without_zeros_behind(&digits))
}

fn sign_text(number: i64) -> &'static str
    ensures { result.now ≡ sign_text number }
{
    if number < 0 { "-" } else { "" }
}

/// A sign, units, a dot, and places.
fn print_parts(alloc: Global, sign: &str, units: u64, millionths: u64) -> Result<Word, AllocError>
    ensures { IfOk result (λ w. w ≡ sign.now ++ decimal units ++ 46 ∷ places_text millionths) }
{
    let mut text = Word::from_str(alloc, sign)?;
    let mut room = Buffer::new();
    text.push_str(room.format(units))?;
    text.push_byte(b'.')?;
    push_places(&mut text, millionths)?;
    Ok(text)
}

#[tactic(auto, unfolding(crate::specs::Numbers::print_number))]
fn print_fixed(alloc: Global, fixed: i64) -> Result<Word, AllocError>
    ensures { IfOk result (λ w. w ≡ print_number (Num.Fixed fixed)) }
{
    let size = fixed.unsigned_abs();
    print_parts(alloc, sign_text(fixed), size / 1_000_000, size % 1_000_000)
}

impl Num {
    /// The number as it is written: `-12`, `0.5`, `3.0`.
    #[tactic(auto, unfolding(crate::specs::Numbers::print_number))]
    pub fn print(&self, alloc: Global) -> Result<Word, AllocError>
        ensures { IfOk result (λ w. w ≡ print_number self.now) }
    {
        match self {
            Num::Whole(whole) => {
                let mut room = Buffer::new();
                let word = Word::from_str(alloc, room.format(*whole))?;
                Ok(word)
            }
            Num::Fixed(fixed) => print_fixed(alloc, *fixed),
        }
    }
}
