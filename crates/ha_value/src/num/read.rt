//! Reading number text: perhaps a sign, digits, and perhaps a dot with digits.
ghost use Rattle.std.specs.Prelude.{◌≡◌, ◌-◌, ◌*◌, ◌^◌, ◌<◌, ◌≤◌, length, true, ◌↔◌, None, Some, option_and_then, IsTrue, IfSome, SomeIff};
ghost use Rattle.std.specs.Char.{is_ascii_digit};
ghost use Rattle.std.specs.List.{list_all};
ghost use Rattle.std.specs.Ordering.{nat_cmp};
ghost use Rattle.std.specs.Str.Parse.{digits_value};
ghost use Rattle.ha_value.specs.Lists.{some_all};
ghost use Rattle.ha_value.specs.Numbers.{begins_number, has_minus, is_in_range, kept_in_range, nearer, nearest, number_from, read_number, signed, without_sign};

use crate::cut::cut_at;
use crate::num::{FIXED_LIMIT, WHOLE_LIMIT};
use crate::value::Num;
use std::cmp::Ordering;

/// Whether number text may begin with the byte: a digit or a sign.
pub fn begins_number(byte: u8) -> bool
    ensures { result ≡ begins_number byte }
{
    byte.is_ascii_digit() || byte == b'-' || byte == b'+'
}

fn has_minus(text: &[u8]) -> bool
    ensures { result ≡ has_minus text.now }
{
    match text {
        [] => false,
        [first, ..] => *first == b'-',
    }
}

fn without_sign(text: &[u8]) -> &[u8]
    ensures { result.now ≡ without_sign text.now }
{
    match text {
        [] => text,
        [first, ..] => {
            if *first == b'+' || *first == b'-' {
                &text[1..]
            } else {
                text
            }
        }
    }
}

fn signed(minus: bool, size: u64) -> i64
    requires { size < 2 ^ 63 }
    ensures { result ≡ signed minus size }
{
    if minus { -(size as i64) } else { size as i64 }
}

#[tactic(auto, using(crate::proofs::CutLemmas::alls))]
fn are_digits(text: &[u8]) -> bool
    ensures { result ≡ list_all is_ascii_digit text.now }
{
    for i in 0..text.len() {
        if !text[i].is_ascii_digit() {
            return false;
        }
    }
    true
}

/// The number of the digits, of which there is one at least, where it is in the range of whole numbers.
#[tactic(auto, using(crate::proofs::DigitLemmas::digits))]
fn units_of(text: &[u8]) -> Option<u64>
    ensures { SomeIff result ((some_all is_ascii_digit text.now ≡ true) × (digits_value 10 text.now ≤ 1_000_000_000_000)) (digits_value 10 text.now) }
{
    if text.is_empty() || !are_digits(text) {
        return None;
    }
    let mut units = 0;
    for i in 0..text.len() {
        units = units * 10 + (text[i] - b'0') as u64;
        if WHOLE_LIMIT < units {
            return None;
        }
    }
    Some(units)
}

/// How the places past the sixth lie to half a millionth.
#[tactic(auto, using(crate::proofs::DigitLemmas::halves))]
fn half(rest: &[u8]) -> Ordering
    requires { list_all is_ascii_digit rest.now ≡ true }
    ensures { result ≡ nat_cmp (2 * digits_value 10 rest.now) (10 ^ length rest.now) }
{
    if rest.is_empty() {
        return Ordering::Less;
    }
    let first = rest[0];
    if first != b'5' {
        return first.cmp(&b'5');
    }
    if are_zeros(&rest[1..]) {
        Ordering::Equal
    } else {
        Ordering::Greater
    }
}

/// The millionths, or one more, by the places past the sixth.
fn nearer(millionths: u64, rest: &[u8]) -> u64
    requires digits { list_all is_ascii_digit rest.now ≡ true }
    requires size { millionths < 1_000_000 }
    ensures value { result ≡ nearer millionths (digits_value 10 rest.now) (10 ^ length rest.now) }
    ensures size { result ≤ 1_000_000 }
{
    match half(rest) {
        Ordering::Less => millionths,
        Ordering::Equal => millionths + millionths % 2,
        Ordering::Greater => millionths + 1,
    }
}

#[tactic(auto, using(crate::proofs::DigitLemmas::zeros))]
fn are_zeros(text: &[u8]) -> bool
    requires { list_all is_ascii_digit text.now ≡ true }
    ensures { IsTrue result ↔ (digits_value 10 text.now ≡ 0) }
{
    for i in 0..text.len() {
        if text[i] != b'0' {
            return false;
        }
    }
    true
}

/// The millionths of the places, of which there is one at least, rounded half to even.
fn millionths_of(places: &[u8]) -> Option<u64>
    ensures value { SomeIff result (some_all is_ascii_digit places.now ≡ true) (nearest (digits_value 10 places.now * 1_000_000) (10 ^ length places.now)) }
    ensures size { IfSome result (λ m. m ≤ 1_000_000) }
{
    if places.is_empty() || !are_digits(places) {
        return None;
    }
    let kept = places.len().min(6);
    Some(nearer(scaled(&places[..kept]), &places[kept..]))
}

/// The number of a few digits.
#[tactic(auto, using(crate::proofs::DigitLemmas::digits))]
fn number_of(digits: &[u8]) -> u64
    requires digits { list_all is_ascii_digit digits.now ≡ true }
    requires few { length digits.now ≤ 6 }
    ensures { result ≡ digits_value 10 digits.now }
{
    let mut number = 0;
    for i in 0..digits.len() {
        number = number * 10 + (digits[i] - b'0') as u64;
    }
    number
}

/// The millionths of at most six places.
fn scaled(places: &[u8]) -> u64
    requires digits { list_all is_ascii_digit places.now ≡ true }
    requires few { length places.now ≤ 6 }
    ensures value { result ≡ digits_value 10 places.now * 10 ^ (6 - length places.now) }
    ensures size { result < 1_000_000 }
{
    number_of(places) * 10u64.pow(6 - places.len() as u32)
}

/// The number of that many millionths, where it is in range.
fn fixed(minus: bool, millionths: u64) -> Option<Num>
    requires { millionths < 2 ^ 63 }
    ensures value { result ≡ kept_in_range (Num.Fixed (signed minus millionths)) }
    ensures in_range { IfSome result (λ n. is_in_range n ≡ true) }
{
    if millionths <= FIXED_LIMIT {
        Some(Num::Fixed(signed(minus, millionths)))
    } else {
        None
    }
}

/// Digits without a dot.
#[tactic(auto, using(crate::proofs::DigitLemmas::reads))]
fn whole_number(minus: bool, whole: &[u8]) -> Option<Num>
    ensures value { result ≡ option_and_then kept_in_range (number_from minus whole.now None) }
    ensures in_range { IfSome result (λ n. is_in_range n ≡ true) }
{
    match units_of(whole) {
        None => None,
        Some(units) => Some(Num::Whole(signed(minus, units))),
    }
}

/// The digits before a dot and those behind it.
#[tactic(auto, using(crate::proofs::DigitLemmas::reads))]
fn fixed_number(minus: bool, whole: &[u8], places: &[u8]) -> Option<Num>
    ensures value { result ≡ option_and_then kept_in_range (number_from minus whole.now (Some places.now)) }
    ensures in_range { IfSome result (λ n. is_in_range n ≡ true) }
{
    match units_of(whole) {
        None => None,
        Some(units) => match millionths_of(places) {
            None => None,
            Some(millionths) => fixed(minus, units * 1_000_000 + millionths),
        },
    }
}

impl Num {
    /// The number of a text. None where the text is no number text, and where its number is out of range after rounding.
    #[tactic(auto, unfolding(crate::specs::Numbers::read_number))]
    pub fn read(text: &[u8]) -> Option<Num>
        ensures value { result ≡ read_number text.now }
        ensures in_range { IfSome result (λ n. is_in_range n ≡ true) }
    {
        let minus = has_minus(text);
        let (whole, places) = cut_at(without_sign(text), b'.');
        match places {
            None => whole_number(minus, whole),
            Some(places) => fixed_number(minus, whole, places),
        }
    }
}
