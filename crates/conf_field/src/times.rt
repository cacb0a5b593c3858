//! Times of the day.

ghost use Rattle.std.specs.Prelude.{◌≡◌, ◌∷◌, [], ℕ, List, None, Some, MatchOption, Result};
ghost use Rattle.ha_value.specs.Lists.{after_first, before_first};
ghost use Rattle.ha_clock.specs.SpanText.{number_of};
ghost use Rattle.yaml_scan.specs.declared.fault.Fault.{Fault};
ghost use Rattle.yaml_tree.specs.declared.node.Node.{Node};
ghost use Rattle.conf_field.specs.Kinds as kinds;

use crate::kinds::{Kind, scalar};
use crate::parts::{bad, several};
use ha_value::Many;
use std::alloc::Global;
use yaml_scan::{Code, YamlFault};
use yaml_tree::Node;

/// A time of the day, in seconds.
pub struct Time;

/// What stands before the first such byte, and what follows that byte, where there is one.
#[tactic(auto, using(ha_value::proofs::CutLemmas::cuts))]
pub(crate) fn cut_at(text: &[u8], byte: u8) -> (&[u8], Option<&[u8]>)
    ensures before { result.0.now ≡ before_first byte text.now }
    ensures after { MatchOption result.1 (after_first byte text.now ≡ None) (λ rest. after_first byte text.now ≡ Some rest.now) }
{
    for i in 0..text.len() {
        if text[i] == byte {
            return (&text[..i], Some(&text[i + 1..]));
        }
    }
    (text, None)
}

#[tactic(auto, unfolding(ha_clock::specs::SpanText::number_of, ha_clock::specs::SpanText::number_from))]
fn one_digit(a: u8) -> Option<u32>
    ensures { result ≡ number_of (a ∷ []) }
{
    if a.is_ascii_digit() {
        return Some(u32::from(a - b'0'));
    }
    None
}

#[tactic(auto, unfolding(ha_clock::specs::SpanText::number_of, ha_clock::specs::SpanText::number_from))]
fn two_digits(a: u8, b: u8) -> Option<u32>
    ensures { result ≡ number_of (a ∷ b ∷ []) }
{
    if a.is_ascii_digit() {
        if b.is_ascii_digit() {
            return Some(u32::from(a - b'0') * 10 + u32::from(b - b'0'));
        }
    }
    None
}

fn one_or_two(text: &[u8]) -> Option<u32>
    ensures { result ≡ kinds.one_or_two text.now }
{
    match text {
        [] => None,
        [a] => one_digit(*a),
        [a, b] => two_digits(*a, *b),
        _ => None,
    }
}

fn two(text: &[u8]) -> Option<u32>
    ensures { result ≡ kinds.two text.now }
{
    match text {
        [] => None,
        [_] => None,
        [a, b] => two_digits(*a, *b),
        _ => None,
    }
}

fn second_of(hours: Option<u32>, minutes: Option<u32>, seconds: Option<u32>) -> Option<u32>
    ensures { result ≡ kinds.second_of hours minutes seconds }
{
    let (Some(hours), Some(minutes), Some(seconds)) = (hours, minutes, seconds) else {
        return None;
    };
    if hours < 24 && (minutes < 60 && seconds < 60) {
        return Some(hours * 3600 + minutes * 60 + seconds);
    }
    None
}

/// What follows the hours and their colon.
fn behind_hours(hours: Option<u32>, rest: &[u8]) -> Option<u32>
    ensures { result ≡ kinds.behind_hours hours (Some rest.now) }
{
    let (minutes, seconds) = cut_at(rest, b':');
    match seconds {
        None => second_of(hours, two(minutes), Some(0)),
        Some(seconds) => second_of(hours, two(minutes), two(seconds)),
    }
}

/// `HH:MM` or `HH:MM:SS`, as the second of the day.
pub fn time_of(text: &[u8]) -> Option<u32>
    ensures { result ≡ kinds.time_of text.now }
{
    let (hours, rest) = cut_at(text, b':');
    match rest {
        None => None,
        Some(rest) => behind_hours(one_or_two(hours), rest),
    }
}

impl Kind for Time {
    type Made = u32;

    ghost meaning = { kinds.time };

    fn read(_alloc: Global, line: u32, node: &Node) -> Result<u32, YamlFault> {
        match scalar(node) {
            Some(text) => match time_of(text) {
                Some(second) => Ok(second),
                None => bad(line, Code::Time),
            },
            None => bad(line, Code::Time),
        }
    }
}

/// A time of the day, or a list of them.
pub struct Times;

impl Kind for Times {
    type Made = Many<u32>;

    ghost meaning = { kinds.several kinds.time };

    fn read(alloc: Global, line: u32, node: &Node) -> Result<Many<u32>, YamlFault> {
        several::<Time>(alloc, line, node)
    }
}
