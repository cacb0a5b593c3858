//! Units of a time pattern.

ghost use Rattle.std.specs.Prelude.{◌≡◌, ℕ, Result, None, Some, option_map};
ghost use Rattle.ha_clock.specs.SpanText.{number_of, number_from};
ghost use Rattle.yaml_scan.specs.declared.fault.Fault.{Fault};
ghost use Rattle.yaml_tree.specs.declared.node.Node.{Node};
ghost use Rattle.ha_config.specs.declared.config.Unit.{Unit};
ghost use Rattle.conf_trigger.specs.Triggers as triggers;

use conf_field::{Kind, bad, digits, scalar};
use ha_config::Unit;
use std::alloc::Global;
use yaml_scan::{Code, YamlFault};
use yaml_tree::Node;

#[tactic(auto, unfolding(ha_clock::specs::SpanText::number_of, ha_clock::specs::SpanText::number_from))]
fn small_number(most: u32, text: &[u8]) -> Option<u32>
    ensures { result ≡ triggers.small_number most text.now }
{
    match text {
        [] => None,
        [a] => {
            if a.is_ascii_digit() {
                return Some(u32::from(*a - b'0'));
            }
            None
        }
        [a, b] => {
            if *a == b'0' {
                return None;
            }
            if a.is_ascii_digit() {
                if b.is_ascii_digit() {
                    let number = u32::from(*a - b'0') * 10 + u32::from(*b - b'0');
                    if number < most {
                        return Some(number);
                    }
                }
            }
            None
        }
        _ => None,
    }
}

/// The greatest number after a `/`.
const MOST: u64 = 0xffff_ffff;

/// The number of one or more digits, where it is below 2^32.
#[tactic(auto, using(crate::proofs::Limits::below_limit_counted))]
fn number(text: &[u8]) -> Option<u32>
    ensures { result ≡ triggers.below_limit (number_of text.now) }
{
    match digits(0x1_0000_0000, text) {
        Some(number) => below_limit(number),
        None => None,
    }
}

fn below_limit(number: u64) -> Option<u32>
    ensures { result ≡ triggers.below_limit (Some number) }
{
    if number <= MOST {
        return Some(number as u32);
    }
    None
}

/// Digits that do not begin with 0, below 2^32.
fn divisor(text: &[u8]) -> Option<u32>
    ensures { result ≡ triggers.divisor text.now }
{
    if text.is_empty() {
        return None;
    }
    if text[0] == b'0' {
        return None;
    }
    number(text)
}

/// A unit, whose numbers are below this.
fn unit_of(most: u32, text: &[u8]) -> Option<Unit>
    ensures { result ≡ triggers.unit_of most text.now }
{
    if text == b"*".as_slice() {
        return Some(Unit::Every);
    }
    if !text.is_empty() && text[0] == b'/' {
        return each_of(divisor(&text[1..]));
    }
    exact_of(small_number(most, text))
}

fn each_of(number: Option<u32>) -> Option<Unit>
    ensures { result ≡ option_map Unit.Each number }
{
    match number {
        Some(n) => Some(Unit::Each(n)),
        None => None,
    }
}

fn exact_of(number: Option<u32>) -> Option<Unit>
    ensures { result ≡ option_map Unit.Exact number }
{
    match number {
        Some(n) => Some(Unit::Exact(n)),
        None => None,
    }
}

/// An hour of a pattern.
pub(crate) struct Hour;

/// A minute or second of a pattern.
pub(crate) struct Sixtieth;

impl Kind for Hour {
    type Made = Unit;

    ghost meaning = { triggers.unit_under 24 };

    fn read(_alloc: Global, line: u32, node: &Node) -> Result<Unit, YamlFault> {
        match scalar(node) {
            Some(text) => match unit_of(24, text) {
                Some(unit) => Ok(unit),
                None => bad(line, Code::Time),
            },
            None => bad(line, Code::Time),
        }
    }
}

impl Kind for Sixtieth {
    type Made = Unit;

    ghost meaning = { triggers.unit_under 60 };

    fn read(_alloc: Global, line: u32, node: &Node) -> Result<Unit, YamlFault> {
        match scalar(node) {
            Some(text) => match unit_of(60, text) {
                Some(unit) => Ok(unit),
                None => bad(line, Code::Time),
            },
            None => bad(line, Code::Time),
        }
    }
}
