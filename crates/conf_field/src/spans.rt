//! Spans of time.

ghost use Rattle.std.specs.Prelude.{◌≡◌, ◌≤◌, ℕ, Result, IfOk, MatchResult};
ghost use Rattle.yaml_scan.specs.Answers.{Gives};
ghost use Rattle.yaml_scan.specs.declared.fault.Fault.{Fault as One};
ghost use Rattle.yaml_tree.specs.declared.node.Node.{Node};
ghost use Rattle.conf_field.specs.Kinds as kinds;
ghost use Rattle.conf_field.specs.Readings as readings;
ghost use Rattle.conf_field.specs.Spans as spans;
ghost use Rattle.conf_field.specs.Capped as capped;
ghost use Rattle.yaml_scan.specs.declared.fault.Code.TheVariants as codes;

use crate::count::digits;
use crate::kinds::{Kind, scalar};
use crate::parts::{bad, both, unless};
use crate::rows::{DAYS, HOURS, MILLISECONDS, MINUTES, SECONDS};
use crate::table::{Pair, Row, field, keys, place};
use ha_clock::Span;
use std::alloc::Global;
use yaml_scan::{Code, Fault, YamlFault};
use yaml_tree::{Node, NodeKind};

/// The parts of a span.
pub const SPAN_ROWS: [Row; 5] = [DAYS, HOURS, MINUTES, SECONDS, MILLISECONDS];

/// One more than the milliseconds of the longest span. A part is counted no further: it is too long by itself.
const CAP: u64 = 31_622_400_001;

/// A part that is there.
fn part_of(line: u32, node: &Node) -> Result<u64, Fault>
    ensures value { result ≡ capped.at_cap (kinds.whole line node.now) }
    ensures bound { IfOk result (λ n. n ≤ capped.cap) }
{
    match scalar(node) {
        Some(text) => match digits(CAP, text) {
            Some(number) => Ok(number),
            None => Err(no_number(line)),
        },
        None => Err(no_number(line)),
    }
}

fn no_number(line: u32) -> Fault
    ensures { result ≡ readings.fault line codes.Number }
{
    Fault {
        line,
        code: Code::Number,
    }
}

/// A part; one that is not there is 0.
fn part(pairs: &[Pair], row: Row) -> Result<u64, Fault>
    ensures value { result ≡ capped.at_cap (spans.part_by row pairs.now) }
    ensures bound { IfOk result (λ n. n ≤ capped.cap) }
{
    match field(pairs, row) {
        Some(pair) => part_of(place(pair), &pair.2),
        None => Ok(0),
    }
}

/// What a part counts: one that is at fault counts nothing.
fn weight(part: &Result<u64, Fault>) -> u64
    requires { IfOk part.now (λ n. n ≤ capped.cap) }
    ensures value { result ≡ spans.or_zero part.now }
    ensures bound { result ≤ capped.cap }
{
    match part {
        Ok(number) => *number,
        Err(_) => 0,
    }
}

fn total(days: u64, hours: u64, minutes: u64, seconds: u64, milliseconds: u64) -> u64
    requires days { days ≤ capped.cap }
    requires hours { hours ≤ capped.cap }
    requires minutes { minutes ≤ capped.cap }
    requires seconds { seconds ≤ capped.cap }
    requires milliseconds { milliseconds ≤ capped.cap }
    ensures { result ≡ spans.total days hours minutes seconds milliseconds }
{
    days * 86_400_000 + hours * 3_600_000 + minutes * 60_000 + seconds * 1_000 + milliseconds
}

/// A part as what memory may run out of, too.
fn told(part: Result<u64, Fault>) -> Result<u64, YamlFault>
    ensures { Gives part result }
{
    match part {
        Ok(number) => Ok(number),
        Err(fault) => Err(YamlFault::Bad {
            line: fault.line,
            code: fault.code,
        }),
    }
}

/// So many milliseconds, at most the longest span.
fn bounded(line: u32, millis: u64) -> Result<Span, YamlFault>
    ensures { Gives (capped.bounded line millis) result }
{
    match Span::of(millis) {
        Some(span) => Ok(span),
        None => bad(line, Code::Time),
    }
}

type Parts = (Span, (u64, (u64, (u64, (u64, u64)))));

fn first(parts: Result<Parts, YamlFault>) -> Result<Span, YamlFault>
    ensures { (m : readings.Read (ℕ × (ℕ × (ℕ × (ℕ × (ℕ × ℕ)))))) → Gives m parts → Gives (readings.made (λ x. x.0) m) result }
{
    match parts {
        Ok((span, _)) => Ok(span),
        Err(fault) => Err(fault),
    }
}

/// The parts together, at most the longest span.
fn parts(line: u32, pairs: &[Pair]) -> Result<Span, YamlFault>
    ensures { Gives (spans.all_parts line pairs.now) result }
{
    let days = part(pairs, DAYS);
    let hours = part(pairs, HOURS);
    let minutes = part(pairs, MINUTES);
    let seconds = part(pairs, SECONDS);
    let milliseconds = part(pairs, MILLISECONDS);
    let sum = total(
        weight(&days),
        weight(&hours),
        weight(&minutes),
        weight(&seconds),
        weight(&milliseconds),
    );
    let last = both(told(seconds), told(milliseconds));
    let rest = both(told(days), both(told(hours), both(told(minutes), last)));
    first(both(bounded(line, sum), rest))
}

/// A map has a part at least.
fn none_there(line: u32, pairs: &[Pair]) -> Option<Fault>
    ensures { result ≡ spans.none_there line pairs.now }
{
    if pairs.is_empty() {
        return Some(Fault {
            line,
            code: Code::Time,
        });
    }
    None
}

fn third(parts: Result<((), ((), Span)), YamlFault>) -> Result<Span, YamlFault>
    ensures { (m : readings.Read (Prim.Unit {0} × (Prim.Unit {0} × ℕ))) → Gives m parts → Gives (readings.made (λ x. x.1.1) m) result }
{
    match parts {
        Ok((_, (_, span))) => Ok(span),
        Err(fault) => Err(fault),
    }
}

/// The span of a map of parts.
pub fn span_map(line: u32, pairs: &[Pair]) -> Result<Span, YamlFault>
    ensures { Gives (spans.span_map line pairs.now) result }
{
    let known = keys(&[], &SPAN_ROWS, pairs);
    let some = unless(none_there(line, pairs));
    third(both(known, both(some, parts(line, pairs))))
}

/// Whole seconds, `HH:MM` or `HH:MM:SS`.
pub fn span_of(line: u32, text: &[u8]) -> Result<Span, YamlFault>
    ensures { Gives (spans.span_text line text.now) result }
{
    match Span::read(text) {
        Some(span) => Ok(span),
        None => bad(line, Code::Time),
    }
}

/// Whole seconds, `HH:MM`, `HH:MM:SS`, or a map of parts.
pub struct Duration;

impl Kind for Duration {
    type Made = Span;

    ghost meaning = { spans.span };

    fn read(_alloc: Global, line: u32, node: &Node) -> Result<Span, YamlFault> {
        match &node.kind {
            NodeKind::Scalar { .. } => match scalar(node) {
                Some(text) => span_of(line, text),
                None => bad(line, Code::Time),
            },
            NodeKind::List(_) => bad(line, Code::Time),
            NodeKind::Map(pairs) => span_map(line, pairs.as_slice()),
        }
    }
}
