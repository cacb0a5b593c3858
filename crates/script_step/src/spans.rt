//! Spans and counts that are rendered.
ghost use Rattle.std.specs.Prelude.{◌≡◌, ◌≤◌, ◌<◌, ◌*◌, true, Ok, Err, IfOk, IfSome, ok_or, option_and_then, slice_get};
ghost use Rattle.ha_config.specs.Numbers.{is_in_range, read_number};
ghost use Rattle.ha_sight.specs.Calls.{checked_then, count_of, natural_in, natural_of, no_count, no_duration, part_lengths, parts_of, span_of, spans_of, text_for, turns_in, within_span};
ghost use Rattle.script_step.specs.Fields.{Checks};

use crate::fault::FieldFault;
use crate::targets::text_for;
use ha_clock::Span;
use ha_config::{SpanForm, Template};
use ha_sight::{Answers, Env};
use ha_value::Num;
use std::alloc::Global;

/// A whole number that is not negative.
fn natural_in(number: Num) -> Option<u64>
    requires { is_in_range number ≡ true }
    ensures value { result ≡ natural_in number }
    ensures bound { IfSome result (λ n. n ≤ 1_000_000_000_000) }
{
    match number {
        Num::Whole(whole) => { if whole < 0 { None } else { Some(whole as u64) } }
        Num::Fixed(_) => None,
    }
}

/// The whole number that a text is, where it is not negative.
fn natural_of(text: &[u8]) -> Option<u64>
    ensures value { result ≡ natural_of text.now }
    ensures bound { IfSome result (λ n. n ≤ 1_000_000_000_000) }
{
    match Num::read(text) {
        Some(number) => natural_in(number),
        None => None,
    }
}

/// The milliseconds of one day, hour, minute, second or millisecond.
fn part_length(i: usize) -> Option<u64>
    ensures value { result ≡ slice_get part_lengths i }
    ensures bound { IfSome result (λ n. n ≤ 86_400_000) }
    ensures few { IfSome result (λ n. i < 5) }
{
    match i {
        0 => Some(86_400_000),
        1 => Some(3_600_000),
        2 => Some(60_000),
        3 => Some(1_000),
        4 => Some(1),
        _ => None,
    }
}

/// The milliseconds of so many units.
fn milliseconds(length: u64, count: u64) -> u128
    requires length { length ≤ 86_400_000 }
    requires count { count ≤ 1_000_000_000_000 }
    ensures value { result ≡ length * count }
    ensures bound { result ≤ 86_400_000_000_000_000_000 }
{
    length as u128 * count as u128
}

/// The number of a part of a span.
fn part_of<A: Answers>(
    alloc: Global,
    answers: &A,
    env: &Env,
    part: &Template,
) -> Result<u64, FieldFault>
    ensures value { Checks result (checked_then (λ s. ok_or (natural_of s) no_duration) (text_for (A.sight answers.now) env.now part.now)) }
    ensures bound { IfOk result (λ n. n ≤ 1_000_000_000_000) }
{
    match text_for(alloc, answers, env, part) {
        Ok(text) => match natural_of(text.bytes()) {
            Some(number) => Ok(number),
            None => Err(FieldFault::Duration),
        },
        Err(fault) => Err(fault),
    }
}

/// The milliseconds of days, hours, minutes, seconds and milliseconds.
fn parts_of<A: Answers>(
    alloc: Global,
    answers: &A,
    env: &Env,
    parts: &[Template],
) -> Result<u128, FieldFault>
    ensures { Checks result (parts_of (A.sight answers.now) env.now part_lengths parts.now) }
{
    let mut total: u128 = 0;
    for i in 0..parts.len() {
        match part_length(i) {
            Some(length) => match part_of(alloc, answers, env, &parts[i]) {
                Ok(count) => total += milliseconds(length, count),
                Err(fault) => return Err(fault),
            },
            None => return Err(FieldFault::Duration),
        }
    }
    Ok(total)
}

/// So many milliseconds as a span.
fn within_span(millis: u128) -> Result<Span, FieldFault>
    ensures { Checks result (ok_or (within_span millis) no_duration) }
{
    match u64::try_from(millis) {
        Ok(millis) => match Span::of(millis) {
            Some(span) => Ok(span),
            None => Err(FieldFault::Duration),
        },
        Err(_) => Err(FieldFault::Duration),
    }
}

/// The span that a text is.
fn span_in<A: Answers>(
    alloc: Global,
    answers: &A,
    env: &Env,
    template: &Template,
) -> Result<Span, FieldFault>
    ensures { Checks result (span_of (A.sight answers.now) env.now (SpanForm.Text template.now)) }
{
    match text_for(alloc, answers, env, template) {
        Ok(text) => match Span::read(text.bytes()) {
            Some(span) => Ok(span),
            None => Err(FieldFault::Duration),
        },
        Err(fault) => Err(fault),
    }
}

/// The span of its parts.
fn span_by_parts<A: Answers>(
    alloc: Global,
    answers: &A,
    env: &Env,
    parts: &[Template],
) -> Result<Span, FieldFault>
    ensures { Checks result (span_of (A.sight answers.now) env.now (SpanForm.Parts parts.now)) }
{
    match parts_of(alloc, answers, env, parts) {
        Ok(millis) => within_span(millis),
        Err(fault) => Err(fault),
    }
}

/// The length of a span.
pub fn span_of<A: Answers>(
    alloc: Global,
    answers: &A,
    env: &Env,
    form: &SpanForm,
) -> Result<Span, FieldFault>
    ensures { Checks result (span_of (A.sight answers.now) env.now form.now) }
{
    match form {
        SpanForm::Known(span) => Ok(*span),
        SpanForm::Text(template) => span_in(alloc, answers, env, template),
        SpanForm::Parts(parts) => span_by_parts(alloc, answers, env, parts.as_slice()),
    }
}

/// The length of a span, where there is one.
pub fn spans_of<A: Answers>(
    alloc: Global,
    answers: &A,
    env: &Env,
    form: &Option<SpanForm>,
) -> Result<Option<Span>, FieldFault>
    ensures { Checks result (spans_of (A.sight answers.now) env.now form.now) }
{
    match form {
        None => Ok(None),
        Some(form) => match span_of(alloc, answers, env, form) {
            Ok(span) => Ok(Some(span)),
            Err(fault) => Err(fault),
        },
    }
}

/// How many turns a number makes.
fn turns_in(number: Num) -> Option<u64>
    requires { is_in_range number ≡ true }
    ensures value { result ≡ turns_in number }
    ensures bound { IfSome result (λ n. n ≤ 1_000_000_000_000) }
{
    match number {
        Num::Whole(whole) => {
            if whole < 0 {
                Some(0)
            } else {
                Some(whole as u64)
            }
        }
        Num::Fixed(_) => None,
    }
}

/// How many turns the number that a text is makes.
fn turns_of(text: &[u8]) -> Result<u64, FieldFault>
    ensures value { Checks result (ok_or (option_and_then turns_in (read_number text.now)) no_count) }
    ensures bound { IfOk result (λ n. n ≤ 1_000_000_000_000) }
{
    match Num::read(text) {
        Some(number) => match turns_in(number) {
            Some(turns) => Ok(turns),
            None => Err(FieldFault::Count),
        },
        None => Err(FieldFault::Count),
    }
}

/// How many turns a count makes.
pub fn count_of<A: Answers>(
    alloc: Global,
    answers: &A,
    env: &Env,
    count: &Template,
) -> Result<u64, FieldFault>
    ensures value { Checks result (count_of (A.sight answers.now) env.now count.now) }
    ensures bound { IfOk result (λ n. n ≤ 1_000_000_000_000) }
{
    match text_for(alloc, answers, env, count) {
        Ok(text) => turns_of(text.bytes()),
        Err(fault) => Err(fault),
    }
}
