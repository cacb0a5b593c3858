//! What a service changes of one helper.
ghost use Rattle.std.specs.Prelude.{◌≡◌, ◌+◌, ◌-◌, ◌≤◌, ℕ, ◌+ℤ◌, ◌-ℤ◌, Some, None, IfOk, MatchOption, option_map, unwrap_or, codes, if◌then◌else◌};
ghost use Rattle.std.specs.Option.{option_copied};
ghost use Rattle.ha_value.specs.declared.value.Num.{Num as Number};
ghost use Rattle.ha_value.specs.Numbers.{print_number};
ghost use Rattle.ha_config.specs.Words.{same};
ghost use Rattle.ha_config.specs.Helpers as configured;
ghost use Rattle.ha_sight.specs.Known as known;
ghost use Rattle.ha_sight.specs.Services as services;
ghost use Rattle.helper_set.specs.Kept.{IsTimely, shown};

use crate::kept::Kept;
use ha_model::{
    Helper, HelperChange, HelperKind, HelperService, Moment, Num, Plain, Span, Wanted, Word,
};
use std::alloc::{AllocError, Global};

/// Whether the helper has this text.
fn is(kept: &Kept, text: &[u8]) -> bool
    ensures { result ≡ same kept.now.text text.now }
{
    kept.text.bytes() == text
}

/// Another text, with no event.
fn plain(alloc: Global, helper: &Helper, text: Word) -> Result<HelperChange, AllocError>
    ensures { IfOk result (λ c. c ≡ services.plain_change helper.now text) }
{
    Ok(HelperChange {
        entity: helper.entity.copy(alloc)?,
        text,
        span: None,
        event: None,
    })
}

/// A flag.
fn flag(alloc: Global, helper: &Helper, on: bool) -> Result<HelperChange, AllocError>
    ensures { IfOk result (λ c. c ≡ services.plain_change helper.now (if on then codes "on" else codes "off")) }
{
    let text = Word::short(alloc, if on { "on" } else { "off" });
    Ok(plain(alloc, helper, text)?)
}

/// The number of a counter.
fn counted(alloc: Global, helper: &Helper, number: i64) -> Result<HelperChange, AllocError>
    ensures { IfOk result (λ c. c ≡ services.counted helper.now number) }
{
    let text = Num::Whole(number).print(alloc)?;
    Ok(plain(alloc, helper, text)?)
}

/// What a timer is now, with its event.
fn timed(
    alloc: Global,
    helper: &Helper,
    text: &str,
    span: Option<Span>,
    event: &str,
) -> Result<HelperChange, AllocError>
    ensures { IfOk result (λ c. c ≡ services.timed helper.now text.now span event.now) }
{
    Ok(HelperChange {
        entity: helper.entity.copy(alloc)?,
        text: Word::from_str(alloc, text)?,
        span,
        event: Some(Word::from_str(alloc, event)?),
    })
}

/// The number that the text of a counter is.
fn number_in(text: &Word) -> i64
    ensures { result ≡ services.number_in text.now }
{
    match Num::read(text.bytes()) {
        Some(Num::Whole(number)) => number,
        _ => 0,
    }
}

/// A number, held within bounds.
fn held(least: i64, greatest: i64, number: i128) -> i64
    ensures { result ≡ services.held least greatest number }
{
    if number < least as i128 {
        least
    } else if (greatest as i128) < number {
        greatest
    } else {
        number as i64
    }
}

/// The sum of two numbers.
fn sum(number: i64, step: i64) -> i128
    ensures { result ≡ number +ℤ step }
{
    number as i128 + step as i128
}

/// Their difference.
fn difference(number: i64, step: i64) -> i128
    ensures { result ≡ number -ℤ step }
{
    number as i128 - step as i128
}

/// The number of a counter one step up.
fn raised(kept: &Kept) -> Option<i64>
    ensures { result ≡ services.raised kept.now.helper.kind kept.now.text }
{
    match &kept.helper.kind {
        HelperKind::Counter {
            step,
            least,
            greatest,
            ..
        } => Some(held(*least, *greatest, sum(number_in(&kept.text), *step))),
        _ => None,
    }
}

/// One step down.
fn lowered(kept: &Kept) -> Option<i64>
    ensures { result ≡ services.lowered kept.now.helper.kind kept.now.text }
{
    match &kept.helper.kind {
        HelperKind::Counter {
            step,
            least,
            greatest,
            ..
        } => Some(held(*least, *greatest, difference(number_in(&kept.text), *step))),
        _ => None,
    }
}

/// As at the Boot.
fn begun(kept: &Kept) -> Option<i64>
    ensures { result ≡ services.begun kept.now.helper.kind }
{
    match &kept.helper.kind {
        HelperKind::Counter { initial, .. } => Some(*initial),
        _ => None,
    }
}

/// A counter goes to this number, if there is one.
fn to_number(
    alloc: Global,
    kept: &Kept,
    number: Option<i64>,
) -> Result<Option<HelperChange>, AllocError>
    ensures { IfOk result (λ c. c ≡ option_map (services.counted kept.now.helper) number) }
{
    match number {
        Some(number) => {
            let change = counted(alloc, &kept.helper, number)?;
            Ok(Some(change))
        }
        None => Ok(None),
    }
}

/// What is left at Now of a span that began at this moment.
fn left(at: Moment, span: Span, now: Moment) -> Span
    ensures { at ≤ now → result ≡ at + span - now }
{
    let gone = if at < now {
        now.millis() - at.millis()
    } else {
        0
    };
    let whole = span.millis();
    let rest = if gone < whole { whole - gone } else { 0 };
    match Span::of(rest) {
        Some(rest) => rest,
        None => span,
    }
}

/// No time.
fn no_time() -> Span
    ensures { result ≡ 0 }
{
    match Span::of(0) {
        Some(span) => span,
        None => unreachable!(),
    }
}

/// What an active timer has left at Now.
fn rest(now: Moment, kept: &Kept) -> Span
    ensures { IsTimely now kept.now → result ≡ known.rest now (shown kept.now) }
{
    match &kept.last {
        Some(last) => match last.change.span {
            Some(span) => left(last.at, span, now),
            None => no_time(),
        },
        None => no_time(),
    }
}

/// The span of the last change.
fn span_left(kept: &Kept) -> Option<Span>
    ensures { result ≡ known.span_left (shown kept.now) }
{
    match &kept.last {
        Some(last) => last.change.span,
        None => None,
    }
}

/// The rest of a paused timer, else its own span.
fn span_of_its_own(kept: &Kept, own: Span) -> Span
    ensures { result ≡ if same kept.now.text (codes "paused") then unwrap_or (known.span_left (shown kept.now)) own else own }
{
    if is(kept, b"paused") {
        match span_left(kept) {
            Some(span) => span,
            None => own,
        }
    } else {
        own
    }
}

/// How long a timer that is started is active.
fn span_started(wanted: &Wanted, kept: &Kept, own: Span) -> Span
    ensures { result ≡ services.span_started (shown kept.now) kept.now.text own wanted.now }
{
    match wanted.span {
        Some(span) => span,
        None => span_of_its_own(kept, own),
    }
}

/// A timer is started.
fn started(alloc: Global, wanted: &Wanted, kept: &Kept) -> Result<Option<HelperChange>, AllocError>
    ensures { IfOk result (λ c. c ≡ option_map (λ own. services.timed kept.now.helper (codes "active") (Some (services.span_started (shown kept.now) kept.now.text own wanted.now)) (services.start_event kept.now.text)) (configured.span_in kept.now.helper.kind)) }
{
    match &kept.helper.kind {
        HelperKind::Timer { span } => {
            let chosen = span_started(wanted, kept, *span);
            let event = if is(kept, b"idle") {
                "timer.started"
            } else {
                "timer.restarted"
            };
            let change = timed(alloc, &kept.helper, "active", Some(chosen), event)?;
            Ok(Some(change))
        }
        _ => Ok(None),
    }
}

/// An active timer is paused.
fn paused(alloc: Global, now: Moment, kept: &Kept) -> Result<Option<HelperChange>, AllocError>
    ensures { IfOk result (λ c. IsTimely now kept.now → c ≡ (if same kept.now.text (codes "active") then Some (services.timed kept.now.helper (codes "paused") (Some (known.rest now (shown kept.now))) (codes "timer.paused")) else None)) }
{
    if !is(kept, b"active") {
        return Ok(None);
    }
    let left = rest(now, kept);
    let change = timed(alloc, &kept.helper, "paused", Some(left), "timer.paused")?;
    Ok(Some(change))
}

/// A timer goes to idle where it is to.
fn ended(
    alloc: Global,
    kept: &Kept,
    ends: bool,
    event: &str,
) -> Result<Option<HelperChange>, AllocError>
    ensures { IfOk result (λ c. c ≡ (if ends then Some (services.timed kept.now.helper (codes "idle") None event.now) else None)) }
{
    if !ends {
        return Ok(None);
    }
    let change = timed(alloc, &kept.helper, "idle", None, event)?;
    Ok(Some(change))
}

/// A flag is turned.
fn turned(alloc: Global, kept: &Kept, on: bool) -> Result<Option<HelperChange>, AllocError>
    ensures { IfOk result (λ c. c ≡ Some (services.plain_change kept.now.helper (if on then codes "on" else codes "off"))) }
{
    let change = flag(alloc, &kept.helper, on)?;
    Ok(Some(change))
}

/// What the service changes of the helper, if it changes it.
pub fn change_by(
    alloc: Global,
    service: HelperService,
    wanted: &Wanted,
    now: Moment,
    kept: &Kept,
) -> Result<Option<HelperChange>, AllocError>
    ensures { IfOk result (λ c. IsTimely now kept.now → c ≡ services.change_by service wanted.now now kept.now.text (shown kept.now)) }
{
    match service {
        HelperService::TurnOn => turned(alloc, kept, true),
        HelperService::TurnOff => turned(alloc, kept, false),
        HelperService::Toggle => turned(alloc, kept, !is(kept, b"on")),
        HelperService::Increment => to_number(alloc, kept, raised(kept)),
        HelperService::Decrement => to_number(alloc, kept, lowered(kept)),
        HelperService::Reset => to_number(alloc, kept, begun(kept)),
        HelperService::SetValue => to_number(alloc, kept, wanted.value),
        HelperService::Start => started(alloc, wanted, kept),
        HelperService::Pause => paused(alloc, now, kept),
        HelperService::Cancel => {
            let ends = is(kept, b"active") || is(kept, b"paused");
            ended(alloc, kept, ends, "timer.cancelled")
        }
        HelperService::Finish => ended(alloc, kept, is(kept, b"active"), "timer.finished"),
    }
}
