//! A home of six helpers, that calls change as time passes.
ghost use Rattle.std.specs.Prelude.{◌≤◌};
ghost use Rattle.ha_clock.specs.Local.{last_moment};

use ha_model::{
    Config, EntityId, Helper, HelperChange, HelperKind, Inner, Item, Many, Moment, Num, Span,
    Value, Word,
};
use helper_set::Helpers;
use std::alloc::{AllocError, Global};

/// A value in a call's data.
#[derive(Clone, Copy)]
pub enum Given<'a> {
    Whole(i64),
    Text(&'a str),
    Flag(bool),
    Null,
}

/// What a test does.
#[derive(Clone, Copy)]
pub enum Step<'a> {
    /// A call of a service, without data, of these entities.
    Call(&'a str, &'a [&'a str]),
    /// The same, with a value under a key.
    With(&'a str, &'a [&'a str], &'a str, Given<'a>),
    /// A moment, in milliseconds after the start.
    Clock(u64),
}

/// A change of a helper: its text, its span in milliseconds, and its event.
#[derive(Clone, Copy)]
pub struct WantedChange<'a> {
    id: &'a str,
    text: &'a str,
    span: Option<u64>,
    event: &'a str,
}

/// Another text alone.
pub fn told<'a>(id: &'a str, text: &'a str) -> WantedChange<'a> {
    WantedChange {
        id,
        text,
        span: None,
        event: "",
    }
}

/// What a timer is from here on.
pub fn timed<'a>(
    id: &'a str,
    text: &'a str,
    span: Option<u64>,
    event: &'a str,
) -> WantedChange<'a> {
    WantedChange {
        id,
        text,
        span,
        event,
    }
}

/// What is wanted behind it.
#[derive(Clone, Copy)]
pub enum Wants<'a> {
    /// The call is none of the helpers'.
    Outer,
    Fails(u8),
    /// These changes, in this order.
    Changes(&'a [WantedChange<'a>]),
    /// These finish.
    Finish(&'a [&'a str]),
}

/// A step, and what is wanted behind it.
#[derive(Clone, Copy)]
pub struct Expected<'a> {
    step: Step<'a>,
    wants: Wants<'a>,
}

pub fn row<'a>(step: Step<'a>, wants: Wants<'a>) -> Expected<'a> {
    Expected { step, wants }
}

fn entity(alloc: Global, id: &str) -> Result<EntityId, AllocError> {
    match EntityId::read(alloc, id.as_bytes()) {
        Ok(entity) => Ok(entity),
        Err(_) => Err(AllocError),
    }
}

fn put(
    alloc: Global,
    all: &mut Many<Helper>,
    id: &str,
    kind: HelperKind,
) -> Result<(), AllocError> {
    let entity = entity(alloc, id)?;
    all.push(Helper { entity, kind })?;
    Ok(())
}

fn span(millis: u64) -> Result<Span, AllocError> {
    match Span::of(millis) {
        Some(span) => Ok(span),
        None => Err(AllocError),
    }
}

fn config(alloc: Global) -> Result<Config, AllocError> {
    let mut helpers = Many::make(alloc);
    let all = &mut helpers;
    put(
        alloc,
        all,
        "input_boolean.a",
        HelperKind::Flag { initial: true },
    )?;
    put(
        alloc,
        all,
        "counter.wide",
        HelperKind::Counter {
            initial: 4,
            step: 2,
            least: 0,
            greatest: 5,
        },
    )?;
    put(
        alloc,
        all,
        "counter.narrow",
        HelperKind::Counter {
            initial: 1,
            step: 1,
            least: 1,
            greatest: 2,
        },
    )?;
    put(
        alloc,
        all,
        "timer.t",
        HelperKind::Timer { span: span(5000)? },
    )?;
    put(
        alloc,
        all,
        "timer.u",
        HelperKind::Timer { span: span(4000)? },
    )?;
    put(alloc, all, "timer.z", HelperKind::Timer { span: span(0)? })?;
    Ok(Config {
        automations: Many::make(alloc),
        scripts: Many::make(alloc),
        helpers,
    })
}

fn entities(alloc: Global, ids: &[&str]) -> Result<Many<EntityId>, AllocError> {
    let mut found = Many::make(alloc);
    for i in 0..ids.len() {
        found.push(entity(alloc, ids[i])?)?;
    }
    Ok(found)
}

fn value(alloc: Global, given: Given<'_>) -> Result<Value, AllocError> {
    match given {
        Given::Whole(number) => Ok(Value::Number(Num::Whole(number))),
        Given::Text(text) => {
            let text = Word::from_str(alloc, text)?;
            Ok(Value::Text(text))
        }
        Given::Flag(flag) => Ok(Value::Flag(flag)),
        Given::Null => Ok(Value::Null),
    }
}

fn fields(alloc: Global, step: Step<'_>) -> Result<Many<(Word, Value)>, AllocError> {
    let mut pairs = Many::make(alloc);
    if let Step::With(_, _, key, given) = step {
        let key = Word::from_str(alloc, key)?;
        let value = value(alloc, given)?;
        pairs.push((key, value))?;
    }
    Ok(pairs)
}

/// What is asked for: the name of the service, and its targets.
fn asked<'a>(step: Step<'a>) -> Option<(&'a str, &'a [&'a str])> {
    match step {
        Step::Call(name, ids) => Some((name, ids)),
        Step::With(name, ids, _, _) => Some((name, ids)),
        Step::Clock(_) => None,
    }
}

fn says(alloc: Global, helpers: &Helpers, id: &str, text: &str) -> Result<bool, AllocError> {
    match helpers.text(alloc, &entity(alloc, id)?)? {
        Some(found) => Ok(found.as_str() == text),
        None => Ok(false),
    }
}

fn has_span(span: Option<Span>, wanted: Option<u64>) -> bool {
    match (span, wanted) {
        (None, None) => true,
        (Some(span), Some(wanted)) => span.millis() == wanted,
        _ => false,
    }
}

fn has_event(event: &Option<Word>, wanted: &str) -> bool {
    match event {
        Some(event) => event.as_str() == wanted,
        None => wanted.is_empty(),
    }
}

fn is_told(change: &HelperChange, told: WantedChange<'_>) -> bool {
    change.entity.text() == told.id
        && change.text.as_str() == told.text
        && has_span(change.span, told.span)
        && has_event(&change.event, told.event)
}

fn are_told(changes: &Many<HelperChange>, wanted: &[WantedChange<'_>]) -> bool {
    if changes.len() != wanted.len() {
        return false;
    }
    for i in 0..wanted.len() {
        match changes.get(i) {
            Some(change) => {
                if !is_told(change, wanted[i]) {
                    return false;
                }
            }
            None => return false,
        }
    }
    true
}

/// Each helper has the text that was told of it.
fn have_texts(
    alloc: Global,
    helpers: &Helpers,
    wanted: &[WantedChange<'_>],
) -> Result<bool, AllocError> {
    for i in 0..wanted.len() {
        if !says(alloc, helpers, wanted[i].id, wanted[i].text)? {
            return Ok(false);
        }
    }
    Ok(true)
}

/// These finish, and are idle.
fn finish(
    alloc: Global,
    helpers: &Helpers,
    found: &Many<EntityId>,
    ids: &[&str],
) -> Result<bool, AllocError> {
    if found.len() != ids.len() {
        return Ok(false);
    }
    for i in 0..ids.len() {
        let Some(one) = found.get(i) else {
            return Ok(false);
        };
        if one.text() != ids[i] || !says(alloc, helpers, ids[i], "idle")? {
            return Ok(false);
        }
    }
    Ok(true)
}

fn goes_call(
    alloc: Global,
    helpers: &mut Helpers,
    row: Expected<'_>,
    name: &str,
    ids: &[&str],
    now: Moment,
) -> Result<bool, AllocError>
    requires { now ≤ last_moment }
{
    let word = Word::from_str(alloc, name)?;
    let targets = entities(alloc, ids)?;
    let pairs = fields(alloc, row.step)?;
    let made = helpers.resolve(alloc, &word, &targets, &pairs, now)?;
    match (made, row.wants) {
        (Inner::Outer, Wants::Outer) => Ok(true),
        (Inner::Fails(code), Wants::Fails(wanted)) => Ok(code == wanted),
        (Inner::Does(Item::Helped(changes)), Wants::Changes(wanted)) => {
            helpers.apply(alloc, &changes, now)?;
            Ok(are_told(&changes, wanted) && have_texts(alloc, helpers, wanted)?)
        }
        _ => Ok(false),
    }
}

fn goes_one(
    alloc: Global,
    helpers: &mut Helpers,
    row: Expected<'_>,
    now: Moment,
) -> Result<bool, AllocError>
    requires { now ≤ last_moment }
{
    match asked(row.step) {
        Some((name, ids)) => goes_call(alloc, helpers, row, name, ids, now),
        None => {
            let done = helpers.pass(alloc, now)?;
            match row.wants {
                Wants::Finish(ids) => finish(alloc, helpers, &done, ids),
                _ => Ok(false),
            }
        }
    }
}

/// Whether all goes as wanted, from a moment on.
pub fn goes(alloc: Global, rows: &[Expected<'_>]) -> Result<bool, AllocError> {
    let mut helpers = Helpers::make(alloc, &config(alloc)?)?;
    let mut passed = 0;
    for i in 0..rows.len() {
        let row = rows[i];
        if let Step::Clock(at) = row.step {
            passed = at;
        }
        match Moment::of_millis(passed) {
            Some(now) => {
                if !goes_one(alloc, &mut helpers, row, now)? {
                    return Ok(false);
                }
            }
            None => return Ok(false),
        }
    }
    Ok(true)
}

/// Whether these are helpers with these texts at the start, and the other ids are none.
pub fn begins(alloc: Global, texts: &[(&str, &str)], others: &[&str]) -> Result<bool, AllocError> {
    let helpers = Helpers::make(alloc, &config(alloc)?)?;
    for i in 0..texts.len() {
        if !says(alloc, &helpers, texts[i].0, texts[i].1)? {
            return Ok(false);
        }
        if !helpers.has(&entity(alloc, texts[i].0)?) {
            return Ok(false);
        }
    }
    for i in 0..others.len() {
        let id = entity(alloc, others[i])?;
        if helpers.has(&id) || helpers.text(alloc, &id)?.is_some() {
            return Ok(false);
        }
    }
    Ok(true)
}
