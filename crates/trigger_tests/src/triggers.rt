//! Triggers by the parts that a test names.
ghost use Rattle.std.specs.Prelude.{◌≡◌, ◌≤◌, ◌&&◌, ◌++◌, ◌∷◌, [], IfOk, IsTrue, OnOk, length, nat_lt};
ghost use Rattle.ha_config.specs.Sound.{are_sound_triggers, if_there, is_short, is_sound_match, is_sound_rule, is_sound_trigger, may_hold};

use crate::home::entity;
use ha_clock::Span;
use ha_config::{Match, Trigger, TriggerRule};
use ha_value::{EntityId, Many, Num, Value, Word, push_value};
use std::alloc::{AllocError, Global};

/// A trigger, with its `for`.
fn trigger(
    alloc: Global,
    rule: TriggerRule,
    hold: Option<Span>,
) -> Result<Many<Trigger>, AllocError>
    requires sound { IsTrue (is_sound_rule rule) }
    requires held { IsTrue (if_there (λ d. nat_lt 0 d && may_hold rule) hold) }
    ensures { IfOk result (λ ts. IsTrue (are_sound_triggers ts)) }
{
    let mut triggers = Many::make(alloc);
    add(
        &mut triggers,
        Trigger {
            id: Word::short(alloc, "0"),
            idx: 0,
            rule,
            hold,
        },
    )?;
    Ok(triggers)
}

/// Adds a trigger to a list. No other function has one where memory may be wanting: each such place is dear to prove.
pub fn add(triggers: &mut Many<Trigger>, trigger: Trigger) -> Result<(), AllocError>
    ensures { OnOk result (triggers.new ≡ triggers.old ++ trigger ∷ []) }
{
    triggers.push(trigger)?;
    Ok(())
}

/// A trigger without `for`, at its place in a list.
pub fn plain(alloc: Global, id: &str, idx: u32, rule: TriggerRule) -> Trigger
    requires short { length id.now ≤ 22 }
    requires sound { IsTrue (is_sound_rule rule) }
    ensures { IsTrue (is_sound_trigger result) }
{
    Trigger {
        id: Word::short(alloc, id),
        idx,
        rule,
        hold: None,
    }
}

/// A trigger without `for`.
pub fn one(alloc: Global, rule: TriggerRule) -> Result<Many<Trigger>, AllocError>
    requires { IsTrue (is_sound_rule rule) }
    ensures { IfOk result (λ ts. IsTrue (are_sound_triggers ts)) }
{
    trigger(alloc, rule, None)
}

/// A trigger with a `for` of five seconds.
pub fn held(alloc: Global, rule: TriggerRule) -> Result<Many<Trigger>, AllocError>
    requires sound { IsTrue (is_sound_rule rule) }
    requires may { IsTrue (may_hold rule) }
    ensures { IfOk result (λ ts. IsTrue (are_sound_triggers ts)) }
{
    let hold = five_seconds();
    trigger(alloc, rule, hold)
}

pub fn five_seconds() -> Option<Span>
    ensures { IsTrue (if_there (λ d. nat_lt 0 d) result) }
{
    Span::of(5_000)
}

/// The entities of at most 32 ids.
pub fn entities(alloc: Global, ids: &[&str]) -> Result<Many<EntityId>, AllocError>
    ensures { IfOk result (λ es. IsTrue (is_short es)) }
{
    let mut entities = Many::make(alloc);
    for id in ids {
        entities.push(entity(alloc, id)?)?;
    }
    if entities.len() <= 32 {
        Ok(entities)
    } else {
        Err(AllocError)
    }
}

/// A change of the text of these entities, or of an attribute of theirs, to one side.
pub fn state(
    alloc: Global,
    ids: &[&str],
    attribute: Option<&str>,
    to: Match,
) -> Result<TriggerRule, AllocError>
    requires { IsTrue (is_sound_match to) }
    ensures sound { IfOk result (λ rule. IsTrue (is_sound_rule rule)) }
    ensures may { IfOk result (λ rule. IsTrue (may_hold rule)) }
{
    let entities = entities(alloc, ids)?;
    let attribute = match attribute {
        Some(name) => Some(Word::from_str(alloc, name)?),
        None => None,
    };
    Ok(TriggerRule::State {
        entities,
        attribute,
        from: Match::Absent,
        to,
    })
}

/// The side of one text.
pub fn text(alloc: Global, text: &str) -> Result<Match, AllocError>
    ensures { IfOk result (λ side. IsTrue (is_sound_match side)) }
{
    let mut texts = Many::make(alloc);
    texts.push(Word::from_str(alloc, text)?)?;
    Ok(Match::OneOf(texts))
}

/// A number over 20.
pub fn over_twenty(alloc: Global, id: &str) -> Result<TriggerRule, AllocError>
    ensures sound { IfOk result (λ rule. IsTrue (is_sound_rule rule)) }
    ensures may { IfOk result (λ rule. IsTrue (may_hold rule)) }
{
    let entities = entities(alloc, &[id])?;
    Ok(TriggerRule::Numeric {
        entities,
        attribute: None,
        above: Some(Num::Whole(20)),
        below: None,
    })
}

/// An event of a type.
pub fn event(alloc: Global, kind: &str) -> Result<TriggerRule, AllocError>
    ensures { IfOk result (λ rule. IsTrue (is_sound_rule rule)) }
{
    let mut kinds = Many::make(alloc);
    kinds.push(Word::from_str(alloc, kind)?)?;
    let pairs = Many::make(alloc);
    Ok(TriggerRule::Event { kinds, pairs })
}

/// An event of a type whose data has the number `n` as 2.
pub fn event_two(alloc: Global, kind: &str) -> Result<TriggerRule, AllocError>
    ensures { IfOk result (λ rule. IsTrue (is_sound_rule rule)) }
{
    let mut kinds = Many::make(alloc);
    kinds.push(Word::from_str(alloc, kind)?)?;
    let mut pairs = Many::make(alloc);
    push_value(alloc, &mut pairs, "n", Value::Number(Num::Whole(2)))?;
    Ok(TriggerRule::Event { kinds, pairs })
}
