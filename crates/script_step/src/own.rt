//! The services of automations, which are done by the engine itself.
ghost use Rattle.std.specs.Prelude.{◌≡◌, true, not, IfOk, IsSome, is_some, map, unwrap_or, codes, if◌then◌else◌};
ghost use Rattle.std.specs.List.{list_all};
ghost use Rattle.ha_value.specs.declared.value.Value.TheViews.{out-Value};
ghost use Rattle.ha_sight.specs.declared.item.Item.{Item};
ghost use Rattle.ha_config.specs.Words.{same};
ghost use Rattle.ha_sight.specs.Calls.{automations_of, flag_or_true, flag_named, item_of, switched_to, was_on};
ghost use Rattle.ha_sight.specs.Sight.{switch_at, switch_seen};

use ha_sight::{Answers, Item, add_once};
use ha_value::{EntityId, Many, Value, Word};
use std::alloc::{AllocError, Global};

/// What a value says as a flag: what is no flag counts as true.
fn flag_or_true(value: &Value) -> bool
    ensures { result ≡ flag_or_true (out-Value value.now) }
{
    match value {
        Value::Flag(flag) => *flag,
        _ => true,
    }
}

/// The flag behind one more pair.
fn flag_behind(name: &str, pair: &(Word, Value), flag: bool) -> bool
    ensures { result ≡ if same pair.now.0 name.now then flag_or_true (out-Value pair.now.1) else flag }
{
    if pair.0.bytes() == name.as_bytes() {
        flag_or_true(&pair.1)
    } else {
        flag
    }
}

/// The flag of this name, the last where there are several; true where there is none.
fn flag_named(name: &str, pairs: &[(Word, Value)]) -> bool
    ensures { result ≡ flag_named name.now pairs.now }
{
    let mut flag = true;
    for i in 0..pairs.len() {
        flag = flag_behind(name, &pairs[i], flag);
    }
    flag
}

/// The automations that the targets name, each once.
fn automations_of<A: Answers>(
    alloc: Global,
    answers: &A,
    targets: &[EntityId],
) -> Result<Many<u32>, AllocError>
    ensures value { IfOk result (λ found. found ≡ automations_of (A.sight answers.now).automations targets.now) }
    ensures known { IfOk result (λ found. list_all (λ a. is_some (switch_at (A.sight answers.now).automations a)) found ≡ true) }
{
    let mut found = Many::make(alloc);
    for i in 0..targets.len() {
        add_once(&mut found, answers.automation(&targets[i]))?;
    }
    Ok(found)
}

/// The new value of a switch: this one, else the other than it has.
fn new_value<A: Answers>(answers: &A, to: Option<bool>, automation: u32) -> bool
    requires { IsSome (switch_seen (A.sight answers.now) automation) }
    ensures { result ≡ unwrap_or to (not (was_on (A.sight answers.now).automations automation)) }
{
    match to {
        Some(on) => on,
        None => !answers.is_on(automation),
    }
}

/// The switches of automations are set, to this value or to the other than each has.
fn switched<A: Answers>(
    alloc: Global,
    answers: &A,
    to: Option<bool>,
    targets: &[EntityId],
    pairs: &[(Word, Value)],
) -> Result<Item, AllocError>
    ensures { IfOk result (λ item. item ≡ Item.Switched (map (λ a. switched_to (unwrap_or to (not (was_on (A.sight answers.now).automations a))) pairs.now a) (automations_of (A.sight answers.now).automations targets.now))) }
{
    let stop = flag_named("stop_actions", pairs);
    let automations = automations_of(alloc, answers, targets)?;
    let found = automations.as_slice();
    let mut all = Many::make(alloc);
    for i in 0..found.len() {
        let on = new_value(answers, to, found[i]);
        all.push((found[i], on, !on && stop))?;
    }
    Ok(Item::Switched(all))
}

/// Automations are asked for a run.
fn triggered<A: Answers>(
    alloc: Global,
    answers: &A,
    targets: &[EntityId],
    pairs: &[(Word, Value)],
) -> Result<Item, AllocError>
    ensures { IfOk result (λ item. item ≡ Item.Triggered (automations_of (A.sight answers.now).automations targets.now) (flag_named (codes "skip_condition") pairs.now)) }
{
    let automations = automations_of(alloc, answers, targets)?;
    Ok(Item::Triggered {
        automations,
        skip: flag_named("skip_condition", pairs),
    })
}

/// The item of a call of this service.
pub fn item_of<A: Answers>(
    alloc: Global,
    answers: &A,
    service: Word,
    targets: Many<EntityId>,
    pairs: Many<(Word, Value)>,
) -> Result<Item, AllocError>
    ensures { IfOk result (λ item. item ≡ item_of (A.sight answers.now).automations service targets pairs) }
{
    if service.bytes() == b"automation.turn_on".as_slice() {
        return switched(
            alloc,
            answers,
            Some(true),
            targets.as_slice(),
            pairs.as_slice(),
        );
    }
    if service.bytes() == b"automation.turn_off".as_slice() {
        return switched(
            alloc,
            answers,
            Some(false),
            targets.as_slice(),
            pairs.as_slice(),
        );
    }
    if service.bytes() == b"automation.toggle".as_slice() {
        return switched(alloc, answers, None, targets.as_slice(), pairs.as_slice());
    }
    if service.bytes() == b"automation.trigger".as_slice() {
        return triggered(alloc, answers, targets.as_slice(), pairs.as_slice());
    }
    // the journal keeps the lists for good
    Ok(Item::Call {
        service,
        target: targets.fitted(),
        fields: pairs.fitted(),
    })
}
