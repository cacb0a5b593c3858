//! States by name: automations by theirs, all other entities by their ids.
ghost use Rattle.std.specs.Prelude.{◌≡◌, None, Some, IfOk, OnErr, OnOk, is_some, string_bytes};
ghost use Rattle.std.specs.BTreeMap.{get_by_text};
ghost use Rattle.ha_sight.specs.StateStep.{next_object as next_object_lem};
ghost use Rattle.state_table.specs.Domain.{change_of, ChangesName, SaysTheSame};

use ha_clock::Moment;
use ha_config::{same_data, same_text};
use ha_sight::{Change, StateObject, next_object};
use ha_value::{Many, Plain, Value, Word, copy_pairs};
use std::alloc::{AllocError, Global};
use std::collections::BTreeMap;

/// States by name.
pub type Named = BTreeMap<String, StateObject>;

/// The text as a key.
pub fn key_of(alloc: Global, name: &str) -> Result<String, AllocError>
    ensures { IfOk result (λ key. string_bytes key ≡ name.now) }
{
    String::from_str(alloc, name)
}

/// Another text, written over the one before: no new state is made, and none is dropped. The attributes stay.
fn write_text(
    alloc: Global,
    state: &mut StateObject,
    text: &Word,
    now: Moment,
) -> Result<(), AllocError>
    ensures ok { OnOk result (state.new ≡ next_object_lem None text.now state.old.attributes now) }
    ensures err { OnErr result (state.new ≡ state.old) }
{
    text.copy_to(alloc, &mut state.text)?;
    state.changed = now;
    state.updated = now;
    Ok(())
}

/// Another text with other attributes. Their copy is made first, so that a refusal leaves the state as it was.
#[inline(never)]
fn write_over(
    alloc: Global,
    state: &mut StateObject,
    text: &Word,
    attributes: &Many<(Word, Value)>,
    now: Moment,
) -> Result<(), AllocError>
    ensures ok { OnOk result (state.new ≡ next_object_lem None text.now attributes.now now) }
    ensures err { OnErr result (state.new ≡ state.old) }
{
    let made = copy_pairs(alloc, attributes.as_slice())?;
    write_text(alloc, state, text, now)?;
    state.attributes = made;
    Ok(())
}

/// Another text.
fn write(
    alloc: Global,
    state: &mut StateObject,
    text: &Word,
    attributes: &Many<(Word, Value)>,
    now: Moment,
) -> Result<(), AllocError>
    ensures ok { OnOk result (state.new ≡ next_object_lem None text.now attributes.now now) }
    ensures err { OnErr result (state.new ≡ state.old) }
{
    if same_data(&state.attributes, attributes) {
        write_text(alloc, state, text, now)
    } else {
        write_over(alloc, state, text, attributes, now)
    }
}

/// What a report changes in a state that is there.
fn update(
    alloc: Global,
    object: &mut StateObject,
    text: &Word,
    attributes: &Many<(Word, Value)>,
    now: Moment,
) -> Result<Change, AllocError>
    ensures change { IfOk result (λ change. change ≡ change_of (Some object.old) text.now attributes.now) }
    ensures ok { OnOk result (object.new ≡ next_object_lem (Some object.old) text.now attributes.now now) }
    ensures err { OnErr result (object.new ≡ object.old) }
{
    if !same_text(&object.text, text) {
        write(alloc, object, text, attributes, now)?;
        return Ok(Change::Text);
    }
    if same_data(&object.attributes, attributes) {
        return Ok(Change::Same);
    }
    object.attributes = copy_pairs(alloc, attributes.as_slice())?;
    object.updated = now;
    Ok(Change::Attributes)
}

/// A first report of the entity of this name. Its locals are a function's own, so that no other report makes room for them.
#[inline(never)]
fn appear(
    alloc: Global,
    states: &mut Named,
    name: &str,
    text: &Word,
    attributes: &Many<(Word, Value)>,
    now: Moment,
) -> Result<Change, AllocError>
    ensures change { IfOk result (λ change. change ≡ change_of None text.now attributes.now) }
    ensures ok { OnOk result (ChangesName states.old states.new name.now (Some (next_object_lem None text.now attributes.now now))) }
    ensures err { OnErr result (SaysTheSame states.old states.new) }
{
    let key = key_of(alloc, name)?;
    let object = next_object(alloc, None, text, attributes, now)?;
    states.insert(key, object)?;
    Ok(Change::Appeared)
}

/// A report of the entity of this name.
pub fn report_in(
    alloc: Global,
    states: &mut Named,
    name: &str,
    text: &Word,
    attributes: &Many<(Word, Value)>,
    now: Moment,
) -> Result<Change, AllocError>
    ensures change { IfOk result (λ change. change ≡ change_of (get_by_text states.old name.now) text.now attributes.now) }
    ensures ok { OnOk result (ChangesName states.old states.new name.now (Some (next_object_lem (get_by_text states.old name.now) text.now attributes.now now))) }
    ensures err { OnErr result (SaysTheSame states.old states.new) }
{
    match states.get_mut(name) {
        Some(object) => update(alloc, object, text, attributes, now),
        None => appear(alloc, states, name, text, attributes, now),
    }
}

/// The same, and the answer is the state as it was.
fn update_over(
    alloc: Global,
    object: &mut StateObject,
    text: &Word,
    attributes: &Many<(Word, Value)>,
    now: Moment,
) -> Result<Option<StateObject>, AllocError>
    ensures before { IfOk result (λ before. before ≡ Some object.old) }
    ensures ok { OnOk result (object.new ≡ next_object_lem (Some object.old) text.now attributes.now now) }
    ensures err { OnErr result (object.new ≡ object.old) }
{
    let made = next_object(alloc, Some(object), text, attributes, now)?;
    Ok(Some(std::mem::replace(object, made)))
}

/// A report of the entity of this name; the answer is the state that it had.
pub fn report_over(
    alloc: Global,
    states: &mut Named,
    name: &str,
    text: &Word,
    attributes: &Many<(Word, Value)>,
    now: Moment,
) -> Result<Option<StateObject>, AllocError>
    ensures before { IfOk result (λ before. before ≡ get_by_text states.old name.now) }
    ensures ok { OnOk result (ChangesName states.old states.new name.now (Some (next_object_lem (get_by_text states.old name.now) text.now attributes.now now))) }
    ensures err { OnErr result (SaysTheSame states.old states.new) }
{
    match states.get_mut(name) {
        Some(object) => update_over(alloc, object, text, attributes, now),
        None => match appear(alloc, states, name, text, attributes, now) {
            Ok(_) => Ok(None),
            Err(error) => Err(error),
        },
    }
}

/// Gives the entity of this name a state.
pub fn put_in(
    alloc: Global,
    states: &mut Named,
    name: &str,
    object: StateObject,
) -> Result<(), AllocError>
    ensures ok { OnOk result (ChangesName states.old states.new name.now (Some object)) }
    ensures err { OnErr result (SaysTheSame states.old states.new) }
{
    match states.get_mut(name) {
        Some(old) => *old = object,
        None => {
            let key = key_of(alloc, name)?;
            states.insert(key, object)?;
        }
    }
    Ok(())
}

/// Takes the state of the entity of this name away, and says whether there was one.
pub fn remove_from(states: &mut Named, name: &str) -> bool
    ensures found { result ≡ is_some (get_by_text states.old name.now) }
    ensures rest { ChangesName states.old states.new name.now None }
{
    states.remove(name).is_some()
}
