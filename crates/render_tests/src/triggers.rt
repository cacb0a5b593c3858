//! What templates read of the variable `trigger`, for each kind of trigger.
use crate::shown::{all_give, entity};
use ha_clock::Moment;
use ha_config::{Trigger, TriggerRule};
use ha_sight::{Env, StateObject, TriggerData};
use ha_value::{EntityId, Many, Num, Value, Word, push_text, push_value};
use state_table::StateTable;
use std::alloc::{AllocError, Global};

/// The third trigger, with an id of its own. What else it is stands in what it gives.
fn trigger(alloc: Global) -> Result<Trigger, AllocError> {
    let id = Word::from_str(alloc, "door")?;
    Ok(Trigger {
        id,
        idx: 2,
        rule: TriggerRule::Start,
        hold: None,
    })
}

/// A name and a level.
fn attributes(alloc: Global) -> Result<Many<(Word, Value)>, AllocError> {
    let mut pairs = Many::make(alloc);
    push_text(alloc, &mut pairs, "friendly_name", "Hall")?;
    push_value(alloc, &mut pairs, "level", Value::Number(Num::Whole(7)))?;
    Ok(pairs)
}

/// A state with a name and a level.
fn state(alloc: Global, text: &str) -> Result<StateObject, AllocError> {
    let text = Word::from_str(alloc, text)?;
    let attributes = attributes(alloc)?;
    Ok(StateObject {
        text,
        attributes,
        changed: Moment::at(1_714_593_600_000),
        updated: Moment::at(1_714_593_600_000),
    })
}

/// What moved: an entity, and its states before and after.
#[derive(Drop)]
struct Moved {
    entity: EntityId,
    old: StateObject,
    new: StateObject,
}

fn move_of(alloc: Global, old: &str, new: &str) -> Result<Moved, AllocError> {
    let entity = entity(alloc, "sensor.hall")?;
    let old = state(alloc, old)?;
    let new = state(alloc, new)?;
    Ok(Moved { entity, old, new })
}

/// Of a state trigger that looks at this attribute, and of an entity that had a state before, or none.
fn of_moved(
    alloc: Global,
    trigger: &Trigger,
    attribute: &Option<Word>,
    moved: &Moved,
    had: bool,
) -> Result<TriggerData, AllocError> {
    let old = if had { Some(&moved.old) } else { None };
    TriggerData::of_state(
        alloc,
        trigger,
        attribute,
        &moved.entity,
        old,
        Some(&moved.new),
    )
}

fn of_state(alloc: Global, trigger: &Trigger) -> Result<TriggerData, AllocError> {
    of_moved(alloc, trigger, &None, &move_of(alloc, "off", "on")?, true)
}

/// Of an entity that had no state before.
fn of_first_state(alloc: Global, trigger: &Trigger) -> Result<TriggerData, AllocError> {
    let attribute = Some(Word::from_str(alloc, "level")?);
    of_moved(
        alloc,
        trigger,
        &attribute,
        &move_of(alloc, "off", "on")?,
        false,
    )
}

fn of_number(alloc: Global, trigger: &Trigger) -> Result<TriggerData, AllocError> {
    let moved = move_of(alloc, "4", "8")?;
    TriggerData::of_number(
        alloc,
        trigger,
        Some(Num::Whole(5)),
        None,
        &moved.entity,
        Some(&moved.old),
        Some(&moved.new),
    )
}

/// A number and a text.
fn fields(alloc: Global) -> Result<Many<(Word, Value)>, AllocError> {
    let mut fields = Many::make(alloc);
    push_value(alloc, &mut fields, "n", Value::Number(Num::Whole(3)))?;
    push_text(alloc, &mut fields, "side", "left")?;
    Ok(fields)
}

fn of_event(alloc: Global, trigger: &Trigger) -> Result<TriggerData, AllocError> {
    let kind = Word::from_str(alloc, "button")?;
    TriggerData::of_event(alloc, trigger, &kind, &fields(alloc)?)
}

/// A map that was given as it is.
fn given(alloc: Global) -> Result<TriggerData, AllocError> {
    let mut pairs = Many::make(alloc);
    push_value(alloc, &mut pairs, "n", Value::Number(Num::Whole(3)))?;
    TriggerData::whole(alloc, Value::Pairs(pairs))
}

/// What moved the trigger.
#[derive(Clone, Copy)]
enum Kind {
    State,
    FirstState,
    Number,
    Event,
    Time,
    Given,
}

fn data(alloc: Global, trigger: &Trigger, kind: Kind) -> Result<TriggerData, AllocError> {
    match kind {
        Kind::State => of_state(alloc, trigger),
        Kind::FirstState => of_first_state(alloc, trigger),
        Kind::Number => of_number(alloc, trigger),
        Kind::Event => of_event(alloc, trigger),
        Kind::Time => TriggerData::bare(alloc, "time", trigger),
        Kind::Given => given(alloc),
    }
}

/// Whether each text is a template that renders as the other text, with these variables.
fn give_of(alloc: Global, data: Result<TriggerData, AllocError>, rows: &[(&str, &str)]) -> bool {
    match data {
        Ok(data) => all_give(
            alloc,
            &StateTable::make(alloc),
            &Env::of_trigger(alloc, data),
            rows,
        ),
        Err(_) => false,
    }
}

/// The same, of a trigger that was moved so.
fn give(alloc: Global, kind: Kind, rows: &[(&str, &str)]) -> bool {
    match trigger(alloc) {
        Ok(trigger) => give_of(alloc, data(alloc, &trigger, kind), rows),
        Err(_) => false,
    }
}

#[test]
fn a_state_trigger_is_read(rt: HostRuntime) {
    let alloc = rt.alloc();
    assert!(rt;
        give(
            alloc,
            Kind::State,
            &[
                (
                    "{{ trigger.platform }} {{ trigger.id }} {{ trigger.idx }}",
                    "state door 2"
                ),
                ("{{ trigger.entity_id }}", "sensor.hall"),
                (
                    "{{ trigger.from_state.state }} {{ trigger.to_state.state }}",
                    "off on"
                ),
                ("{{ trigger.to_state.entity_id }}", "sensor.hall"),
                (
                    "{{ trigger.to_state.domain }} {{ trigger.to_state.object_id }}",
                    "sensor hall"
                ),
                ("{{ trigger.to_state.attributes.friendly_name }}", "Hall"),
                (
                    "{{ trigger['from_state']['attributes']['level'] + 1 }}",
                    "8"
                ),
                (
                    "{{ trigger.attribute is none }} {{ trigger.above is none }}",
                    "True True"
                ),
                (
                    "{{ trigger.to_state is none }} {{ trigger[0] is none }}",
                    "False True"
                ),
                (
                    "{{ trigger.to_state.x.y is none }} {{ trigger.event.data is none }}",
                    "True True"
                ),
                ("{{ trigger.to_state.attributes.x is none }}", "True"),
                ("{{ trigger|length }} {{ trigger.to_state|length }}", "7 5"),
                ("{{ trigger.to_state.attributes|length }}", "2"),
                (
                    "{{ 'state' in trigger.to_state }} {{ 'on' in trigger.to_state }}",
                    "True False"
                ),
                ("{{ trigger.to_state == trigger['to_state'] }}", "True"),
                ("{{ trigger.to_state == trigger.from_state }}", "False"),
                ("{% set t = trigger %}{{ t.to_state.state }}", "on"),
                ("{% set trigger = 'own' %}{{ trigger }}", "own"),
                (
                    "{% set trigger = trigger.to_state.state %}{% set trigger = trigger ~ '!' %}{{ trigger }}",
                    "on!"
                ),
            ],
        )
    );
}

#[test]
fn a_first_state_comes_from_none(rt: HostRuntime) {
    let alloc = rt.alloc();
    assert!(rt;
        give(
            alloc,
            Kind::FirstState,
            &[
                ("{{ trigger.from_state is none }}", "True"),
                ("{{ trigger.from_state.state is none }}", "True"),
                (
                    "{{ trigger.to_state.state }} {{ trigger.attribute }}",
                    "on level"
                ),
            ],
        )
    );
}

#[test]
fn a_numeric_trigger_is_read(rt: HostRuntime) {
    let alloc = rt.alloc();
    assert!(rt;
        give(
            alloc,
            Kind::Number,
            &[
                (
                    "{{ trigger.platform }} {{ trigger.id }} {{ trigger.idx }}",
                    "numeric_state door 2"
                ),
                (
                    "{{ trigger.entity_id }} {{ trigger.above }}",
                    "sensor.hall 5"
                ),
                (
                    "{{ trigger.below is none }} {{ trigger.attribute is none }}",
                    "True True"
                ),
                (
                    "{{ trigger.from_state.state }} {{ trigger.to_state.state }}",
                    "4 8"
                ),
                (
                    "{{ trigger.to_state.attributes.level }} {{ trigger|length }}",
                    "7 8"
                ),
            ],
        )
    );
}

#[test]
fn an_event_trigger_is_read(rt: HostRuntime) {
    let alloc = rt.alloc();
    assert!(rt;
        give(
            alloc,
            Kind::Event,
            &[
                (
                    "{{ trigger.platform }} {{ trigger.id }} {{ trigger.idx }}",
                    "event door 2"
                ),
                ("{{ trigger.event.event_type }}", "button"),
                (
                    "{{ trigger.event.data.n + 1 }} {{ trigger.event.data.side }}",
                    "4 left"
                ),
                ("{{ trigger['event']['data']['side'] }}", "left"),
                (
                    "{{ trigger.event.data.x is none }} {{ trigger.event.x is none }}",
                    "True True"
                ),
                (
                    "{{ trigger.entity_id is none }} {{ trigger.to_state.state is none }}",
                    "True True"
                ),
                (
                    "{{ trigger|length }} {{ trigger.event|length }} {{ trigger.event.data|length }}",
                    "4 2 2"
                ),
            ],
        )
    );
}

#[test]
fn other_triggers_have_three_fields(rt: HostRuntime) {
    let alloc = rt.alloc();
    assert!(rt;
        give(
            alloc,
            Kind::Time,
            &[
                (
                    "{{ trigger.platform }} {{ trigger.id }} {{ trigger.idx }}",
                    "time door 2"
                ),
                (
                    "{{ trigger.entity_id is none }} {{ trigger|length }}",
                    "True 3"
                ),
            ],
        ) && give(
            alloc,
            Kind::Given,
            &[(
                "{{ trigger.n + 1 }} {{ trigger.id is none }} {{ trigger|length }}",
                "4 True 1"
            ),],
        )
    );
}
