//! Conditions, on the states and at the moment of a place.
use crate::home::{Home, home_of, tell, utc, view_of};
use cond_eval::{View, test};
use ha_config::{Automation, Condition};
use ha_sight::{Env, TriggerData};
use ha_value::{Many, Value, push_text};
use std::alloc::{AllocError, Global};

/// The variables of a run whose trigger has the id 7.
fn seventh(alloc: Global) -> Result<Env, AllocError> {
    let mut trigger = Many::make(alloc);
    push_text(alloc, &mut trigger, "id", "7")?;
    let data = TriggerData::whole(alloc, Value::Pairs(trigger))?;
    Ok(Env::of_trigger(alloc, data))
}

/// Whether all of the conditions hold.
fn all_hold(
    alloc: Global,
    conditions: &[Condition],
    view: &View<'_>,
    env: &Env,
) -> Result<bool, AllocError> {
    for condition in conditions {
        if !test(alloc, condition, view, env)? {
            return Ok(false);
        }
    }
    Ok(true)
}

/// Whether the conditions of the rule hold.
fn rule_holds(alloc: Global, rule: &Automation, view: &View<'_>) -> Result<bool, AllocError> {
    let env = seventh(alloc)?;
    all_hold(alloc, rule.tests.as_slice(), view, &env)
}

/// Whether those of the home's first automation hold; none where there is none.
fn first_holds(alloc: Global, home: &Home) -> Result<Option<bool>, AllocError> {
    let zone = utc(alloc)?;
    match (view_of(home, &zone), home.config.automations.get(0)) {
        (Some(view), Some(rule)) => match rule_holds(alloc, rule, &view) {
            Ok(holds) => Ok(Some(holds)),
            Err(fault) => Err(fault),
        },
        _ => Ok(None),
    }
}

/// Whether each of these lines may come.
fn all_told(alloc: Global, home: &mut Home, lines: &[&str]) -> Result<bool, AllocError> {
    for line in lines {
        if !tell(alloc, home, line)? {
            return Ok(false);
        }
    }
    Ok(true)
}

/// Whether the conditions of the home's first automation hold behind these lines; none where a line is refused.
fn tested_in(alloc: Global, home: &mut Home, lines: &[&str]) -> Result<Option<bool>, AllocError> {
    if all_told(alloc, home, lines)? {
        first_holds(alloc, home)
    } else {
        Ok(None)
    }
}

/// Whether the conditions of an automation hold behind these lines; none where they are refused, or a line is.
fn tested(alloc: Global, conditions: &str, lines: &[&str]) -> Result<Option<bool>, AllocError> {
    let Some(mut home) = home_of(alloc, conditions, "[]")? else {
        return Ok(None);
    };
    tested_in(alloc, &mut home, lines)
}

/// Whether they hold.
fn hold(alloc: Global, conditions: &str, lines: &[&str]) -> bool {
    matches!(tested(alloc, conditions, lines), Ok(Some(true)))
}

/// Whether they are read, and do not hold.
fn fail(alloc: Global, conditions: &str, lines: &[&str]) -> bool {
    matches!(tested(alloc, conditions, lines), Ok(Some(false)))
}

/// Whether each of these holds by itself, behind these lines.
fn each_holds(alloc: Global, all: &[&str], lines: &[&str]) -> bool {
    for conditions in all {
        if !hold(alloc, conditions, lines) {
            return false;
        }
    }
    true
}

/// Whether none of these holds, behind these lines.
fn each_fails(alloc: Global, all: &[&str], lines: &[&str]) -> bool {
    for conditions in all {
        if !fail(alloc, conditions, lines) {
            return false;
        }
    }
    true
}

#[test]
fn a_window_goes_round_midnight(rt: HostRuntime) {
    let window = "[{condition: time, after: '22:00', before: '06:00'}]";
    assert!(rt;
        hold(rt.alloc(), window, &["m 22:00:00"])
            && fail(
                rt.alloc(),
                window,
                &["{\"moment\":\"2024-05-02T06:00:00Z\"}"]
            )
            && hold(
                rt.alloc(),
                window,
                &["{\"moment\":\"2024-05-02T05:59:59Z\"}"]
            )
    );
}

#[test]
fn a_window_has_its_first_second_and_not_its_last(rt: HostRuntime) {
    let at_six = ["{\"moment\":\"2024-05-02T06:00:00Z\"}"];
    let held = [
        "[{condition: time, after: '06:00', before: '22:00'}]",
        "[{condition: time, after: '06:00'}]",
        "[{condition: time, before: '06:00:01'}]",
    ];
    let failed = [
        "[{condition: time, after: '05:00', before: '06:00'}]",
        "[{condition: time, after: '06:00:01'}]",
        "[{condition: time, before: '06:00'}]",
    ];
    assert!(rt; each_holds(rt.alloc(), &held, &at_six) && each_fails(rt.alloc(), &failed, &at_six));
}

#[test]
fn the_weekday_is_that_of_the_day(rt: HostRuntime) {
    // The first of May 2024 was a Wednesday.
    let held = [
        "[{condition: time, weekday: wed}]",
        "[{condition: time, weekday: [mon, wed], after: '20:00'}]",
    ];
    let failed = [
        "[{condition: time, weekday: thu}]",
        "[{condition: time, weekday: [mon, wed], after: '20:00:01'}]",
        "[{condition: time, weekday: [mon, tue], after: '20:00'}]",
    ];
    assert!(rt; each_holds(rt.alloc(), &held, &[]) && each_fails(rt.alloc(), &failed, &[]));
}

#[test]
fn each_entity_has_one_of_the_texts(rt: HostRuntime) {
    let dimmed = "[{condition: state, entity_id: light.x, state: ['on', dim]}]";
    let both = "[{condition: state, entity_id: [light.x, light.y], state: 'on'}]";
    assert!(rt;
        hold(rt.alloc(), dimmed, &["r light.x dim"])
            && fail(rt.alloc(), dimmed, &["r light.x off"])
            && fail(rt.alloc(), dimmed, &[])
            && hold(rt.alloc(), both, &["r light.x on", "r light.y on"])
            && fail(rt.alloc(), both, &["r light.x on", "r light.y off"])
    );
}

#[test]
fn a_state_stands_long_enough_whatever_its_attributes_do(rt: HostRuntime) {
    let held = "[{condition: state, entity_id: light.x, state: 'on', for: 5}]";
    let again = "{\"report\":\"light.x\",\"state\":\"on\",\"attributes\":{\"level\":7}}";
    let other = [
        "r light.x on",
        "m 20:00:03",
        "r light.x off",
        "r light.x on",
        "m 20:00:05",
    ];
    assert!(rt;
        fail(rt.alloc(), held, &["r light.x on", "m 20:00:04.999"])
            && hold(
                rt.alloc(),
                held,
                &["r light.x on", "m 20:00:03", again, "m 20:00:05"]
            )
            && fail(rt.alloc(), held, &other)
    );
}

#[test]
fn an_attribute_is_a_text_as_it_is_printed(rt: HostRuntime) {
    let lines = [
        "{\"report\":\"light.x\",\"state\":\"on\",\"attributes\":{\"level\":7.50,\"warm\":true,\"way\":\"up\",\"all\":[1]}}",
    ];
    let held = [
        "[{condition: state, entity_id: light.x, attribute: level, state: '7.5'}]",
        "[{condition: state, entity_id: light.x, attribute: warm, state: 'true'}]",
        "[{condition: state, entity_id: light.x, attribute: way, state: up}]",
    ];
    let failed = [
        "[{condition: state, entity_id: light.x, attribute: way, state: 'on'}]",
        "[{condition: state, entity_id: light.x, attribute: all, state: '[1]'}]",
        "[{condition: state, entity_id: light.x, attribute: none, state: 'on'}]",
    ];
    assert!(rt; each_holds(rt.alloc(), &held, &lines) && each_fails(rt.alloc(), &failed, &lines));
}

#[test]
fn the_bounds_of_a_number_are_strict(rt: HostRuntime) {
    let lines = [
        "{\"report\":\"light.x\",\"state\":\"6.5\",\"attributes\":{\"level\":7}}",
        "r light.y on",
    ];
    let held = [
        "[{condition: numeric_state, entity_id: light.x, above: 6, below: 7}]",
        "[{condition: numeric_state, entity_id: light.x, attribute: level, above: 6.999999}]",
        "[{condition: numeric_state, entity_id: light.x, attribute: level, below: 8}]",
    ];
    let failed = [
        "[{condition: numeric_state, entity_id: light.x, above: 6.5}]",
        "[{condition: numeric_state, entity_id: light.x, attribute: level, below: 7}]",
        "[{condition: numeric_state, entity_id: light.y, below: 7}]",
        "[{condition: numeric_state, entity_id: [light.x, light.y], below: 7}]",
        "[{condition: numeric_state, entity_id: light.z, below: 7}]",
    ];
    assert!(rt; each_holds(rt.alloc(), &held, &lines) && each_fails(rt.alloc(), &failed, &lines));
}

#[test]
fn a_template_has_to_say_true(rt: HostRuntime) {
    let held = [
        "[\"{{ 'True' }} \"]",
        "\"{{ is_state('light.x', 'on') }}\"",
        "[{condition: template, value_template: \"{{ 1 < 2 }}\"}]",
    ];
    let failed = [
        "[\"{{ 1 }}\"]",
        "[\"{{ 'yes' }}\"]",
        "[\"{{ 1 // 0 }}\"]",
        "[\"{{ states('light.x') + 1 }}\"]",
    ];
    assert!(rt;
        each_holds(rt.alloc(), &held, &["r light.x on"])
            && each_fails(rt.alloc(), &failed, &["r light.x on"])
    );
}

#[test]
fn the_id_of_the_own_trigger_is_listed(rt: HostRuntime) {
    let held = [
        "[{condition: trigger, id: '7'}]",
        "[{condition: trigger, id: [a, 7]}]",
    ];
    assert!(rt;
        each_holds(rt.alloc(), &held, &[])
            && fail(rt.alloc(), "[{condition: trigger, id: [a, '8']}]", &[])
    );
}

#[test]
fn all_of_and_one_of_and_none_of_not(rt: HostRuntime) {
    let held = [
        "[{and: [\"{{ true }}\", \"{{ true }}\"]}]",
        "[{or: [\"{{ false }}\", \"{{ true }}\"]}]",
        "[{not: [\"{{ false }}\", \"{{ false }}\"]}]",
        "[{condition: and, conditions: []}]",
        "[{condition: not, conditions: []}]",
        "[]",
    ];
    let failed = [
        "[{and: [\"{{ false }}\", \"{{ true }}\"]}]",
        "[{or: [\"{{ false }}\", \"{{ false }}\"]}]",
        "[{not: [\"{{ false }}\", \"{{ true }}\"]}]",
        "[{condition: or, conditions: []}]",
        "[\"{{ true }}\", \"{{ false }}\"]",
    ];
    assert!(rt; each_holds(rt.alloc(), &held, &[]) && each_fails(rt.alloc(), &failed, &[]));
}

#[test]
fn a_disabled_condition_is_left_out(rt: HostRuntime) {
    let held = [
        "[{condition: template, value_template: \"{{ false }}\", enabled: false}]",
        "[{not: [{condition: template, value_template: \"{{ true }}\", enabled: false}]}]",
    ];
    let failed = ["[{or: [{condition: template, value_template: \"{{ true }}\", enabled: 'no'}]}]"];
    assert!(rt; each_holds(rt.alloc(), &held, &[]) && each_fails(rt.alloc(), &failed, &[]));
}
