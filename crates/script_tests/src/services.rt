//! Which calls are done by the core itself, since they are of scripts: in a home of one automation, so that its first script is unit 1.
use crate::home::{Home, home_with};
use ha_sight::Item;
use ha_value::{EntityId, Many, Value, Word};
use script_calls::resolve;
use std::alloc::{AllocError, Global};

/// A call of a service, with its targets and its data.
#[derive(Drop)]
struct Call<'a> {
    service: &'a str,
    target: &'a [&'a str],
    data: Data,
}

/// The data of a call.
#[derive(Clone, Copy)]
enum Data {
    Nothing,
    /// `who: Ann`.
    Who,
    /// `variables` with `who: Bo` and `trigger: x`.
    Variables,
    /// `variables: x`.
    Text,
}

/// What is wanted in place of a call.
#[derive(Drop)]
enum Wanted<'a> {
    /// It is written.
    Written,
    /// These scripts start with so many variables, of which the last has this name; with the flag, the caller waits.
    Starts(&'a [u32], usize, &'a str, bool),
    /// All runs of these scripts end.
    Halts(&'a [u32]),
}

fn pair(alloc: Global, name: &str, text: &str) -> Result<(Word, Value), AllocError> {
    Ok((
        Word::from_str(alloc, name)?,
        Value::Text(Word::from_str(alloc, text)?),
    ))
}

/// The map that is handed over to the scripts that are turned on.
fn variables(alloc: Global) -> Result<Value, AllocError> {
    let mut inner = Many::make(alloc);
    inner.push(pair(alloc, "who", "Bo")?)?;
    inner.push(pair(alloc, "trigger", "x")?)?;
    Ok(Value::Pairs(inner))
}

fn fields(alloc: Global, data: Data) -> Result<Many<(Word, Value)>, AllocError> {
    let mut all = Many::make(alloc);
    match data {
        Data::Nothing => {}
        Data::Who => all.push(pair(alloc, "who", "Ann")?)?,
        Data::Variables => {
            all.push((Word::from_str(alloc, "variables")?, variables(alloc)?))?;
        }
        Data::Text => all.push(pair(alloc, "variables", "x")?)?,
    }
    Ok(all)
}

fn entity(alloc: Global, id: &str) -> Result<EntityId, AllocError> {
    match EntityId::read(alloc, id.as_bytes()) {
        Ok(id) => Ok(id),
        Err(_) => Err(AllocError),
    }
}

fn targets(alloc: Global, ids: &[&str]) -> Result<Many<EntityId>, AllocError> {
    let mut all = Many::make(alloc);
    for id in ids {
        all.push(entity(alloc, id)?)?;
    }
    Ok(all)
}

/// Whether the variables are so many, the last of this name.
fn are_variables(found: &[(Word, Value)], count: usize, last: &str) -> bool {
    match found.last() {
        Some(pair) => found.len() == count && pair.0.as_str() == last,
        None => count == 0,
    }
}

fn is_wanted(found: &Option<Item>, wanted: &Wanted<'_>) -> bool {
    match found {
        None => matches!(wanted, Wanted::Written),
        Some(
            Item::Started {
                scripts,
                fields,
                waits,
            },
        ) => match wanted {
            Wanted::Starts(all, count, last, waiting) => {
                scripts.as_slice() == *all
                    && are_variables(fields.as_slice(), *count, last)
                    && *waits == *waiting
            }
            _ => false,
        },
        Some(Item::Halted(scripts)) => match wanted {
            Wanted::Halts(all) => scripts.as_slice() == *all,
            _ => false,
        },
        Some(_) => false,
    }
}

/// Whether this is done in place of the call. There are few units in a home of a test.
fn is_done(
    alloc: Global,
    home: &Home,
    call: &Call<'_>,
    wanted: &Wanted<'_>,
) -> Result<bool, AllocError> {
    let config = &home.config;
    let few = config.automations.len() <= 4 && config.scripts.len() <= 4;
    if !few || home.numbers.len() < 8 {
        return Ok(false);
    }
    let service = Word::from_str(alloc, call.service)?;
    let target = targets(alloc, call.target)?;
    let fields = fields(alloc, call.data)?;
    let found = resolve(alloc, config, &home.numbers, &service, &target, &fields)?;
    Ok(is_wanted(&found, wanted))
}

fn all_done(
    alloc: Global,
    home: &Home,
    rows: &[(Call<'_>, Wanted<'_>)],
) -> Result<bool, AllocError> {
    for row in rows {
        if !is_done(alloc, home, &row.0, &row.1)? {
            return Ok(false);
        }
    }
    Ok(true)
}

/// Whether each call is done so where these scripts are configured.
fn are_done(alloc: Global, scripts: &str, rows: &[(Call<'_>, Wanted<'_>)]) -> bool {
    match home_with(alloc, "[]", "[{action: light.x}]", scripts) {
        Ok(Some(home)) => all_done(alloc, &home, rows).unwrap_or(false),
        _ => false,
    }
}

const TWO: &str = "{greet: {sequence: []}, wave: {sequence: []}}";

#[test]
fn a_script_is_called_by_its_name_and_waited_for(rt: HostRuntime) {
    let rows = [
        (
            Call {
                service: "script.greet",
                target: &[],
                data: Data::Who,
            },
            Wanted::Starts(&[1], 1, "who", true),
        ),
        (
            Call {
                service: "script.wave",
                target: &["light.x"],
                data: Data::Nothing,
            },
            Wanted::Starts(&[2], 0, "", true),
        ),
        (
            Call {
                service: "script.gree",
                target: &[],
                data: Data::Who,
            },
            Wanted::Written,
        ),
        (
            Call {
                service: "script.toggle",
                target: &["script.greet"],
                data: Data::Nothing,
            },
            Wanted::Written,
        ),
        (
            Call {
                service: "scripts.greet",
                target: &[],
                data: Data::Nothing,
            },
            Wanted::Written,
        ),
        (
            Call {
                service: "notify.greet",
                target: &[],
                data: Data::Nothing,
            },
            Wanted::Written,
        ),
    ];
    assert!(rt; are_done(rt.alloc(), TWO, &rows));
}

#[test]
fn scripts_are_turned_on_and_off_by_targets(rt: HostRuntime) {
    let rows = [
        (
            Call {
                service: "script.turn_on",
                target: &["script.wave", "script.greet", "script.wave"],
                data: Data::Who,
            },
            Wanted::Starts(&[2, 1], 0, "", false),
        ),
        (
            Call {
                service: "script.turn_on",
                target: &["light.greet", "script.no"],
                data: Data::Nothing,
            },
            Wanted::Starts(&[], 0, "", false),
        ),
        (
            Call {
                service: "script.turn_off",
                target: &["script.greet", "automation.a", "script.greet"],
                data: Data::Nothing,
            },
            Wanted::Halts(&[1]),
        ),
        (
            Call {
                service: "script.turn_off",
                target: &[],
                data: Data::Nothing,
            },
            Wanted::Halts(&[]),
        ),
    ];
    assert!(rt; are_done(rt.alloc(), TWO, &rows));
}

#[test]
fn variables_that_are_a_map_are_handed_over(rt: HostRuntime) {
    let rows = [
        (
            Call {
                service: "script.turn_on",
                target: &["script.greet"],
                data: Data::Variables,
            },
            Wanted::Starts(&[1], 2, "trigger", false),
        ),
        (
            Call {
                service: "script.turn_on",
                target: &["script.greet"],
                data: Data::Text,
            },
            Wanted::Starts(&[1], 0, "", false),
        ),
        (
            Call {
                service: "script.greet",
                target: &[],
                data: Data::Variables,
            },
            Wanted::Starts(&[1], 1, "variables", true),
        ),
    ];
    assert!(rt; are_done(rt.alloc(), TWO, &rows));
}

#[test]
fn a_script_named_as_a_service_is_turned_on_alone(rt: HostRuntime) {
    let scripts = "{turn_on: {sequence: []}, toggle: {sequence: []}, turn_off: {sequence: []}}";
    let rows = [
        (
            Call {
                service: "script.turn_on",
                target: &[],
                data: Data::Who,
            },
            Wanted::Starts(&[], 0, "", false),
        ),
        (
            Call {
                service: "script.turn_on",
                target: &["script.turn_on", "script.turn_off"],
                data: Data::Nothing,
            },
            Wanted::Starts(&[1, 3], 0, "", false),
        ),
        (
            Call {
                service: "script.toggle",
                target: &[],
                data: Data::Nothing,
            },
            Wanted::Written,
        ),
        (
            Call {
                service: "script.turn_off",
                target: &["script.toggle"],
                data: Data::Nothing,
            },
            Wanted::Halts(&[2]),
        ),
    ];
    assert!(rt; are_done(rt.alloc(), scripts, &rows));
}

#[test]
fn where_no_script_is_configured_each_call_is_written(rt: HostRuntime) {
    let rows = [
        (
            Call {
                service: "script.greet",
                target: &[],
                data: Data::Who,
            },
            Wanted::Written,
        ),
        (
            Call {
                service: "script.turn_on",
                target: &["script.greet"],
                data: Data::Nothing,
            },
            Wanted::Written,
        ),
        (
            Call {
                service: "script.turn_off",
                target: &["script.greet"],
                data: Data::Nothing,
            },
            Wanted::Written,
        ),
    ];
    assert!(rt; are_done(rt.alloc(), "{}", &rows));
}
