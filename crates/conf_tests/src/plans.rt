//! Which numbers units have behind a reload: what is equal in every field keeps its number, and no number is given twice.
ghost use Rattle.std.specs.List.{list_all};
ghost use Rattle.std.specs.Prelude.{◌≡◌, ◌+◌, length, nat_lt, true};

use conf_auto::read_config;
use conf_reload::plan;
use ha_config::{Automation, Config, Mode, Script};
use ha_value::{Many, Word};
use std::alloc::{AllocError, Global};

/// What is in force with which numbers, what comes into force, and the plan that is wanted. Of a unit there are the name and the greatest
/// number of runs.
#[derive(Drop)]
struct Row<'a> {
    old: &'a [(&'a str, u32)],
    old_scripts: &'a [(&'a str, u32)],
    numbers: &'a [u32],
    free: u32,
    new: &'a [(&'a str, u32)],
    new_scripts: &'a [(&'a str, u32)],
    given: &'a [u32],
    kept: &'a [u32],
    gone: &'a [u32],
    next: u32,
}

fn automation(alloc: Global, name: &str, max: u32) -> Result<Automation, AllocError> {
    Ok(Automation {
        name: Word::from_str(alloc, name)?,
        triggers: Many::make(alloc),
        tests: Many::make(alloc),
        actions: Many::make(alloc),
        mode: Mode::Queued,
        max,
        initial: None,
    })
}

fn script(alloc: Global, name: &str, max: u32) -> Result<Script, AllocError> {
    Ok(Script {
        name: Word::from_str(alloc, name)?,
        actions: Many::make(alloc),
        mode: Mode::Queued,
        max,
    })
}

fn config(
    alloc: Global,
    automations: &[(&str, u32)],
    scripts: &[(&str, u32)],
) -> Result<Config, AllocError> {
    let mut rules = Many::make(alloc);
    for row in automations {
        rules.push(automation(alloc, row.0, row.1)?)?;
    }
    let mut called = Many::make(alloc);
    for row in scripts {
        called.push(script(alloc, row.0, row.1)?)?;
    }
    Ok(Config {
        automations: rules,
        scripts: called,
        helpers: Many::make(alloc),
    })
}

fn listed(alloc: Global, numbers: &[u32]) -> Result<Many<u32>, AllocError> {
    let mut list = Many::make(alloc);
    for number in numbers {
        list.push(*number)?;
    }
    Ok(list)
}

fn are_below(numbers: &[u32], free: u32) -> bool
    ensures { result ≡ list_all (λ n. nat_lt n free) numbers.now }
{
    numbers.iter().all(|number| *number < free)
}

fn are_whole(old: &Config, numbers: &Many<u32>) -> bool
    ensures { result ≡ true → length numbers.now ≡ length old.now.automations + length old.now.scripts }
{
    let count = old.automations.len();
    if numbers.len() < count {
        return false;
    }
    numbers.len() - count == old.scripts.len()
}

/// Whether the plan of these two is that of the row.
fn is_planned(
    alloc: Global,
    old: &Config,
    new: &Config,
    row: &Row<'_>,
) -> Result<bool, AllocError> {
    let numbers = listed(alloc, row.numbers)?;
    let free = row.free;
    if !are_whole(old, &numbers) || !are_below(numbers.as_slice(), free) {
        return Ok(false);
    }
    if free > 1_000 || new.automations.len() > 1_000 || new.scripts.len() > 1_000 {
        return Ok(false);
    }
    let made = plan(alloc, old, new, &numbers, free)?;
    Ok(
        made.numbers.as_slice() == row.given
            && made.kept.as_slice() == row.kept
            && made.gone.as_slice() == row.gone
            && made.free == row.next,
    )
}

fn planned(alloc: Global, row: &Row<'_>) -> Result<bool, AllocError> {
    let old = config(alloc, row.old, row.old_scripts)?;
    let new = config(alloc, row.new, row.new_scripts)?;
    is_planned(alloc, &old, &new, row)
}

fn are_planned(alloc: Global, rows: &[Row<'_>]) -> bool {
    for row in rows {
        if !planned(alloc, row).unwrap_or(false) {
            return false;
        }
    }
    true
}

/// The same text; one that is changed; one that is changed back; another order with one more; none any more.
#[test]
fn what_is_equal_keeps_its_number(rt: HostRuntime) {
    let rows = [
        Row {
            old: &[("a", 1), ("b", 1)],
            old_scripts: &[],
            numbers: &[0, 1],
            free: 2,
            new: &[("a", 1), ("b", 1)],
            new_scripts: &[],
            given: &[0, 1],
            kept: &[0, 1],
            gone: &[],
            next: 2,
        },
        Row {
            old: &[("a", 1), ("b", 1)],
            old_scripts: &[],
            numbers: &[0, 1],
            free: 2,
            new: &[("a", 1), ("b", 2)],
            new_scripts: &[],
            given: &[0, 2],
            kept: &[0],
            gone: &[1],
            next: 3,
        },
        Row {
            old: &[("a", 1), ("b", 2)],
            old_scripts: &[],
            numbers: &[0, 2],
            free: 3,
            new: &[("a", 1), ("b", 1)],
            new_scripts: &[],
            given: &[0, 3],
            kept: &[0],
            gone: &[2],
            next: 4,
        },
        Row {
            old: &[("a", 1), ("b", 1)],
            old_scripts: &[],
            numbers: &[0, 1],
            free: 2,
            new: &[("c", 1), ("b", 1), ("a", 1)],
            new_scripts: &[],
            given: &[2, 1, 0],
            kept: &[0, 1],
            gone: &[],
            next: 3,
        },
        Row {
            old: &[("a", 1), ("b", 1)],
            old_scripts: &[],
            numbers: &[4, 2],
            free: 5,
            new: &[],
            new_scripts: &[],
            given: &[],
            kept: &[],
            gone: &[4, 2],
            next: 5,
        },
    ];
    assert!(rt; are_planned(rt.alloc(), &rows));
}

/// Scripts stand behind the automations; a script in the place of an automation of its name is another unit.
#[test]
fn a_script_is_equal_to_a_script_alone(rt: HostRuntime) {
    let rows = [
        Row {
            old: &[("a", 1)],
            old_scripts: &[("s", 1), ("t", 1)],
            numbers: &[0, 1, 2],
            free: 3,
            new: &[("a", 1), ("b", 1)],
            new_scripts: &[("t", 1), ("s", 2)],
            given: &[0, 3, 2, 4],
            kept: &[0, 2],
            gone: &[1],
            next: 5,
        },
        Row {
            old: &[("a", 1)],
            old_scripts: &[],
            numbers: &[0],
            free: 1,
            new: &[],
            new_scripts: &[("a", 1)],
            given: &[1],
            kept: &[],
            gone: &[0],
            next: 2,
        },
    ];
    assert!(rt; are_planned(rt.alloc(), &rows));
}

const HELPED: &str =
    "counter: {c: {}}\nautomation: [{alias: a, triggers: [], actions: []}]\nscript: {s: {sequence: []}}\n";

const HELPED_OTHERWISE: &str =
    "timer: {t: {duration: 5}}\ncounter: {c: {initial: 7}}\nautomation: [{alias: a, triggers: [], actions: []}]\nscript: {s: {sequence: []}}\n";

/// Whether the units of these texts are the same.
fn are_kept(alloc: Global, old: &str, new: &str) -> bool {
    let Ok(old) = read_config(alloc, old.as_bytes()) else {
        return false;
    };
    let Ok(new) = read_config(alloc, new.as_bytes()) else {
        return false;
    };
    let row = Row {
        old: &[],
        old_scripts: &[],
        numbers: &[3, 1],
        free: 4,
        new: &[],
        new_scripts: &[],
        given: &[3, 1],
        kept: &[3, 1],
        gone: &[],
        next: 4,
    };
    is_planned(alloc, &old, &new, &row).unwrap_or(false)
}

/// Other helpers change no number.
#[test]
fn helpers_are_no_units(rt: HostRuntime) {
    assert!(rt;
        are_kept(rt.alloc(), HELPED, HELPED_OTHERWISE)
            && are_kept(rt.alloc(), HELPED_OTHERWISE, HELPED)
    );
}
