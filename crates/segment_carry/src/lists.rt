//! What is listed of units and automations by their names.
ghost use Rattle.std.specs.Prelude.{◌≡◌, ◌++◌, ◌∷◌, [], ◌≤◌, ℕ, IfOk, OnOk, None, Some, length, map, slice_get, unwrap_or};
ghost use Rattle.std.specs.Option.{option_map_or};
ghost use Rattle.ha_config.specs.Names.{name_in, name_of, names_of};
ghost use Rattle.ha_config.specs.Units.{units_of};
ghost use Rattle.ha_config.specs.Words.{up_to};
ghost use Rattle.ha_whole.specs.Named.{named};
ghost use Rattle.segment_carry.specs.ByName.{listed, rule_order};
ghost use Rattle.segment_carry.specs.Closing.{flag_in};

use crate::order::by_name;
use ha_clock::Moment;
use ha_config::{Automation, Config, run_name, same_text};
use ha_value::{Many, Plain, Word};
use std::alloc::{AllocError, Global};
use switch_book::Switches;

/// How many units there are.
fn unit_count(config: &Config) -> usize
    requires { length (units_of config.now) ≤ 2_048 }
    ensures { result ≡ length (units_of config.now) }
{
    config.automations.len() + config.scripts.len()
}

/// The names of the units' runs, those of the automations first.
pub fn names(alloc: Global, config: &Config) -> Result<Many<Word>, AllocError>
    requires { length (units_of config.now) ≤ 2_048 }
    ensures { IfOk result (λ names. names ≡ names_of (units_of config.now)) }
{
    let count = unit_count(config);
    let mut names = Many::with_room(alloc, count)?;
    'units: for at in 0..count {
        let name = run_name(alloc, config, at as u32)?;
        names.push(name)?;
    }
    Ok(names)
}

/// The name at a place; where there is none it is empty.
fn name(alloc: Global, names: &[Word], at: u32) -> Result<Word, AllocError>
    ensures { IfOk result (λ name. name ≡ name_in names.now at) }
{
    match names.get(at as usize) {
        Some(name) => name.copy(alloc),
        None => Ok(Word::new(alloc)),
    }
}

/// Puts the value of a number behind others, under its name, where it has one.
fn put<T: Drop>(
    alloc: Global,
    all: &mut Many<(Word, T)>,
    names: &[Word],
    at: u32,
    value: Option<T>,
) -> Result<(), AllocError>
    ensures { OnOk result (all.new ≡ all.old ++ option_map_or (λ v. (name_in names.now at, v) ∷ []) value []) }
{
    match value {
        Some(value) => {
            let name = name(alloc, names, at)?;
            all.push((name, value))?;
            Ok(())
        }
        None => Ok(()),
    }
}

/// The switches of these automations, which are named by their places, in this order of them.
pub fn switches(
    alloc: Global,
    names: &[Word],
    order: &[u32],
    switches: &Switches,
) -> Result<Many<(Word, bool)>, AllocError>
    ensures { IfOk result (λ made. made ≡ listed names.now (flag_in switches.now) order.now) }
{
    let mut made = Many::with_room(alloc, order.len())?;
    'chosen: for at in order {
        let on = switches.at(*at as usize);
        put(alloc, &mut made, names, *at, on)?;
    }
    Ok(made)
}

/// The moment at a place, if there is one.
fn moment_at(lasts: &[Option<Moment>], at: u32) -> Option<Moment>
    ensures { result ≡ unwrap_or (slice_get lasts.now at) None }
{
    match lasts.get(at as usize) {
        Some(last) => *last,
        None => None,
    }
}

/// When each of these automations last triggered, in their order.
pub fn moments(
    alloc: Global,
    names: &[Word],
    order: &[u32],
    lasts: &[Option<Moment>],
) -> Result<Many<(Word, Moment)>, AllocError>
    ensures { IfOk result (λ made. made ≡ listed names.now (λ a. unwrap_or (slice_get lasts.now a) None) order.now) }
{
    let mut made = Many::make(alloc);
    'chosen: for at in order {
        let last = moment_at(lasts, *at);
        put(alloc, &mut made, names, *at, last)?;
    }
    Ok(made)
}

/// The names of the automations.
pub fn rule_names(alloc: Global, automations: &[Automation]) -> Result<Many<Word>, AllocError>
    ensures { IfOk result (λ names. names ≡ names_of automations.now) }
{
    let mut names = Many::with_room(alloc, automations.len())?;
    'automations: for at in 0..automations.len() {
        let name = automations[at].name.copy(alloc)?;
        names.push(name)?;
    }
    Ok(names)
}

/// The automations in the byte order of their names.
pub fn rule_order(alloc: Global, automations: &[Automation]) -> Result<Many<u32>, AllocError>
    requires { length automations.now ≤ 1_024 }
    ensures { IfOk result (λ order. order ≡ rule_order automations.now) }
{
    let names = rule_names(alloc, automations)?;
    by_name(alloc, names.as_slice())
}

/// The name of an automation; a number that names none has the empty one.
fn rule_name(alloc: Global, automations: &[Automation], at: u32) -> Result<Word, AllocError>
    ensures { IfOk result (λ name. name ≡ name_of automations.now at) }
{
    match automations.get(at as usize) {
        Some(automation) => automation.name.copy(alloc),
        None => Ok(Word::new(alloc)),
    }
}

/// Puts the moment of an automation behind others, under its name, where it has one.
fn put_moment(
    alloc: Global,
    all: &mut Many<(Word, Moment)>,
    automations: &[Automation],
    at: u32,
    last: Option<Moment>,
) -> Result<(), AllocError>
    ensures { OnOk result (all.new ≡ all.old ++ option_map_or (λ v. (name_of automations.now at, v) ∷ []) last []) }
{
    match last {
        Some(last) => {
            let name = rule_name(alloc, automations, at)?;
            all.push((name, last))?;
            Ok(())
        }
        None => Ok(()),
    }
}

/// When automations last triggered, in this order of them. It copies the names of those alone that did.
pub fn rule_moments(
    alloc: Global,
    automations: &[Automation],
    order: &[u32],
    lasts: &[Option<Moment>],
) -> Result<Many<(Word, Moment)>, AllocError>
    ensures { IfOk result (λ made. made ≡ listed (names_of automations.now) (λ a. unwrap_or (slice_get lasts.now a) None) order.now) }
{
    let mut made = Many::make(alloc);
    'chosen: for at in order {
        let last = moment_at(lasts, *at);
        put_moment(alloc, &mut made, automations, *at, last)?;
    }
    Ok(made)
}

/// The moment of a name, if there is one.
fn moment_of(moments: &[(Word, Moment)], name: &Word) -> Option<Moment>
    ensures { result ≡ named name.now moments.now }
{
    for pair in moments {
        if same_text(&pair.0, name) {
            return Some(pair.1);
        }
    }
    None
}

/// When each automation last triggered, by the moments that an opening takes over under their names.
pub fn lasts(
    alloc: Global,
    automations: &[Automation],
    carried: &[(Word, Moment)],
) -> Result<Vec<Option<Moment>>, AllocError>
    ensures { IfOk result (λ lasts. lasts.items ≡ map (λ a. named (name_of automations.now a) carried.now) (up_to (length automations.now))) }
{
    let mut lasts = Vec::with_capacity(alloc, automations.len())?;
    'automations: for at in 0..automations.len() {
        lasts.push(moment_of(carried, &automations[at].name))?;
    }
    Ok(lasts)
}
