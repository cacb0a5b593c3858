//! What a book has more where a configuration comes into force.
ghost use Rattle.std.specs.Prelude.{◌≡◌, ◌<◌, ◌^◌, ◌∷◌, [], ◌++◌, List, Some, IfOk, OnOk, get_or, is_some, length, nat_lt, slice_get, take, if◌then◌else◌};
ghost use Rattle.std.specs.Option.{option_copied, option_map_or};
ghost use Rattle.ha_config.specs.declared.config.Config.{Config as Settings};
ghost use Rattle.ha_config.specs.declared.config.Automation.{Automation as Rule};
ghost use Rattle.ha_config.specs.Names.{automation_named, names_of};
ghost use Rattle.unit_book.specs.Book.{AreAt, brought, config_at as config_lem, first_from, firsts_of, listed_in, unit_at};

use crate::places::config_at;
use ha_config::{Config, is_automation, run_name, same_text};
use ha_journal::Entry;
use ha_value::{Many, Plain, Word};
use std::alloc::{AllocError, Global};

/// The same origins once more.
pub(crate) fn copied_origins(
    alloc: Global,
    origins: &[(usize, u32)],
) -> Result<Vec<(usize, u32)>, AllocError>
    ensures { IfOk result (λ made. made.items ≡ origins.now) }
{
    let mut made = Vec::with_capacity(alloc, origins.len())?;
    'origins: for at in 0..origins.len() {
        made.push(origin_at(origins, at))?;
    }
    Ok(made)
}

/// What stands at a place.
fn number_at(numbers: &[u32], at: usize) -> u32
    requires { at < length numbers.now }
    ensures { result ≡ get_or numbers.now at 0 }
{
    numbers[at]
}

/// Whether a number is below the first that nobody had.
fn is_below(number: u32, free: usize) -> bool
    ensures { result ≡ nat_lt number free }
{
    (number as usize) < free
}

/// Puts the origin of the unit at a place behind, where nobody had its number.
fn add_origin(
    origins: &mut Vec<(usize, u32)>,
    latest: usize,
    at: u32,
    number: u32,
    free: usize,
) -> Result<(), AllocError>
    ensures { OnOk result (origins.new.items ≡ origins.old.items ++ (if nat_lt number free then [] else (latest, at) ∷ [])) }
{
    if is_below(number, free) {
        return Ok(());
    }
    origins.push((latest, at))?;
    Ok(())
}

/// Puts the origins of the units of the entry at a place behind, whose numbers are these; `free` and all from it on nobody had.
pub(crate) fn add_origins(
    origins: &mut Vec<(usize, u32)>,
    latest: usize,
    free: usize,
    numbers: &[u32],
) -> Result<(), AllocError>
    requires { length numbers.now < 2 ^ 32 }
    ensures { OnOk result (origins.new.items ≡ origins.old.items ++ brought latest free 0 numbers.now) }
{
    'numbers: for at in 0..numbers.len() {
        add_origin(origins, latest, at as u32, number_at(numbers, at), free)?;
    }
    Ok(())
}

/// The origin at a place.
fn origin_at(origins: &[(usize, u32)], at: usize) -> (usize, u32)
    requires { at < length origins.now }
    ensures { result ≡ get_or origins.now at (0, 0) }
{
    origins[at]
}

/// The name of the runs of the unit at an origin.
fn name_at(alloc: Global, journal: &[Entry], origin: (usize, u32)) -> Result<Word, AllocError>
    requires { (u : Rule) × (unit_at journal.now origin ≡ Some u) }
    ensures { IfOk result (λ name. name ≡ option_map_or (λ u. u.name) (unit_at journal.now origin) []) }
{
    match config_at(journal, origin.0) {
        Some(config) => run_name(alloc, config, origin.1),
        None => unreachable!(),
    }
}

/// The names of all.
pub(crate) fn names_at(
    alloc: Global,
    journal: &[Entry],
    origins: &[(usize, u32)],
) -> Result<Many<Word>, AllocError>
    requires { (us : List Rule) × AreAt journal.now origins.now us }
    ensures { IfOk result (λ names. (us : List Rule) → AreAt journal.now origins.now us → names ≡ names_of us) }
{
    let mut names = Many::with_room(alloc, origins.len())?;
    'origins: for at in 0..origins.len() {
        let name = name_at(alloc, journal, origin_at(origins, at))?;
        names.push(name)?;
    }
    Ok(names)
}

/// The place of the first of these with this name, or how many there are.
fn first_named(names: &[Word], name: &Word) -> u32
    requires { length names.now < 2 ^ 32 }
    ensures { result ≡ first_from 0 name.now names.now }
{
    'names: for at in 0..names.len() {
        if same_text(&names[at], name) {
            return at as u32;
        }
    }
    names.len() as u32
}

/// What is known at a place, if there is something.
fn known_at(known: &[u32], at: usize) -> Option<u32>
    ensures { result ≡ slice_get known.now at }
{
    match known.get(at) {
        Some(first) => Some(*first),
        None => None,
    }
}

/// The place of the first that has the name at a place, where so many are known.
fn first_at(known: &[u32], names: &[Word], name: &Word, at: usize) -> u32
    requires few { length names.now < 2 ^ 32 }
    requires known { known.now ≡ take (length known.now) (firsts_of names.now) }
    requires name { slice_get names.now at ≡ Some name.now }
    ensures { result ≡ first_from 0 name.now names.now }
{
    match known_at(known, at) {
        Some(first) => first,
        None => first_named(names, name),
    }
}

/// For each name the place of the first that is the same, where so many are known.
pub(crate) fn firsts_of(
    alloc: Global,
    known: &[u32],
    names: &[Word],
) -> Result<Vec<u32>, AllocError>
    requires few { length names.now < 2 ^ 32 }
    requires known { known.now ≡ take (length known.now) (firsts_of names.now) }
    ensures { IfOk result (λ firsts. firsts.items ≡ firsts_of names.now) }
{
    let mut firsts = Vec::with_capacity(alloc, names.len())?;
    'names: for at in 0..names.len() {
        let name = &names[at];
        let first = first_at(known, names, name, at);
        firsts.push(first)?;
    }
    Ok(firsts)
}

/// For each name whether an automation of the configuration at a place has it.
pub(crate) fn listed_at(
    alloc: Global,
    journal: &[Entry],
    latest: usize,
    names: &[Word],
) -> Result<Vec<bool>, AllocError>
    ensures { IfOk result (λ listed. (c : Settings) → config_lem journal.now latest ≡ Some c → listed.items ≡ listed_in c names.now) }
{
    let mut listed = Vec::with_capacity(alloc, names.len())?;
    'names: for at in 0..names.len() {
        let name = &names[at];
        let is_listed = is_rule(config_at(journal, latest), name);
        listed.push(is_listed)?;
    }
    Ok(listed)
}

/// Whether an automation of a configuration has this name.
fn is_rule(config: Option<&Config>, name: &Word) -> bool
    ensures { (c : Settings) → option_copied config.entry ≡ Some c → result ≡ is_some (automation_named c.automations name.now) }
{
    match config {
        Some(config) => is_automation(config.automations.as_slice(), name),
        None => false,
    }
}
