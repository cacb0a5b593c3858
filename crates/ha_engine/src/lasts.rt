//! When each automation last triggered.
ghost use Rattle.std.specs.Prelude.{◌≡◌, ◌&&◌, ◌++◌, ◌∷◌, [], IfOk, OnOk, Some, cond, drop, false, is_some, map, not, None, slice_get, slice_index_or, unwrap_or};
ghost use Rattle.ha_config.specs.Names.{automation_named, of_automations};
ghost use Rattle.ha_engine.specs.Noted.{known_lasts, moved_by, moved_if, noted, noted_if, same_moment};
ghost use Rattle.ha_whole.specs.Named.{named};
ghost use Rattle.named_runs.specs.Named.{first_in};

use crate::restart::either;
use ha_clock::Moment;
use ha_config::{Automation, is_automation, same_text};
use ha_value::{Many, Plain, Word};
use named_runs::NamedRuns;
use std::alloc::{AllocError, Global};

/// Whether it is another moment.
fn differs(last: Option<Moment>, at: Moment) -> bool
    ensures { result ≡ not (same_moment last (Some at)) }
{
    match last {
        Some(last) => last != at,
        None => true,
    }
}

/// A run of a unit was admitted at this moment, which has that first unit of its name. The answer is whether an automation in force of the
/// name last triggered at another one.
fn note_last(
    lasts: &mut Vec<Option<Moment>>,
    listed: &[bool],
    first: Option<u32>,
    at: Moment,
) -> bool
    ensures lasts { lasts.new.items ≡ noted_if at first lasts.old.items }
    ensures moved { result ≡ moved_if at listed.now first lasts.old.items }
{
    let Some(first) = first else {
        return false;
    };
    let place = first as usize;
    if place >= lasts.len() {
        return false;
    }
    let moved = both(is_listed(listed, place), differs(lasts[place], at));
    lasts[place] = Some(at);
    moved
}

/// Both.
pub(crate) fn both(left: bool, right: bool) -> bool
    ensures { result ≡ (left && right) }
{
    left && right
}

/// Whether a name is that of an automation in force.
fn is_listed(listed: &[bool], at: usize) -> bool
    ensures { result ≡ slice_index_or listed.now at false }
{
    match listed.get(at) {
        Some(flag) => *flag,
        None => false,
    }
}

/// The runs of the segment behind so many were admitted at this moment. The answer is whether an automation in force of the name of one
/// last triggered at another one.
pub(crate) fn note_lasts(
    lasts: &mut Vec<Option<Moment>>,
    listed: &[bool],
    runs: &NamedRuns,
    before: usize,
    at: Moment,
) -> bool
    ensures lasts { lasts.new.items ≡ noted at runs.now.firsts (drop before runs.now.list) lasts.old.items }
    ensures moved { result ≡ moved_by at runs.now.firsts listed.now (drop before runs.now.list) lasts.old.items }
{
    let mut moved = false;
    'runs: for place in before..runs.len() {
        let first = runs.first(place as u64 + 1);
        moved = either(moved, note_last(lasts, listed, first, at));
    }
    moved
}

/// Puts a moment behind others, where its name is that of an automation.
fn keep_known(
    alloc: Global,
    kept: &mut Many<(Word, Moment)>,
    automations: &[Automation],
    name: &Word,
    at: Moment,
) -> Result<(), AllocError>
    ensures { OnOk result (kept.new ≡ kept.old ++ cond (is_some (automation_named automations.now name.now)) ((name.now, at) ∷ []) []) }
{
    if is_automation(automations, name) {
        kept.push((name.copy(alloc)?, at))?;
    }
    Ok(())
}

/// Of moments under names those of names that an automation has.
pub(crate) fn known_moments(
    alloc: Global,
    automations: &[Automation],
    last: &[(Word, Moment)],
) -> Result<Many<(Word, Moment)>, AllocError>
    ensures { IfOk result (λ kept. kept ≡ of_automations automations.now last.now) }
{
    let mut kept = Many::make(alloc);
    'moments: for pair in last {
        keep_known(alloc, &mut kept, automations, &pair.0, pair.1)?;
    }
    Ok(kept)
}

/// The moment under a name, if there is one.
fn moment_of(moments: &[(Word, Moment)], name: &Word) -> Option<Moment>
    ensures { result ≡ named name.now moments.now }
{
    'moments: for pair in moments {
        if same_text(&pair.0, name) {
            return Some(pair.1);
        }
    }
    None
}

/// The moment of the name at a place: the one that is known there, else that which was taken over for it.
fn known_last(
    known: &[Option<Moment>],
    carried: &[(Word, Moment)],
    at: usize,
    name: &Word,
) -> Option<Moment>
    ensures { result ≡ unwrap_or (slice_get known.now at) (named name.now carried.now) }
{
    match known.get(at) {
        Some(last) => *last,
        None => moment_of(carried, name),
    }
}

/// For each name its moment, where one is known, else that which a segment took over for it.
pub(crate) fn lasts_by_name(
    alloc: Global,
    known: &[Option<Moment>],
    names: &[Word],
    carried: &[(Word, Moment)],
) -> Result<Vec<Option<Moment>>, AllocError>
    ensures { IfOk result (λ lasts. lasts.items ≡ known_lasts known.now names.now carried.now) }
{
    let mut lasts = Vec::with_capacity(alloc, names.len())?;
    'names: for at in 0..names.len() {
        let last = known_last(known, carried, at, &names[at]);
        lasts.push(last)?;
    }
    Ok(lasts)
}

/// The moment at a place, if there is one.
fn last_at(lasts: &[Option<Moment>], at: usize) -> Option<Moment>
    ensures { result ≡ unwrap_or (slice_get lasts.now at) None }
{
    match lasts.get(at) {
        Some(last) => *last,
        None => None,
    }
}

/// When a unit of the name of this one last triggered.
fn last_of_unit(lasts: &[Option<Moment>], firsts: &[u32], unit: u32) -> Option<Moment>
    ensures { result ≡ unwrap_or (slice_get lasts.now (first_in firsts.now unit)) None }
{
    last_at(lasts, first_of(firsts, unit))
}

/// By automation, as configured, when one of its name last triggered: the numbers are those of the automations.
pub(crate) fn lasts_of_rules(
    alloc: Global,
    lasts: &[Option<Moment>],
    firsts: &[u32],
    numbers: &[u32],
) -> Result<Vec<Option<Moment>>, AllocError>
    ensures { IfOk result (λ made. made.items ≡ map (λ n. unwrap_or (slice_get lasts.now (first_in firsts.now n)) None) numbers.now) }
{
    let mut made = Vec::with_capacity(alloc, numbers.len())?;
    'numbers: for at in 0..numbers.len() {
        let number = numbers[at];
        made.push(last_of_unit(lasts, firsts, number))?;
    }
    Ok(made)
}

/// The first unit of the name of a unit.
fn first_of(firsts: &[u32], unit: u32) -> usize
    ensures { result ≡ first_in firsts.now unit }
{
    match firsts.get(unit as usize) {
        Some(first) => *first as usize,
        None => unit as usize,
    }
}
