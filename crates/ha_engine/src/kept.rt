//! What the store kept before a reload, and whether it keeps the same now.
ghost use Rattle.std.specs.Prelude.{◌≡◌, ◌<◌, ◌&&◌, None, true, false, is_some, length, nat_eq, option_and_then, slice_get, unwrap_or, if◌then◌else◌};
ghost use Rattle.std.specs.Option.{option_copied, option_map_or};
ghost use Rattle.ha_config.specs.Equal.{same_flag};
ghost use Rattle.ha_config.specs.Names.{name_in, names_of};
ghost use Rattle.ha_config.specs.Words.{same};
ghost use Rattle.ha_sight.specs.Sight.{switch_at};
ghost use Rattle.ha_whole.specs.Whole.{same_pairs_by};
ghost use Rattle.named_runs.specs.Named.{first_in};
ghost use Rattle.segment_carry.specs.ByName.{listed};
ghost use Rattle.ha_engine.specs.Places.{ArePlaces};

use crate::lasts::both;
use ha_clock::Moment;
use ha_config::{Automation, same_text};
use ha_value::{Many, Word};
use switch_book::Switches;

/// The switches, and when automations last triggered, in the byte order of their names.
#[derive(Drop)]
pub struct Kept {
    pub(crate) switches: Many<(Word, bool)>,
    pub(crate) moments: Many<(Word, Moment)>,
}

/// Whether two flags are the same.
fn is_same(one: bool, other: bool) -> bool
    ensures { result ≡ same_flag one other }
{
    if one { other } else { !other }
}

/// Whether two counts are the same.
fn is_count(one: usize, other: usize) -> bool
    ensures { result ≡ nat_eq one other }
{
    one == other
}

/// Whether two moments are the same.
fn is_at(one: Moment, other: Moment) -> bool
    ensures { result ≡ nat_eq one other }
{
    one == other
}

/// Whether a pair has this name and this flag.
fn is_flag(pair: Option<&(Word, bool)>, name: &Word, on: bool) -> bool
    ensures { result ≡ option_map_or (λ p. same p.0 name.now && same_flag p.1 on) (option_copied pair.entry) false }
{
    match pair {
        Some(pair) => both(same_text(&pair.0, name), is_same(pair.1, on)),
        None => false,
    }
}

/// Whether a pair has this name and this moment.
fn is_moment(pair: Option<&(Word, Moment)>, name: &Word, at: Moment) -> bool
    ensures { result ≡ option_map_or (λ p. same p.0 name.now && nat_eq p.1 at) (option_copied pair.entry) false }
{
    match pair {
        Some(pair) => both(same_text(&pair.0, name), is_at(pair.1, at)),
        None => false,
    }
}

/// Whether a pair has this name and this flag, where there is a flag.
fn agrees_flag(pair: Option<&(Word, bool)>, name: &Word, on: Option<bool>) -> bool
    ensures { result ≡ option_map_or (λ v. option_map_or (λ p. same p.0 name.now && same_flag p.1 v) (option_copied pair.entry) false) on true }
{
    match on {
        Some(on) => is_flag(pair, name, on),
        None => true,
    }
}

/// Whether a pair has this name and this moment, where there is a moment.
fn agrees_moment(pair: Option<&(Word, Moment)>, name: &Word, last: &Option<Moment>) -> bool
    ensures { result ≡ option_map_or (λ v. option_map_or (λ p. same p.0 name.now && nat_eq p.1 v) (option_copied pair.entry) false) last.now true }
{
    match last {
        Some(last) => is_moment(pair, name, *last),
        None => true,
    }
}

/// The pair at a place, if there is one.
fn flag_kept(kept: &[(Word, bool)], at: usize) -> Option<&(Word, bool)>
    ensures { option_copied result ≡ slice_get kept.now at }
{
    kept.get(at)
}

/// The pair at a place, if there is one.
fn moment_kept(kept: &[(Word, Moment)], at: usize) -> Option<&(Word, Moment)>
    ensures { option_copied result ≡ slice_get kept.now at }
{
    kept.get(at)
}

/// How many flags there are: one or none.
fn count_flag(on: Option<bool>) -> usize
    ensures { result ≡ (if is_some on then 1 else 0) }
{
    match on {
        Some(_) => 1,
        None => 0,
    }
}

/// How many moments there are: one or none.
fn count_moment(last: &Option<Moment>) -> usize
    ensures { result ≡ (if is_some last.now then 1 else 0) }
{
    match last {
        Some(_) => 1,
        None => 0,
    }
}

/// The name of the automation at a place.
fn name_at(rules: &[Automation], at: u32) -> &Word
    requires { at < length rules.now }
    ensures { result.now ≡ name_in (names_of rules.now) at }
{
    &rules[at as usize].name
}

/// The switch of the automation at a place, which has the number there.
fn flag_at(switches: &Switches, numbers: &[u32], at: u32) -> Option<bool>
    ensures { result ≡ option_and_then (switch_at switches.now) (slice_get numbers.now at) }
{
    match numbers.get(at as usize) {
        Some(number) => switches.is_on(*number),
        None => None,
    }
}

/// The moment at a place, if there is one.
fn moment_at(lasts: &[Option<Moment>], at: u32) -> Option<Moment>
    ensures { result ≡ unwrap_or (slice_get lasts.now at) None }
{
    match lasts.get(at as usize) {
        Some(last) => *last,
        None => None,
    }
}

/// Whether the switches of the automations, by their names in this order, are these.
pub(crate) fn are_same_switches(
    kept: &[(Word, bool)],
    rules: &[Automation],
    order: &[u32],
    numbers: &[u32],
    switches: &Switches,
) -> bool
    requires { ArePlaces (length rules.now) order.now }
    ensures { result ≡ same_pairs_by same_flag kept.now (listed (names_of rules.now) (λ a. option_and_then (switch_at switches.now) (slice_get numbers.now a)) order.now) }
{
    let mut passed = 0;
    'places: for place in order {
        let on = flag_at(switches, numbers, *place);
        if !agrees_flag(flag_kept(kept, passed), name_at(rules, *place), on) {
            return false;
        }
        passed += count_flag(on);
    }
    is_count(passed, kept.len())
}

/// Whether the moments of the automations, by their names in this order, are these.
pub(crate) fn are_same_moments(
    kept: &[(Word, Moment)],
    rules: &[Automation],
    order: &[u32],
    lasts: &[Option<Moment>],
    firsts: &[u32],
    numbers: &[u32],
) -> bool
    requires { ArePlaces (length rules.now) order.now }
    ensures { result ≡ same_pairs_by nat_eq kept.now (listed (names_of rules.now) (λ a. option_and_then (λ n. unwrap_or (slice_get lasts.now (first_in firsts.now n)) None) (slice_get numbers.now a)) order.now) }
{
    let mut passed = 0;
    'places: for place in order {
        let last = last_of(lasts, firsts, numbers, *place);
        if !agrees_moment(moment_kept(kept, passed), name_at(rules, *place), &last) {
            return false;
        }
        passed += count_moment(&last);
    }
    is_count(passed, kept.len())
}

/// When one of the name of the automation at a place last triggered.
fn last_of(lasts: &[Option<Moment>], firsts: &[u32], numbers: &[u32], at: u32) -> Option<Moment>
    ensures { result ≡ option_and_then (λ n. unwrap_or (slice_get lasts.now (first_in firsts.now n)) None) (slice_get numbers.now at) }
{
    match numbers.get(at as usize) {
        Some(number) => moment_at(lasts, first_unit(firsts, *number)),
        None => None,
    }
}

/// The first unit of the name of a unit.
fn first_unit(firsts: &[u32], unit: u32) -> u32
    ensures { result ≡ first_in firsts.now unit }
{
    match firsts.get(unit as usize) {
        Some(first) => *first,
        None => unit,
    }
}
