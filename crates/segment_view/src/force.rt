//! The automations in force by their numbers.
ghost use Rattle.std.specs.Prelude.{◌≡◌, ◌<◌, ◌≤◌, Some, IsTrue, MatchOption, false, length, nat_eq, slice_get, take};
ghost use Rattle.std.specs.List.{list_any};
ghost use Rattle.ha_config.specs.Names.{unit_of};
ghost use Rattle.ha_config.specs.Numbered.{has_number};
ghost use Rattle.ha_journal.specs.Journal.{Journal, in_force, units};
ghost use Rattle.segment_view.specs.Views.{IsShown, stands};

use ha_model::{Automation, Config};

/// What stands at a place, if there is something.
fn slot_at(numbers: &[u32], at: usize) -> Option<u32>
    ensures { result ≡ slice_get numbers.now at }
{
    match numbers.get(at) {
        Some(one) => Some(*one),
        None => None,
    }
}

/// Whether two numbers are the same.
fn is_number(one: u32, number: u32) -> bool
    ensures { result ≡ nat_eq one number }
{
    one == number
}

/// Whether a number stands at a place.
fn stands_at(numbers: &[u32], at: usize, number: u32) -> bool
    ensures { result ≡ stands number (slice_get numbers.now at) }
{
    match slot_at(numbers, at) {
        Some(one) => is_number(one, number),
        None => false,
    }
}

/// The first place of a number.
fn first_place(numbers: &[u32], number: u32) -> Option<usize>
    ensures { MatchOption result (list_any (λ m. nat_eq m number) numbers.now ≡ false) (λ at. slice_get numbers.now at ≡ Some number) }
{
    'numbers: for at in 0..numbers.len() {
        if stands_at(numbers, at, number) {
            return Some(at);
        }
    }
    None
}

/// A place of a number, if it has one. Where no configuration came into force behind another, each number is its place.
pub fn place_of(numbers: &[u32], number: u32) -> Option<usize>
    ensures { MatchOption result (list_any (λ m. nat_eq m number) numbers.now ≡ false) (λ at. slice_get numbers.now at ≡ Some number) }
{
    let at = number as usize;
    if stands_at(numbers, at, number) {
        return Some(at);
    }
    first_place(numbers, number)
}

/// The first numbers.
fn first_numbers(numbers: &[u32], count: usize) -> &[u32]
    requires { count ≤ length numbers.now }
    ensures { result.now ≡ take count numbers.now }
{
    &numbers[..count]
}

/// The automation at a place.
fn rule_there(rules: &[Automation], at: usize) -> &Automation
    requires { at < length rules.now }
    ensures { slice_get rules.now at ≡ Some result.now }
{
    &rules[at]
}

/// The automation of a number, which is in force.
pub fn rule_of<'a>(config: &'a Config, numbers: &[u32], automation: u32) -> &'a Automation
    requires { (j : Journal) × IsShown j config.now numbers.now × IsTrue (has_number (in_force j) automation) }
    ensures { (j : Journal) → IsShown j config.now numbers.now → IsTrue (has_number (in_force j) automation) → unit_of (units j) automation ≡ Some result.now }
{
    let rules = config.automations.as_slice();
    let own = first_numbers(numbers, rules.len());
    match place_of(own, automation) {
        Some(at) => rule_there(rules, at),
        None => unreachable!(),
    }
}
