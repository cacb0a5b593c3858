//! Firings in the order of the configuration, where the numbers of its automations stand in another order.
ghost use Rattle.std.specs.Prelude.{◌≡◌, ◌++◌, ◌∷◌, [], ◌≤◌, IfOk, OnOk, filter, length, nat_eq, nat_lt, take};
ghost use Rattle.ha_journal.specs.Journal.{automations};
ghost use Rattle.engine_parts.specs.Numbers.{is_ascending};
ghost use Rattle.engine_parts.specs.Owners.{as_configured, ordered};
ghost use Rattle.engine_parts.specs.Sorted.{AreSorted, first_of};

use ha_journal::Firing;
use ha_value::{Many, Plain};
use segment_view::Segment;
use std::alloc::{AllocError, Global};

/// Whether numbers ascend.
pub fn is_ascending(numbers: &[u32]) -> bool
    ensures { result ≡ is_ascending numbers.now }
{
    let mut least = 0;
    'numbers: for at in 0..numbers.len() {
        let number = numbers[at] as u64;
        if number < least {
            return false;
        }
        least = number + 1;
    }
    true
}

/// A copy of a firing.
fn copied(alloc: Global, firing: &Firing) -> Result<Firing, AllocError>
    ensures { IfOk result (λ made. made ≡ firing.now) }
{
    let entity = firing.entity.copy(alloc)?;
    let env = firing.env.copy(alloc)?;
    Ok(Firing {
        owner: firing.owner,
        trigger: firing.trigger,
        entity,
        env,
    })
}

/// Adds a firing, where it is this owner's.
fn add_if(
    alloc: Global,
    made: &mut Many<Firing>,
    firing: &Firing,
    owner: u64,
) -> Result<(), AllocError>
    ensures { OnOk result (made.new ≡ made.old ++ filter (λ f. nat_eq f.owner owner) (firing.now ∷ [])) }
{
    if firing.owner == owner {
        made.push(copied(alloc, firing)?)?;
    }
    Ok(())
}

/// Whether a firing is of an owner of a lesser number.
fn is_before(firing: &Firing, owner: u64) -> bool
    ensures { result ≡ nat_lt firing.now.owner owner }
{
    firing.owner < owner
}

/// How many firings stand at the front that are of lesser owners, where they stand by their owners: found by halves.
fn first_of(fired: &[Firing], owner: u64) -> usize
    ensures fits { result ≤ length fired.now }
    ensures first { AreSorted 0 fired.now → result ≡ first_of owner fired.now }
{
    let mut low = 0;
    let mut high = fired.len();
    'halves: while low < high {
        let at = low + (high - low) / 2;
        if is_before(&fired[at], owner) {
            low = at + 1;
        } else {
            high = at;
        }
    }
    low
}

/// Whether a firing is of an owner of a greater number.
fn is_behind(firing: &Firing, owner: u64) -> bool
    ensures { result ≡ nat_lt owner firing.now.owner }
{
    owner < firing.owner
}

/// Adds the firings of an owner.
fn add_own(
    alloc: Global,
    made: &mut Many<Firing>,
    fired: &[Firing],
    owner: u64,
) -> Result<(), AllocError>
    requires { AreSorted 0 fired.now }
    ensures { OnOk result (made.new ≡ made.old ++ filter (λ f. nat_eq f.owner owner) fired.now) }
{
    let first = first_of(fired, owner);
    'firings: for at in first..fired.len() {
        if is_behind(&fired[at], owner) {
            return Ok(());
        }
        add_if(alloc, made, &fired[at], owner)?;
    }
    Ok(())
}

/// The firings of these owners, in this order.
fn as_configured(
    alloc: Global,
    numbers: &[u32],
    fired: &[Firing],
) -> Result<Many<Firing>, AllocError>
    requires { AreSorted 0 fired.now }
    ensures { IfOk result (λ made. made ≡ as_configured numbers.now fired.now) }
{
    let mut made = Many::with_room(alloc, fired.len())?;
    'rules: for at in 0..numbers.len() {
        add_own(alloc, &mut made, fired, numbers[at] as u64)?;
    }
    Ok(made)
}

/// The numbers of the automations in force, of those of all units.
fn rules_of<'a>(numbers: &'a Many<u32>, journal: &Segment<'_>) -> &'a [u32]
    requires { length (automations journal.now) ≤ length numbers.now }
    ensures { result.now ≡ take (length (automations journal.now)) numbers.now }
{
    let count = journal.configuration().automations.len();
    &numbers.as_slice()[..count]
}

/// Firings, which stand by the numbers of their owners, in the order of these as configured. Where the numbers of the automations ascend they
/// stand so already.
pub fn ordered(
    alloc: Global,
    ascending: bool,
    numbers: &Many<u32>,
    journal: &Segment<'_>,
    fired: Many<Firing>,
) -> Result<Many<Firing>, AllocError>
    requires numbered { length (automations journal.now) ≤ length numbers.now }
    requires sorted { AreSorted 0 fired }
    ensures { IfOk result (λ made. made ≡ ordered ascending (take (length (automations journal.now)) numbers.now) fired) }
{
    if ascending {
        return Ok(fired);
    }
    if fired.is_empty() {
        return Ok(fired);
    }
    as_configured(alloc, rules_of(numbers, journal), fired.as_slice())
}
