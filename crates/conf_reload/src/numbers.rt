//! The numbers with which a configuration comes into force behind another: a unit that is equal in every field to one of its kind keeps
//! its number, and the others get the next free ones, automations first.
ghost use Rattle.std.specs.Prelude.{◌≡◌, ◌<◌, ◌≤◌, ◌+◌, ◌^◌, ◌++◌, ℕ, Bool, [], ◌∷◌, true, nat_lt, nat_eq, length, map, filter, zip, take, drop, unwrap_or, IfOk, OnOk, if◌then◌else◌};
ghost use Rattle.std.specs.List.{list_any, list_all};
ghost use Rattle.std.specs.Option.{option_map_or};
ghost use Rattle.ha_config.specs.Equal.{same_flag};
ghost use Rattle.ha_config.specs.Equality.{same_automation, same_script};
ghost use Rattle.ha_config.specs.Numbered.{kept_number, numbered, fresh};
ghost use Rattle.conf_reload.specs.Plan.{IsPlan, IsPlanOf, numbers_of, rule_numbers, rules_in, script_numbers, scripts_in};

use crate::kinds::Kind;
use crate::outcome::Plan;
use ha_config::Config;
use ha_value::Many;
use std::alloc::{AllocError, Global};

/// The number of the one among these that is equal in every field.
fn number_kept<K: Kind>(old: &[K], numbers: &[u32], unit: &K) -> Option<u32>
    requires { length numbers.now ≡ length old.now }
    ensures { result ≡ kept_number K.equal (zip numbers.now old.now) unit.now }
{
    for i in 0..old.len() {
        let one = &old[i];
        if one.is_same(unit) {
            return Some(numbers[i]);
        }
    }
    None
}

/// Adds the number that is kept, or else the next free one. The answer is the next free number then.
fn give_one(given: &mut Many<u32>, kept: Option<u32>, next: u32) -> Result<u32, AllocError>
    requires { next + 1 < 2 ^ 32 }
    ensures given { OnOk result (given.new ≡ given.old ++ unwrap_or kept next ∷ []) }
    ensures next { IfOk result (λ n. n ≡ option_map_or (λ m. next) kept (next + 1)) }
{
    match kept {
        Some(number) => {
            given.push(number)?;
            Ok(next)
        }
        None => {
            given.push(next)?;
            Ok(next + 1)
        }
    }
}

/// The numbers of these, and the next free number behind them.
fn give_numbers<K: Kind>(
    alloc: Global,
    old: &[K],
    numbers: &[u32],
    new: &[K],
    free: u32,
) -> Result<(Many<u32>, u32), AllocError>
    requires whole { length numbers.now ≡ length old.now }
    requires room { free + length new.now < 2 ^ 32 }
    ensures numbers { IfOk result (λ made. made.0 ≡ numbers_of (numbered K.equal (zip numbers.now old.now) free new.now)) }
    ensures free { IfOk result (λ made. made.1 ≡ free + length (fresh K.equal (zip numbers.now old.now) new.now)) }
{
    let mut given = Many::with_room(alloc, new.len())?;
    let mut next = free;
    for i in 0..new.len() {
        let kept = number_kept(old, numbers, &new[i]);
        next = give_one(&mut given, kept, next)?;
    }
    Ok((given, next))
}

/// Whether the number is among these.
fn is_among(given: &[u32], number: u32) -> bool
    ensures { result ≡ list_any (λ m. nat_eq m number) given.now }
{
    given.iter().any(|one| *one == number)
}

/// Adds the number where it belongs there.
fn put_if(list: &mut Many<u32>, number: u32, belongs: bool) -> Result<(), AllocError>
    ensures { OnOk result (list.new ≡ (if belongs then list.old ++ number ∷ [] else list.old)) }
{
    if belongs {
        list.push(number)?;
    }
    Ok(())
}

/// Of the old numbers those that are among the given ones, or those that are not.
fn parted(
    alloc: Global,
    numbers: &[u32],
    given: &[u32],
    among: bool,
) -> Result<Many<u32>, AllocError>
    ensures { IfOk result (λ part. part ≡ filter (λ n. same_flag among (list_any (λ m. nat_eq m n) given.now)) numbers.now) }
{
    let mut part = Many::make(alloc);
    for i in 0..numbers.len() {
        let number = numbers[i];
        put_if(&mut part, number, is_among(given, number) == among)?;
    }
    Ok(part)
}

/// What becomes of the numbers of one kind, where these come into force behind the old ones, which have these numbers in their order;
/// `free` and all from it on were never given.
fn plan_of<K: Kind>(
    alloc: Global,
    old: &[K],
    numbers: &[u32],
    new: &[K],
    free: u32,
) -> Result<Plan, AllocError>
    requires whole { length numbers.now ≡ length old.now }
    requires below { list_all (λ n. nat_lt n free) numbers.now ≡ true }
    requires room { free + length new.now < 2 ^ 32 }
    ensures { IfOk result (λ p. IsPlanOf K.equal (zip numbers.now old.now) numbers.now free new.now p) }
{
    let made = give_numbers(alloc, old, numbers, new, free)?;
    let kept = parted(alloc, numbers, made.0.as_slice(), true)?;
    let gone = parted(alloc, numbers, made.0.as_slice(), false)?;
    Ok(Plan {
        numbers: made.0,
        kept,
        gone,
        free: made.1,
    })
}

/// So many numbers, from the first on.
fn front(numbers: &[u32], count: usize) -> &[u32]
    requires { count ≤ length numbers.now }
    ensures { result.now ≡ take count numbers.now }
{
    &numbers[..count]
}

/// The numbers behind so many.
fn behind(numbers: &[u32], count: usize) -> &[u32]
    requires { count ≤ length numbers.now }
    ensures { result.now ≡ drop count numbers.now }
{
    &numbers[count..]
}

/// What becomes of the numbers of the automations.
fn plan_rules(
    alloc: Global,
    old: &Config,
    new: &Config,
    numbers: &Many<u32>,
    free: u32,
) -> Result<Plan, AllocError>
    requires whole { length numbers.now ≡ length old.now.automations + length old.now.scripts }
    requires below { list_all (λ n. nat_lt n free) numbers.now ≡ true }
    requires room { free + length new.now.automations < 2 ^ 32 }
    ensures { IfOk result (λ p. IsPlanOf same_automation (rules_in old.now numbers.now) (rule_numbers old.now numbers.now) free new.now.automations p) }
{
    let own = front(numbers.as_slice(), old.automations.len());
    plan_of(
        alloc,
        old.automations.as_slice(),
        own,
        new.automations.as_slice(),
        free,
    )
}

/// What becomes of the numbers of the scripts.
fn plan_scripts(
    alloc: Global,
    old: &Config,
    new: &Config,
    numbers: &Many<u32>,
    free: u32,
) -> Result<Plan, AllocError>
    requires whole { length numbers.now ≡ length old.now.automations + length old.now.scripts }
    requires below { list_all (λ n. nat_lt n free) numbers.now ≡ true }
    requires room { free + length new.now.scripts < 2 ^ 32 }
    ensures { IfOk result (λ p. IsPlanOf same_script (scripts_in old.now numbers.now) (script_numbers old.now numbers.now) free new.now.scripts p) }
{
    let own = behind(numbers.as_slice(), old.automations.len());
    plan_of(
        alloc,
        old.scripts.as_slice(),
        own,
        new.scripts.as_slice(),
        free,
    )
}

/// The numbers of one list, and behind them those of another.
fn both(front: Many<u32>, behind: Many<u32>) -> Result<Many<u32>, AllocError>
    ensures { IfOk result (λ all. all ≡ front ++ behind) }
{
    let mut all = front;
    all.append(behind)?;
    Ok(all)
}

/// The plan of both kinds: the scripts' goes on with the number that the automations' leaves free.
fn joined(rules: Plan, scripts: Plan) -> Result<Plan, AllocError>
    ensures numbers { IfOk result (λ p. p.numbers ≡ rules.numbers ++ scripts.numbers) }
    ensures kept { IfOk result (λ p. p.kept ≡ rules.kept ++ scripts.kept) }
    ensures gone { IfOk result (λ p. p.gone ≡ rules.gone ++ scripts.gone) }
    ensures free { IfOk result (λ p. p.free ≡ scripts.free) }
{
    let Plan {
        numbers: rule_numbers,
        kept: kept_rules,
        gone: gone_rules,
        ..
    } = rules;
    let Plan {
        numbers: script_numbers,
        kept: kept_scripts,
        gone: gone_scripts,
        free,
    } = scripts;
    let numbers = both(rule_numbers, script_numbers)?;
    let kept = both(kept_rules, kept_scripts)?;
    let gone = both(gone_rules, gone_scripts)?;
    Ok(Plan {
        numbers,
        kept,
        gone,
        free,
    })
}

/// What becomes of the numbers where the new configuration comes into force behind the old one, whose units have these numbers in their
/// order, the automations first; `free` and all from it on were never given.
pub fn plan(
    alloc: Global,
    old: &Config,
    new: &Config,
    numbers: &Many<u32>,
    free: u32,
) -> Result<Plan, AllocError>
    requires whole { length numbers.now ≡ length old.now.automations + length old.now.scripts }
    requires below { list_all (λ n. nat_lt n free) numbers.now ≡ true }
    requires room { free + (length new.now.automations + length new.now.scripts) < 2 ^ 32 }
    ensures { IfOk result (λ p. IsPlan old.now numbers.now free new.now p) }
{
    let rules = plan_rules(alloc, old, new, numbers, free)?;
    let scripts = plan_scripts(alloc, old, new, numbers, rules.free)?;
    let made = joined(rules, scripts)?;
    Ok(made)
}
