//! The names of automations.

ghost use Rattle.std.specs.Prelude.{◌≡◌, ◌+◌, ◌<◌, ◌^◌, ◌++◌, ◌∷◌, [], ℕ, List, true, IfOk, IfSome, IsTrue, codes, decimal, length, vec_len};
ghost use Rattle.ha_config.specs.declared.config.Automation.{Automation as One};
ghost use Rattle.yaml_scan.specs.Answers.{Gives};
ghost use Rattle.conf_field.specs.Readings.{Read};
ghost use Rattle.conf_auto.specs.Names as names;

use conf_field::both;
use ha_config::Automation;
use ha_value::{Many, Word};
use std::alloc::{AllocError, Global};
use yaml_scan::YamlFault;

/// Whether one of the automations has the name.
fn is_taken(all: &[Automation], name: &[u8]) -> bool
    ensures { result ≡ names.is_taken all.now name.now }
{
    all.iter().any(|automation| automation.name.bytes() == name)
}

/// Whether the automation at this place, if there is one, has the name.
fn is_held(all: &[Automation], at: usize, name: &[u8]) -> bool
    ensures { IsTrue result → names.is_taken all.now name.now ≡ true }
{
    match all.get(at) {
        Some(automation) => automation.name.bytes() == name,
        None => false,
    }
}

/// Whether one of them has it; the one at this place is asked first.
fn is_taken_by(all: &[Automation], at: usize, name: &[u8]) -> bool
    ensures { result ≡ names.is_taken all.now name.now }
{
    if is_held(all, at, name) {
        return true;
    }
    is_taken(all, name)
}

/// Where the number stands, among so many from 2 on, with which the other name goes on behind this one and `_`.
fn place_of(name: &Word, other: &Word, count: usize) -> Option<usize>
    ensures { IfSome result (λ at. at < count) }
{
    let rest = other.as_str().strip_prefix(name.as_str())?;
    let number = rest.strip_prefix('_')?.parse::<usize>().ok()?;
    if 2 <= number && number - 2 < count {
        Some(number - 2)
    } else {
        None
    }
}

/// For each number from 2 on the place at which an automation by the name with that number may stand. It is a hint: whoever
/// uses it compares the name there. Without it each of n names would be looked for among n, and so for each of n automations.
fn holders(alloc: Global, all: &[Automation], name: &Word) -> Result<Vec<usize>, AllocError>
    requires { length all.now + 1 < 2 ^ 64 }
    ensures { IfOk result (λ held. vec_len held ≡ length all.now + 1) }
{
    let count = all.len() + 1;
    let mut held = vec![in alloc; 0; count]?;
    'automations: for i in 0..all.len() {
        if let Some(at) = place_of(name, &all[i].name, count) {
            held[at] = i;
        }
    }
    Ok(held)
}

/// The name with a number behind it.
fn numbered(alloc: Global, name: &Word, n: u64) -> Result<Word, AllocError>
    ensures { IfOk result (λ w. w ≡ names.numbered name.now n) }
{
    let text = name.as_str();
    let word = Word::from_string(alloc, format!(in alloc; "{text}_{n}")?)?;
    Ok(word)
}

/// The first of the names with a number from 2 on that is free.
fn with_number(alloc: Global, all: &[Automation], name: &Word) -> Result<Word, AllocError>
    ensures { IfOk result (λ w. w ≡ names.with_number all.now name.now) }
{
    let held = holders(alloc, all, name)?;
    'numbers: for k in 0..all.len() as u64 + 1 {
        let candidate = numbered(alloc, name, k + 2)?;
        if !is_taken_by(all, held[k as usize], candidate.bytes()) {
            return Ok(candidate);
        }
    }
    numbered(alloc, name, 2)
}

/// The automation by a name that none of the others has.
fn renamed(alloc: Global, all: &[Automation], one: Automation) -> Result<Automation, AllocError>
    ensures { IfOk result (λ a. a ≡ names.renamed (names.free_name all.now one.name) one) }
{
    if !is_taken(all, one.name.bytes()) {
        return Ok(one);
    }
    match with_number(alloc, all, &one.name) {
        Ok(name) => Ok(with_name(name, one)),
        Err(fault) => Err(fault),
    }
}

fn with_name(name: Word, one: Automation) -> Automation
    ensures { result ≡ names.renamed name one }
{
    let Automation {
        name: _,
        triggers,
        tests,
        actions,
        mode,
        max,
        initial,
    } = one;
    Automation {
        name,
        triggers,
        tests,
        actions,
        mode,
        max,
        initial,
    }
}

fn add(alloc: Global, all: Many<Automation>, one: Automation) -> Result<Many<Automation>, YamlFault>
    ensures { Gives (Ok (names.add all one)) result }
{
    match renamed(alloc, all.as_slice(), one) {
        Ok(one) => {
            let mut all = all;
            all.push(one)?;
            Ok(all)
        }
        Err(_) => Err(YamlFault::Memory),
    }
}

/// One automation more, by a free name.
pub(crate) fn joined(
    alloc: Global,
    before: Result<Many<Automation>, YamlFault>,
    item: Result<Automation, YamlFault>,
) -> Result<Many<Automation>, YamlFault>
    ensures { (a : Read (List One)) → (b : Read One) → Gives a before → Gives b item → Gives (names.joined a b) result }
{
    match both(before, item) {
        Ok((all, one)) => add(alloc, all, one),
        Err(fault) => Err(fault),
    }
}
