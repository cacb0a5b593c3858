//! The numbers that the attributes of a report give. Of several pairs of a name the first counts.
ghost use Rattle.std.specs.Prelude.{◌≡◌, ◌∷◌, ◌++◌, [], Option, Some, OnOk, if◌then◌else◌};
ghost use Rattle.std.specs.BTreeMap.{get_by_text};
ghost use Rattle.ha_value.specs.declared.value.Num.{Num as Number};
ghost use Rattle.ha_sight.specs.Conditions.{number_watched};
ghost use Rattle.ha_config.specs.Words.{Text, Pairs, same};
ghost use Rattle.ha_past.specs.Looks.{or_else};
ghost use Rattle.trig_set.specs.Table.{SoFar};

use crate::numbers::key_of;
use ha_value::{Num, Value, Word};
use std::alloc::{AllocError, Global};
use std::collections::{BTreeMap, BTreeSet};
use trig_numeric::number_of;

/// Puts a number in under its name, where there is one.
fn put_number(
    alloc: Global,
    numbers: &mut BTreeMap<String, Num>,
    name: &Word,
    number: Option<Num>,
) -> Result<(), AllocError>
    ensures { OnOk result ((q : Text) → get_by_text numbers.new q ≡ (if same name.now q then or_else number (get_by_text numbers.old q) else get_by_text numbers.old q)) }
{
    let Some(number) = number else {
        return Ok(());
    };
    let key = key_of(alloc, name)?;
    numbers.insert(key, number)?;
    Ok(())
}

/// One more attribute; `seen` has the names of those before.
fn put_attribute(
    alloc: Global,
    seen: &mut BTreeSet<String>,
    numbers: &mut BTreeMap<String, Num>,
    attribute: &(Word, Value),
) -> Result<(), AllocError>
    ensures { OnOk result ((before : Text → Option Number) (front : Pairs) → SoFar seen.old numbers.old before front → SoFar seen.new numbers.new before (front ++ attribute.now ∷ [])) }
{
    if seen.contains(attribute.0.as_str()) {
        return Ok(());
    }
    let key = key_of(alloc, &attribute.0)?;
    seen.insert(key)?;
    put_number(alloc, numbers, &attribute.0, number_of(&attribute.1))
}

/// Puts the numbers of attributes in; where they give none, the one before stays.
pub fn put_attributes(
    alloc: Global,
    numbers: &mut BTreeMap<String, Num>,
    attributes: &[(Word, Value)],
) -> Result<(), AllocError>
    ensures { OnOk result ((q : Text) → get_by_text numbers.new q ≡ or_else (number_watched (Some q) [] attributes.now) (get_by_text numbers.old q)) }
{
    let mut seen = BTreeSet::new(alloc);
    for place in 0..attributes.len() {
        put_attribute(alloc, &mut seen, numbers, &attributes[place])?;
    }
    Ok(())
}
