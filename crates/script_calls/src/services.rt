//! Which calls the core does itself, in place of writing them: those of scripts that are configured.
ghost use Rattle.std.specs.Prelude.{◌≡◌, ◌+◌, ◌≤◌, ◌∷◌, [], true, false, drop, IfOk, length, unwrap_or};
ghost use Rattle.ha_config.specs.Words.{same};
ghost use Rattle.ha_sight.specs.declared.item.Item.{Item as Made};
ghost use Rattle.ha_sight.specs.Inner.{number_named, own_item, script_at, script_called, script_item, scripts_named, variables_in};
ghost use Rattle.ha_sight.specs.Values.{pairs_of_map};
ghost use Rattle.script_calls.specs.Numbered.{scripts_seen, scripts_with};

use ha_config::{Config, Script, last_pair};
use ha_sight::{Item, add_once};
use ha_value::{EntityId, Many, Value, Word, copy_pairs};
use std::alloc::{AllocError, Global};

/// Whether it is the script of this name.
fn has_name(script: &Script, name: &[u8]) -> bool
    ensures { result ≡ same script.now.name name.now }
{
    script.name.bytes() == name
}

/// The number of the script of this name; each has its number.
fn number_of(scripts: &[Script], numbers: &[u32], name: &[u8]) -> Option<u32>
    requires { length scripts.now ≤ length numbers.now }
    ensures { result ≡ number_named (scripts_with numbers.now scripts.now) name.now }
{
    for i in 0..scripts.len() {
        if has_name(&scripts[i], name) {
            return Some(numbers[i]);
        }
    }
    None
}

/// The number of the script that an id names, if it names one.
fn script_at(scripts: &[Script], numbers: &[u32], id: &EntityId) -> Option<u32>
    requires { length scripts.now ≤ length numbers.now }
    ensures { result ≡ script_at (scripts_with numbers.now scripts.now) id.now }
{
    if id.has_domain("script") {
        number_of(scripts, numbers, id.object().as_bytes())
    } else {
        None
    }
}

/// The number of the script that a service is.
fn script_called(scripts: &[Script], numbers: &[u32], service: &Word) -> Option<u32>
    requires { length scripts.now ≤ length numbers.now }
    ensures { result ≡ script_called (scripts_with numbers.now scripts.now) service.now }
{
    if service.bytes().starts_with(b"script.") {
        number_of(scripts, numbers, &service.bytes()[7..])
    } else {
        None
    }
}

/// The scripts that the targets name, each once.
fn scripts_named(
    alloc: Global,
    scripts: &[Script],
    numbers: &[u32],
    targets: &[EntityId],
) -> Result<Many<u32>, AllocError>
    requires { length scripts.now ≤ length numbers.now }
    ensures { IfOk result (λ found. found ≡ scripts_named (scripts_with numbers.now scripts.now) targets.now) }
{
    let mut found = Many::make(alloc);
    for i in 0..targets.len() {
        add_once(&mut found, script_at(scripts, numbers, &targets[i]))?;
    }
    Ok(found)
}

/// The pairs of a map; what is none has none.
fn pairs_of(alloc: Global, value: &Value) -> Result<Many<(Word, Value)>, AllocError>
    ensures { IfOk result (λ pairs. pairs ≡ unwrap_or (pairs_of_map value.now) []) }
{
    match value {
        Value::Pairs(pairs) => Ok(copy_pairs(alloc, pairs.as_slice())?),
        _ => Ok(Many::make(alloc)),
    }
}

/// The variables that a call's data hands over.
fn variables_in(alloc: Global, fields: &[(Word, Value)]) -> Result<Many<(Word, Value)>, AllocError>
    ensures { IfOk result (λ pairs. pairs ≡ variables_in fields.now) }
{
    match last_pair(&Word::short(alloc, "variables"), fields) {
        Some(value) => Ok(pairs_of(alloc, value)?),
        None => Ok(Many::make(alloc)),
    }
}

/// The script's run, for whose end the caller waits.
fn started_one(alloc: Global, number: u32, fields: &[(Word, Value)]) -> Result<Item, AllocError>
    ensures { IfOk result (λ item. item ≡ Made.Started (number ∷ []) fields.now true) }
{
    let mut scripts = Many::make(alloc);
    scripts.push(number)?;
    Ok(Item::Started {
        scripts,
        fields: copy_pairs(alloc, fields)?,
        waits: true,
    })
}

/// The scripts of the targets are started, and nobody waits.
fn started_all(
    alloc: Global,
    scripts: &[Script],
    numbers: &[u32],
    target: &[EntityId],
    fields: &[(Word, Value)],
) -> Result<Item, AllocError>
    requires { length scripts.now ≤ length numbers.now }
    ensures { IfOk result (λ item. item ≡ Made.Started (scripts_named (scripts_with numbers.now scripts.now) target.now) (variables_in fields.now) false) }
{
    let found = scripts_named(alloc, scripts, numbers, target)?;
    let variables = variables_in(alloc, fields)?;
    Ok(Item::Started {
        scripts: found,
        fields: variables,
        waits: false,
    })
}

/// The runs of the targets' scripts end.
fn halted(
    alloc: Global,
    scripts: &[Script],
    numbers: &[u32],
    target: &[EntityId],
) -> Result<Item, AllocError>
    requires { length scripts.now ≤ length numbers.now }
    ensures { IfOk result (λ item. item ≡ Made.Halted (scripts_named (scripts_with numbers.now scripts.now) target.now)) }
{
    let found = scripts_named(alloc, scripts, numbers, target)?;
    Ok(Item::Halted(found))
}

/// The item in place of a call, where there is a script.
fn script_item(
    alloc: Global,
    scripts: &[Script],
    numbers: &[u32],
    service: &Word,
    target: &[EntityId],
    fields: &[(Word, Value)],
) -> Result<Option<Item>, AllocError>
    requires { length scripts.now ≤ length numbers.now }
    ensures { IfOk result (λ item. item ≡ script_item (scripts_with numbers.now scripts.now) service.now target.now fields.now) }
{
    if service.bytes() == b"script.turn_on".as_slice() {
        let item = started_all(alloc, scripts, numbers, target, fields)?;
        return Ok(Some(item));
    }
    if service.bytes() == b"script.turn_off".as_slice() {
        let item = halted(alloc, scripts, numbers, target)?;
        return Ok(Some(item));
    }
    if service.bytes() == b"script.toggle".as_slice() {
        return Ok(None);
    }
    match script_called(scripts, numbers, service) {
        Some(number) => {
            let item = started_one(alloc, number, fields)?;
            Ok(Some(item))
        }
        None => Ok(None),
    }
}

/// The numbers of the scripts: those behind the automations'.
fn numbers_of<'a>(config: &Config, numbers: &'a Many<u32>) -> &'a [u32]
    requires { length config.now.automations ≤ length numbers.now }
    ensures { result.now ≡ drop (length config.now.automations) numbers.now }
{
    &numbers.as_slice()[config.automations.len()..]
}

/// The item in place of a call, where there may be no script.
fn own_item(
    alloc: Global,
    scripts: &[Script],
    numbers: &[u32],
    service: &Word,
    target: &[EntityId],
    fields: &[(Word, Value)],
) -> Result<Option<Item>, AllocError>
    requires { length scripts.now ≤ length numbers.now }
    ensures { IfOk result (λ item. item ≡ own_item (scripts_with numbers.now scripts.now) service.now target.now fields.now) }
{
    if scripts.is_empty() {
        return Ok(None);
    }
    let item = script_item(alloc, scripts, numbers, service, target, fields)?;
    Ok(item)
}

/// The item in place of a call of a script that is configured; none exactly where the call is written. The numbers are those of the
/// configuration's units, automations first.
pub fn resolve(
    alloc: Global,
    config: &Config,
    numbers: &Many<u32>,
    service: &Word,
    target: &Many<EntityId>,
    fields: &Many<(Word, Value)>,
) -> Result<Option<Item>, AllocError>
    requires { length config.now.automations + length config.now.scripts ≤ length numbers.now }
    ensures { IfOk result (λ item. item ≡ own_item (scripts_seen numbers.now config.now) service.now target.now fields.now) }
{
    let scripts = config.scripts.as_slice();
    let own = numbers_of(config, numbers);
    own_item(
        alloc,
        scripts,
        own,
        service,
        target.as_slice(),
        fields.as_slice(),
    )
}
