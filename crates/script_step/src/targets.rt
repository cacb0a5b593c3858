//! The service and the targets of a call.
ghost use Rattle.std.specs.Prelude.{◌≡◌, ◌+◌, ◌<◌, List, [], Some, Ok, Err, IfSome, drop, is_some, length, nat_eq, position, if◌then◌else◌};
ghost use Rattle.ha_value.specs.declared.value.EntityId.{EntityId};
ghost use Rattle.ha_value.specs.Ids.{read_entity};
ghost use Rattle.ha_config.specs.Words.{parts_between_commas, without_blanks};
ghost use Rattle.ha_sight.specs.Calls.{Checked, all_read, entities_in, no_service, service_of, target_of, targets_of, text_for};
ghost use Rattle.script_step.specs.Fields.{Checks, Gives, Joins, Puts};

use crate::fault::FieldFault;
use crate::forms::text_of;
use ha_config::Template;
use ha_sight::{Answers, Env, TplFault};
use ha_value::{EntityFault, EntityId, Many, Word, trim_blanks};
use std::alloc::Global;

/// The rendered text of a field.
pub fn text_for<A: Answers>(
    alloc: Global,
    answers: &A,
    env: &Env,
    template: &Template,
) -> Result<Word, FieldFault>
    ensures { Checks result (text_for (A.sight answers.now) env.now template.now) }
{
    match text_of(alloc, answers, env, template) {
        Ok(text) => Ok(text),
        Err(TplFault::Fault) => Err(FieldFault::Template),
        Err(TplFault::Memory) => Err(FieldFault::Memory),
    }
}

/// A text that is the name of a service: it has the form of an entity id.
fn named(alloc: Global, text: Word) -> Result<Word, FieldFault>
    ensures { Checks result (if is_some (read_entity text) then Ok text else Err no_service) }
{
    match EntityId::read(alloc, text.bytes()) {
        Ok(_) => Ok(text),
        Err(EntityFault::Shape) => Err(FieldFault::Service),
        Err(EntityFault::Memory) => Err(FieldFault::Memory),
    }
}

/// The name of the service.
pub fn service_of<A: Answers>(
    alloc: Global,
    answers: &A,
    env: &Env,
    service: &Template,
) -> Result<Word, FieldFault>
    ensures { Checks result (service_of (A.sight answers.now) env.now service.now) }
{
    match text_for(alloc, answers, env, service) {
        Ok(text) => named(alloc, text),
        Err(fault) => Err(fault),
    }
}

/// The place of the first comma.
fn comma(text: &[u8]) -> Option<usize>
    ensures value { result ≡ position (nat_eq 44) text.now }
    ensures within { IfSome result (λ i. i < length text.now) }
{
    text.iter().position(|byte| b',' == *byte)
}

/// What follows a place of a text.
fn behind(text: &[u8], i: usize) -> &[u8]
    requires { i < length text.now }
    ensures { result.now ≡ drop (i + 1) text.now }
{
    &text[i + 1..]
}

/// Appends the entity id that a part of a text is.
fn add_part(alloc: Global, all: &mut Many<EntityId>, part: &[u8]) -> Result<(), TplFault>
    ensures { Puts all.old all.new (read_entity (without_blanks part.now)) result }
{
    match EntityId::read(alloc, trim_blanks(part)) {
        Ok(id) => match all.push(id) {
            Ok(()) => Ok(()),
            Err(_) => Err(TplFault::Memory),
        },
        Err(EntityFault::Shape) => Err(TplFault::Fault),
        Err(EntityFault::Memory) => Err(TplFault::Memory),
    }
}

/// How many parts a text has between its commas.
fn parts(text: &[u8]) -> usize {
    let commas = text.iter().filter(|byte| b',' == **byte).count();
    commas.saturating_add(1)
}

/// The empty list, with room for the parts of a text: what is made of it then stands in no more memory than it needs.
fn room_for(alloc: Global, text: &[u8]) -> Result<Many<EntityId>, TplFault>
    ensures { Gives result (Some []) }
{
    match Many::with_room(alloc, parts(text)) {
        Ok(all) => Ok(all),
        Err(_) => Err(TplFault::Memory),
    }
}

/// The entity ids between the commas of a text.
fn all_read(alloc: Global, text: &[u8]) -> Result<Many<EntityId>, TplFault>
    ensures { Gives result (all_read (parts_between_commas text.now)) }
{
    let mut all = match room_for(alloc, text) {
        Ok(all) => all,
        Err(_) => return Err(TplFault::Memory),
    };
    let mut rest = text;
    while let Some(i) = comma(rest) {
        match add_part(alloc, &mut all, &rest[..i]) {
            Ok(()) => {}
            Err(fault) => return Err(fault),
        }
        rest = behind(rest, i);
    }
    match add_part(alloc, &mut all, rest) {
        Ok(()) => Ok(all),
        Err(fault) => Err(fault),
    }
}

/// The entities that a rendered target names.
fn entities_in(alloc: Global, text: &[u8]) -> Result<Many<EntityId>, TplFault>
    ensures { Gives result (entities_in text.now) }
{
    if text.is_empty() {
        Ok(Many::make(alloc))
    } else {
        all_read(alloc, text)
    }
}

/// The entities of a target.
fn target_of<A: Answers>(
    alloc: Global,
    answers: &A,
    env: &Env,
    target: &Template,
) -> Result<Many<EntityId>, FieldFault>
    ensures { Checks result (target_of (A.sight answers.now) env.now target.now) }
{
    match text_for(alloc, answers, env, target) {
        Ok(text) => match entities_in(alloc, text.bytes()) {
            Ok(found) => Ok(found),
            Err(TplFault::Fault) => Err(FieldFault::Target),
            Err(TplFault::Memory) => Err(FieldFault::Memory),
        },
        Err(fault) => Err(fault),
    }
}

/// Appends the entities of a target to a list.
fn add_all(
    all: &mut Many<EntityId>,
    found: Result<Many<EntityId>, FieldFault>,
) -> Result<(), FieldFault>
    ensures { (c : Checked (List EntityId)) → Checks found c → Joins all.old all.new c result }
{
    match found {
        Ok(found) => {
            if all.is_empty() {
                *all = found;
                return Ok(());
            }
            match all.append(found) {
                Ok(()) => Ok(()),
                Err(_) => Err(FieldFault::Memory),
            }
        }
        Err(fault) => Err(fault),
    }
}

/// The entities of all targets, in order.
pub fn targets_of<A: Answers>(
    alloc: Global,
    answers: &A,
    env: &Env,
    targets: &[Template],
) -> Result<Many<EntityId>, FieldFault>
    ensures { Checks result (targets_of (A.sight answers.now) env.now targets.now) }
{
    let mut all = Many::make(alloc);
    for i in 0..targets.len() {
        match add_all(&mut all, target_of(alloc, answers, env, &targets[i])) {
            Ok(()) => {}
            Err(fault) => return Err(fault),
        }
    }
    Ok(all)
}
