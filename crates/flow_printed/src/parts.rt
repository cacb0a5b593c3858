//! What the values of a printed map stand for: ids, states, moments and codes.

ghost use Rattle.std.specs.Prelude.{◌≡◌, ◌≤◌, IfOk};
ghost use Rattle.ha_clock.specs.Local.{last_moment};
ghost use Rattle.ha_clock.specs.Print.{moment_text};
ghost use Rattle.ha_config.specs.Words.{same};
ghost use Rattle.ha_value.specs.Ids.{read_entity};
ghost use Rattle.flow_printed.specs.Map.{automation, code_in, is_automation, printed_moment, reportable, short_state, turned, Says};

use crate::fields::{NoCommand, Unread};
use ha_clock::{Moment, print_moment, read_moment};
use ha_config::characters;
use ha_value::{EntityFault, EntityId, Word};
use reading::Stop;
use std::alloc::{AllocError, Global};

/// A state may have this many characters.
const STATE_CHARACTERS: usize = 255;

/// The entity id that the bytes are.
pub fn id_of(alloc: Global, text: &[u8]) -> Result<Option<EntityId>, AllocError>
    ensures { IfOk result (λ id. id ≡ read_entity text.now) }
{
    match EntityId::read(alloc, text) {
        Ok(id) => Ok(Some(id)),
        Err(EntityFault::Shape) => Ok(None),
        Err(EntityFault::Memory) => Err(AllocError),
    }
}

/// The entity id that a text is.
pub fn entity_of(alloc: Global, text: &Word) -> Result<Option<EntityId>, AllocError>
    ensures { IfOk result (λ id. id ≡ read_entity text.now) }
{
    id_of(alloc, text.bytes())
}

fn is_automation(id: &EntityId) -> bool
    ensures { result ≡ is_automation id.now }
{
    id.has_domain("automation")
}

/// An entity that may be reported: no automation.
pub fn reportable(id: Option<EntityId>) -> Result<EntityId, Unread>
    ensures { Says (reportable id) result }
{
    match id {
        Some(id) if !is_automation(&id) => Ok(id),
        _ => Err(Stop::Fault(NoCommand)),
    }
}

/// The name of an automation.
pub fn automation(alloc: Global, id: Option<EntityId>) -> Result<Word, Unread>
    ensures { Says (automation id) result }
{
    match id {
        Some(id) if is_automation(&id) => Ok(Word::from_str(alloc, id.object())?),
        _ => Err(Stop::Fault(NoCommand)),
    }
}

/// A state that is short enough.
pub fn short_state(text: Word) -> Result<Word, Unread>
    ensures { Says (short_state text) result }
{
    if characters(text.bytes()) <= STATE_CHARACTERS {
        Ok(text)
    } else {
        Err(Stop::Fault(NoCommand))
    }
}

/// Whether a text turns on.
pub fn turned(text: &Word) -> Result<bool, Unread>
    ensures { Says (turned text.now) result }
{
    match text.bytes() {
        b"on" => Ok(true),
        b"off" => Ok(false),
        _ => Err(Stop::Fault(NoCommand)),
    }
}

/// Whether the text is the print of the moment.
fn shows(alloc: Global, at: Moment, text: &[u8]) -> Result<bool, AllocError>
    requires { at ≤ last_moment }
    ensures { IfOk result (λ shown. shown ≡ same (moment_text at) text.now) }
{
    match print_moment(alloc, at) {
        Ok(shown) => Ok(shown.as_slice() == text),
        Err(_) => Err(AllocError),
    }
}

/// The moment that the text is the print of.
pub fn printed_moment(alloc: Global, text: &[u8]) -> Result<Moment, Unread>
    ensures exact { Says (printed_moment text.now) result }
    ensures in_time { IfOk result (λ at. at ≤ last_moment) }
{
    let Some(at) = read_moment(text) else {
        return Err(Stop::Fault(NoCommand));
    };
    if shows(alloc, at, text)? {
        Ok(at)
    } else {
        Err(Stop::Fault(NoCommand))
    }
}

/// The number of the code of a refused line, which is 1 for L1.
pub fn code_of(text: &Word) -> Result<u8, Unread>
    ensures { Says (code_in text.now) result }
{
    match text.bytes() {
        b"L1" => Ok(1),
        b"L2" => Ok(2),
        b"L3" => Ok(3),
        b"L4" => Ok(4),
        b"L5" => Ok(5),
        b"L6" => Ok(6),
        b"L7" => Ok(7),
        b"L8" => Ok(8),
        b"L9" => Ok(9),
        b"L10" => Ok(10),
        b"L12" => Ok(12),
        b"L13" => Ok(13),
        b"L14" => Ok(14),
        _ => Err(Stop::Fault(NoCommand)),
    }
}
