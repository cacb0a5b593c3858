//! The state of an entity, and what a report changes of it.
ghost use Rattle.std.specs.Prelude.{◌≡◌, IfOk};
ghost use Rattle.std.specs.Option.{option_copied};
ghost use Rattle.ha_config.specs.Words.{same};
ghost use Rattle.ha_sight.specs.StateStep.{next_object as next_object_lem};

use ha_clock::Moment;
use ha_config::{same_data, same_text};
use ha_value::{Many, Plain, Value, Word, copy_pairs};
use std::alloc::{AllocError, Global};

/// The state of an entity.
#[derive(Drop)]
pub struct StateObject {
    pub text: Word,
    pub attributes: Many<(Word, Value)>,
    /// Since when the text stands.
    pub changed: Moment,
    /// Since when the text and the attributes stand together.
    pub updated: Moment,
}

/// What a Report makes of the object before it.
pub fn next_object(
    alloc: Global,
    before: Option<&StateObject>,
    text: &Word,
    attributes: &Many<(Word, Value)>,
    now: Moment,
) -> Result<StateObject, AllocError>
    ensures { IfOk result (λ made. made ≡ next_object_lem (option_copied before.entry) text.now attributes.now now) }
{
    let made_text = text.copy(alloc)?;
    let made_attributes = copy_pairs(alloc, attributes.as_slice())?;
    match before {
        None => Ok(StateObject {
            text: made_text,
            attributes: made_attributes,
            changed: now,
            updated: now,
        }),
        Some(object) => {
            let stays = same_text(&object.text, text);
            let rests = stays && same_data(&object.attributes, attributes);
            Ok(StateObject {
                text: made_text,
                attributes: made_attributes,
                changed: if stays { object.changed } else { now },
                updated: if rests { object.updated } else { now },
            })
        }
    }
}

/// What a report changed.
#[derive(Clone, Copy, Debug, PartialEq, Eq)]
pub enum Change {
    /// Nothing: text and attributes were the same.
    Same,
    /// The entity was not there before.
    Appeared,
    /// The state text, perhaps with attributes.
    Text,
    /// The attributes alone.
    Attributes,
}
