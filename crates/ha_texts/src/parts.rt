//! The parts of a line, each appended to it.
ghost use Rattle.std.specs.Prelude.{◌≡◌, [], ◌++◌, decimal, flat_map, map, IfOk, OnOk};
ghost use Rattle.ha_value.specs.Ids.{entity_text};
ghost use Rattle.ha_config.specs.CommandText.{id_text};
ghost use Rattle.ha_config.specs.ValueText.{escaped_byte, list_text, print_pairs};

use flow_line::{push_chars, push_comma, push_pairs};
use ha_value::{EntityId, Value, Word};
use itoa::Buffer;
use std::alloc::{AllocError, Global};

/// The bytes that most lines have room in.
const LINE_ROOM: usize = 256;

/// An empty line, to which its parts are appended without a move as long as they have room.
pub fn empty_line(alloc: Global) -> Result<Word, AllocError>
    ensures { IfOk result (λ line. line ≡ []) }
{
    Word::with_room(alloc, LINE_ROOM)
}

/// Appends an entity id without quotes.
pub(crate) fn push_bare_id(text: &mut Word, id: &EntityId) -> Result<(), AllocError>
    ensures { OnOk result (text.new ≡ text.old ++ flat_map escaped_byte (entity_text id.now)) }
{
    push_chars(text, id.text())?;
    Ok(())
}

/// Appends an entity id in double quotes.
pub(crate) fn push_id(text: &mut Word, id: &EntityId) -> Result<(), AllocError>
    ensures { OnOk result (text.new ≡ text.old ++ id_text id.now) }
{
    text.push_byte(b'"')?;
    push_chars(text, id.text())?;
    text.push_byte(b'"')?;
    Ok(())
}

/// Appends what stands before a map, and the map; one without pairs at once with that, which is `alone`.
pub(crate) fn push_map(
    alloc: Global,
    text: &mut Word,
    front: &str,
    alone: &str,
    pairs: &[(Word, Value)],
) -> Result<(), AllocError>
    requires { alone.now ≡ front.now ++ print_pairs [] }
    ensures { OnOk result (text.new ≡ text.old ++ (front.now ++ print_pairs pairs.now)) }
{
    if pairs.is_empty() {
        return text.push_str(alone);
    }
    text.push_str(front)?;
    push_pairs(alloc, text, pairs)
}

/// Appends a number.
pub(crate) fn push_number(text: &mut Word, number: u64) -> Result<(), AllocError>
    ensures { OnOk result (text.new ≡ text.old ++ decimal number) }
{
    let mut room = Buffer::new();
    text.push_str(room.format(number))
}

/// Appends a list of entity ids.
pub(crate) fn push_ids(text: &mut Word, ids: &[EntityId]) -> Result<(), AllocError>
    ensures { OnOk result (text.new ≡ text.old ++ list_text (map id_text ids.now)) }
{
    text.push_byte(b'[')?;
    for i in 0..ids.len() {
        push_comma(text, i)?;
        push_id(text, &ids[i])?;
    }
    text.push_byte(b']')
}
