//! How the text of an entity id stands in memory: one of up to 38 bytes in its own place, a longer one in a string of its own.
ghost use Rattle.std.specs.Prelude.{◌≡◌, ◌≤◌, ◌<◌, ◌+◌, [], ◌∷◌, ◌++◌, length, take, string_bytes, IsUtf8, IfOk, OnOk, OnErr};
ghost use Rattle.ha_value.specs.IdText.{IsIdText, id_bytes};

use crate::held::text_of;
use crate::plain::Plain;
use std::alloc::{AllocError, Global};
use std::fmt::{self, Debug, Formatter, Write};
use std::marker::Model;

/// How many bytes have room in the place.
const ROOM: usize = 38;

/// The bytes of a short text, and what is left of its room.
#[derive(Clone, Copy)]
pub struct IdRow {
    bytes: [u8; 38],
}

#[derive(Drop)]
pub enum IdHeld {
    /// So many bytes at the front.
    Here { len: u8, row: IdRow },
    Far(Box<String>),
}

/// The text of an id, seen as its UTF-8 bytes. It has more room in its own place than a `Word`, since most ids are longer than most texts.
#[derive(Drop)]
pub struct IdText {
    held: IdHeld,
}

impl Model for IdText {
    ghost use Rattle.std.specs.Prelude.{List, ℕ};
    ghost use Rattle.ha_value.specs.IdText.{IsIdText, id_bytes};

    ghost Value = { List ℕ };

    ghost view = { λ t. id_bytes t.held };

    ghost invariant = { λ t. IsIdText t.held };
}

/// These bytes behind the first `len`.
fn put(row: &mut [u8; 38], len: usize, more: &[u8])
    requires { len + length more.now ≤ 38 }
    ensures { take (len + length more.now) row.new ≡ take len row.old ++ more.now }
{
    row[len..len + more.len()].copy_from_slice(more);
}

/// A short text in its own place.
fn here(text: &[u8]) -> IdHeld
    requires within { length text.now ≤ 38 }
    requires utf8 { IsUtf8 text.now }
    ensures value { id_bytes result ≡ text.now }
    ensures text { IsIdText result }
{
    let mut row = IdRow { bytes: [0; 38] };
    put(&mut row.bytes, 0, text);
    IdHeld::Here {
        len: text.len() as u8,
        row,
    }
}

/// Two texts with a dot between them, in their own place.
fn joined_here(front: &[u8], back: &[u8]) -> IdHeld
    requires within { length front.now + length back.now < 38 }
    requires front { IsUtf8 front.now }
    requires back { IsUtf8 back.now }
    ensures value { id_bytes result ≡ front.now ++ 46 ∷ back.now }
    ensures text { IsIdText result }
{
    let mut row = IdRow { bytes: [0; 38] };
    let dot = front.len();
    put(&mut row.bytes, 0, front);
    put(&mut row.bytes, dot, b".");
    put(&mut row.bytes, dot + 1, back);
    IdHeld::Here {
        len: (dot + 1 + back.len()) as u8,
        row,
    }
}

/// A string of its own.
fn far(alloc: Global, text: String) -> Result<IdHeld, AllocError>
    ensures value { IfOk result (λ held. id_bytes held ≡ string_bytes text) }
    ensures text { IfOk result (λ held. IsIdText held) }
{
    let held = Box::new(alloc, text)?;
    Ok(IdHeld::Far(held))
}

/// Two texts with a dot between them, as a string of its own.
fn joined(alloc: Global, front: &str, back: &str) -> Result<String, AllocError>
    ensures { IfOk result (λ text. string_bytes text ≡ front.now ++ 46 ∷ back.now) }
{
    let mut text = String::with_capacity(alloc, front.len() + 1 + back.len())?;
    text.push_str(front)?;
    text.push_str(".")?;
    text.push_str(back)?;
    Ok(text)
}

/// A copy of a string, in the place of any.
#[inline(never)]
fn copy_far(alloc: Global, text: &str, to: &mut IdHeld) -> Result<(), AllocError>
    requires { IsIdText to.old }
    ensures text { IsIdText to.new }
    ensures ok { OnOk result (id_bytes to.new ≡ text.now) }
    ensures err { OnErr result (id_bytes to.new ≡ id_bytes to.old) }
{
    let made = far(alloc, String::from_str(alloc, text)?)?;
    *to = made;
    Ok(())
}

/// A short text in the place of any.
fn set_here(held: &mut IdHeld, len: u8, row: &IdRow)
    requires within { len ≤ 38 }
    requires utf8 { IsUtf8 (take len row.now.bytes) }
    ensures value { id_bytes held.new ≡ take len row.now.bytes }
    ensures text { IsIdText held.new }
{
    match held {
        IdHeld::Here {
            len: place,
            row: room,
        } => {
            *place = len;
            *room = *row;
        }
        IdHeld::Far(_) => {
            *held = IdHeld::Here { len, row: *row };
        }
    }
}

/// A copy. The bytes of a short text are not looked at.
fn copied(alloc: Global, held: &IdHeld) -> Result<IdHeld, AllocError>
    requires { IsIdText held.now }
    ensures value { IfOk result (λ made. id_bytes made ≡ id_bytes held.now) }
    ensures text { IfOk result (λ made. IsIdText made) }
{
    match held {
        IdHeld::Here { len, row } => Ok(IdHeld::Here {
            len: *len,
            row: *row,
        }),
        IdHeld::Far(text) => far(alloc, String::from_str(alloc, text.as_str())?),
    }
}

/// A copy in the place of any. The bytes of a short text are not looked at, and go from place to place at once.
fn copy_to(alloc: Global, held: &IdHeld, to: &mut IdHeld) -> Result<(), AllocError>
    requires from { IsIdText held.now }
    requires to { IsIdText to.old }
    ensures text { IsIdText to.new }
    ensures ok { OnOk result (id_bytes to.new ≡ id_bytes held.now) }
    ensures err { OnErr result (id_bytes to.new ≡ id_bytes to.old) }
{
    match held {
        IdHeld::Here { len, row } => {
            set_here(to, *len, row);
            Ok(())
        }
        IdHeld::Far(text) => copy_far(alloc, text.as_str(), to),
    }
}

/// The bytes.
fn bytes(held: &IdHeld) -> &[u8]
    requires { IsIdText held.now }
    ensures value { result.now ≡ id_bytes held.now }
    ensures utf8 { IsUtf8 result.now }
{
    match held {
        IdHeld::Here { len, row } => &row.bytes[..*len as usize],
        IdHeld::Far(text) => text.as_str().as_bytes(),
    }
}

impl IdText {
    /// The text of bytes that are known to be UTF-8.
    pub fn from_bytes(alloc: Global, bytes: &[u8]) -> Result<IdText, AllocError>
        requires { IsUtf8 bytes.now }
        ensures { IfOk result (λ t. t ≡ bytes.now) }
    {
        if bytes.len() <= ROOM {
            Ok(IdText { held: here(bytes) })
        } else {
            let held = far(alloc, String::from_str(alloc, text_of(bytes))?)?;
            Ok(IdText { held })
        }
    }

    /// Two texts with a dot between them, written where they stay if there is room.
    pub fn of_parts(alloc: Global, front: &str, back: &str) -> Result<IdText, AllocError>
        ensures { IfOk result (λ t. t ≡ front.now ++ 46 ∷ back.now) }
    {
        if front.len() < ROOM && back.len() < ROOM - front.len() {
            Ok(IdText {
                held: joined_here(front.as_bytes(), back.as_bytes()),
            })
        } else {
            let held = far(alloc, joined(alloc, front, back)?)?;
            Ok(IdText { held })
        }
    }

    pub fn bytes(&self) -> &[u8]
        ensures value { result.now ≡ self.now }
        ensures utf8 { IsUtf8 result.now }
    {
        bytes(&self.held)
    }

    pub fn as_str(&self) -> &str
        ensures value { result.now ≡ self.now }
        ensures utf8 { IsUtf8 self.now }
    {
        text_of(bytes(&self.held))
    }

    /// Puts a copy of the text in the place of another. A short one goes from its place to that one at once.
    pub fn copy_to(&self, alloc: Global, to: &mut IdText) -> Result<(), AllocError>
        ensures ok { OnOk result (to.new ≡ self.now) }
        ensures err { OnErr result (to.new ≡ to.old) }
    {
        copy_to(alloc, &self.held, &mut to.held)
    }
}

impl Debug for IdText {
    fn fmt<W: Write>(&self, f: &mut Formatter<W>) -> Result<(), fmt::Error> {
        f.write_str(self.as_str())
    }
}

impl Plain for IdText {
    fn copy(&self, alloc: Global) -> Result<IdText, AllocError> {
        let held = copied(alloc, &self.held)?;
        Ok(IdText { held })
    }

    fn same(&self, other: &IdText) -> bool {
        self.bytes() == other.bytes()
    }
}
