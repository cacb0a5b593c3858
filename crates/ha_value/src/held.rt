//! How a text stands in memory: a short one in its own place, a longer one in a string of its own.
ghost use Rattle.std.specs.Prelude.{◌≡◌, ◌≤◌, ◌+◌, ◌++◌, [], length, take, string_bytes, IsUtf8, IfOk, OnOk, OnErr};
ghost use Rattle.ha_value.specs.Held.{bytes_of, IsText};

use std::alloc::{AllocError, Global};

/// How many bytes have room in the place of a string.
pub const ROOM: usize = 22;

/// The bytes of a short text, and what is left of its room.
#[derive(Clone, Copy)]
pub struct Row {
    bytes: [u8; 22],
}

#[derive(Drop)]
pub enum Held {
    /// So many bytes at the front.
    Here { len: u8, row: Row },
    Far(Box<String>),
}

/// These bytes behind the first `len`.
fn put(held: &mut [u8; 22], len: usize, more: &[u8])
    requires { len + length more.now ≤ 22 }
    ensures { take (len + length more.now) held.new ≡ take len held.old ++ more.now }
{
    held[len..len + more.len()].copy_from_slice(more);
}

/// These bytes behind the others, where they stand.
fn push_here(len: &mut u8, row: &mut Row, more: &[u8])
    requires { len.old + length more.now ≤ 22 }
    ensures value { take len.new row.new.bytes ≡ take len.old row.old.bytes ++ more.now }
    ensures text { IsUtf8 (take len.old row.old.bytes) → IsUtf8 more.now → IsText (Held.Here len.new row.new) }
{
    put(&mut row.bytes, *len as usize, more);
    *len = *len + more.len() as u8;
}

/// The empty text.
pub fn none() -> Held
    ensures value { bytes_of result ≡ [] }
    ensures text { IsText result }
{
    Held::Here {
        len: 0,
        row: Row { bytes: [0; 22] },
    }
}

/// A short text in its own place.
pub fn here(text: &str) -> Held
    requires { length text.now ≤ 22 }
    ensures value { bytes_of result ≡ text.now }
    ensures text { IsText result }
{
    let mut len = 0;
    let mut row = Row { bytes: [0; 22] };
    push_here(&mut len, &mut row, text.as_bytes());
    Held::Here { len, row }
}

/// A string of its own.
pub fn far(alloc: Global, text: String) -> Result<Held, AllocError>
    ensures value { IfOk result (λ held. bytes_of held ≡ string_bytes text) }
    ensures text { IfOk result (λ held. IsText held) }
{
    let held = Box::new(alloc, text)?;
    Ok(Held::Far(held))
}

/// The empty text in a string of its own, with room for so many bytes.
pub fn roomy(alloc: Global, room: usize) -> Result<Held, AllocError>
    ensures value { IfOk result (λ held. bytes_of held ≡ []) }
    ensures text { IfOk result (λ held. IsText held) }
{
    far(alloc, String::with_capacity(alloc, room)?)
}

/// The text of bytes that are known to be UTF-8: they are not tested, since what the call requires is proved.
pub fn text_of(bytes: &[u8]) -> &str
    requires { IsUtf8 bytes.now }
    ensures { result.now ≡ bytes.now }
{
    unsafe { str::from_utf8_unchecked(bytes) }
}

/// The bytes.
pub fn bytes(held: &Held) -> &[u8]
    requires { IsText held.now }
    ensures value { result.now ≡ bytes_of held.now }
    ensures utf8 { IsUtf8 result.now }
{
    match held {
        Held::Here { len, row } => &row.bytes[..*len as usize],
        Held::Far(text) => text.as_str().as_bytes(),
    }
}

/// A copy. The bytes of a short text are not looked at.
pub fn copied(alloc: Global, held: &Held) -> Result<Held, AllocError>
    requires { IsText held.now }
    ensures value { IfOk result (λ made. bytes_of made ≡ bytes_of held.now) }
    ensures text { IfOk result (λ made. IsText made) }
{
    match held {
        Held::Here { len, row } => Ok(Held::Here {
            len: *len,
            row: *row,
        }),
        Held::Far(text) => far(alloc, String::from_str(alloc, text.as_str())?),
    }
}

/// The text as a string of its own.
pub fn string_of(alloc: Global, held: Held) -> Result<String, AllocError>
    requires { IsText held }
    ensures { IfOk result (λ text. string_bytes text ≡ bytes_of held) }
{
    match held {
        Held::Far(text) => Ok(Box::into_inner(text)),
        Held::Here { len, row } => {
            let bytes = &row.bytes[..len as usize];
            Ok(String::from_str(alloc, text_of(bytes))?)
        }
    }
}

/// A string of its own from these bytes and more of them.
fn both(alloc: Global, front: &str, more: &str) -> Result<String, AllocError>
    ensures { IfOk result (λ text. string_bytes text ≡ front.now ++ more.now) }
{
    let mut text = String::with_capacity(alloc, front.len() + more.len())?;
    text.push_str(front)?;
    text.push_str(more)?;
    Ok(text)
}

/// A string of its own, of a short text and more. It stands apart, so that what is pushed in place stays small.
#[inline(never)]
fn grown(alloc: Global, len: u8, row: &Row, more: &str) -> Result<Held, AllocError>
    requires within { len ≤ 22 }
    requires utf8 { IsUtf8 (take len row.now.bytes) }
    ensures value { IfOk result (λ held. bytes_of held ≡ take len row.now.bytes ++ more.now) }
    ensures text { IfOk result (λ held. IsText held) }
{
    let front = text_of(&row.bytes[..len as usize]);
    far(alloc, both(alloc, front, more)?)
}

/// More is appended: where it stands, if there is room.
pub fn push_str(alloc: Global, held: &mut Held, more: &str) -> Result<(), AllocError>
    requires { IsText held.old }
    ensures text { IsText held.new }
    ensures ok { OnOk result (bytes_of held.new ≡ bytes_of held.old ++ more.now) }
    ensures err { OnErr result (bytes_of held.new ≡ bytes_of held.old) }
{
    match held {
        Held::Far(text) => text.push_str(more),
        Held::Here { len, row } => {
            if more.len() <= ROOM - *len as usize {
                push_here(len, row, more.as_bytes());
                return Ok(());
            }
            let made = grown(alloc, *len, row, more)?;
            *held = made;
            Ok(())
        }
    }
}

/// A short text in the place of any.
fn set_here(held: &mut Held, len: u8, row: &Row)
    requires within { len ≤ 22 }
    requires utf8 { IsUtf8 (take len row.now.bytes) }
    ensures value { bytes_of held.new ≡ take len row.now.bytes }
    ensures text { IsText held.new }
{
    match held {
        Held::Here {
            len: place,
            row: room,
        } => {
            *place = len;
            *room = *row;
        }
        Held::Far(_) => {
            *held = Held::Here { len, row: *row };
        }
    }
}

/// A copy of a string, in the place of any.
#[inline(never)]
fn copy_far(alloc: Global, text: &str, to: &mut Held) -> Result<(), AllocError>
    requires { IsText to.old }
    ensures text { IsText to.new }
    ensures ok { OnOk result (bytes_of to.new ≡ text.now) }
    ensures err { OnErr result (bytes_of to.new ≡ bytes_of to.old) }
{
    let made = far(alloc, String::from_str(alloc, text)?)?;
    *to = made;
    Ok(())
}

/// A copy in the place of any. The bytes of a short text are not looked at, and go from place to place at once.
pub fn copy_to(alloc: Global, held: &Held, to: &mut Held) -> Result<(), AllocError>
    requires from { IsText held.now }
    requires to { IsText to.old }
    ensures text { IsText to.new }
    ensures ok { OnOk result (bytes_of to.new ≡ bytes_of held.now) }
    ensures err { OnErr result (bytes_of to.new ≡ bytes_of to.old) }
{
    match held {
        Held::Here { len, row } => {
            set_here(to, *len, row);
            Ok(())
        }
        Held::Far(text) => copy_far(alloc, text.as_str(), to),
    }
}

/// A short text in the place of any.
pub fn write_here(held: &mut Held, text: &str)
    requires { length text.now ≤ 22 }
    ensures value { bytes_of held.new ≡ text.now }
    ensures text { IsText held.new }
{
    match held {
        Held::Here { len, row } => {
            *len = 0;
            push_here(len, row, text.as_bytes());
        }
        Held::Far(_) => {
            *held = here(text);
        }
    }
}

/// The empty text, in the room that there is.
pub fn clear(held: &mut Held)
    ensures value { bytes_of held.new ≡ [] }
    ensures text { IsText held.new }
{
    match held {
        Held::Here { len, .. } => *len = 0,
        Held::Far(text) => text.clear(),
    }
}
