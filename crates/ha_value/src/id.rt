//! Entity ids: `domain.object_id`.
ghost use Rattle.std.specs.Prelude.{◌≡◌, ◌↔◌, true, Some, None, Err, IfOk, OnErr, OnOk, is_some};
ghost use Rattle.std.specs.Str.{bytes_eq};
ghost use Rattle.ha_value.specs.Entities.{IsKept, object_in};
ghost use Rattle.ha_value.specs.Ids.{dot_and_name, entity_text, is_entity, is_name, is_name_byte, read_entity};
ghost use Rattle.ha_value.specs.Lists.{after_first, after_front, before_first};

use crate::cut::cut_at;
use crate::held::text_of;
use crate::id_text::IdText;
use crate::value::EntityId;
use crate::word::Word;
use std::alloc::{AllocError, Global};
use thiserror::Error;

/// Why a text was not read as an entity id.
#[derive(Clone, Copy, Debug, PartialEq, Eq, Error)]
pub enum EntityFault {
    /// It is not `domain.object_id`, each part one or more of `a` to `z`, `0` to `9` and `_`.
    #[error("the text is no entity id")]
    Shape,
    /// Memory ran out.
    #[error("out of memory")]
    Memory,
}

fn is_name_byte(byte: u8) -> bool
    ensures { result ≡ is_name_byte byte }
{
    byte.is_ascii_lowercase() || (byte.is_ascii_digit() || byte == b'_')
}

/// Whether the text has the form of a domain and of an object id.
#[tactic(auto, using(crate::proofs::CutLemmas::alls))]
pub fn is_name(text: &[u8]) -> bool
    ensures { result ≡ is_name text.now }
{
    if text.is_empty() {
        return false;
    }
    for i in 0..text.len() {
        if !is_name_byte(text[i]) {
            return false;
        }
    }
    true
}

/// What follows the longest front that is made of bytes of names.
#[tactic(auto, using(crate::proofs::CutLemmas::cuts))]
fn behind_name(text: &[u8]) -> &[u8]
    ensures { result.now ≡ after_front is_name_byte text.now }
{
    for i in 0..text.len() {
        if !is_name_byte(text[i]) {
            return &text[i..];
        }
    }
    &text[text.len()..]
}

/// Whether a dot and a name follow a front that is not empty.
fn dot_and_name(front: bool, rest: &[u8]) -> bool
    ensures { result ≡ dot_and_name front rest.now }
{
    match rest {
        [] => false,
        [first, object @ ..] => *first == b'.' && (front && is_name(object)),
    }
}

/// Whether the text is an id. Each byte is looked at once.
#[tactic(auto, using(crate::proofs::NameLemmas::is_id))]
fn is_entity(text: &[u8]) -> bool
    ensures { result ≡ is_some (read_entity text.now) }
{
    let rest = behind_name(text);
    dot_and_name(rest.len() < text.len(), rest)
}

/// What follows the first dot.
fn behind_dot(text: &[u8]) -> &[u8]
    ensures { result.now ≡ object_in text.now }
{
    match cut_at(text, b'.').1 {
        Some(object) => object,
        None => b"",
    }
}

/// Whether the text begins with these bytes and a dot.
fn begins(text: &[u8], front: &[u8]) -> bool
    requires kept { IsKept text.now }
    requires dotless { after_first 46 front.now ≡ None }
    ensures { result ≡ bytes_eq (before_first 46 text.now) front.now }
{
    let end = front.len();
    if text.len() <= end {
        return false;
    }
    if text[end] != b'.' {
        return false;
    }
    &text[..end] == front
}

/// The id whose two parts were found in the text.
fn kept(alloc: Global, text: &[u8]) -> Result<EntityId, AllocError>
    requires { is_some (read_entity text.now) ≡ true }
    ensures value { IfOk result (λ id. read_entity text.now ≡ Some id) }
    ensures form { IfOk result (λ id. is_entity id ≡ true) }
{
    Ok(EntityId {
        text: IdText::from_bytes(alloc, text)?,
    })
}

impl EntityId {
    /// The id that the text is.
    pub fn read(alloc: Global, text: &[u8]) -> Result<EntityId, EntityFault>
        ensures ok { IfOk result (λ id. read_entity text.now ≡ Some id) }
        ensures form { IfOk result (λ id. is_entity id ≡ true) }
        ensures shape { (result ≡ Err EntityFault.Shape) ↔ (read_entity text.now ≡ None) }
    {
        if !is_entity(text) {
            return Err(EntityFault::Shape);
        }
        match kept(alloc, text) {
            Ok(id) => Ok(id),
            Err(_) => Err(EntityFault::Memory),
        }
    }

    /// The id of two parts.
    pub fn of_parts(alloc: Global, domain: &str, object: &str) -> Result<EntityId, AllocError>
        requires { after_first 46 domain.now ≡ None }
        ensures { IfOk result (λ id. id ≡ record { domain = domain.now; object = object.now }) }
    {
        Ok(EntityId {
            text: IdText::of_parts(alloc, domain, object)?,
        })
    }

    /// The id as it is written. Its domain has no dot.
    pub fn text(&self) -> &str
        ensures value { result.now ≡ entity_text self.now }
        ensures domain { after_first 46 self.now.domain ≡ None }
    {
        self.text.as_str()
    }

    /// Whether the domain is this one, without a search for the dot.
    pub fn has_domain(&self, domain: &str) -> bool
        requires { after_first 46 domain.now ≡ None }
        ensures { result ≡ bytes_eq self.now.domain domain.now }
    {
        begins(self.text.bytes(), domain.as_bytes())
    }

    /// What stands before the first dot.
    pub fn domain(&self) -> &str
        ensures { result.now ≡ self.now.domain }
    {
        let (domain, _) = cut_at(self.text.bytes(), b'.');
        text_of(domain)
    }

    /// What follows the first dot.
    pub fn object(&self) -> &str
        ensures { result.now ≡ self.now.object }
    {
        text_of(behind_dot(self.text.bytes()))
    }

    /// The id as it is written, as a text of its own.
    pub fn print(&self, alloc: Global) -> Result<Word, AllocError>
        ensures { IfOk result (λ w. w ≡ entity_text self.now) }
    {
        Word::from_str(alloc, self.text.as_str())
    }

    /// Puts a copy in the place of another id.
    pub fn copy_to(&self, alloc: Global, to: &mut EntityId) -> Result<(), AllocError>
        ensures ok { OnOk result (to.new ≡ self.now) }
        ensures err { OnErr result (to.new ≡ to.old) }
    {
        self.text.copy_to(alloc, &mut to.text)
    }
}
