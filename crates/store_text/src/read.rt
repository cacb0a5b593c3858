//! Reading a store text.
ghost use Rattle.std.specs.Prelude.{◌≡◌, ◌≤◌, IfErr, IfOk, IfSome, Ok, Err, None, Some, codes, option_and_then, option_map};
ghost use Rattle.serde_json.specs.Find.{as_bool, as_number, as_object, get_member};
ghost use Rattle.serde_json.specs.Errors.{IsMemory};
ghost use Rattle.serde_json.specs.View.{members_view, number_view, view};
ghost use Rattle.ha_clock.specs.Local.{last_moment};
ghost use Rattle.ha_config.specs.Sound.{AreSoundMoments, IsSoundStore};
ghost use Rattle.store_text.specs.Store.{as_moment, flags_of, moments_of, object_under, of_object, of_version_one, of_version_two, stored_in};
ghost use Rattle.store_text.specs.Fault.{code_of};

use crate::stored::Stored;
use ha_clock::{Moment, read_moment};
use ha_value::{Many, Word};
use serde_json::{Error, Map, Number, Value};
use std::alloc::Global;
use thiserror::Error as Fault;

/// Why a text was not read.
#[derive(Clone, Copy, Debug, PartialEq, Eq, Fault)]
pub enum StoreFault {
    /// It is no store text: 1 where it is no JSON, 2 where the version is no whole number or the
    /// keys or their values are others, 3 where the version is neither 1 nor 2.
    #[error("store refused S{0}")]
    Refused(u8),
    /// Memory ran out.
    #[error("out of memory")]
    Memory,
}

/// What a store text keeps, the names in byte order, each once; one of version 1 keeps no moments. Refused exactly where the text is no
/// store text.
pub fn read_store(alloc: Global, text: &[u8]) -> Result<Stored, StoreFault>
    ensures ok { IfOk result (λ v. stored_in text.now ≡ Ok v) }
    ensures sound { IfOk result (λ v. IsSoundStore (Some v.switches)) }
    ensures last { IfOk result (λ v. AreSoundMoments v.last) }
    ensures refused { IfErr result (λ e. IfSome (code_of e) (λ code. stored_in text.now ≡ Err code)) }
{
    let value = match Value::from_slice(alloc, text) {
        Ok(value) => value,
        Err(error) => return Err(refusal(&error)),
    };
    match value.as_object() {
        Some(members) => of_object(alloc, members),
        None => Err(StoreFault::Refused(2)),
    }
}

/// What an error of `serde_json` comes to.
fn refusal(error: &Error) -> StoreFault
    ensures { IfSome (code_of result) (λ code. (code ≡ 1) × ¬ IsMemory error.now) }
{
    if error.is_memory() {
        StoreFault::Memory
    } else {
        StoreFault::Refused(1)
    }
}

/// What an object keeps.
fn of_object(alloc: Global, members: &Map<String, Value>) -> Result<Stored, StoreFault>
    ensures ok { IfOk result (λ v. of_object (Some (members_view members.now.entries)) ≡ Ok v) }
    ensures sound { IfOk result (λ v. IsSoundStore (Some v.switches)) }
    ensures last { IfOk result (λ v. AreSoundMoments v.last) }
    ensures refused { IfErr result (λ e. IfSome (code_of e) (λ code. of_object (Some (members_view members.now.entries)) ≡ Err code)) }
{
    let Some(version) = number_at(members, "version") else {
        return Err(StoreFault::Refused(2));
    };
    if !version.is_u64() && !version.is_i64() {
        return Err(StoreFault::Refused(2));
    }
    let version = version.as_u64();
    if version == Some(1) {
        return of_version_one(alloc, members);
    }
    if version == Some(2) {
        return of_version_two(alloc, members);
    }
    Err(StoreFault::Refused(3))
}

/// What an object keeps whose version is 1.
fn of_version_one(alloc: Global, members: &Map<String, Value>) -> Result<Stored, StoreFault>
    ensures ok { IfOk result (λ v. of_version_one (members_view members.now.entries) ≡ Ok v) }
    ensures sound { IfOk result (λ v. IsSoundStore (Some v.switches)) }
    ensures last { IfOk result (λ v. AreSoundMoments v.last) }
    ensures refused { IfErr result (λ e. IfSome (code_of e) (λ code. of_version_one (members_view members.now.entries) ≡ Err code)) }
{
    if members.len() != 2 {
        return Err(StoreFault::Refused(2));
    }
    match flags_under(alloc, members) {
        Ok(switches) => Ok(Stored {
            switches,
            last: Many::make(alloc),
        }),
        Err(fault) => Err(fault),
    }
}

/// What an object keeps whose version is 2.
fn of_version_two(alloc: Global, members: &Map<String, Value>) -> Result<Stored, StoreFault>
    ensures ok { IfOk result (λ v. of_version_two (members_view members.now.entries) ≡ Ok v) }
    ensures sound { IfOk result (λ v. IsSoundStore (Some v.switches)) }
    ensures last { IfOk result (λ v. AreSoundMoments v.last) }
    ensures refused { IfErr result (λ e. IfSome (code_of e) (λ code. of_version_two (members_view members.now.entries) ≡ Err code)) }
{
    if members.len() != 3 {
        return Err(StoreFault::Refused(2));
    }
    let switches = match flags_under(alloc, members) {
        Ok(switches) => switches,
        Err(fault) => return Err(fault),
    };
    match moments_under(alloc, members) {
        Ok(last) => Ok(Stored { switches, last }),
        Err(fault) => Err(fault),
    }
}

/// The flags under `switches`.
fn flags_under(
    alloc: Global,
    members: &Map<String, Value>,
) -> Result<Many<(Word, bool)>, StoreFault>
    ensures ok { IfOk result (λ v. option_and_then flags_of (object_under (codes "switches") (members_view members.now.entries)) ≡ Some v) }
    ensures sound { IfOk result (λ v. IsSoundStore (Some v)) }
    ensures refused { IfErr result (λ e. IfSome (code_of e) (λ code. (code ≡ 2) × (option_and_then flags_of (object_under (codes "switches") (members_view members.now.entries)) ≡ None))) }
{
    match object_at(members, "switches") {
        Some(inner) => flags(alloc, inner),
        None => Err(StoreFault::Refused(2)),
    }
}

/// The moments under `last`.
fn moments_under(
    alloc: Global,
    members: &Map<String, Value>,
) -> Result<Many<(Word, Moment)>, StoreFault>
    ensures ok { IfOk result (λ v. option_and_then moments_of (object_under (codes "last") (members_view members.now.entries)) ≡ Some v) }
    ensures sound { IfOk result (λ v. AreSoundMoments v) }
    ensures refused { IfErr result (λ e. IfSome (code_of e) (λ code. (code ≡ 2) × (option_and_then moments_of (object_under (codes "last") (members_view members.now.entries)) ≡ None))) }
{
    match object_at(members, "last") {
        Some(inner) => moments(alloc, inner),
        None => Err(StoreFault::Refused(2)),
    }
}

/// The value under a key.
fn value_at<'a>(members: &'a Map<String, Value>, key: &str) -> Option<&'a Value>
    ensures { option_map (λ v. view v.now) result ≡ get_member key.now (members_view members.now.entries) }
{
    members.get(key)
}

/// The number under a key.
fn number_at<'a>(members: &'a Map<String, Value>, key: &str) -> Option<&'a Number>
    ensures { option_map (λ n. number_view n.now) result ≡ option_and_then as_number (get_member key.now (members_view members.now.entries)) }
{
    match value_at(members, key) {
        Some(value) => value.as_number(),
        None => None,
    }
}

/// The object under a key.
fn object_at<'a>(members: &'a Map<String, Value>, key: &str) -> Option<&'a Map<String, Value>>
    ensures { option_map (λ m. members_view m.now.entries) result ≡ option_and_then as_object (get_member key.now (members_view members.now.entries)) }
{
    match value_at(members, key) {
        Some(value) => value.as_object(),
        None => None,
    }
}

/// The flags of an object.
fn flags(alloc: Global, members: &Map<String, Value>) -> Result<Many<(Word, bool)>, StoreFault>
    ensures ok { IfOk result (λ v. flags_of (members_view members.now.entries) ≡ Some v) }
    ensures sound { IfOk result (λ v. IsSoundStore (Some v)) }
    ensures refused { IfErr result (λ e. IfSome (code_of e) (λ code. (code ≡ 2) × (flags_of (members_view members.now.entries) ≡ None))) }
{
    let mut found = Many::make(alloc);
    for (name, value) in members.iter() {
        let on = match value.as_bool() {
            Some(on) => on,
            None => return Err(StoreFault::Refused(2)),
        };
        let Ok(copy) = Word::from_str(alloc, name.as_str()) else {
            return Err(StoreFault::Memory);
        };
        let Ok(()) = found.push((copy, on)) else {
            return Err(StoreFault::Memory);
        };
    }
    Ok(found)
}

/// The moment whose text a value is.
fn moment_in(value: &Value) -> Option<Moment>
    ensures value { result ≡ as_moment (view value.now) }
    ensures bound { IfSome result (λ at. at ≤ last_moment) }
{
    match value.as_str() {
        Some(text) => read_moment(text.as_bytes()),
        None => None,
    }
}

/// The moments of an object.
fn moments(alloc: Global, members: &Map<String, Value>) -> Result<Many<(Word, Moment)>, StoreFault>
    ensures ok { IfOk result (λ v. moments_of (members_view members.now.entries) ≡ Some v) }
    ensures sound { IfOk result (λ v. AreSoundMoments v) }
    ensures refused { IfErr result (λ e. IfSome (code_of e) (λ code. (code ≡ 2) × (moments_of (members_view members.now.entries) ≡ None))) }
{
    let mut found = Many::make(alloc);
    for (name, value) in members.iter() {
        let at = match moment_in(value) {
            Some(at) => at,
            None => return Err(StoreFault::Refused(2)),
        };
        let Ok(copy) = Word::from_str(alloc, name.as_str()) else {
            return Err(StoreFault::Memory);
        };
        let Ok(()) = found.push((copy, at)) else {
            return Err(StoreFault::Memory);
        };
    }
    Ok(found)
}
