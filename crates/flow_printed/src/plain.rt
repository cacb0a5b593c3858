//! A report without attributes whose texts are printed as they are, as most are: its print is read without a map.

ghost use Rattle.std.specs.Prelude.{◌≡◌, ◌≤◌, length, Some, true, IfOk, IfSome};
ghost use Rattle.std.specs.List.{list_all};
ghost use Rattle.std.specs.Str.{is_utf8};
ghost use Rattle.flow_line.specs.Bytes.{stands_as_is};
ghost use Rattle.flow_printed.specs.Plain.{plain_report, plain_text};
ghost use Rattle.flow_printed.specs.Printed.{IsPrintOf};

use crate::cut::{before, behind};
use crate::fields::{NoCommand, Unread};
use crate::parts::{id_of, reportable, short_state};
use ha_config::Cmd;
use ha_value::{Many, Word, WordFault};
use reading::Stop;
use std::alloc::{AllocError, Global};

/// What stands before the id, between the id and the state, and behind the state.
const REPORT: &[u8] = b"{\"report\":\"";

const STATE: &[u8] = b"\",\"state\":\"";

const NO_ATTRIBUTES: &[u8] = b"\",\"attributes\":{}}";

/// Whether a byte of a string is printed as it is.
fn stands_as_is(byte: u8) -> bool
    ensures { result ≡ stands_as_is byte }
{
    32 <= byte && byte != b'"' && byte != b'\\'
}

fn all_stand_as_is(text: &[u8]) -> bool
    ensures { result ≡ list_all stands_as_is text.now }
{
    text.iter().all(|byte| stands_as_is(*byte))
}

/// A place up to which an id may go.
fn end_of_id(text: &[u8]) -> Option<usize>
    ensures { IfSome result (λ at. at ≤ length text.now) }
{
    text.iter().position(|byte| *byte == b'"')
}

/// The texts of the id and the state, where a print has the form of such a report.
fn plain_parts<'a>(text: &'a [u8]) -> Option<(&'a [u8], &'a [u8])>
    ensures { IfSome result (λ parts. text.now ≡ plain_text parts.0.now parts.1.now) }
{
    let Some(rest) = behind(REPORT, text) else {
        return None;
    };
    let Some(texts) = before(NO_ATTRIBUTES, rest) else {
        return None;
    };
    let Some(at) = end_of_id(texts) else {
        return None;
    };
    match behind(STATE, &texts[at..]) {
        Some(state) => Some((&texts[..at], state)),
        None => None,
    }
}

/// The text of a state.
fn state_of(alloc: Global, state: &[u8]) -> Result<Word, Unread>
    ensures value { IfOk result (λ text. text ≡ state.now) }
    ensures utf8 { IfOk result (λ text. is_utf8 text ≡ true) }
{
    match Word::read(alloc, state) {
        Ok(text) => {
            let _ = text.bytes();
            Ok(text)
        }
        Err(WordFault::Memory) => Err(Stop::Memory),
        Err(WordFault::NotUtf8) => Err(Stop::Fault(NoCommand)),
    }
}

/// The report of these texts.
#[tactic(auto, unfolding(crate::specs::Plain::plain_report))]
fn report_of(alloc: Global, id: &[u8], state: &[u8]) -> Result<Cmd, Unread>
    ensures exact { IfOk result (λ cmd. plain_report id.now state.now ≡ Some cmd) }
    ensures utf8 { IfOk result (λ cmd. is_utf8 state.now ≡ true) }
{
    let entity = reportable(id_of(alloc, id)?)?;
    let text = short_state(state_of(alloc, state)?)?;
    Ok(Cmd::Report {
        entity,
        text,
        attributes: Many::make(alloc),
    })
}

/// The report that the text is the print of, where it has no attributes and its texts are printed as they are; of any other text none.
pub fn read_plain(alloc: Global, text: &[u8]) -> Result<Option<Cmd>, AllocError>
    ensures { IfOk result (λ made. IfSome made (IsPrintOf text.now)) }
{
    let Some((id, state)) = plain_parts(text) else {
        return Ok(None);
    };
    if !all_stand_as_is(id) {
        return Ok(None);
    }
    if !all_stand_as_is(state) {
        return Ok(None);
    }
    match report_of(alloc, id, state) {
        Ok(made) => Ok(Some(made)),
        Err(Stop::Memory) => Err(AllocError),
        Err(Stop::Fault(_)) => Ok(None),
    }
}
