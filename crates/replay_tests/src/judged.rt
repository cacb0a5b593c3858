//! How a trace is judged: its status, and what is written to the sinks of calls and errors.
use conf_reader::Reader;
use ha_engine::Engine;
use ha_io::{MemFile, MemPlace, MemSink, have_distinct_names};
use replay_file::replay_call;
use std::alloc::{AllocError, Global};

/// Appends the texts, one behind the other.
fn append(text: &mut Vec<u8>, parts: &[&str]) -> Result<(), AllocError> {
    for part in parts {
        text.extend_from_slice(part.as_bytes())?;
    }
    Ok(())
}

/// The texts, one behind the other.
fn joined(alloc: Global, parts: &[&str]) -> Result<Vec<u8>, AllocError> {
    let mut text = Vec::new(alloc);
    append(&mut text, parts)?;
    Ok(text)
}

/// The number of the status that a trace is given, and what is written to the two sinks, where these reads of it fail.
fn replayed(
    alloc: Global,
    text: Vec<u8>,
    fails: Vec<u64>,
) -> Result<Option<(u8, MemSink, MemSink)>, AllocError> {
    let mut files = Vec::new(alloc);
    files.push(MemFile {
        name: String::from_str(alloc, "t")?,
        bytes: Some(text),
        read_fails: fails,
        write_fails: Vec::new(alloc),
        write_zeros: Vec::new(alloc),
    })?;
    if !have_distinct_names(&files) {
        return Ok(None);
    }
    let mut place = MemPlace::make(alloc, files, Vec::new(alloc));
    let mut out = MemSink::make(Vec::new(alloc), Vec::new(alloc), Vec::new(alloc));
    let mut err = MemSink::make(Vec::new(alloc), Vec::new(alloc), Vec::new(alloc));
    let (status, _) = replay_call::<Engine<Reader>, MemPlace>(
        alloc, "t", &mut place, &mut out, &mut err,
    );
    Ok(Some((status.number(), out, err)))
}

/// The number of a status, and what is written to the sinks of calls and of errors.
pub type Wanted<'a> = (u8, &'a str, &'a str);

/// Whether the trace of these parts, of which these reads fail, is given this.
pub fn gives(
    alloc: Global,
    parts: &[&str],
    fails: &[u64],
    wanted: Wanted<'_>,
) -> Result<bool, AllocError> {
    let text = joined(alloc, parts)?;
    match replayed(alloc, text, Vec::from_slice(alloc, fails)?)? {
        Some((given, out, err)) => Ok(
            given == wanted.0
                && out.bytes() == wanted.1.as_bytes()
                && err.bytes() == wanted.2.as_bytes(),
        ),
        None => Ok(false),
    }
}

/// Whether the trace of these parts is given this status, with these calls and errors.
pub fn is_given(alloc: Global, parts: &[&str], wanted: Wanted<'_>) -> bool {
    gives(alloc, parts, &[], wanted).unwrap_or(false)
}

/// Whether it is refused.
fn is_refused(alloc: Global, text: Vec<u8>) -> Result<bool, AllocError> {
    match replayed(alloc, text, Vec::new(alloc))? {
        Some((given, _, _)) => Ok(given == 11),
        None => Ok(false),
    }
}

/// Whether each front of the trace is refused, but the whole.
pub fn are_fronts_refused(alloc: Global, parts: &[&str]) -> Result<bool, AllocError> {
    let trace = joined(alloc, parts)?;
    for count in 0..trace.len() {
        if !is_refused(alloc, Vec::from_slice(alloc, &trace[..count])?)? {
            return Ok(false);
        }
    }
    Ok(true)
}

/// What is told of a trace without calls and errors that is refused at its first, second or third line.
const TOLD: [&str; 3] = [
    "hearth: trace line 1: T\n",
    "hearth: trace line 2: T\n",
    "hearth: trace line 3: T\n",
];

/// How many lines of a text are whole.
fn whole_lines(text: &[u8]) -> usize {
    let mut lines: usize = 0;
    for byte in text {
        if *byte == b'\n' {
            lines = lines.saturating_add(1);
        }
    }
    lines
}

/// Whether the text is refused at the line behind its last whole one, and nothing else is written.
fn is_told(alloc: Global, text: &[u8]) -> Result<bool, AllocError> {
    let Some(told) = TOLD.get(whole_lines(text)) else {
        return Ok(false);
    };
    match replayed(alloc, Vec::from_slice(alloc, text)?, Vec::new(alloc))? {
        Some((given, out, err)) => Ok(
            given == 11 && out.bytes().is_empty() && err.bytes() == told.as_bytes(),
        ),
        None => Ok(false),
    }
}

/// Whether it is so for each front of the trace, but the whole.
pub fn are_fronts_told(alloc: Global, parts: &[&str]) -> Result<bool, AllocError> {
    let trace = joined(alloc, parts)?;
    for count in 0..trace.len() {
        if !is_told(alloc, &trace[..count])? {
            return Ok(false);
        }
    }
    Ok(true)
}

/// Whether the trace is refused whichever byte of its middle part is another.
pub fn is_each_byte_told(
    alloc: Global,
    before: &[&str],
    part: &str,
    behind: &[&str],
) -> Result<bool, AllocError> {
    let bytes = part.as_bytes();
    for at in 0..bytes.len() {
        let mut text = joined(alloc, before)?;
        text.extend_from_slice(&bytes[..at])?;
        text.push(if bytes[at] == b'7' { b'8' } else { b'7' })?;
        text.extend_from_slice(&bytes[at + 1..])?;
        append(&mut text, behind)?;
        if !is_refused(alloc, text)? {
            return Ok(false);
        }
    }
    Ok(true)
}
