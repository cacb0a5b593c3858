//! A day in a home, and what is said of it.
use crate::files::{Outside, PLAIN, file, run_files};
use ha_io::{Gate, MemKeeper, MemPlace, MemSink, OpenGate};
use ha_journal::Entry;
use ha_model::{EndCause, Record};
use ha_status::Status;
use ha_top::Outcome;
use std::alloc::{AllocError, Global};
use std::process::Abort;
use std::sync::Wait;
use std::thread::Threads;

/// A home with the lines that come in. A line may be short: `r E S` reports that entity E has the state S, `m T` is the moment T of
/// the first of May 2024, `e X` is an event of type X, `reload C` brings the configuration C, in which nothing has to be escaped; every
/// other line stands as it is.
#[derive(Drop)]
pub struct Day<'a> {
    /// The whole configuration.
    pub home: &'a str,
    /// The moment of the start.
    pub start: &'a str,
    /// The zone's text.
    pub zone: &'a str,
    pub lines: &'a [&'a str],
}

/// The line of a restart.
pub const RESTART: &str = "{\"restart\":true}";

/// A day that starts at eight in the evening, in UTC.
pub fn evening<'a>(home: &'a str, lines: &'a [&'a str]) -> Day<'a> {
    Day {
        home,
        start: "2024-05-01T20:00:00Z",
        zone: "UTC",
        lines,
    }
}

fn push_all(text: &mut String, parts: &[&str]) -> Result<(), AllocError> {
    for part in parts {
        text.push_str(part)?;
    }
    Ok(())
}

/// A report, of its entity and its state.
fn push_report(text: &mut String, said: &str) -> Result<(), AllocError> {
    match said.split_once(' ') {
        Some((entity, state)) => push_all(
            text,
            &["{\"report\":\"", entity, "\",\"state\":\"", state, "\"}\n"],
        ),
        None => Ok(()),
    }
}

fn push_line(text: &mut String, said: &str) -> Result<(), AllocError> {
    if let Some(rest) = said.strip_prefix("r ") {
        push_report(text, rest)
    } else if let Some(rest) = said.strip_prefix("m ") {
        push_all(text, &["{\"moment\":\"2024-05-01T", rest, "Z\"}\n"])
    } else if let Some(rest) = said.strip_prefix("e ") {
        push_all(text, &["{\"event\":\"", rest, "\"}\n"])
    } else if let Some(rest) = said.strip_prefix("reload ") {
        push_all(text, &["{\"reload\":\"", rest, "\"}\n"])
    } else {
        push_all(text, &[said, "\n"])
    }
}

/// The bytes of a source with these lines.
fn source_of(alloc: Global, lines: &[&str]) -> Result<String, AllocError> {
    let mut text = String::new(alloc);
    for said in lines {
        push_line(&mut text, said)?;
    }
    Ok(text)
}

/// The lines of calls without target and data, from `RUN NUMBER/CALL SERVICE` each; every other line stands as it is.
fn push_call(text: &mut String, said: &str) -> Result<(), AllocError> {
    if said.starts_with('{') {
        return push_all(text, &[said, "\n"]);
    }
    let Some((run, rest)) = said.split_once(' ') else {
        return Ok(());
    };
    let Some((numbers, service)) = rest.split_once(' ') else {
        return Ok(());
    };
    match numbers.split_once('/') {
        Some((number, call)) => push_all(
            text,
            &[
                "{\"run\":\"",
                run,
                "\",\"number\":",
                number,
                ",\"call\":",
                call,
                ",\"service\":\"",
                service,
                "\",\"target\":[],\"data\":{}}\n",
            ],
        ),
        None => Ok(()),
    }
}

fn calls_of(alloc: Global, calls: &[&str]) -> Result<String, AllocError> {
    let mut text = String::new(alloc);
    for said in calls {
        push_call(&mut text, said)?;
    }
    Ok(text)
}

/// Runs these words over the files `home.yaml` and `reports.txt`.
fn run_words<R: Abort + Threads + Wait + Sync + Alloc<A = Global>>(
    rt: &R,
    words: &[&str],
    home: &[u8],
    reports: &[u8],
    outside: &Outside,
) -> Result<Outcome<MemPlace, MemKeeper>, AllocError> {
    let alloc = rt.alloc();
    let mut files = Vec::new(alloc);
    files.push(file(alloc, "home.yaml", home, outside.failing_config_reads)?)?;
    files.push(file(alloc, "reports.txt", reports, outside.failing_reads)?)?;
    run_files(rt, words, files, outside, &OpenGate::make())
}

/// A source of this name with its lines, and the numbers, from 1, of its reads that fail.
#[derive(Drop)]
pub struct Lines<'a> {
    pub name: &'a str,
    pub lines: &'a [&'a str],
    pub failing_reads: &'a [u64],
}

/// Runs an evening of a home with these sources, and with these words behind `run`.
pub fn run_sources<R: Abort + Threads + Wait + Sync + Alloc<A = Global>, G: Gate>(
    rt: &R,
    home: &str,
    more: &[&str],
    sources: &[Lines<'_>],
    gate: &G,
) -> Result<Outcome<MemPlace, MemKeeper>, AllocError> {
    let alloc = rt.alloc();
    let mut files = Vec::new(alloc);
    files.push(file(alloc, "home.yaml", home.as_bytes(), &[])?)?;
    let mut words = Vec::new(alloc);
    words.push("run")?;
    for word in more {
        words.push(*word)?;
    }
    for word in ["--start", "2024-05-01T20:00:00Z", "--config", "home.yaml"] {
        words.push(word)?;
    }
    for source in sources {
        let text = source_of(alloc, source.lines)?;
        files.push(file(alloc, source.name, text.as_bytes(), source.failing_reads)?)?;
        words.push(source.name)?;
    }
    run_files(rt, words.as_slice(), files, &PLAIN, gate)
}

/// Whether the trace of a run is that of a lawful journal, which gives the same calls and errors.
pub fn replays<R: Abort + Threads + Wait + Sync + Alloc<A = Global>>(
    rt: &R,
    run: &Outcome<MemPlace, MemKeeper>,
) -> Result<bool, AllocError> {
    let Some(trace) = &run.trace else {
        return Ok(false);
    };
    let mut files = Vec::new(rt.alloc());
    files.push(file(rt.alloc(), "t", trace.bytes(), &[])?)?;
    let outcome = run_files(rt, &["replay", "t"], files, &PLAIN, &OpenGate::make())?;
    Ok(
        matches!(outcome.status, Status::Ok)
            && outcome.out.bytes() == run.out.bytes()
            && outcome.err.bytes() == run.err.bytes(),
    )
}

/// Runs the day.
fn run<R: Abort + Threads + Wait + Sync + Alloc<A = Global>>(
    rt: &R,
    day: &Day<'_>,
    outside: &Outside,
) -> Result<Outcome<MemPlace, MemKeeper>, AllocError> {
    let source = source_of(rt.alloc(), day.lines)?;
    let mut words = Vec::new(rt.alloc());
    for word in ["run", "--config", "home.yaml", "reports.txt", "--start"] {
        words.push(word)?;
    }
    words.push(day.start)?;
    words.push("--zone")?;
    words.push(day.zone)?;
    for word in outside.more_words {
        words.push(*word)?;
    }
    run_words(
        rt,
        words.as_slice(),
        day.home.as_bytes(),
        source.as_bytes(),
        outside,
    )
}

/// What is wanted of a run that has ended.
#[derive(Clone, Copy)]
pub enum Fact<'a> {
    /// All went well.
    Well,
    /// The words are none of the program's.
    NoWords,
    /// A file could not be opened.
    NotOpened,
    /// This source could not be read.
    NotRead(u32),
    /// The configuration could not be read.
    ConfigNotRead,
    /// A write failed, which is not one that took no byte.
    NotWritten,
    /// A write took no byte.
    NothingTaken,
    /// The store could not be loaded or saved.
    NotKept,
    /// These lines of calls, in the short form, and no others.
    Called(&'a [&'a str]),
    /// What the calls' sink took, as it stands.
    Output(&'a str),
    /// What the errors' sink took.
    Errors(&'a str),
    /// What the sink of the trace took.
    Traced(&'a str),
    /// What is stored at the end.
    Stored(&'a str),
    /// Nothing is stored at the end.
    NotStored,
    /// How many entries the journal has.
    Entries(usize),
    /// How many sources are handed back.
    Handed(usize),
    /// So many lines of each of sixteen sources, each once and in order.
    Lines(u64),
    /// How many runs there are.
    Runs(usize),
    /// The first run ended at this entry, by this cause.
    End(u64, EndCause),
    /// The first run ended by this cause.
    Cause(EndCause),
    /// The second run ended at this entry, by this cause.
    SecondEnd(u64, EndCause),
}

fn are_calls(alloc: Global, found: &[u8], wanted: &[&str]) -> bool {
    match calls_of(alloc, wanted) {
        Ok(text) => found == text.as_bytes(),
        Err(_) => false,
    }
}

fn is_text(found: Option<&[u8]>, wanted: &str) -> bool {
    match found {
        Some(text) => text == wanted.as_bytes(),
        None => false,
    }
}

fn is_traced(found: &Option<MemSink>, wanted: &str) -> bool {
    match found {
        Some(sink) => sink.bytes() == wanted.as_bytes(),
        None => false,
    }
}

/// Where the first run ended, and by what.
fn first_end(records: &[Record]) -> Option<(u64, EndCause)> {
    match records.first() {
        Some(run) => run.end,
        None => None,
    }
}

/// Where the second run ended, and by what.
fn second_end(records: &[Record]) -> Option<(u64, EndCause)> {
    if records.len() < 2 {
        return None;
    }
    records[1].end
}

fn is_cause(found: Option<(u64, EndCause)>, wanted: EndCause) -> bool {
    match found {
        Some((_, cause)) => cause == wanted,
        None => false,
    }
}

/// How many lines of this source the journal has, where they are numbered in order.
fn lines_in_order(journal: &[Entry], of: u32) -> Option<u64> {
    let mut next = 0;
    for entry in journal {
        if let Entry::Line { source, number, .. } = entry {
            if *source == of {
                if *number != next {
                    return None;
                }
                next = next.saturating_add(1);
            }
        }
    }
    Some(next)
}

fn has_all_lines(journal: &[Entry], count: u64) -> bool {
    for source in 0..16 {
        if lines_in_order(journal, source) != Some(count) {
            return false;
        }
    }
    true
}

/// Whether this source, or the configuration where it is none, could not be read.
fn is_not_read(status: &Status, of: Option<u32>) -> bool {
    match status {
        Status::ReadFault { source } => *source == of,
        _ => false,
    }
}

/// Whether the run ended so.
fn is(alloc: Global, outcome: &Outcome<MemPlace, MemKeeper>, fact: Fact<'_>) -> bool {
    match fact {
        Fact::Well => matches!(outcome.status, Status::Ok),
        Fact::NoWords => matches!(outcome.status, Status::Usage),
        Fact::NotOpened => matches!(&outcome.status, Status::OpenFault { .. }),
        Fact::NotRead(source) => is_not_read(&outcome.status, Some(source)),
        Fact::ConfigNotRead => is_not_read(&outcome.status, None),
        Fact::NotWritten => matches!(outcome.status, Status::WriteFault { zero: false }),
        Fact::NothingTaken => matches!(outcome.status, Status::WriteFault { zero: true }),
        Fact::NotKept => matches!(outcome.status, Status::KeepFault),
        Fact::Called(calls) => are_calls(alloc, outcome.out.bytes(), calls),
        Fact::Output(text) => outcome.out.bytes() == text.as_bytes(),
        Fact::Errors(text) => outcome.err.bytes() == text.as_bytes(),
        Fact::Traced(text) => is_traced(&outcome.trace, text),
        Fact::Stored(text) => is_text(outcome.keep.text(), text),
        Fact::NotStored => outcome.keep.text().is_none(),
        Fact::Entries(count) => outcome.journal.len() == count,
        Fact::Handed(count) => outcome.sources.len() == count,
        Fact::Lines(count) => has_all_lines(outcome.journal.as_slice(), count),
        Fact::Runs(count) => outcome.records.len() == count,
        Fact::End(at, cause) => first_end(outcome.records.as_slice()) == Some((at, cause)),
        Fact::Cause(cause) => is_cause(first_end(outcome.records.as_slice()), cause),
        Fact::SecondEnd(at, cause) => second_end(outcome.records.as_slice()) == Some((at, cause)),
    }
}

/// Whether all of this holds of the run's end.
pub fn holds(alloc: Global, outcome: &Outcome<MemPlace, MemKeeper>, facts: &[Fact<'_>]) -> bool {
    for fact in facts {
        if !is(alloc, outcome, *fact) {
            return false;
        }
    }
    true
}

/// Whether the day ends so.
pub fn ends<R: Abort + Threads + Wait + Sync + Alloc<A = Global>>(
    rt: &R,
    day: &Day<'_>,
    outside: &Outside,
    facts: &[Fact<'_>],
) -> bool {
    match run(rt, day, outside) {
        Ok(outcome) => holds(rt.alloc(), &outcome, facts),
        Err(_) => false,
    }
}

/// Whether a run of these words, over the files `home.yaml` and `reports.txt`, ends so.
pub fn words_end<R: Abort + Threads + Wait + Sync + Alloc<A = Global>>(
    rt: &R,
    words: &[&str],
    home: &[u8],
    reports: &[u8],
    outside: &Outside,
    facts: &[Fact<'_>],
) -> bool {
    match run_words(rt, words, home, reports, outside) {
        Ok(outcome) => holds(rt.alloc(), &outcome, facts),
        Err(_) => false,
    }
}

/// Whether the day ends well with these calls and error lines.
pub fn gives<'a, R: Abort + Threads + Wait + Sync + Alloc<A = Global>>(
    rt: &R,
    day: &Day<'_>,
    calls: &'a [&'a str],
    errors: &'a str,
) -> bool {
    ends(
        rt,
        day,
        &PLAIN,
        &[Fact::Well, Fact::Called(calls), Fact::Errors(errors)],
    )
}

/// Whether an evening of the home ends well with these calls and no error.
pub fn calls<'a, R: Abort + Threads + Wait + Sync + Alloc<A = Global>>(
    rt: &R,
    home: &str,
    lines: &[&str],
    calls: &'a [&'a str],
) -> bool {
    gives(rt, &evening(home, lines), calls, "")
}
