//! What lies outside a home in memory: its files, sinks and stored text, and which calls of them fail.
ghost use Rattle.std.specs.Prelude.{◌≡◌, [], IfOk, None};
ghost use Rattle.ha_io.specs.MemSink.{new_sink};

use conf_reader::Reader;
use ha_engine::Engine;
use ha_io::{Gate, MemFile, MemKeeper, MemPlace, MemSink, have_distinct_names};
use ha_top::{Outcome, hearth};
use std::alloc::{AllocError, Global};
use std::process::Abort;
use std::sync::Wait;
use std::thread::Threads;

/// What lies outside: the stored text, further words of the run, and which calls fail. Calls of one object are counted from 1.
#[derive(Drop)]
pub struct Outside {
    pub stored: Option<&'static str>,
    pub more_words: &'static [&'static str],
    /// The files that are opened, those for reading and for writing counted together.
    pub failing_openings: &'static [u64],
    /// Reads of the configuration.
    pub failing_config_reads: &'static [u64],
    /// Reads of `reports.txt`.
    pub failing_reads: &'static [u64],
    /// Writes of calls.
    pub failing_writes: &'static [u64],
    /// Writes of calls that take no byte.
    pub zero_writes: &'static [u64],
    /// Writes of errors.
    pub failing_error_writes: &'static [u64],
    /// The keeper's loads and saves, counted together.
    pub failing_saves: &'static [u64],
}

/// Nothing is stored and nothing fails.
pub const PLAIN: Outside = Outside {
    stored: None,
    more_words: &[],
    failing_openings: &[],
    failing_config_reads: &[],
    failing_reads: &[],
    failing_writes: &[],
    zero_writes: &[],
    failing_error_writes: &[],
    failing_saves: &[],
};

/// A file of this name whose reads with these numbers fail.
pub fn file(alloc: Global, name: &str, bytes: &[u8], fails: &[u64]) -> Result<MemFile, AllocError> {
    Ok(MemFile {
        name: String::from_str(alloc, name)?,
        bytes: Some(Vec::from_slice(alloc, bytes)?),
        read_fails: Vec::from_slice(alloc, fails)?,
        write_fails: Vec::new(alloc),
        write_zeros: Vec::new(alloc),
    })
}

/// A sink that took nothing yet, with the writes that fail and those that take no byte.
fn sink(alloc: Global, fails: &[u64], zeros: &[u64]) -> Result<MemSink, AllocError>
    ensures { IfOk result (λ s. s ≡ new_sink None [] fails.now zeros.now) }
{
    let fails = Vec::from_slice(alloc, fails)?;
    let zeros = Vec::from_slice(alloc, zeros)?;
    Ok(MemSink::make(Vec::new(alloc), fails, zeros))
}

/// A keeper that has not failed yet.
fn keeper(alloc: Global, outside: &Outside) -> Result<MemKeeper, AllocError>
    ensures { IfOk result (λ k. k.faults ≡ 0) }
{
    let stored = match outside.stored {
        Some(text) => Some(Vec::from_slice(alloc, text.as_bytes())?),
        None => None,
    };
    let fails = Vec::from_slice(alloc, outside.failing_saves)?;
    Ok(MemKeeper::make(alloc, stored, fails))
}

/// Runs these words over these files.
pub fn run_files<R: Abort + Threads + Wait + Sync + Alloc<A = Global>, G: Gate>(
    rt: &R,
    words: &[&str],
    files: Vec<MemFile>,
    outside: &Outside,
    gate: &G,
) -> Result<Outcome<MemPlace, MemKeeper>, AllocError> {
    let alloc = rt.alloc();
    assert!(rt; have_distinct_names(&files));
    let openings = Vec::from_slice(alloc, outside.failing_openings)?;
    let mut place = MemPlace::make(alloc, files, openings);
    let mut given = Vec::new(alloc);
    for word in words {
        given.push(String::from_str(alloc, word)?)?;
    }
    let out = sink(alloc, outside.failing_writes, outside.zero_writes)?;
    let err = sink(alloc, outside.failing_error_writes, &[])?;
    let keep = keeper(alloc, outside)?;
    Ok(hearth::<_, Engine<Reader>, _, _, _>(
        rt,
        alloc,
        given.as_slice(),
        &mut place,
        out,
        err,
        keep,
        gate,
    ))
}
