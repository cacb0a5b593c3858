// A place in memory.
ghost use Rattle.std.specs.Prelude.{◌≡◌, ◌≤◌, ◌⊎◌, IfOk, IsErr, IsErrOf, IsNone, IsTrue, OnOk, Some};
ghost use Rattle.std.specs.Option.{option_copied};
ghost use Rattle.ha_io.specs.Counts.{Rose};
ghost use Rattle.ha_io.specs.MemPlace.{FailsNext, after_asking, after_failed_opening, bytes_under, file_named, have_distinct_names, new_place, sink_for, source_for};

use crate::{IoFault, MemSink, MemSource, Opening, Place};
use std::alloc::{AllocError, Global};
use std::marker::Model;

/// A file in memory, and what is to happen to the source and the sink that a place makes for it.
#[derive(Debug, Drop)]
pub struct MemFile {
    pub name: String,
    /// `None` where the file is missing for reading.
    pub bytes: Option<Vec<u8>>,
    /// The numbers, from 1, of a source's reads that fail.
    pub read_fails: Vec<u64>,
    /// The numbers, from 1, of a sink's writes that fail.
    pub write_fails: Vec<u64>,
    /// The numbers, from 1, of a sink's writes that take no byte, where they don't fail.
    pub write_zeros: Vec<u64>,
}

/// A place with files in memory, that fails at the calls that it was told. What is written to a sink that it makes
/// stays in that sink. A name without a file can be written and not read.
#[derive(Debug, Drop)]
pub struct MemPlace {
    files: Vec<MemFile>,
    fails: Vec<u64>,
    calls: u64,
    faults: u64,
    last: Option<(String, Opening)>,
    asked: Vec<(String, Opening)>,
}

impl Model for MemPlace {
    ghost use Rattle.std.specs.Prelude.{map, string_bytes};
    ghost use Rattle.std.specs.Option.{option_map};
    ghost use Rattle.ha_io.specs.MemPlace.{PlaceState};

    ghost Value = { PlaceState };

    ghost view = { λ p. record { files = p.files.items; fails = p.fails.items; calls = p.calls; faults = p.faults; last = option_map (λ last. (string_bytes last.0, last.1)) p.last; asked = map (λ call. (string_bytes call.0, call.1)) p.asked.items } };
}

impl MemPlace {
    /// `fails` lists the numbers, from 1, of the calls that fail, those of both kinds counted together.
    pub fn make(alloc: Global, files: Vec<MemFile>, fails: Vec<u64>) -> MemPlace
        requires { IsTrue (have_distinct_names files.items) }
        ensures { result ≡ new_place files.items fails.items }
    {
        MemPlace {
            files,
            fails,
            calls: 0,
            faults: 0,
            last: None,
            asked: Vec::new(alloc),
        }
    }

    /// Counts a call, and writes it down.
    fn ask(&mut self, alloc: Global, name: &str, opening: Opening) -> Result<(), AllocError>
        ensures ok { OnOk result (self.new ≡ after_asking self.old name.now opening) }
        ensures memory { IsErr result → self.new ≡ self.old }
    {
        let name = String::from_str(alloc, name)?;
        self.asked.push((name, opening))?;
        self.calls = self.calls.saturating_add(1);
        Ok(())
    }

    /// Counts a call that fails, and answers for it.
    fn refuse(&mut self, alloc: Global, name: &str, opening: Opening) -> IoFault
        ensures failed { result ≡ IoFault.Failed → self.new ≡ after_failed_opening self.old name.now opening }
        ensures memory { result ≡ IoFault.Memory → self.new ≡ self.old }
        ensures cause { result ≡ IoFault.Failed → Rose self.old.faults self.new.faults }
        ensures never_falls { self.old.faults ≤ self.new.faults }
    {
        let Ok(last) = String::from_str(alloc, name) else {
            return IoFault::Memory;
        };
        if self.ask(alloc, name, opening).is_err() {
            return IoFault::Memory;
        }
        self.faults = self.faults.saturating_add(1);
        self.last = Some((last, opening));
        IoFault::Failed
    }
}

fn find_file<'a>(files: &'a [MemFile], name: &str) -> Option<&'a MemFile>
    ensures { option_copied result ≡ file_named files.now name.now }
{
    files.iter().find(|file| file.name.as_str() == name)
}

/// Whether no two of the files have the same name.
pub fn have_distinct_names(files: &[MemFile]) -> bool
    ensures { result ≡ have_distinct_names files.now }
{
    match files {
        [] => true,
        [file, rest @ ..] => {
            find_file(rest, file.name.as_str()).is_none() && have_distinct_names(rest)
        }
    }
}

/// A source over a copy of the file's bytes, if the file is there for reading.
fn make_source(
    alloc: Global,
    files: &[MemFile],
    name: &str,
) -> Result<Option<MemSource>, AllocError>
    ensures { IfOk result (λ made. made ≡ source_for files.now name.now) }
{
    let Some(file) = find_file(files, name) else {
        return Ok(None);
    };
    let Some(bytes) = &file.bytes else {
        return Ok(None);
    };
    let name = String::from_str(alloc, name)?;
    let bytes = Vec::from_slice(alloc, bytes)?;
    let fails = Vec::from_slice(alloc, &file.read_fails)?;
    Ok(Some(MemSource::make(name, bytes, fails)))
}

fn make_sink(alloc: Global, files: &[MemFile], name: &str) -> Result<MemSink, AllocError>
    ensures { IfOk result (λ made. made ≡ sink_for files.now name.now) }
{
    let file = find_file(files, name);
    let name = Some(String::from_str(alloc, name)?);
    let written = Vec::new(alloc);
    match file {
        None => Ok(MemSink::named(name, written, Vec::new(alloc), Vec::new(alloc))),
        Some(file) => {
            let fails = Vec::from_slice(alloc, &file.write_fails)?;
            let zeros = Vec::from_slice(alloc, &file.write_zeros)?;
            Ok(MemSink::named(name, written, fails, zeros))
        }
    }
}

impl Place for MemPlace {
    type Source = MemSource;

    type Sink = MemSink;

    ghost faults = { λ place. place.faults };

    ghost holds = { λ place. Some (bytes_under place.files) };

    ghost asked = { λ place. Some place.asked };

    ghost last = { λ place. Some place.last };

    fn reading(&mut self, alloc: Global, name: &str) -> Result<MemSource, IoFault>
        ensures fails { FailsNext self.old ⊎ IsNone (bytes_under self.old.files name.now) → IsErr result }
        ensures failed_only { IsErrOf result IoFault.Failed → FailsNext self.old ⊎ IsNone (bytes_under self.old.files name.now) }
        ensures gives { IfOk result (λ source. source_for self.old.files name.now ≡ Some source) }
        ensures ok { OnOk result (self.new ≡ after_asking self.old name.now Opening.Reading) }
        ensures failed { IsErrOf result IoFault.Failed → self.new ≡ after_failed_opening self.old name.now Opening.Reading }
        ensures memory { IsErrOf result IoFault.Memory → self.new ≡ self.old }
        ensures cause { IsErrOf result IoFault.Failed → Rose self.old.faults self.new.faults }
        ensures never_falls { self.old.faults ≤ self.new.faults }
    {
        if self.fails.contains(&self.calls.saturating_add(1)) {
            return Err(self.refuse(alloc, name, Opening::Reading));
        }
        match make_source(alloc, &self.files, name)? {
            None => Err(self.refuse(alloc, name, Opening::Reading)),
            Some(source) => {
                self.ask(alloc, name, Opening::Reading)?;
                Ok(source)
            }
        }
    }

    fn writing(&mut self, alloc: Global, name: &str) -> Result<MemSink, IoFault>
        ensures fails { FailsNext self.old → IsErr result }
        ensures failed_only { IsErrOf result IoFault.Failed → FailsNext self.old }
        ensures gives { IfOk result (λ sink. sink ≡ sink_for self.old.files name.now) }
        ensures ok { OnOk result (self.new ≡ after_asking self.old name.now Opening.Writing) }
        ensures failed { IsErrOf result IoFault.Failed → self.new ≡ after_failed_opening self.old name.now Opening.Writing }
        ensures memory { IsErrOf result IoFault.Memory → self.new ≡ self.old }
        ensures cause { IsErrOf result IoFault.Failed → Rose self.old.faults self.new.faults }
        ensures never_falls { self.old.faults ≤ self.new.faults }
    {
        if self.fails.contains(&self.calls.saturating_add(1)) {
            return Err(self.refuse(alloc, name, Opening::Writing));
        }
        let sink = make_sink(alloc, &self.files, name)?;
        self.ask(alloc, name, Opening::Writing)?;
        Ok(sink)
    }
}
