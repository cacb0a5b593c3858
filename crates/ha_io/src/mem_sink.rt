// A sink in memory.
ghost use Rattle.std.specs.Prelude.{◌≡◌, ◌↔◌, ◌≤◌, ◌<◌, Contains, IfOk, IsErrOf, None, OnOk, Some, length, string_bytes};
ghost use Rattle.std.specs.Option.{option_map};
ghost use Rattle.ha_io.specs.Counts.{Rose, one_more};
ghost use Rattle.ha_io.specs.MemSink.{after_failed_write, after_write, new_sink, taken_count};

use crate::{Failed, IoFault, Sink};
use std::marker::Model;

/// A sink that takes whole pieces, and fails or takes no byte at the calls that it was told.
#[derive(Debug, Drop)]
pub struct MemSink {
    name: Option<String>,
    written: Vec<u8>,
    fails: Vec<u64>,
    takes_none: Vec<u64>,
    calls: u64,
    faults: u64,
    zeros: u64,
}

impl Model for MemSink {
    ghost use Rattle.std.specs.Prelude.{string_bytes};
    ghost use Rattle.std.specs.Option.{option_map};
    ghost use Rattle.ha_io.specs.MemSink.{SinkState};

    ghost Value = { SinkState };

    ghost view = { λ s. record { name = option_map string_bytes s.name; written = s.written.items; fails = s.fails.items; takes_none = s.takes_none.items; calls = s.calls; faults = s.faults; zeros = s.zeros } };
}

impl MemSink {
    /// `fails` lists the numbers, from 1, of the writes that fail, and `zeros` of those that take no byte. One in both fails.
    pub fn make(written: Vec<u8>, fails: Vec<u64>, zeros: Vec<u64>) -> MemSink
        ensures { result ≡ new_sink None written.items fails.items zeros.items }
    {
        MemSink::named(None, written, fails, zeros)
    }

    /// The sink that a place makes for a name.
    pub(crate) fn named(
        name: Option<String>,
        written: Vec<u8>,
        fails: Vec<u64>,
        zeros: Vec<u64>,
    ) -> MemSink
        ensures { result ≡ new_sink (option_map string_bytes name) written.items fails.items zeros.items }
    {
        MemSink {
            name,
            written,
            fails,
            takes_none: zeros,
            calls: 0,
            faults: 0,
            zeros: 0,
        }
    }

    /// All bytes that it took.
    pub fn bytes(&self) -> &[u8]
        ensures { result.now ≡ self.now.written }
    {
        &self.written
    }
}

impl Sink for MemSink {
    ghost faults = { λ sink. sink.faults };

    ghost zeros = { λ sink. sink.zeros };

    ghost written = { λ sink. Some sink.written };

    ghost name = { λ sink. sink.name };

    ghost kept = { λ _. 0 };

    fn write(&mut self, bytes: &[u8]) -> Result<usize, IoFault>
        ensures fails { IsErrOf result IoFault.Failed ↔ Contains self.old.fails (one_more self.old.calls) }
        ensures count { IfOk result (λ count. count ≡ taken_count self.old (length bytes.now)) }
        ensures ok { OnOk result (self.new ≡ after_write self.old bytes.now) }
        ensures failed { IsErrOf result IoFault.Failed → self.new ≡ after_failed_write self.old }
        ensures memory { IsErrOf result IoFault.Memory → self.new ≡ self.old }
        ensures cause { IsErrOf result IoFault.Failed → Rose self.old.faults self.new.faults }
        ensures zero { IfOk result (λ count. count ≡ 0 → 0 < length bytes.now → Rose self.old.zeros self.new.zeros) }
        ensures faults_never_fall { self.old.faults ≤ self.new.faults }
        ensures zeros_never_fall { self.old.zeros ≤ self.new.zeros }
    {
        let calls = self.calls.saturating_add(1);
        if self.fails.contains(&calls) {
            self.calls = calls;
            self.faults = self.faults.saturating_add(1);
            return Err(IoFault::Failed);
        }
        if self.takes_none.contains(&calls) {
            self.calls = calls;
            self.zeros = self.zeros.saturating_add(1);
            return Ok(0);
        }
        self.written.extend_from_slice(bytes)?;
        self.calls = calls;
        Ok(bytes.len())
    }

    /// It keeps nothing.
    fn flush(&mut self) -> Result<(), Failed> {
        Ok(())
    }
}
