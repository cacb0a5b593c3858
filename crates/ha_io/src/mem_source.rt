// A source in memory.
ghost use Rattle.std.specs.Prelude.{◌≡◌, ◌↔◌, ◌++◌, ◌≤◌, Contains, IfOk, IsErr, OnErr, Some, drop, length, min, string_bytes, take};
ghost use Rattle.ha_io.specs.Counts.{Rose, one_more};
ghost use Rattle.ha_io.specs.MemSource.{after_failed_read, after_read, new_source};

use crate::{Failed, Source};
use std::marker::Model;

/// A source that gives the bytes that it was made of, as many as fit in the buffer, and fails at the calls that it was told.
#[derive(Debug, Drop)]
pub struct MemSource {
    name: String,
    bytes: Vec<u8>,
    at: usize,
    fails: Vec<u64>,
    calls: u64,
    faults: u64,
}

impl Model for MemSource {
    ghost use Rattle.std.specs.Prelude.{◌≤◌, drop, string_bytes, vec_len};
    ghost use Rattle.ha_io.specs.MemSource.{SourceState};

    ghost Value = { SourceState };

    ghost view = { λ s. record { name = string_bytes s.name; left = drop s.at s.bytes.items; fails = s.fails.items; calls = s.calls; faults = s.faults } };

    ghost invariant = { λ s. s.at ≤ vec_len s.bytes };
}

impl MemSource {
    /// `fails` lists the numbers, from 1, of the reads that fail.
    pub fn make(name: String, bytes: Vec<u8>, fails: Vec<u64>) -> MemSource
        ensures { result ≡ new_source (string_bytes name) bytes.items fails.items }
    {
        MemSource {
            name,
            bytes,
            at: 0,
            fails,
            calls: 0,
            faults: 0,
        }
    }
}

impl Source for MemSource {
    ghost faults = { λ source. source.faults };

    ghost left = { λ source. Some source.left };

    ghost name = { λ source. Some source.name };

    fn read(&mut self, buf: &mut [u8]) -> Result<usize, Failed>
        ensures fails { IsErr result ↔ Contains self.old.fails (one_more self.old.calls) }
        ensures count { IfOk result (λ count. count ≡ min (length self.old.left) (length buf.old)) }
        ensures copied { IfOk result (λ count. buf.new ≡ take count self.old.left ++ drop count buf.old) }
        ensures ok { IfOk result (λ count. self.new ≡ after_read self.old count) }
        ensures failed { OnErr result (self.new ≡ after_failed_read self.old) }
        ensures unread { OnErr result (buf.new ≡ buf.old) }
        ensures cause { OnErr result (Rose self.old.faults self.new.faults) }
        ensures never_falls { self.old.faults ≤ self.new.faults }
    {
        self.calls = self.calls.saturating_add(1);
        if self.fails.contains(&self.calls) {
            self.faults = self.faults.saturating_add(1);
            return Err(Failed);
        }
        let rest = &self.bytes[self.at..];
        let count = rest.len().min(buf.len());
        buf[..count].copy_from_slice(&rest[..count]);
        self.at += count;
        Ok(count)
    }
}
