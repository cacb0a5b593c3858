//! The end of a bus.
ghost use Rattle.std.specs.Prelude.{◌≡◌, IfOk, IfSome, OnOk, option_map, string_bytes};
ghost use Rattle.ha_journal.specs.EntryText.{end_line};
ghost use Rattle.bus_turn.specs.States.{sink_of};
ghost use Rattle.bus_turn.specs.Writes.{WritesIn, fault_of};

use crate::fault::BusFault;
use crate::write::write_kept;
use ha_io::{Keeper, Sink};
use ha_whole::Core;
use std::alloc::{AllocError, Global};

/// The parts of a bus that has ended, and the fault that its end met.
#[derive(Drop)]
pub struct Ended<C: Core, K: Sink, Q: Keeper> {
    pub core: C,
    pub calls: K,
    pub errors: K,
    pub trace: Option<K>,
    pub keep: Q,
    pub first: Option<BusFault>,
}

/// The last line of a trace, by the number of entries.
fn end_line(alloc: Global, entries: usize) -> Result<String, AllocError>
    ensures { IfOk result (λ line. string_bytes line ≡ end_line entries) }
{
    format!(in alloc; "{{\"end\":{entries}}}\n")
}

/// Writes the end line to the trace, where there is one, and has its sink hand on what it keeps.
pub(crate) fn write_end<K: Sink>(
    alloc: Global,
    entries: usize,
    trace: &mut Option<K>,
) -> Result<(), BusFault>
    ensures writes { let s = sink_of K.written K.faults K.zeros K.name in
        WritesIn (end_line entries) (option_map s trace.old) (fault_of result) (option_map s trace.new) }
    ensures handed { OnOk result (IfSome trace.new (λ k. K.kept k ≡ 0)) }
{
    let Some(sink) = trace else {
        return Ok(());
    };
    match end_line(alloc, entries) {
        Ok(line) => write_kept(sink, line.as_bytes(), false),
        Err(_) => Err(BusFault::Memory),
    }
}
