//! The line of a status.
ghost use Rattle.std.specs.Prelude.{◌≡◌, IfOk, string_bytes};
ghost use Rattle.ha_status.specs.StatusLine.{status_line};

use crate::status::Status;
use std::alloc::{AllocError, Global};

const USAGE: &str =
    "hearth: usage: run --config F --start MOMENT [--zone Z] [--trace F] SOURCE.. | check F | replay F | rehearse N\n";

/// The line of the configuration, or of a source, that was not read.
#[tactic(auto, unfolding(crate::specs::StatusLine::status_line))]
fn read_fault_line(alloc: Global, source: Option<u32>) -> Result<String, AllocError>
    ensures { IfOk result (λ line. string_bytes line ≡ status_line (Status.ReadFault source)) }
{
    match source {
        None => String::from_str(alloc, "hearth: config failed\n"),
        Some(source) => format!(in alloc; "hearth: source {source} failed\n"),
    }
}

/// The last line on the error sink: why the program did not end as wanted.
#[tactic(auto, unfolding(crate::specs::StatusLine::status_line))]
pub fn status_line(alloc: Global, status: &Status) -> Result<String, AllocError>
    ensures { IfOk result (λ line. string_bytes line ≡ status_line status.now) }
{
    match status {
        Status::Ok => Ok(String::new(alloc)),
        Status::Usage => String::from_str(alloc, USAGE),
        Status::ConfigRefused { line, code } => format!(in alloc;
            "hearth: config line {line}: C{code}\n"
        ),
        Status::OpenFault { name } => {
            let name = name.as_str();
            format!(in alloc; "hearth: cannot open {name}\n")
        }
        Status::ReadFault { source } => read_fault_line(alloc, *source),
        Status::WriteFault { .. } => String::from_str(alloc, "hearth: write failed\n"),
        Status::KeepFault => String::from_str(alloc, "hearth: store failed\n"),
        Status::JournalFull => String::from_str(alloc, "hearth: journal full\n"),
        Status::SourceTooLong { source } => format!(in alloc; "hearth: source {source} too long\n"),
        Status::StoreRefused { code } => format!(in alloc; "hearth: store refused S{code}\n"),
        Status::Memory => String::from_str(alloc, "hearth: no memory\n"),
        Status::TraceRefused { line } => format!(in alloc; "hearth: trace line {line}: T\n"),
    }
}
