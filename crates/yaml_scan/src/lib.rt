//! The lines of a YAML text, the faults that are seen on a line alone, and the scalars that may go on over lines.
#![tactic(auto)]

mod block;
mod fault;
mod line;
mod quoted;
mod scalars;
mod text;
mod words;

pub use fault::{Code, Fault, YamlFault};
pub use line::{RawLine, RawText, YamlLine};
pub use quoted::{Last, Quoted};
pub use scalars::Lines;
pub use text::{
    is_blank_line, is_directive, is_mark, least, line_fault, lines, scan, without_start,
};
pub use words::{blanks, breaks, colon_at, nothing_left, sees, trimmed};
