//! The outside: sources of bytes, sinks, the place that opens them, the keeper of the store and the gate before a line.
//! Each is a trait whose ghost members are its meaning, with a form in memory and a form over the system.
#![tactic(auto)]

mod dir_place;
mod fault;
mod file_keeper;
mod file_sink;
mod file_source;
mod gate;
mod keeper;
mod meet_gate;
mod mem_keeper;
mod mem_place;
mod mem_sink;
mod mem_source;
mod place;
mod sink;
mod source;
mod whole;

pub use dir_place::DirPlace;
pub use fault::{Failed, IoFault};
pub use file_keeper::FileKeeper;
pub use file_sink::FileSink;
pub use file_source::FileSource;
pub use gate::{Gate, OpenGate};
pub use keeper::Keeper;
pub use meet_gate::MeetGate;
pub use mem_keeper::MemKeeper;
pub use mem_place::{MemFile, MemPlace, have_distinct_names};
pub use mem_sink::MemSink;
pub use mem_source::MemSource;
pub use place::{Opening, Place};
pub use sink::Sink;
pub use source::Source;
pub use whole::{Unread, Unwritten, read_whole, write_whole};
