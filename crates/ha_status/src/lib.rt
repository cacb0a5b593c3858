//! How a command of the program ends: its status, the number and the line of it, its causes, and the file of a configuration, whose
//! text every command that takes one reads first.
#![tactic(auto)]

mod config_file;
mod line;
mod status;
mod tell;

pub use config_file::{FileText, Unready, read_config_file};
pub use line::status_line;
pub use status::Status;
pub use tell::told;
