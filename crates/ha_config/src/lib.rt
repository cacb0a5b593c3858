//! The types of a configuration, of values' texts and of commands; what each of them is, and when it is sound.
#![tactic(auto)]

mod command;
mod config;
mod copies;
mod helper;
mod names;
mod pairs;
mod sameness;
mod template;
mod texts;

pub use command::Cmd;
pub use config::{
    Action, ActionKind, Automation, Condition, Config, Form, Match, Mode, RepeatKind, Script,
    SpanForm, Trigger, TriggerRule, Unit,
};
pub use helper::{Helper, HelperKind};
pub use names::{is_automation, is_helper, run_name};
pub use pairs::{first_pair, last_pair};
pub use sameness::{same_data, same_id, same_text};
pub use template::{Expr, Op, Piece, Template};
pub use texts::characters;
