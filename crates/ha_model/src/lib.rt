//! The records of runs, and which journals are lawful; with all types of the pieces below.
#![tactic(auto)]

mod copies;
mod prepare;
mod record;

pub use ha_clock::{Moment, Span};
pub use ha_config::{
    Action, ActionKind, Automation, Cmd, Condition, Config, Expr, Form, Helper, HelperKind, Match,
    Mode, Op, Piece, RepeatKind, Script, SpanForm, Template, Trigger, TriggerRule, Unit,
    characters, first_pair, last_pair, run_name, same_data, same_id, same_text,
};
pub use ha_journal::{BusEvent, Carry, Entry, Firing};
pub use ha_sight::{
    Answers, Branch, Change, Ended, Env, HelperChange, HelperService, Inner, Item, Part, Progress,
    Seen, StateObject, StepOut, TplFault, TriggerData, WaitAsk, WaitEnd, Wanted, as_data,
    attribute_text, next_object, true_in,
};
pub use ha_value::{
    Boxed, EntityId, Many, Num, Plain, Value, Word, copy_pairs, push_text, push_value,
};
pub use prepare::Prepare;
pub use record::{EndCause, Record};
