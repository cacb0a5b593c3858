//! The parts of the readers of a configuration: readings with their least fault, tables of keys, and the kinds of values.
#![tactic(auto)]

mod count;
mod key;
mod kinds;
mod parts;
pub mod rows;
mod spans;
mod table;
mod templates;
mod times;
mod trees;
mod values;

pub use count::digits;
pub use key::Key;
pub use kinds::{Entities, Flag, Kind, Number, Text, Texts, flag_of, scalar, scalar_word};
pub use parts::{alone, bad, behind, both, each, keep, several, unless};
pub use spans::{Duration, SPAN_ROWS, span_map, span_of};
pub use table::{Pair, Row, field, field_at, keys, needed, one_of, optional, place, value, wanted};
pub use templates::{Source, template_text};
pub use times::{Time, Times};
pub use trees::{Build, data_of, fields_of, items_of, tree};
pub use values::{Data, are_digits, bare_value, holds_template, is_null_scalar, plain_value};
