//! The parts that all readers of text share.
//!
//! A reader is a function on lists (`specs/Answer.antt`): it takes the tokens that are left, and answers a value with the
//! tokens behind it, or the first fault. Tokens may be bytes, lines or anything else, and a fault may be any type. Rules are
//! joined by `>>=`, and repeated by `repeat` and `row` (`specs/Rows.antt`). A fault of bytes (`Bad`) says how many bytes are
//! left at its place, so no rule needs an offset.
//!
//! A method that reads has one clause, `Gives (rule self.old) result self.new`: what it returned and left is what the rule
//! gives, unless memory ran out (`Stop::Memory`). Such a clause mostly proves by `#[tactic(auto, unfolding(..))]` of the rule.
//! Over bytes the methods call `Reader`: `peek`, `bump`, `eat`, `expect`, `skip`, `skip_blanks`, `skip_digits`, `character`, and
//! `stop` for a fault.
//!
//! A grammar is a relation `Spelling` (`specs/Spelling.antt`): text, value, rest. The laws about rules and spellings are
//! `proofs/`: a rule's answer is spelled (`Sound`); it leaves a shorter text, and a fault stands within the text (`Shorter`);
//! what is spelled is read (`Complete`); a fault depends on nothing behind it (`Local`); a spelling may be followed by anything
//! (`Frames`); what stands before a fault can be gone on with (`Opens`). Each has a law for binds, blanks, words, rows and lists
//! in brackets, which a reader puts together. For rules that look at nothing behind what they take, as that of a character in
//! UTF-8 (`character`), one law says the last three together (`Solid`).
#![tactic(auto)]

mod digits;
mod fault;
mod reader;
mod utf8;

pub use digits::hex;
pub use fault::{Bad, Stop};
pub use reader::Reader;
pub use utf8::is_utf8;
