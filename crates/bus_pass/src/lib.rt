//! The turn: a channel of capacity one that holds the bus, or nothing while one pass holds it.
#![tactic(auto)]

mod hand;
mod held;
mod read;
mod seal;
mod steps;
mod turn;

pub use hand::{Given, Hand, Origin, SinkMark, Stood};
pub use held::Held;
pub use read::Read;
pub use seal::Sealed;
pub use steps::{Gives, Law, Parts, Takes};
pub use turn::{Ends, Pass, Turn};
