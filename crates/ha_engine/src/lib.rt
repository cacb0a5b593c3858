//! The engine.
#![tactic(auto)]

mod admit;
mod advance;
mod boot;
mod boots;
mod bounds;
mod carried;
mod conclude;
mod core_of;
mod engine;
mod entered;
mod follow;
mod kept;
mod lasts;
pub mod laws;
mod line;
mod prepare;
mod prepared;
mod reader;
mod reload;
mod restart;
mod settle;
mod step_conclude;
mod step_end;
mod step_follow;
mod stop;
mod stored;
mod switch;

pub use admit::Prepared;
pub use bounds::Bounds;
pub use engine::Machine;
pub use engine_parts::parts::Parts;
pub use engine_parts::ready::Ready;
pub use reader::Engine;
