//! Copies of this crate's types, and whether two values are the same.
mod helped;
mod item;
mod state;
