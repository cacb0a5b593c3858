//! Copies of this crate's types, and whether two values are the same.
mod carry;
mod entry;

pub use carry::copy_moments;
