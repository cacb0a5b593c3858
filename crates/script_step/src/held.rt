//! A value in memory of its own.
ghost use Rattle.std.specs.Prelude.{◌≡◌, IfOk};

use std::alloc::{AllocError, Global};
use std::marker::Model;

/// A large value that a step seldom has: what goes from function to function is a pointer to it. Contracts see the value.
#[derive(Drop)]
pub struct Held<T> {
    inner: Box<T>,
}

impl<T> Model for Held<T> {
    ghost Value = { T };

    ghost coded = { T.code };

    ghost view = { λ s. s.inner.value };
}

impl<T: Drop> Held<T> {
    /// Puts the value into memory of its own.
    pub fn make(alloc: Global, value: T) -> Result<Held<T>, AllocError>
        ensures { IfOk result (λ held. held ≡ value) }
    {
        Ok(Held {
            inner: Box::new(alloc, value)?,
        })
    }

    /// The value; its memory is given back.
    pub fn taken(self) -> T
        ensures { result ≡ self }
    {
        let Held { inner } = self;
        Box::into_inner(inner)
    }
}
