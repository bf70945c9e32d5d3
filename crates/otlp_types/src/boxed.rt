//! Values in memory of their own, which contracts see as the values.
ghost use Rattle.std.specs.Prelude.{◌≡◌, IfOk};

use std::alloc::{AllocError, Global};
use std::marker::Model;
use std::mem;

/// A value in memory of its own, so that what holds it is small: a queue's slots, and what is moved from place to
/// place.
#[derive(Drop)]
pub struct Boxed<T> {
    inner: Box<T>,
}

impl<T> Model for Boxed<T> {
    ghost Value = { T };

    ghost coded = { T.code };

    ghost view = { λ it. it.inner.value };
}

impl<T: Drop> Boxed<T> {
    /// The value, for which it takes memory. Where that is refused the value is dropped.
    pub fn new(alloc: Global, value: T) -> Result<Boxed<T>, AllocError>
        ensures { IfOk result (λ it. it ≡ value) }
    {
        match Box::new(alloc, value) {
            Ok(inner) => Ok(Boxed { inner }),
            Err(_) => Err(AllocError),
        }
    }

    /// The value.
    pub fn get(&self) -> &T
        ensures { result.now ≡ self.now }
    {
        &self.inner
    }

    /// Puts another value in its place, and gives back the one that was there. It takes no memory.
    pub fn replace(&mut self, value: T) -> T
        ensures value { result ≡ self.old }
        ensures put { self.new ≡ value }
    {
        mem::replace(&mut *self.inner, value)
    }
}
