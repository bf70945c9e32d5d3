//! Values with several owners, which contracts see as the values.
ghost use Rattle.std.specs.Prelude.{◌≡◌, IfOk};

use std::alloc::{AllocError, Global};
use std::marker::Model;
use std::sync::Arc;

/// A value that several records hold at once, in any threads. It can't be changed, so contracts see it as the value.
///
/// The spans of a request hold the resource and the scope that they were sent under once for all of them.
#[derive(Drop)]
pub struct Shared<T> {
    inner: Arc<T, Global>,
}

impl<T> Model for Shared<T> {
    ghost use Rattle.std.specs.Arc.{arc_value};

    ghost Value = { T };

    ghost coded = { T.code };

    ghost view = { λ it. arc_value it.inner };
}

impl<T: Drop> Shared<T> {
    /// A value with one owner, which takes memory for it. Where that is refused the value is dropped.
    pub fn new(alloc: Global, value: T) -> Result<Shared<T>, AllocError>
        ensures { IfOk result (λ it. it ≡ value) }
    {
        match Arc::new(alloc, value) {
            Ok(inner) => Ok(Shared { inner }),
            Err(_) => Err(AllocError),
        }
    }

    /// One more owner of the value. It takes no memory; `Err` only where there are 2^63 - 1 owners.
    pub fn share(&self) -> Result<Shared<T>, AllocError>
        ensures { IfOk result (λ it. it ≡ self.now) }
    {
        Ok(Shared {
            inner: Arc::try_clone(&self.inner)?,
        })
    }

    /// The value.
    pub fn get(&self) -> &T
        ensures { result.now ≡ self.now }
    {
        &self.inner
    }
}
