ghost use Rattle.std.specs.Prelude.{◌≡◌, IfOk, IfErr};

use std::alloc::{AllocError, Global};
use std::marker::Model;
use std::rc::Rc;

/// A value that several owners share, which contracts see as the value.
#[derive(Drop)]
pub struct Shared<T> {
    inner: Rc<T>,
}

impl<T> Model for Shared<T> {
    ghost Value = { T };

    ghost coded = { T.code };

    ghost view = { λ s. s.inner.value };
}

impl<T> Shared<T> {
    pub fn get(&self) -> &T
        ensures { result.now ≡ self.now }
    {
        self.inner.as_ref()
    }
}

impl<T: Drop> Shared<T> {
    /// One more owner of the same value, of which nothing is copied.
    pub fn share(&self) -> Result<Shared<T>, AllocError>
        ensures { IfOk result (λ s. s ≡ self.now) }
    {
        Ok(Shared {
            inner: self.inner.clone()?,
        })
    }

    /// The value, where it has no other owner.
    pub fn into_inner(self) -> Result<T, Shared<T>>
        ensures ok { IfOk result (λ value. value ≡ self) }
        ensures err { IfErr result (λ shared. shared ≡ self) }
    {
        match Rc::try_unwrap(self.inner) {
            Ok(value) => Ok(value),
            Err(inner) => Err(Shared { inner }),
        }
    }

    pub fn new(alloc: Global, value: T) -> Result<Shared<T>, AllocError>
        ensures { IfOk result (λ s. s ≡ value) }
    {
        match Rc::new(alloc, value) {
            Ok(inner) => Ok(Shared { inner }),
            Err(_) => Err(AllocError),
        }
    }
}
