// A box that contracts see as the value in it.
ghost use Rattle.std.specs.Prelude.{◌≡◌, IfOk, IfErr};

use std::alloc::{AllocFailed, Global};
use std::marker::Model;

/// A value on the heap; contracts see the value itself.
#[derive(Debug, Drop)]
pub struct NodeBox<T> {
    inner: Box<T>,
}

impl<T> Model for NodeBox<T> {
    ghost Value = { T };

    ghost coded = { T.code };

    ghost view = { λ b. b.inner.value };
}

impl<T> NodeBox<T> {
    /// Moves the value onto the heap; after want of memory the value comes back in the error.
    pub fn new(alloc: Global, value: T) -> Result<NodeBox<T>, AllocFailed<T>>
        ensures ok { IfOk result (λ node. node ≡ value) }
        ensures refused { IfErr result (λ failed. failed.value ≡ value) }
    {
        match Box::new(alloc, value) {
            Ok(inner) => Ok(NodeBox { inner }),
            Err(failed) => Err(failed),
        }
    }

    /// Lends the value.
    pub fn get(&self) -> &T
        ensures { result.now ≡ self.now }
    {
        &self.inner
    }

    /// Moves the value off the heap, without taking memory.
    pub fn into_inner(self) -> T
        ensures { result ≡ self }
    {
        let NodeBox { inner } = self;
        Box::into_inner(inner)
    }

    /// Puts another value into the place and gives the one that stood there, without taking memory.
    pub fn replace(&mut self, value: T) -> T
        ensures given { result ≡ self.old }
        ensures now { self.new ≡ value }
    {
        Box::replace(&mut self.inner, value)
    }
}
