//! Owners of one value on the heap, which contracts see as that value.

ghost use Rattle.std.specs.Prelude.{◌≡◌, IfOk};

use crate::Memory;
use std::alloc::Global;
use std::boxed::Box as StdBox;
use std::marker::Model;
use std::ops::Deref;

/// An owner of one value on the heap, which contracts see as that value.
#[derive(Debug, Drop)]
pub struct Box<T> {
    inner: StdBox<T>,
}

impl<T> Model for Box<T> {
    ghost Value = { T };

    ghost coded = { T.code };

    ghost view = { λ b. b.inner.value };
}

impl<T> Box<T> {
    /// The value itself.
    pub fn into_inner(self) -> T
        ensures { result ≡ self }
    {
        let Box { inner } = self;
        StdBox::into_inner(inner)
    }
}

impl<T> Deref for Box<T> {
    type Target = T;

    ghost deref_gives = { λ b x. x ≡ b };

    fn deref(&self) -> &T
        ensures { result.now ≡ self.now }
    {
        &self.inner
    }
}

impl<T: Drop> Box<T> {
    /// A box with this value. Where memory is refused, the value is dropped.
    pub fn new(alloc: Global, value: T) -> Result<Box<T>, Memory>
        ensures { IfOk result (λ b. b ≡ value) }
    {
        Ok(Box {
            inner: StdBox::new(alloc, value)?,
        })
    }
}
