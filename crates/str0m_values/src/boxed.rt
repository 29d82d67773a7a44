//! A value in memory of its own that contracts see as the value.
ghost use Rattle.std.proofs.Common.{rules};
ghost use Rattle.std.specs.Cmp.Rules.{comparing};
ghost use Rattle.std.specs.Prelude.{◌≡◌, IfOk};

use std::alloc::{AllocError, Global};
use std::marker::Model;
use std::ops::Deref;

/// A value that takes a pointer's room where it is held, so that an enum with a large and rare case stays small. Two are equal
/// where their values are.
#[derive(Debug, Drop)]
pub struct Boxed<T>(Box<T>);

impl<T> Model for Boxed<T> {
    ghost Value = { T };

    ghost view = { λ b. b.0.value };
}

impl<T: Drop> Boxed<T> {
    /// Moves a value into memory of its own. The only error is that memory was refused, by which the value is dropped.
    pub fn new(alloc: Global, value: T) -> Result<Boxed<T>, AllocError>
        ensures { IfOk result (λ b. b ≡ value) }
    {
        let value = Box::new(alloc, value)?;
        Ok(Boxed(value))
    }
}

impl<T> Boxed<T> {
    /// The value.
    pub fn get(&self) -> &T
        ensures { result.now ≡ self.now }
    {
        self.0.as_ref()
    }

    /// Puts a value in the place of another, which is returned. Takes no memory.
    pub fn replace(&mut self, value: T) -> T
        ensures new { self.new ≡ value }
        ensures old { result ≡ self.old }
    {
        Box::replace(&mut self.0, value)
    }
}

/// What the value can be asked, it can be asked, too.
impl<T> Deref for Boxed<T> {
    type Target = T;

    ghost deref_gives = { λ b value. value ≡ b };

    fn deref(&self) -> &T {
        self.get()
    }
}

impl<T: Clone> Clone for Boxed<T> {
    ghost is_clone = { T.is_clone };

    fn clone(&self) -> Result<Boxed<T>, AllocError> {
        let value = self.0.clone()?;
        Ok(Boxed(value))
    }
}

impl<T: PartialEq> PartialEq for Boxed<T> {
    ghost eq = { T.eq };

    ghost laws = { Prim.search (comparing, rules) };

    fn eq(&self, other: &Boxed<T>) -> bool {
        self.get() == other.get()
    }
}

impl<T: Eq> Eq for Boxed<T> {
    ghost laws = { Prim.search (comparing, rules) };
}
