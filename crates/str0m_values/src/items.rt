//! A list of values that contracts see as the list of its items.
ghost use Rattle.std.proofs.Common.{rules};
ghost use Rattle.std.specs.Cmp as Cmp;
ghost use Rattle.std.specs.Cmp.Lexicographic.{pointwise};
ghost use Rattle.std.specs.Cmp.Rules.{comparing, hashing};
ghost use Rattle.std.specs.Hash as fed;
ghost use Rattle.std.specs.Hash.{items_Alike, Alike};
ghost use Rattle.std.specs.List.{AllZip};
ghost use Rattle.std.specs.Prelude.{◌≡◌, ◌==◌, ◌++◌, ◌∷◌, [], List, ℕ, IfOk, OnOk, OnErr, length};

use std::alloc::{AllocError, Global};
use std::hash::{Hash, Hasher};
use std::marker::Model;
use std::ops::Deref;

/// A list whose room and allocator no contract sees: two lists are equal where their items are.
#[derive(Debug, Drop)]
pub struct Items<T>(pub Vec<T>);

impl<T> Model for Items<T> {
    ghost Value = { List T };

    ghost view = { λ s. s.0.items };
}

impl<T> Items<T> {
    /// An empty list, which takes no memory.
    pub fn empty(alloc: Global) -> Items<T>
        ensures { result ≡ [] }
    {
        Items(Vec::new(alloc))
    }

    /// The items, in their order.
    pub fn as_slice(&self) -> &[T]
        ensures { result.now ≡ self.now }
    {
        self.0.as_slice()
    }

    /// How many items the list has.
    pub fn len(&self) -> usize
        ensures { result ≡ length self.now }
    {
        self.0.len()
    }

    /// The vector inside, without a copy.
    pub fn into_vec(self) -> Vec<T>
        ensures { result.items ≡ self }
    {
        let Items(items) = self;
        items
    }
}

impl<T: Drop> Items<T> {
    /// One more item at the end; an error changes nothing.
    pub fn push(&mut self, item: T) -> Result<(), AllocError>
        ensures ok { OnOk result (self.new ≡ self.old ++ item ∷ []) }
        ensures err { OnErr result (self.new ≡ self.old) }
    {
        self.0.push(item)?;
        Ok(())
    }
}

impl<T: Clone> Clone for Items<T> {
    ghost is_clone = { λ s t. AllZip T.is_clone s t × (length t ≡ length s) };

    fn clone(&self) -> Result<Items<T>, AllocError> {
        let items = self.0.clone()?;
        Ok(Items(items))
    }
}

impl<T> From<Vec<T>> for Items<T> {
    ghost from_gives = { λ v s. s ≡ v.items };

    fn from(items: Vec<T>) -> Items<T> {
        Items(items)
    }
}

impl<T> Deref for Items<T> {
    type Target = Vec<T>;

    ghost deref_gives = { λ s v. v.items ≡ s };

    fn deref(&self) -> &Vec<T> {
        &self.0
    }
}

impl<T: PartialEq> PartialEq for Items<T> {
    ghost eq = { pointwise T.eq };

    ghost laws = { Prim.search (comparing, rules) };

    fn eq(&self, other: &Items<T>) -> bool {
        self.as_slice() == other.as_slice()
    }
}

impl<T: Eq> Eq for Items<T> {
    ghost laws = { Prim.search (comparing, rules) };
}

impl<T: Hash> Hash for Items<T> {
    ghost hash_input = { fed.slice T.hash_input };

    ghost respects_eq = { (items_Alike (record { fed = T.respects_eq })).fed };

    fn hash<H: Hasher>(&self, state: &mut H) {
        self.as_slice().hash(state);
    }
}
