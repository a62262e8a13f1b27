ghost use Rattle.std.specs.Prelude.{◌≡◌, ◌↔◌, [], ◌∷◌, ◌++◌, length, IfOk, OnOk, OnErr, IsTrue};
ghost use Rattle.std.specs.Cmp.Lexicographic.{pointwise, lists_per, lists_equiv};
ghost use Rattle.std.specs.Hash as fed;
ghost use Rattle.std.specs.Hash.{items_Alike};

use sf_field::{Copied, OutOfMemory};
use std::alloc::Global;
use std::hash::{Hash, Hasher};
use std::marker::Model;

/// A list that grows at its end. Contracts see it as the list of its items.
#[derive(Debug, Drop)]
pub struct List<X> {
    items: Vec<X>,
}

impl<X> Model for List<X> {
    ghost use Rattle.std.specs.Prelude.{List};

    ghost Value = { List X };

    ghost view = { λ l. l.items.items };
}

impl<X> List<X> {
    /// The empty list. It allocates nothing yet.
    pub fn new(alloc: Global) -> List<X>
        ensures empty { result ≡ [] }
    {
        List {
            items: Vec::new(alloc),
        }
    }

    /// The empty list with room for this many items.
    pub fn with_capacity(alloc: Global, capacity: usize) -> Result<List<X>, OutOfMemory>
        ensures empty { IfOk result (λ l. l ≡ []) }
    {
        Ok(List {
            items: Vec::with_capacity(alloc, capacity)?,
        })
    }

    /// The list of the items of a slice.
    pub fn from_slice(alloc: Global, items: &[X]) -> Result<List<X>, OutOfMemory>
    where
        X: Copied + Drop,
        ensures items { IfOk result (λ l. l ≡ items.now) }
    {
        let mut copies = Vec::with_capacity(alloc, items.len())?;
        for item in items {
            copies.push(item.copy(alloc)?)?;
        }
        Ok(List { items: copies })
    }

    /// Adds `x` at the end.
    pub fn push(&mut self, x: X) -> Result<(), OutOfMemory>
    where
        X: Drop,
        ensures ok { OnOk result (self.new ≡ self.old ++ x ∷ []) }
        ensures err { OnErr result (self.new ≡ self.old) }
    {
        self.items.push(x)?;
        Ok(())
    }

    /// The items as a vector of std's. It allocates nothing.
    pub fn into_vec(self) -> Vec<X>
        ensures items { result.items ≡ self }
    {
        self.items
    }

    /// The list of the items of a vector of std's. It allocates nothing.
    pub fn from_vec(items: Vec<X>) -> List<X>
        ensures items { result ≡ items.items }
    {
        List { items }
    }

    /// The items, the first one first.
    pub fn as_slice(&self) -> &[X]
        ensures items { result.now ≡ self.now }
    {
        self.items.as_slice()
    }

    /// The number of items.
    pub fn len(&self) -> usize
        ensures len { result ≡ length self.now }
    {
        self.items.len()
    }

    /// Whether there is no item.
    pub fn is_empty(&self) -> bool
        ensures empty { IsTrue result ↔ (self.now ≡ []) }
    {
        self.items.is_empty()
    }
}

impl<X: Copied + Drop> Copied for List<X> {
    fn copy(&self, alloc: Global) -> Result<List<X>, OutOfMemory> {
        List::from_slice(alloc, self.as_slice())
    }
}

impl<X: PartialEq> PartialEq for List<X> {
    ghost eq = { pointwise X.eq };

    ghost laws = { lists_per X.laws };

    fn eq(&self, other: &Self) -> bool {
        self.as_slice() == other.as_slice()
    }
}

impl<X: Eq> Eq for List<X> {
    ghost laws = { lists_equiv X.Eq.laws };
}

impl<X: Hash> Hash for List<X> {
    ghost hash_input = { fed.slice X.hash_input };

    ghost respects_eq = { (items_Alike (record { fed = X.respects_eq })).fed };

    fn hash<H: Hasher>(&self, state: &mut H) {
        self.as_slice().hash(state);
    }
}
