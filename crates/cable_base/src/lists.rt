ghost use Rattle.std.specs.Prelude.{◌≡◌, ◌++◌, [], ◌∷◌, IfOk, OnErr, length};

use crate::faults::OutOfMemory;
use std::alloc::Global;
use std::marker::Model;

/// What can be copied, where memory lasts. The copy is equal to what it is of.
pub trait Copied: Sized {
    fn copied(&self, alloc: Global) -> Result<Self, OutOfMemory>
        ensures { IfOk result (λ c. c ≡ self.now) };
}

/// A list of items, seen as the list. Fields that contracts compare are of this type, since a vector is seen with its capacity.
#[derive(Debug, Drop)]
pub struct Listed<T> {
    items: Vec<T>,
}

impl<T> Model for Listed<T> {
    ghost use Rattle.std.specs.Prelude.{List};
    ghost use Rattle.std.specs.Coded.{coded_list};

    ghost Value = { List T };

    ghost coded = { coded_list T.code };

    ghost view = { λ a. a.items.items };
}

impl<T: PartialEq> PartialEq for Listed<T> {
    ghost use Rattle.std.specs.Cmp.Lexicographic.{pointwise};
    ghost use Rattle.std.proofs.Common.{rules};
    ghost use Rattle.std.specs.Cmp.Rules.{comparing};

    ghost eq = { pointwise T.eq };

    ghost laws = { Prim.search (comparing, rules) };

    fn eq(&self, other: &Listed<T>) -> bool {
        self.items == other.items
    }
}

impl<T: Eq> Eq for Listed<T> {
    ghost use Rattle.std.proofs.Common.{rules};
    ghost use Rattle.std.specs.Cmp.Rules.{comparing};

    ghost laws = { Prim.search (comparing, rules) };
}

impl<T> Listed<T> {
    /// The list without items. It takes no memory.
    pub fn empty(alloc: Global) -> Listed<T>
        ensures { result ≡ [] }
    {
        Listed {
            items: Vec::new(alloc),
        }
    }

    /// These items as a list.
    pub fn of(items: Vec<T>) -> Listed<T>
        ensures { result ≡ items.items }
    {
        Listed { items }
    }

    /// The items, as a vector.
    pub fn into_items(self) -> Vec<T>
        ensures { result.items ≡ self }
    {
        self.items
    }

    /// The items, in order.
    pub fn as_slice(&self) -> &[T]
        ensures { result.now ≡ self.now }
    {
        self.items.as_slice()
    }
}

impl<T: Drop> Listed<T> {
    /// Puts an item behind the others.
    pub fn push(&mut self, item: T) -> Result<(), OutOfMemory>
        ensures ok { IfOk result (λ _. self.new ≡ self.old ++ item ∷ []) }
        ensures err { OnErr result (self.new ≡ self.old) }
    {
        self.items.push(item)?;
        Ok(())
    }
}

impl<T: Copied + Drop> Listed<T> {
    /// An equal list of its own.
    pub fn copy(&self, alloc: Global) -> Result<Listed<T>, OutOfMemory>
        ensures { IfOk result (λ c. c ≡ self.now) }
    {
        let mut copies = Vec::new(alloc);
        for item in self.as_slice() {
            copies.push(item.copied(alloc)?)?;
        }
        Ok(Listed { items: copies })
    }
}

impl<T: Copied + Drop> Copied for Listed<T> {
    fn copied(&self, alloc: Global) -> Result<Listed<T>, OutOfMemory> {
        self.copy(alloc)
    }
}

impl<T: Copied + Drop> Copied for Option<T> {
    fn copied(&self, alloc: Global) -> Result<Option<T>, OutOfMemory> {
        Ok(match self {
            Some(item) => Some(item.copied(alloc)?),
            None => None,
        })
    }
}
