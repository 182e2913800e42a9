//! Lists whose copies share their items until one of them grows.

ghost use Rattle.std.specs.Prelude.{◌≡◌, ◌<◌, ◌^◌, ◌++◌, [], ◌∷◌, IfOk, IfSome, OnOk, OnErr, IsTrue, ◌↔◌, length, slice_get};
ghost use Rattle.std.specs.Cmp.Lexicographic.{lists_equiv, lists_per, pointwise};
ghost use Rattle.std.specs.Hash as fed;
ghost use Rattle.std.specs.Hash.{items_Alike};
ghost use Rattle.std.specs.Option.{option_copied};
ghost use Rattle.std.specs.Slice.{IsItemAt};
ghost use Rattle.std.specs.Iterator.Adapters.{IterYieldsInOrder};
ghost use Rattle.std.specs.Slice.Iter.{iter_rest};

use super::inline_items::{One, Two};
use std::alloc::{AllocError, Global};
use std::hash::{Hash, Hasher};
use std::marker::Model;
use std::rc::Rc;
use std::{fmt, slice};

/// A value that a [`CowVec`] can hold: a copy of it is the same value.
pub trait CowItem {
    /// Returns a copy. Fails only out of memory.
    fn copy(&self) -> Result<Self, AllocError>
        ensures { IfOk result (λ x. x ≡ self.now) };
}

// Where a list's items are stored. One or two are stored in the shared pointer itself, and emptiness is known without
// following a pointer.
#[derive(Drop)]
enum Items<T> {
    None,
    One(One<T>),
    Two(Two<T>),
    Many(Rc<Vec<T>>),
}

// Drops the items, in a call of its own.
#[inline(never)]
fn release<T: Drop>(items: Items<T>) {
    drop(items);
}

/// A list, seen in contracts as its items.
///
/// Two lists are equal if they have equal items in the same order.
pub struct CowVec<T> {
    alloc: Global,
    items: Items<T>,
}

// Written out so that dropping an empty list, as most are, is one test.
impl<T: Drop> Drop for CowVec<T> {
    #[inline(always)]
    fn drop(self) {
        let CowVec { alloc: _, items } = self;
        match items {
            Items::None => {}
            shared => release(shared),
        }
    }
}

impl<T> Model for CowVec<T> {
    ghost use Rattle.std.specs.Prelude.{List};
    ghost use Rattle.semver_base.specs.Texts.{items_of, IsFilledIfShared};

    ghost Value = { List T };

    ghost view = { λ v. items_of v.items };

    ghost invariant = { λ v. IsFilledIfShared v.items };
}

impl<T> CowVec<T> {
    /// Creates an empty list.
    #[inline(always)]
    pub fn new(alloc: Global) -> Self
        ensures { result ≡ [] }
    {
        CowVec {
            alloc,
            items: Items::None,
        }
    }

    /// The items as a slice.
    #[inline(always)]
    pub(crate) fn as_slice(&self) -> &[T]
        ensures { result.now ≡ self.now }
    {
        match &self.items {
            Items::None => &[],
            Items::One(one) => one.as_slice(),
            Items::Two(two) => two.as_slice(),
            Items::Many(many) => many.as_slice(),
        }
    }

    // The item of a list created with exactly one, found by a single test; `None` says nothing about the list.
    #[inline(always)]
    pub(crate) fn only(&self) -> Option<&T>
        ensures { IfSome result (λ item. self.now ≡ item.now ∷ []) }
    {
        match &self.items {
            Items::One(one) => Some(one.item()),
            _ => None,
        }
    }

    /// The number of items.
    pub fn len(&self) -> usize
        ensures { result ≡ length self.now }
    {
        self.as_slice().len()
    }

    /// Whether the list is empty.
    #[inline(always)]
    pub fn is_empty(&self) -> bool
        ensures { IsTrue result ↔ (self.now ≡ []) }
    {
        matches!(self.items, Items::None)
    }

    /// The item at `index`, if there is one.
    pub fn get(&self, index: usize) -> Option<&T>
        ensures value { option_copied result ≡ slice_get self.now index }
        ensures item { IsItemAt self.now index result }
    {
        self.as_slice().get(index)
    }

    /// Iterates over the items in order.
    pub fn iter(&self) -> slice::Iter<'_, T>
        ensures rest { iter_rest result ≡ self.now }
        ensures len { length (iter_rest result) ≡ length self.now }
        ensures bound { length (iter_rest result) < 2 ^ 64 }
        ensures runs { IterYieldsInOrder T }
    {
        self.as_slice().iter()
    }
}

/// Iterates over the items in order, as [`CowVec::iter`] does.
impl<'a, T> IntoIterator for &'a CowVec<T> {
    type Item = &'a T;

    type IntoIter = slice::Iter<'a, T>;

    ghost into_iter_gives = { λ list items. (iter_rest items ≡ list.now)
        × (length (iter_rest items) < 2 ^ 64) × IterYieldsInOrder T };

    fn into_iter(self) -> slice::Iter<'a, T> {
        self.iter()
    }
}

impl<T: CowItem + Drop> CowVec<T> {
    /// Appends `item`. On failure the list is unchanged and the item is dropped.
    pub fn push(&mut self, item: T) -> Result<(), AllocError>
        ensures ok { OnOk result (self.new ≡ self.old ++ item ∷ []) }
        ensures err { OnErr result (self.new ≡ self.old) }
    {
        let alloc = self.alloc;
        if let Items::Many(shared) = &mut self.items {
            if let Some(items) = Rc::get_mut(shared) {
                items.push(item)?;
                return Ok(());
            }
        }
        let listed = self.as_slice();
        let mut items = Vec::new(alloc);
        for it in listed {
            items.push(it.copy()?)?;
        }
        items.push(item)?;
        self.items = Items::Many(Rc::new(alloc, items)?);
        Ok(())
    }

    /// Creates a list of one item with a single allocation. Fails only out of memory.
    #[inline(always)]
    pub fn of_one(alloc: Global, item: T) -> Result<Self, AllocError>
        ensures { IfOk result (λ v. v ≡ item ∷ []) }
    {
        Ok(CowVec {
            alloc,
            items: Items::One(One::new(alloc, item)?),
        })
    }

    // Creates a list of two items with a single allocation. Fails only out of memory.
    #[inline(always)]
    pub(crate) fn of_two(alloc: Global, first: T, second: T) -> Result<Self, AllocError>
        ensures { IfOk result (λ v. v ≡ first ∷ second ∷ []) }
    {
        Ok(CowVec {
            alloc,
            items: Items::Two(Two::new(alloc, first, second)?),
        })
    }

    // Creates a list from a vector, reusing its memory.
    #[inline(always)]
    pub(crate) fn from_vec(alloc: Global, items: Vec<T>) -> Result<Self, AllocError>
        ensures { IfOk result (λ v. v ≡ items.items) }
    {
        if items.is_empty() {
            return Ok(CowVec::new(alloc));
        }
        Ok(CowVec {
            alloc,
            items: Items::Many(Rc::new(alloc, items)?),
        })
    }

    /// Returns a copy that shares the items. Fails only out of memory.
    pub fn copy(&self) -> Result<Self, AllocError>
        ensures { IfOk result (λ v. v ≡ self.now) }
    {
        let items = match &self.items {
            Items::None => Items::None,
            Items::One(one) => Items::One(one.copy()?),
            Items::Two(two) => Items::Two(two.copy()?),
            Items::Many(many) => Items::Many(many.clone()?),
        };
        Ok(CowVec {
            alloc: self.alloc,
            items,
        })
    }
}

impl<T: PartialEq> PartialEq for CowVec<T> {
    ghost eq = { pointwise T.eq };

    ghost laws = { lists_per T.laws };

    fn eq(&self, other: &Self) -> bool {
        self.as_slice() == other.as_slice()
    }
}

impl<T: Eq> Eq for CowVec<T> {
    ghost laws = { lists_equiv T.Eq.laws };
}

// Formats the items between `[` and `]`.
impl<T: fmt::Debug> fmt::Debug for CowVec<T> {
    fn fmt<W: fmt::Write>(&self, f: &mut fmt::Formatter<W>) -> fmt::Result {
        fmt::Debug::fmt(self.as_slice(), f)
    }
}

impl<T: Hash> Hash for CowVec<T> {
    ghost hash_input = { fed.slice T.hash_input };

    ghost respects_eq = { (items_Alike (record { fed = T.respects_eq })).fed };

    fn hash<H: Hasher>(&self, state: &mut H) {
        self.as_slice().hash(state);
    }
}
