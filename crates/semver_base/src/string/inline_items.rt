//! One or two items in a shared pointer, borrowed as a slice.
//!
//! A slice and the contents of a shared pointer take fewer than 2^63 bytes each. Nothing says that of a type parameter, so it
//! is required once, when the items are taken in, and kept beside them.

ghost use Rattle.std.specs.Prelude.{◌≡◌, ◌∷◌, [], IfOk};
ghost use Rattle.std.specs.Mem.{FitsInMemory};
ghost use denote.Sharing.{said};
ghost use Rattle.semver_base.specs.Ownership.{fits_in_memory};

use std::alloc::{AllocError, Global};
use std::marker::{Model, PhantomData};
use std::mem::size_of_val;
use std::rc::Rc;
use std::slice;

// Evidence that each value of `T` takes fewer than 2^63 bytes. Zero-sized itself.
#[derive(Drop)]
struct Small<T> {
    of: PhantomData<T>,
}

impl<T> Model for Small<T> {
    ghost also_owns = { λ _. fits_in_memory T.row };

    ghost also_shares = { λ _ _ κ. said (fits_in_memory T.row) κ };
}

impl<T> Small<T> {
    // Records the evidence.
    fn new() -> Small<T>
        requires { FitsInMemory T.row }
    {
        Small { of: PhantomData }
    }

    // Returns the evidence.
    fn reveal(&self)
        ensures { FitsInMemory T.row }
    {}
}

// One item.
#[derive(Drop)]
pub(super) struct One<T> {
    small: Small<T>,
    item: Rc<T>,
}

impl<T> One<T> {
    // Shares `item`. Fails only out of memory, or if the item is larger than all memory.
    #[inline(always)]
    pub(super) fn new(alloc: Global, item: T) -> Result<One<T>, AllocError>
    where
        T: Drop,
        ensures { IfOk result (λ one. one.item.value ≡ item) }
    {
        if size_of_val(&item) >= 1 << 63 {
            return Err(AllocError);
        }
        Ok(One {
            small: Small::new(),
            item: Rc::new(alloc, item)?,
        })
    }

    // The item.
    #[inline(always)]
    pub(super) fn item(&self) -> &T
        ensures { result.now ≡ self.now.item.value }
    {
        self.item.as_ref()
    }

    // The item as a slice of one.
    #[inline(always)]
    pub(super) fn as_slice(&self) -> &[T]
        ensures { result.now ≡ self.now.item.value ∷ [] }
    {
        self.small.reveal();
        slice::from_ref(self.item())
    }

    // Returns a copy that shares the item.
    pub(super) fn copy(&self) -> Result<One<T>, AllocError>
    where
        T: Drop,
        ensures { IfOk result (λ one. one.item.value ≡ self.now.item.value) }
    {
        self.small.reveal();
        Ok(One {
            small: Small::new(),
            item: self.item.clone()?,
        })
    }
}

// Two items.
pub(super) struct Two<T> {
    small: Small<[T; 2]>,
    items: Rc<[T; 2]>,
}

// Written out, since dropping the items requires that they fit in memory.
impl<T: Drop> Drop for Two<T> {
    #[inline]
    fn drop(self) {
        let Two { small, items } = self;
        small.reveal();
        drop(items);
    }
}

impl<T> Two<T> {
    // Shares two items. Fails only out of memory, or if they are larger than all memory.
    #[inline(always)]
    pub(super) fn new(alloc: Global, first: T, second: T) -> Result<Two<T>, AllocError>
    where
        T: Drop,
        ensures { IfOk result (λ two. two.items.value ≡ first ∷ second ∷ []) }
    {
        if size_of_val(&first) >= 1 << 62 {
            return Err(AllocError);
        }
        let items = [first, second];
        if size_of_val(&items) >= 1 << 63 {
            return Err(AllocError);
        }
        Ok(Two {
            small: Small::new(),
            items: Rc::new(alloc, items)?,
        })
    }

    // Both items as a slice.
    #[inline(always)]
    pub(super) fn as_slice(&self) -> &[T]
        ensures { result.now ≡ self.now.items.value }
    {
        self.small.reveal();
        self.items.as_slice()
    }

    // Returns a copy that shares the items.
    pub(super) fn copy(&self) -> Result<Two<T>, AllocError>
    where
        T: Drop,
        ensures { IfOk result (λ two. two.items.value ≡ self.now.items.value) }
    {
        self.small.reveal();
        Ok(Two {
            small: Small::new(),
            items: self.items.clone()?,
        })
    }
}
