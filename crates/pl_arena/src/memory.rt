//! One block of memory: items side by side at its start, and room for more after them.
//!
//! All of the crate's raw memory is here. The functions that follow an address are proved by hand.

ghost use Rattle.std.specs.Prelude.{◌≡◌, ℕ, ◌<◌, List, [], length, slice_index_or, IfOk, ⊤};
ghost use Rattle.std.specs.Borrow.{sem};
ghost use Rattle.std.specs.Vec.Ownership.{FitsInBlock};
ghost use base.Fml.{ftrue};
ghost use denote.RawPtr.{Ptr};
ghost use Rattle.pl_arena.specs.Ownership.{items_own, items_lent, deed_owns};

use std::alloc::{AllocError, Allocator};
use std::marker::{Model, PhantomData, Send, Sync};
use std::mem::{align_of, size_of};
use std::slice;

/// The address of the first item. It owns nothing.
pub(crate) struct Start<T> {
    first: *mut T,
}

impl<T> Clone for Start<T> {
    ghost is_clone = { λ old new. new ≡ old };

    ghost is_infallible = { λ _. ⊤ };

    fn clone(&self) -> Result<Start<T>, AllocError> {
        Ok(*self)
    }
}

impl<T> Copy for Start<T> {}

unsafe impl<T> Send for Start<T> {}

unsafe impl<T> Sync for Start<T> {}

/// The owner of the items and of the room after them. It takes no space itself.
pub(crate) struct Items<T> {
    mark: PhantomData<*const T>,
    ghost at: { Ptr },
    ghost items: { List T },
    // for how many items more there is room
    ghost room: { ℕ },
}

impl<T> Model for Items<T> {
    ghost also_owns = { λ i. items_own T.row i.at i.items i.room };

    ghost also_shares = { λ i _ κ. items_lent T.row i.at i.items i.room κ };
}

unsafe impl<T: Send> Send for Items<T> {}

unsafe impl<T: Sync> Sync for Items<T> {}

/// The right to give a block back to its allocator. It takes no space.
pub(crate) struct Deed<T, A: Allocator> {
    mark: PhantomData<*const (T, A)>,
    ghost at: { Ptr },
    // for how many items the block is
    ghost len: { ℕ },
    ghost alloc: { A },
}

impl<T, A: Allocator> Model for Deed<T, A> {
    ghost also_owns = { λ d. deed_owns T.row (A.dealloc_token d.alloc) d.at d.len };

    ghost also_shares = { λ _ _ _. ftrue };
}

unsafe impl<T, A: Allocator + Send> Send for Deed<T, A> {}

// A `&` to it holds nothing.
unsafe impl<T, A: Allocator> Sync for Deed<T, A> {}

impl<T> Items<T> {
    ghost use Rattle.pl_arena.specs.Block.{HasMore, IsMemoryBlock};
    ghost use Rattle.pl_arena.specs.Writes.{LendsItem, LendsItems};

    /// Allocates a block with room for `len` items.
    pub(crate) fn allocate<A: Allocator>(
        alloc: &A,
        len: usize,
    ) -> Result<(Start<T>, Items<T>, Deed<T, A>), AllocError>
        requires fits { FitsInBlock T.row len }
        ensures block { IfOk result (λ r.
            IsMemoryBlock r.0 r.1 r.2 len alloc.now × (r.1.items ≡ [])) }
    {
        match alloc.allocate(len * size_of::<T>(), align_of::<T>()) {
            Ok(block) => {
                let start = Start {
                    first: block as *mut T,
                };
                Ok((
                    start,
                    Items { mark: PhantomData },
                    Deed { mark: PhantomData },
                ))
            }
            Err(error) => Err(error),
        }
    }

    /// Gives the block of `len` items back. The items are not dropped.
    pub(crate) fn deallocate<A: Allocator>(
        alloc: &A,
        start: Start<T>,
        len: usize,
        items: Items<T>,
        deed: Deed<T, A>,
    )
        requires block { IsMemoryBlock start items deed len alloc.now }
    {
        let Items { mark: _ } = items;
        let Deed { mark: _ } = deed;
        unsafe {
            alloc.deallocate(
                start.first as *mut u8,
                len * size_of::<T>(),
                align_of::<T>(),
            );
        }
    }

    /// Writes an item after the `len` that there are.
    pub(crate) fn push(&mut self, start: Start<T>, len: usize, item: T)
        requires room { (start.first ≡ self.old.at) × (len ≡ length self.old.items)
            × (0 < self.old.room) }
        ensures value { HasMore self.old item self.new }
    {
        unsafe { start.first.add(len).write(item) }
    }

    /// The `len` items.
    pub(crate) fn as_slice(&self, start: Start<T>, len: usize) -> &[T]
        requires block { (start.first ≡ self.now.at) × (len ≡ length self.now.items) }
        ensures value { result.now ≡ self.now.items }
    {
        unsafe { slice::from_raw_parts(start.first, len) }
    }

    /// The item at the index, to be written.
    pub(crate) fn get_mut(&mut self, start: Start<T>, index: usize) -> &mut T
        requires within { (start.first ≡ self.old.at) × (index < length self.old.items) }
        ensures* writes_back { sem 𝓛 (LendsItem T.row self.entry index result) }
        ensures value { (d : T) → slice_index_or self.old.items index d ≡ result.now }
    {
        unsafe { &mut *start.first.add(index) }
    }

    /// The `len` items, to be written.
    pub(crate) fn as_mut_slice(&mut self, start: Start<T>, len: usize) -> &mut [T]
        requires block { (start.first ≡ self.old.at) × (len ≡ length self.old.items) }
        ensures* writes_back { sem 𝓛 (LendsItems T.row self.entry len result) }
        ensures value { result.now ≡ self.old.items }
    {
        unsafe { slice::from_raw_parts_mut(start.first, len) }
    }
}
