//! Memory that refuses one of its growths, and grants all others.

use std::alloc::{AllocError, Allocator};
use std::cell::Cell;

/// Memory that another allocator grants, except for one growth. All blocks are given back to that one.
pub struct Refusing<B: Allocator> {
    inner: B,
    // How many growths come up to the one that is refused, this one counted. None once it was refused.
    until: Cell<u64>,
}

impl<B: Allocator> Refusing<B> {
    /// Memory that refuses the growth of this number, counted from 1.
    pub fn new(inner: B, number: u64) -> Refusing<B> {
        Refusing {
            inner,
            until: Cell::new(number),
        }
    }

    /// Whether the growth of that number came, and was refused.
    pub fn has_refused(&self) -> bool {
        self.until.get() == 0
    }
}

impl<B: Allocator> Drop for Refusing<B> {
    fn drop(self) {
        let Self { inner: _, until: _ } = self;
    }
}

// Whether this growth is the one that is refused.
fn is_refused(until: &Cell<u64>) -> bool {
    let left = until.get();
    until.set(left.saturating_sub(1));
    left == 1
}

unsafe impl<B: Allocator> Allocator for Refusing<B> {
    ghost dealloc_token = { λ heap ty ptr. B.dealloc_token heap.inner ty ptr };

    fn allocate(&self, size: usize, align: usize) -> Result<*mut u8, AllocError> {
        if is_refused(&self.until) {
            return Err(AllocError);
        }
        self.inner.allocate(size, align)
    }

    unsafe fn deallocate(&self, ptr: *mut u8, size: usize, align: usize) {
        self.inner.deallocate(ptr, size, align);
    }
}
