//! An allocator that refuses one request, and every one once it is closed.

ghost use Rattle.std.specs.Prelude.{◌≡◌, IfSome};

use std::alloc::{AllocError, Allocator};
use std::sync::atomic::{AtomicBool, AtomicU64, Ordering};

/// An allocator that passes requests on but for one, until it refuses all.
#[derive(Drop)]
pub struct Refusing<B> {
    inner: B,
    left: AtomicU64,
    is_closed: AtomicBool,
}

impl<B> Refusing<B> {
    /// Refuses the request of this number, counted from 0.
    pub fn new(inner: B, number: u64) -> Refusing<B> {
        Refusing {
            inner,
            left: AtomicU64::new(number),
            is_closed: AtomicBool::new(false),
        }
    }

    /// Refuses every request from now on.
    pub fn close(&self) {
        self.is_closed.store(true, Ordering::SeqCst);
    }

    /// The allocator behind, where this request is not the one to refuse.
    fn lent(&self) -> Option<&B>
        ensures { IfSome result (λ h. h.now ≡ self.now.inner) }
    {
        if self.is_closed.load(Ordering::SeqCst) || self.left.fetch_sub(1, Ordering::SeqCst) == 0 {
            return None;
        }
        Some(&self.inner)
    }
}

unsafe impl<B: Allocator> Allocator for Refusing<B> {
    ghost dealloc_token = { λ heap ty ptr. B.dealloc_token heap.inner ty ptr };

    fn allocate(&self, size: usize, align: usize) -> Result<*mut u8, AllocError> {
        match self.lent() {
            Some(alloc) => alloc.allocate(size, align),
            None => Err(AllocError),
        }
    }

    unsafe fn deallocate(&self, ptr: *mut u8, size: usize, align: usize) {
        self.inner.deallocate(ptr, size, align);
    }
}
