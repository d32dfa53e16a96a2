//! A heap without room.

use bumpalo::Bump;
use geom::NoMemory;
use std::alloc::Global;

/// Leaves no room in a heap.
pub fn use_up(heap: &Bump<Global>) -> Result<(), NoMemory> {
    heap.set_allocation_limit(Some(0));
    heap.try_alloc_slice_fill_clone(heap.chunk_capacity(), 0u8)?;
    match heap.try_alloc(0u8) {
        Ok(_) => Err(NoMemory),
        Err(_) => Ok(()),
    }
}
