//! An allocator that gives its memory once.
ghost use Rattle.std.specs.Prelude.{◌≡◌, ◌*◌, ◌%◌, ◌^◌, ◌<◌, ◌≤◌, IfSome};
ghost use base.Fml.{ftrue};

use crate::units::Units;
use std::alloc::{AllocError, Allocator};
use std::cell::Cell;

/// An allocator of one block, which stands at the front of the memory that it was made of. It refuses a block that
/// isn't whole units of 16 bytes, and all after the first that it was asked for. What it gave, and what stands
/// behind that, is not used again.
#[derive(Drop)]
pub struct Lent {
    memory: Cell<Option<Memory>>,
}

// Units, and how many they are.
#[derive(Drop)]
struct Memory {
    units: Units,
    count: usize,
    ghost counted: { count ≡ units.count },
}

impl Lent {
    /// An allocator of a block in `count` units of 16 bytes.
    pub fn new(units: Units, count: usize) -> Lent
        requires { count ≡ units.count }
    {
        Lent {
            memory: Cell::new(Some(Memory { units, count })),
        }
    }

    // The memory, if a block of `size` bytes may be given of it.
    fn take(&self, size: usize) -> Option<Units>
        ensures { IfSome result (λ units. (size ≤ units.count * 16) × (size % 16 ≡ 0) × (size < 2 ^ 63)) }
    {
        let memory = self.memory.replace(None)?;
        if size <= isize::MAX as usize && size % 16 == 0 && size / 16 <= memory.count {
            Some(memory.units)
        } else {
            None
        }
    }
}

unsafe impl Allocator for Lent {
    ghost dealloc_token = { λ _ _ _. ftrue };

    fn allocate(&self, size: usize, _align: usize) -> Result<*mut u8, AllocError> {
        match self.take(size) {
            Some(Units { ptr }) => Ok(ptr as *mut u8),
            None => Err(AllocError),
        }
    }

    unsafe fn deallocate(&self, _ptr: *mut u8, _size: usize, _align: usize) {}
}
