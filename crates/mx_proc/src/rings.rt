//! Copies of rings.

ghost use Rattle.std.specs.Prelude.{◌≡◌, IfOk};

use circular_buffer::HeapCircularBuffer;
use mx_word::NoMemory;
use std::alloc::Global;

/// A ring with the same items and the same capacity.
pub(crate) fn copy_ring<T: Copy>(
    alloc: Global,
    ring: &HeapCircularBuffer<T>,
) -> Result<HeapCircularBuffer<T>, NoMemory>
    ensures items { IfOk result (λ copy. copy.items ≡ ring.now.items) }
    ensures capacity { IfOk result (λ copy. copy.capacity ≡ ring.now.capacity) }
{
    let mut copy = HeapCircularBuffer::with_capacity(alloc, ring.capacity())?;
    let (older, newer) = ring.as_slices();
    copy.extend_from_slice(older);
    copy.extend_from_slice(newer);
    Ok(copy)
}
