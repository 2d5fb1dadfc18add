ghost use Rattle.std.specs.Prelude.{◌≡◌, [], length, replicate, IfOk};
ghost use Rattle.circular_buffer.specs.Buffer.{buffer};

use circular_buffer::HeapCircularBuffer;
use std::alloc::{AllocError, Global};

/// Returns an empty queue for each channel.
pub(crate) fn channel_queues(
    alloc: Global,
    backlog: u32,
) -> Result<Vec<HeapCircularBuffer<u32>>, AllocError>
    ensures { IfOk result (λ queues. queues.items ≡ replicate 64 (buffer [] backlog)) }
{
    let mut queues = Vec::with_capacity(alloc, 64)?;
    for made in 0..64u32 {
        let queue = HeapCircularBuffer::with_capacity(alloc, backlog as usize)?;
        queues.push(queue)?;
        // The loop invariant uses the count.
        let _count = made;
    }
    Ok(queues)
}
