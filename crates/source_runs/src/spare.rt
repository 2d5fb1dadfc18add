// The memory of frames that have ended, for later frames.

ghost use Rattle.std.specs.Prelude.{◌≡◌, [], IfOk};

use crate::frames::{Frame, push};
use source_items::Item;
use std::alloc::{AllocError, Global};
use std::mem;

/// The memory of the frames that have ended in a run, which later frames of the run reuse.
#[derive(Drop)]
pub(crate) struct Spare<'a> {
    pub(crate) alloc: Global,
    pub(crate) names: Vec<Vec<u32>>,
    pub(crate) items: Vec<Vec<Item<'a>>>,
}

/// Returns an empty list in spare memory, or a new one with room for `count` elements if there is
/// none.
#[inline(always)]
fn taken<T: Drop>(
    alloc: Global,
    spare: &mut Vec<Vec<T>>,
    count: usize,
) -> Result<Vec<T>, AllocError>
    ensures { IfOk result (λ list. list.items ≡ []) }
{
    match spare.pop() {
        Some(list) => {
            let mut list = list;
            list.clear();
            Ok(list)
        }
        None => Vec::with_capacity(alloc, count),
    }
}

impl<'a> Spare<'a> {
    /// Returns no spare memory.
    pub(crate) fn new(alloc: Global) -> Spare<'a> {
        Spare {
            alloc,
            names: Vec::new(alloc),
            items: Vec::new(alloc),
        }
    }

    /// Returns an empty list of words.
    #[inline(always)]
    pub(crate) fn words(&mut self, count: usize) -> Result<Vec<u32>, AllocError>
        ensures { IfOk result (λ words. words.items ≡ []) }
    {
        taken(self.alloc, &mut self.names, count)
    }

    /// Returns an empty stack of items.
    #[inline(always)]
    pub(crate) fn stack(&mut self, count: usize) -> Result<Vec<Item<'a>>, AllocError>
        ensures { IfOk result (λ items. items.items ≡ []) }
    {
        taken(self.alloc, &mut self.items, count)
    }

    /// Keeps the memory of a frame that has ended; frees it if it can't be added to the list.
    #[inline(always)]
    pub(crate) fn keep(&mut self, frame: &mut Frame<'a>) {
        let names = mem::replace(&mut frame.names, Vec::new(self.alloc));
        let items = mem::replace(&mut frame.items, Vec::new(self.alloc));
        let _names = push(&mut self.names, names);
        let _items = push(&mut self.items, items);
    }
}
