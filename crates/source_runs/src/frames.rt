// The frames of a thread.

ghost use Rattle.std.specs.Prelude.{◌≡◌, ◌++◌, ◌∷◌, [], OnOk};

use cap_word::{SiteKey, TrapKind};
use source_items::Item;
use std::alloc::AllocError;

/// The destination of a result: none, a name, an element whose index has been evaluated, or the caller.
#[derive(Clone, Copy)]
pub enum Place {
    Nowhere,
    Local(u32),
    Global(u32),
    LocalElement { array: u32, index: u32 },
    GlobalElement { array: u32, index: u32 },
    Returned,
}

/// What a frame does next.
#[derive(Clone, Copy)]
pub enum Next {
    /// Its items, one after another.
    Items,
    /// It returns this word, the result of the call in its `return`, and has nothing else to do.
    GiveBack(u32),
    /// It traps: a result that arrived can't be stored.
    Fail(TrapKind),
}

/// A frame: a function, the words of its names, and what it has still to do.
#[derive(Drop)]
pub struct Frame<'a> {
    pub function: u32,
    pub names: Vec<u32>,
    pub next: Next,
    pub items: Vec<Item<'a>>,
}

/// A frame that waits for the result of its call at a site.
#[derive(Drop)]
pub struct WaitingFrame<'a> {
    pub frame: Frame<'a>,
    pub site: u32,
    pub place: Place,
}

/// A thread of a source: the frame that runs, or waits at a modelled call, and the frames below it, the innermost last.
/// A frame at a modelled call waits at `site` for a result that goes to `place`.
#[derive(Drop)]
pub struct Thread<'a> {
    pub(crate) front: Frame<'a>,
    pub(crate) below: Vec<WaitingFrame<'a>>,
    pub(crate) site: u32,
    pub(crate) place: Place,
}

impl<'a> Thread<'a> {
    ghost use Rattle.c_mean.specs.Frames.{key_of};
    ghost use Rattle.c_tree.specs.Trees.{ProgramTree};
    ghost use Rattle.source_runs.specs.Threads.{waiting_of};

    /// Returns the frame that runs, or waits at a modelled call.
    pub fn front(&self) -> &Frame<'a>
        ensures { result.now ≡ self.now.front }
    {
        &self.front
    }

    /// Returns the frames below, the innermost last: each waits for the result of its call.
    pub fn below(&self) -> &[WaitingFrame<'a>]
        ensures { result.now ≡ self.now.below.items }
    {
        self.below.as_slice()
    }

    /// Returns the site of the modelled call at which the thread waits, or of the last one.
    pub fn site(&self) -> u32
        ensures { result ≡ self.now.site }
    {
        self.site
    }

    /// Returns the key of a thread at a modelled call: the site of that call, followed by those of up to seven
    /// innermost calls, innermost first.
    pub fn key(&self) -> SiteKey
        ensures { (tree : ProgramTree) → result ≡ key_of (waiting_of tree self.now) }
    {
        let mut sites = [0; SiteKey::MOST];
        sites[0] = self.site;
        let mut count: usize = 1;
        let mut left = self.below.len();
        while left > 0 && count < SiteKey::MOST {
            left -= 1;
            sites[count] = self.below[left].site;
            count += 1;
        }
        SiteKey::new(&sites[..count])
    }
}

/// Appends one element.
pub(crate) fn push<T: Drop>(list: &mut Vec<T>, element: T) -> Result<(), AllocError>
    ensures { OnOk result (list.new.items ≡ list.old.items ++ element ∷ []) }
{
    match list.push(element) {
        Ok(()) => Ok(()),
        Err(_) => Err(AllocError),
    }
}
