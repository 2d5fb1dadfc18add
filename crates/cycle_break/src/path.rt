ghost use Rattle.std.specs.Prelude.{◌≡◌, [], ◌∷◌, ◌++◌, IfNone, OnOk};
ghost use Rattle.std.specs.Option.{option_to_list};

use std::alloc::{AllocError, Global};
use std::marker::Model;

/// A function that the walk has entered, and the index of its next site.
#[derive(Clone, Copy)]
pub(crate) struct Frame {
    pub(crate) function: u32,
    pub(crate) place: usize,
}

/// The functions that the walk has entered and not left. Contracts see the innermost first.
#[derive(Drop)]
pub(crate) struct Path {
    frames: Vec<Frame>,
}

impl Model for Path {
    ghost use Rattle.std.specs.Prelude.{List, reverse};
    ghost use Rattle.cycle_break.specs.declared.path.Frame.{Frame};

    ghost Value = { List Frame };

    ghost view = { λ path. reverse path.frames.items };
}

impl Path {
    pub(crate) fn new(alloc: Global) -> Path
        ensures { result ≡ [] }
    {
        Path {
            frames: Vec::new(alloc),
        }
    }

    pub(crate) fn enter(&mut self, frame: Frame) -> Result<(), AllocError>
        ensures { OnOk result (self.new ≡ frame ∷ self.old) }
    {
        self.frames.push(frame)?;
        Ok(())
    }

    pub(crate) fn leave(&mut self) -> Option<Frame>
        ensures frames { self.old ≡ option_to_list result ++ self.new }
        ensures none { IfNone result (self.old ≡ []) }
    {
        self.frames.pop()
    }
}
