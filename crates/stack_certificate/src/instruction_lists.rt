ghost use Rattle.std.specs.Prelude.{◌≡◌, ◌+◌, ◌<◌, ◌≤◌, [], ◌∷◌, ◌++◌, length, slice_get};

use rv_code::Instr;
use std::marker::Model;

// At most 32 instructions; one may be missing because a number in it doesn't fit its field.
#[derive(Drop)]
pub(crate) struct InstructionList {
    slots: [Option<Instr>; 32],
    len: usize,
}

impl Model for InstructionList {
    ghost use Rattle.std.specs.Prelude.{List, Option, ◌≤◌, take};
    ghost use Rattle.rv_code.specs.declared.instructions.Instr.{Instr};

    ghost Value = { List (Option Instr) };

    ghost view = { λ list. take list.len list.slots };

    ghost invariant = { λ list. list.len ≤ 32 };
}

impl InstructionList {
    // An empty list.
    pub(crate) fn new() -> InstructionList
        ensures { result ≡ [] }
    {
        InstructionList {
            slots: [None; 32],
            len: 0,
        }
    }

    // Appends an instruction.
    pub(crate) fn push(&mut self, slot: Option<Instr>)
        requires { length self.old < 32 }
        ensures { self.new ≡ self.old ++ slot ∷ [] }
    {
        self.slots[self.len] = slot;
        self.len += 1;
    }

    // The instruction at an index, or none after the end.
    pub(crate) fn get(&self, index: usize) -> Option<Option<Instr>>
        ensures { result ≡ slice_get self.now index }
    {
        if index < self.len {
            Some(self.slots[index])
        } else {
            None
        }
    }
}
