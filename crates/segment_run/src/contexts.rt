ghost use Rattle.std.specs.Prelude.{◌≡◌, ℕ, ◌+◌, ◌-◌, ◌^◌, ◌<◌, List, length};
ghost use Rattle.c_lower.specs.ProgramCode.{lowered};
ghost use Rattle.c_mean.specs.Frames.{Waiting};
ghost use Rattle.accepted_pairs.specs.Accepting.{accepted_tree};
ghost use Rattle.accepted_pairs.specs.declared.accepted.Accepted.{Accepted};
ghost use Rattle.certificate_rules.specs.Validity.{IsValid};
ghost use Rattle.machine_world.specs.Areas.{Areas};
ghost use Rattle.machine_world.specs.WellFormed.{AreWords};
ghost use Rattle.rv_machine.specs.Registers.{write};
ghost use Rattle.stack_certificate.specs.Registers.{a0};
ghost use Rattle.segment_run.specs.Contexts.{checked_of, code_of, local_of};
ghost use Rattle.segment_run.specs.Passing.{RestsBefore, RestsBehind, WaitsBefore, WaitsBehind};

use crate::registers::A0;

/// The number of instructions that may still retire.
#[derive(Clone, Copy)]
pub struct Fuel {
    /// The number of instructions that may still retire.
    pub left: u64,
}

/// A thread between two segments: its pc, its registers by number, its innermost chunk, and the number of its chunks.
/// The headers of its chunks name the others.
#[derive(Clone, Copy)]
pub struct Context {
    /// The address of the next instruction.
    pub pc: u32,
    /// The values of the registers, by number.
    pub x: [u32; 32],
    /// The innermost chunk.
    pub chunk: u32,
    /// The number of chunks that it holds.
    pub depth: u32,
}

/// Retires one instruction: pc advances to the next, and the fuel decreases by one. At the ECALL of a call of the
/// thread package, this passes the call. pc is below 2^32 - 4, and some fuel is left.
pub fn retire(context: &mut Context, fuel: &mut Fuel)
    requires pc { context.old.pc < 2 ^ 32 - 4 }
    requires fuel { 0 < fuel.old.left }
    ensures passed { context.new ≡ record context.old { pc = context.old.pc + 4 } }
    ensures fuel { fuel.new.left + 1 ≡ fuel.old.left }
    ensures rests { (accepted : Accepted) (areas : Areas) → IsValid (lowered (accepted_tree accepted)) accepted.image accepted.certificate →
        RestsBefore (checked_of accepted) (local_of areas context.old) → RestsBehind (checked_of accepted) (code_of accepted) (local_of areas context.new) }
    ensures waits { (accepted : Accepted) (areas : Areas) (waiting : Waiting) (globals : List (List ℕ)) → IsValid (lowered (accepted_tree accepted)) accepted.image accepted.certificate →
        WaitsBefore (checked_of accepted) (accepted_tree accepted) (local_of areas context.old) waiting globals →
        WaitsBehind (checked_of accepted) (accepted_tree accepted) (local_of areas context.new) waiting globals }
{
    context.pc += 4;
    fuel.left -= 1;
}

/// Sets register a0. Just after an ECALL this is the call's result.
pub fn reply(context: &mut Context, value: u32)
    ensures result { context.new ≡ record context.old { x = write context.old.x a0 value } }
    ensures rests { (accepted : Accepted) (areas : Areas) → RestsBehind (checked_of accepted) (code_of accepted) (local_of areas context.old) → RestsBehind (checked_of accepted) (code_of accepted) (local_of areas context.new) }
    ensures waits { (accepted : Accepted) (areas : Areas) (waiting : Waiting) (globals : List (List ℕ)) →
        WaitsBehind (checked_of accepted) (accepted_tree accepted) (local_of areas context.old) waiting globals →
        WaitsBehind (checked_of accepted) (accepted_tree accepted) (local_of areas context.new) waiting globals }
{
    context.x[A0] = value;
}

// Shows that the registers of every context are words.
pub(crate) fn are_registers(context: &Context)
    ensures pc { context.now.pc < 2 ^ 32 }
    ensures count { length context.now.x ≡ 32 }
    ensures registers { AreWords context.now.x }
{
    let _pc = context.pc;
    let _register = context.x[0];
    are_words(&context.x);
}

// Shows that values of type `u32` are words.
fn are_words(values: &[u32])
    ensures { AreWords values.now }
{
    let _count = values.len();
}
