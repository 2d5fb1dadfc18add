ghost use Rattle.std.specs.Prelude.{ℕ, List};
ghost use Rattle.accepted_pairs.specs.Accepting.{accepted_tree};
ghost use Rattle.certificate_rules.specs.Validity.{IsValid};
ghost use Rattle.flat_code.specs.WellFormed.{IsWellFormed};
ghost use Rattle.machine_world.specs.StandsFor.{SourceThread, StandsForThread, going_on};
ghost use Rattle.rv_machine.specs.Registers.{read};
ghost use Rattle.stack_certificate.specs.Registers.{a0};
ghost use Rattle.segment_run.specs.Contexts.{checked_of, code_of, local_of, AreOf, IsReady};
ghost use Rattle.segment_laws.specs.Ways.{HasForm};
ghost use Rattle.segment_run.specs.Safe.{StaysSafe};
ghost use Rattle.segment_run.specs.Segments.{IsSegment, KeepsChunks};
ghost use Rattle.segment_run.specs.Turns.{thread_of, KeepsCounts};
ghost use Rattle.segment_run.specs.Sources.{IsSourceAnswer};

use crate::areas::Areas;
use crate::contexts::{Context, Fuel, are_registers};
use crate::running::{Thread, Turn, call, run_to_call};
use accepted_pairs::Accepted;
use cap_word::{Ask, Block, TrapKind};
use rv_machine::Regs;

/// The answer of a segment: where its thread is.
#[derive(Clone, Copy, PartialEq, Eq)]
pub enum Segment {
    /// The thread is at the ECALL of a call that blocks.
    Blocks { block: Block },
    /// It is at the ECALL of a call that is answered at once.
    Asks { ask: Ask },
    /// It has ended, and its last chunk has been given back.
    Ends,
    /// It is at a trap of the source: an index of an array or of a table is out of range.
    Traps { kind: TrapKind },
    /// It needs a chunk, and no free chunk fits its need.
    NoChunk,
    /// No fuel is left for the next instruction.
    OutOfFuel,
}

/// Runs a thread that rests and isn't at an ECALL, until it is at the ECALL of a call of the thread package, has ended,
/// or can't continue.
///
/// It is never inlined, so that its loop has all registers of the processor in every program.
#[inline(never)]
pub fn run_segment(
    accepted: &Accepted,
    areas: &mut Areas,
    context: &mut Context,
    fuel: &mut Fuel,
) -> Segment
    requires areas { AreOf accepted.now areas.old }
    requires ready { IsReady (checked_of accepted.now) (code_of accepted.now) (local_of areas.old context.old) }

    // The thread makes the machine's steps, from good state to good state, up to the answer, and the fuel decreases by
    // those that retire.
    ensures machine { IsSegment (checked_of accepted.now) (code_of accepted.now) result (local_of areas.old context.old) fuel.old.left (local_of areas.new context.new) fuel.new.left }
    ensures chunks { KeepsChunks (local_of areas.old context.old) (local_of areas.new context.new) }
    ensures areas { AreOf accepted.now areas.new }

    // For every source thread and globals for which it stood, the answer is that thread's next call or stop.
    ensures source { (thread : SourceThread) (globals : List (List ℕ)) →
        StandsForThread (checked_of accepted.now) (accepted_tree accepted.now) (local_of areas.old context.old) thread globals →
        IsSourceAnswer (checked_of accepted.now) (accepted_tree accepted.now) (going_on thread (read context.old.x a0) globals) result (local_of areas.new context.new) }
{
    areas.are_kept();
    are_sound(accepted);
    are_registers(context);
    let mut thread = Thread {
        regs: Regs {
            pc: context.pc,
            x: context.x,
        },
        chunk: context.chunk,
        depth: context.depth,
    };
    let segment = run_turns(accepted, areas, &mut thread, fuel);
    *context = Context {
        pc: thread.regs.pc,
        x: thread.regs.x,
        chunk: thread.chunk,
        depth: thread.depth,
    };
    segment
}

// Shows the properties of every accepted program.
pub(crate) fn are_sound(accepted: &Accepted)
    ensures valid { IsValid (checked_of accepted.now).flat accepted.now.image accepted.now.certificate }
    ensures formed { IsWellFormed (checked_of accepted.now).flat }
{
    accepted.is_valid();
}

// Does the same for a thread with its registers in one value.
fn run_turns(
    accepted: &Accepted,
    areas: &mut Areas,
    thread: &mut Thread,
    fuel: &mut Fuel,
) -> Segment
    requires valid { IsValid (checked_of accepted.now).flat accepted.now.image accepted.now.certificate }
    requires formed { IsWellFormed (checked_of accepted.now).flat }
    requires form { HasForm (checked_of accepted.now) (thread_of areas.old thread.old) }
    requires safe { StaysSafe (checked_of accepted.now) (code_of accepted.now) (thread_of areas.old thread.old) }
    ensures machine { IsSegment (checked_of accepted.now) (code_of accepted.now) result (thread_of areas.old thread.old) fuel.old.left (thread_of areas.new thread.new) fuel.new.left }
    ensures counts { KeepsCounts (checked_of accepted.now) (thread_of areas.old thread.old) (thread_of areas.new thread.new) }
{
    while fuel.left > 0 {
        let pause = run_to_call(accepted, areas, *thread, fuel.left);
        thread.regs = pause.regs;
        fuel.left = pause.left;
        let Some(number) = pause.call else {
            return Segment::OutOfFuel;
        };
        match call(accepted, areas, thread, number) {
            Turn::Goes => fuel.left -= 1,
            Turn::Ends => {
                fuel.left -= 1;
                return Segment::Ends;
            }
            Turn::Blocks { block } => return Segment::Blocks { block },
            Turn::Asks { ask } => return Segment::Asks { ask },
            Turn::Traps { kind } => return Segment::Traps { kind },
            Turn::NoRoom => return Segment::NoChunk,
        }
    }
    Segment::OutOfFuel
}
