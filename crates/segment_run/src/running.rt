ghost use Rattle.std.specs.Prelude.{◌≡◌, ℕ, ◌⊎◌, List, Ok, IfSome, IsNone, map};
ghost use Rattle.machine_world.specs.Local.{system_call, local_step, trapped, Trapped};
ghost use Rattle.cap_word.specs.Calls.{call_with};
ghost use Rattle.cap_word.specs.Runs.{Stops};
ghost use Rattle.certificate_rules.specs.Validity.{IsValid};
ghost use Rattle.flat_code.specs.WellFormed.{IsWellFormed};
ghost use Rattle.rv_code.specs.Decoding.{decoding};
ghost use Rattle.rv_machine.specs.Step.{instruction_at};
ghost use Rattle.segment_laws.specs.Ways.{HasForm};
ghost use Rattle.segment_run.specs.Contexts.{checked_of, code_of};
ghost use Rattle.segment_run.specs.Safe.{IsSafe, StaysSafe};
ghost use Rattle.segment_run.specs.Turns.{thread_of, turn_of, IsAtEcall, IsTurn, IsUnderWay};

use crate::areas::Areas;
use crate::links::{end, link, unlink};
use crate::lookups::function_with_entry;
use crate::ready_turns::run_ready;
use crate::registers::{A0, A1};
use accepted_pairs::Accepted;
use cap_word::{Ask, Block, ModelledCall, SPAWN_NUMBER, TrapKind};
use rv_code::Instr;
use rv_machine::{Regs, StepResult, step_of};
use stack_certificate::{END_NUMBER, LINK_NUMBER, TRAP_NUMBER, UNLINK_NUMBER};
use stack_image::CODE_START;

// A running thread: its registers, its innermost chunk, and the number of its chunks.
#[derive(Clone, Copy)]
pub(crate) struct Thread {
    pub(crate) regs: Regs,
    pub(crate) chunk: u32,
    pub(crate) depth: u32,
}

// The outcome of a thread's call: the thread goes on, or the answer with which its segment ends.
#[derive(Clone, Copy)]
pub(crate) enum Turn {
    Goes,
    Blocks { block: Block },
    Asks { ask: Ask },
    Ends,
    Traps { kind: TrapKind },
    NoRoom,
}

// How far a thread came before a call: its registers, the remaining fuel, and the number of that call, or `None` if no
// fuel is left.
#[derive(Clone, Copy)]
pub(crate) struct Pause {
    pub(crate) regs: Regs,
    pub(crate) left: u64,
    pub(crate) call: Option<u32>,
}

// Runs a thread that never faults up to its next ECALL, or until the fuel is used up. It has local copies of the
// registers and the fuel, so that the compiler keeps pc and the fuel out of memory.
pub(crate) fn run_to_call(
    accepted: &Accepted,
    areas: &mut Areas,
    thread: Thread,
    fuel: u64,
) -> Pause
    requires formed { IsWellFormed (checked_of accepted.now).flat }
    requires form { HasForm (checked_of accepted.now) (thread_of areas.old thread) }
    requires safe { StaysSafe (checked_of accepted.now) (code_of accepted.now) (thread_of areas.old thread) }
    ensures way { IsUnderWay (checked_of accepted.now) (code_of accepted.now) (thread_of areas.old thread) fuel (thread_of areas.new (record thread { regs = result.regs })) result.left }
    ensures calls { IfSome result.call (IsAtEcall (code_of accepted.now) (thread_of areas.new (record thread { regs = result.regs })) result.left) }
    ensures spent { IsNone result.call → result.left ≡ 0 }
{
    let instrs = accepted.instrs();
    let mut regs = thread.regs;
    let mut left = fuel;
    while left > 0 {
        let running = Thread {
            regs,
            chunk: thread.chunk,
            depth: thread.depth,
        };
        let progress = run_ready(accepted, areas, running, left);
        regs = progress.regs;
        left = progress.left;
        if left == 0 {
            return Pause {
                regs,
                left,
                call: None,
            };
        }
        let instr = fetch(instrs, regs.pc);
        match step_of(instr, areas, &mut regs) {
            StepResult::Went => left -= 1,
            StepResult::Call { number } => {
                return Pause {
                    regs,
                    left,
                    call: Some(number),
                };
            }
            StepResult::Fault { .. } => unreachable!(),
        }
    }
    Pause {
        regs,
        left,
        call: None,
    }
}

// Returns the instruction at pc, from code whose words were all decoded before.
#[tactic(auto, unfolding(rv_machine::specs::Step::instruction_at))]
fn fetch(instrs: &[Option<Instr>], pc: u32) -> Instr
    requires there { (words : List ℕ) × (instr : Instr) × (instrs.now ≡ map decoding words) × (instruction_at words pc ≡ Ok instr) }
    ensures { (words : List ℕ) → instrs.now ≡ map decoding words → instruction_at words pc ≡ Ok result }
{
    match instrs.get(((pc - CODE_START) / 4) as usize) {
        Some(Some(instr)) => *instr,
        _ => unreachable!(),
    }
}

// Makes the call of a number, at an ECALL.
pub(crate) fn call(accepted: &Accepted, areas: &mut Areas, thread: &mut Thread, number: u32) -> Turn
    requires valid { IsValid (checked_of accepted.now).flat accepted.now.image accepted.now.certificate }
    requires form { HasForm (checked_of accepted.now) (thread_of areas.old thread.old) }
    requires safe { IsSafe (checked_of accepted.now) (code_of accepted.now) (thread_of areas.old thread.old) }
    requires calls { local_step (code_of accepted.now) (thread_of areas.old thread.old) ≡ system_call (thread_of areas.old thread.old) number }
    ensures { IsTurn (checked_of accepted.now) (code_of accepted.now) (thread_of areas.old thread.old) result (thread_of areas.new thread.new) }
{
    match number {
        LINK_NUMBER => {
            if link(areas, thread) {
                Turn::Goes
            } else {
                Turn::NoRoom
            }
        }
        UNLINK_NUMBER => {
            unlink(areas, thread);
            Turn::Goes
        }
        SPAWN_NUMBER => Turn::Asks {
            ask: Ask::Spawn {
                function: function_with_entry(accepted, thread.regs.x[A0]),
                argument: thread.regs.x[A1],
            },
        },
        END_NUMBER => {
            end(areas, thread);
            Turn::Ends
        }
        TRAP_NUMBER => Turn::Traps {
            kind: trap_kind(thread.regs.x[A0]),
        },
        _ => match ModelledCall::of_number(number) {
            Some(modelled) => package_call(modelled, thread.regs.x[A0], thread.regs.x[A1]),
            None => unreachable!(),
        },
    }
}

// Returns a call of the thread package other than SPAWN, with the values of a0 and a1.
fn package_call(call: ModelledCall, a: u32, b: u32) -> Turn
    ensures { result ≡ turn_of (call_with call a b) }
{
    match call {
        ModelledCall::Accept => Turn::Blocks {
            block: Block::Accept,
        },
        ModelledCall::Wait => Turn::Blocks {
            block: Block::Wait { channel: a },
        },
        ModelledCall::Sleep => Turn::Blocks {
            block: Block::Sleep { ticks: a },
        },
        ModelledCall::Yield => Turn::Blocks {
            block: Block::Yield,
        },
        ModelledCall::Take => Turn::Blocks {
            block: Block::Take {
                resource: a,
                amount: b,
            },
        },
        ModelledCall::WaitFor => Turn::Blocks {
            block: Block::WaitFor {
                channel: a,
                ticks: b,
            },
        },
        ModelledCall::Put => Turn::Asks {
            ask: Ask::Put { value: a },
        },
        ModelledCall::Give => Turn::Asks {
            ask: Ask::Give {
                resource: a,
                amount: b,
            },
        },
        ModelledCall::SelfNumber => Turn::Asks {
            ask: Ask::SelfNumber,
        },
    }
}

// Returns the kind of a trap by its number.
fn trap_kind(number: u32) -> TrapKind
    requires { (number ≡ 1) ⊎ (number ≡ 2) }
    ensures { trapped number ≡ Stops (Trapped result) }
{
    if number == 1 {
        TrapKind::Index
    } else {
        TrapKind::Table
    }
}
