ghost use Rattle.std.specs.Prelude.{◌≡◌, ℕ, ◌+◌, ◌%◌, ◌≤◌, ◌↔◌, ◌∷◌, List, IsTrue, Ok};
ghost use Rattle.c_mean.specs.Frames as source;
ghost use Rattle.c_lower.specs.ProgramCode.{lowered};
ghost use Rattle.accepted_pairs.specs.Accepting.{accepted_tree};
ghost use Rattle.certificate_rules.specs.Validity.{IsValid};
ghost use Rattle.flat_code.specs.declared.operations.Op.{Op};
ghost use Rattle.machine_world.specs.InPlace as world;
ghost use Rattle.machine_world.specs.Keys.{key_of};
ghost use Rattle.machine_world.specs.Places.{Place};
ghost use Rattle.machine_world.specs.Rests.{IsResting, IsAtCall, IsPastCall};
ghost use Rattle.machine_world.specs.StandsFor.{Waits, StandsFor};
ghost use Rattle.rv_machine.specs.Step.{instruction_at};
ghost use Rattle.stack_image.specs.Addresses.{code_start};
ghost use Rattle.segment_run.specs.Contexts.{checked_of, core_of};
ghost use Rattle.segment_run.specs.Passing.{RestsAround};
ghost use Rattle.segment_run.specs.Walking.{IsRead, IsReadOf};

use crate::contexts::Context;
use crate::places::call_at;
use crate::registers::SP;
use crate::segments::are_sound;
use crate::starting::END_STUB;
use accepted_pairs::Accepted;
use cap_word::SiteKey;
use chunk_pool::ChunkPool;
use rv_code::{Instr, decode};
use stack_certificate::fact_of;
use stack_image::CODE_START;

// A frame in place: its function, its lowest address and its chunk.
#[derive(Clone, Copy)]
struct Frame {
    function: u32,
    low: u32,
    chunk: u32,
}

/// Returns the key of a thread that rests at or just after the ECALL of a call that blocks: the call's site, followed
/// by those of up to seven innermost calls below, innermost first. It reads the frames in place, across chunks.
pub fn walk(accepted: &Accepted, pool: &ChunkPool, context: &Context) -> SiteKey
    requires { RestsAround (checked_of accepted.now) pool.now (core_of pool.now context.now) }
    ensures at { (f i word : ℕ) (op : Op) (frames : List world.Frame) →
        IsAtCall (checked_of accepted.now) pool.now (core_of pool.now context.now) f i op word frames →
        result ≡ key_of (checked_of accepted.now) f i frames }
    ensures behind { (f i word : ℕ) (op : Op) (place : Place) (frames : List world.Frame) →
        IsPastCall (checked_of accepted.now) pool.now (core_of pool.now context.now) f i op word place frames →
        result ≡ key_of (checked_of accepted.now) f i frames }

    // For every source thread for which the context stands, this is its key.
    ensures source { (rests : IsResting (checked_of accepted.now) pool.now (core_of pool.now context.now)) (waiting : source.Waiting) →
        StandsFor (checked_of accepted.now) (accepted_tree accepted.now) pool.now (core_of pool.now context.now) rests (Waits waiting) →
        result ≡ source.key_of waiting }
{
    are_sound(accepted);
    let ecall = ecall_of(accepted, pool, context);
    let blocking = call_at(accepted, ecall);
    let mut frame = Frame {
        function: blocking.function,
        low: context.x[SP],
        chunk: context.chunk,
    };
    let mut sites = [0; SiteKey::MOST];
    sites[0] = blocking.site;
    for count in 1..SiteKey::MOST {
        let returns = return_of(accepted, pool, frame);
        if returns == END_STUB {
            return SiteKey::new(&sites[..count]);
        }
        let call = call_at(accepted, returns - 4);
        sites[count] = call.site;
        frame = frame_below(accepted, pool, frame, call.function);
    }
    SiteKey::new(&sites)
}

// Returns the address of the ECALL at or just after which a thread rests.
fn ecall_of(accepted: &Accepted, pool: &ChunkPool, context: &Context) -> u32
    requires { RestsAround (checked_of accepted.now) pool.now (core_of pool.now context.now) }
    ensures at { (f i word : ℕ) (op : Op) (frames : List world.Frame) →
        IsAtCall (checked_of accepted.now) pool.now (core_of pool.now context.now) f i op word frames → result ≡ context.now.pc }
    ensures behind { (f i word : ℕ) (op : Op) (place : Place) (frames : List world.Frame) →
        IsPastCall (checked_of accepted.now) pool.now (core_of pool.now context.now) f i op word place frames → result + 4 ≡ context.now.pc }
{
    if is_ecall(accepted.image().code.as_slice(), context.pc) {
        context.pc
    } else {
        context.pc - 4
    }
}

// Checks whether the word at an address is an ECALL.
fn is_ecall(code: &[u32], pc: u32) -> bool
    requires aligned { pc % 4 ≡ 0 }
    requires low { code_start ≤ pc }
    ensures { IsTrue result ↔ (instruction_at code.now pc ≡ Ok Instr.Ecall) }
{
    let Some(word) = code.get(((pc - CODE_START) / 4) as usize) else {
        return false;
    };
    let Some(instr) = decode(*word) else {
        return false;
    };
    is_call(instr)
}

// Checks whether the instruction is an ECALL.
fn is_call(instr: Instr) -> bool
    ensures { IsTrue result ↔ (instr ≡ Instr.Ecall) }
{
    matches!(instr, Instr::Ecall)
}

// Returns the return address of a frame, from its chunk's payload.
fn return_of(accepted: &Accepted, pool: &ChunkPool, frame: Frame) -> u32
    requires valid { IsValid (lowered (accepted_tree accepted.now)) accepted.now.image accepted.now.certificate }
    requires there { IsRead (checked_of accepted.now) pool.now frame }
    ensures { (chain : List ℕ) (at : world.Frame) (below : List world.Frame) → IsReadOf (checked_of accepted.now) pool.now frame chain at below → result ≡ at.returns }
{
    let start = pool.place_of(frame.chunk);
    let fact = fact_of(accepted.certificate(), frame.function);
    let offset = frame.low + fact.ra - start;
    let payload = pool.payload(frame.chunk);
    payload[(offset / 4 - 4) as usize]
}

// Returns the frame below a frame, of that function: it begins where the frame ends, or, below the first frame of a
// chunk, at the saved sp.
fn frame_below(accepted: &Accepted, pool: &ChunkPool, frame: Frame, function: u32) -> Frame
    requires valid { IsValid (lowered (accepted_tree accepted.now)) accepted.now.image accepted.now.certificate }
    requires there { (chain : List ℕ) × (at : world.Frame) × (next : world.Frame) × (below : List world.Frame) × IsReadOf (checked_of accepted.now) pool.now frame chain at (next ∷ below) }
    ensures { (chain : List ℕ) (at next : world.Frame) (below : List world.Frame) → IsReadOf (checked_of accepted.now) pool.now frame chain at (next ∷ below) → next.function ≡ function →
        IsReadOf (checked_of accepted.now) pool.now result (world.chain_below at.is_first chain) next below }
{
    let chunk_end = pool.place_of(frame.chunk) + pool.bytes_of(frame.chunk);
    let end = frame.low + fact_of(accepted.certificate(), frame.function).frame;
    if end == chunk_end {
        let chunk = match pool.chunk_at(pool.read(frame.chunk, 0)) {
            Some(chunk) => chunk,
            None => unreachable!(),
        };
        Frame {
            function,
            low: pool.read(frame.chunk, 1),
            chunk,
        }
    } else {
        Frame {
            function,
            low: end,
            chunk: frame.chunk,
        }
    }
}
