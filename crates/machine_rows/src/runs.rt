// A program from its text, and its first thread run to a stop.

ghost use Rattle.std.specs.Prelude.{◌<◌, IfOk, IfSome};
ghost use Rattle.codegen_link.specs.Plans.{AreInRange};
ghost use Rattle.flat_code.specs.declared.operations.Op.{Op};
ghost use Rattle.segment_run.specs.Contexts.{checked_of, code_of, local_of, AreOf, IsOwned, IsReady};
ghost use Rattle.segment_run.specs.Safe.{RestsAtCall};

use accepted_pairs::Accepted;
use c_scope::read_program;
use cap_word::{Ask, SiteKey, add};
use chunk_pool::ChunkPool;
use codegen_link::Options;
use segment_run::{
    Areas, Context, Fuel, Segment, reply, retire, run_segment, sizes_law, start, walk,
};
use stack_build::build;
use std::alloc::{AllocError, Global};

/// A thread with its areas.
#[derive(Drop)]
pub struct Begun {
    pub areas: Areas,
    pub context: Context,
}

/// The outcome of a thread: its first and its last answer, the sum of what it put, the key of the call at which it
/// blocked, the remaining fuel, and the number of free chunks.
#[derive(Clone, Copy, PartialEq, Eq)]
pub struct Outcome {
    pub first: Option<Segment>,
    pub last: Option<Segment>,
    pub sum: u32,
    pub key: Option<SiteKey>,
    pub left: u64,
    pub free: u32,
}

/// Returns the accepted program that `build` makes of a source, or `None` if it makes none.
pub fn accepted_of(alloc: Global, source: &[u8], options: Options) -> Option<Accepted>
    requires { AreInRange options }
{
    if source.len() > 1_048_576 {
        return None;
    }
    let Ok(program) = read_program(alloc, source) else {
        return None;
    };
    match build(alloc, program, options) {
        Ok(accepted) => Some(accepted),
        Err(_) => None,
    }
}

/// Returns a thread at the start of a program's `main`, over this number of chunks, or `None` if there is no such pool.
#[tactic(auto, unfolding(chunk_pool::specs::Pool::first_bytes_in))]
pub fn begin(alloc: Global, accepted: &Accepted, chunks: u32) -> Result<Option<Begun>, AllocError>
    ensures areas { IfOk result (λ some. IfSome some (λ begun. AreOf accepted.now begun.areas)) }
    ensures ready { IfOk result (λ some. IfSome some (λ begun. IsReady (checked_of accepted.now) (code_of accepted.now) (local_of begun.areas begun.context))) }
{
    sizes_law(accepted);
    let bytes = accepted.certificate().chunk;
    if chunks == 0 || chunks > 65_536 || u64::from(chunks) * u64::from(bytes) > 67_108_864 {
        return Ok(None);
    }
    let main = accepted.flat().main_number();
    if main as usize >= accepted.certificate().functions.len() {
        return Ok(None);
    }
    let pool = ChunkPool::new(alloc, chunks, bytes, 0, 64)?;
    let mut areas = Areas::new(alloc, accepted.image(), pool)?;
    match start(accepted, &mut areas, main, 0) {
        Some(context) => Ok(Some(Begun { areas, context })),
        None => {
            drop(areas);
            Ok(None)
        }
    }
}

/// Runs a thread with this fuel until it blocks, ends or can't continue. It passes each call that is answered at once,
/// and also the one at which it blocks.
pub fn run_on(accepted: &Accepted, begun: Begun, left: u64) -> Outcome
    requires areas { AreOf accepted.now begun.areas }
    requires ready { IsReady (checked_of accepted.now) (code_of accepted.now) (local_of begun.areas begun.context) }
{
    let Begun {
        mut areas,
        mut context,
    } = begun;
    let mut fuel = Fuel { left };
    let mut outcome = nothing_yet();
    for _ in 0..1_000_000u32 {
        let segment = run_segment(accepted, &mut areas, &mut context, &mut fuel);
        outcome = with_answer(outcome, segment);
        match segment {
            Segment::Asks { ask } => {
                pass(accepted, &areas, &mut context, &mut fuel, result_of(ask));
            }
            Segment::Blocks { .. } => {
                outcome.key = Some(walk(accepted, areas.pool(), &context));
                pass(accepted, &areas, &mut context, &mut fuel, None);
                break;
            }
            _ => break,
        }
    }
    outcome.left = fuel.left;
    outcome.free = areas.pool().free();
    drop(areas);
    outcome
}

fn nothing_yet() -> Outcome {
    Outcome {
        first: None,
        last: None,
        sum: 0,
        key: None,
        left: 0,
        free: 0,
    }
}

// Returns an outcome with one more answer.
fn with_answer(outcome: Outcome, segment: Segment) -> Outcome {
    let value = match segment {
        Segment::Asks {
            ask: Ask::Put { value },
        } => value,
        _ => 0,
    };
    Outcome {
        first: outcome.first.or(Some(segment)),
        last: Some(segment),
        sum: add(outcome.sum, value),
        ..outcome
    }
}

// Returns the result of a call that is answered at once: here the thread has the number 5, and the next one 6.
fn result_of(ask: Ask) -> Option<u32> {
    match ask {
        Ask::SelfNumber => Some(5),
        Ask::Spawn { .. } => Some(6),
        Ask::Put { .. } | Ask::Give { .. } => None,
    }
}

// Passes the call at which a thread is, with its result, if it gives one.
fn pass(
    accepted: &Accepted,
    areas: &Areas,
    context: &mut Context,
    fuel: &mut Fuel,
    answer: Option<u32>,
)
    requires stands { (op : Op) × RestsAtCall (checked_of accepted.now) (local_of areas.now context.old) op }
    requires owned { IsOwned areas.now.pool (local_of areas.now context.old).core.chain }
    requires fuel { 0 < fuel.old.left }
    ensures { IsReady (checked_of accepted.now) (code_of accepted.now) (local_of areas.now context.new) }
{
    accepted.is_valid();
    retire(context, fuel);
    if let Some(value) = answer {
        reply(context, value);
    }
}
