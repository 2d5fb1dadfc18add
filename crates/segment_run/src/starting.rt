ghost use Rattle.std.specs.Prelude.{ℕ, ◌<◌, ◌↔◌, List, [], length, IsNone, IfSome};
ghost use Rattle.c_mean.specs.Frames.{pushed, function_at};
ghost use Rattle.accepted_pairs.specs.Accepting.{accepted_tree};
ghost use Rattle.chunk_pool.specs.Pool.{taken_for, FitsNone};
ghost use Rattle.machine_world.specs.Globals.{AreGlobals};
ghost use Rattle.machine_world.specs.StandsFor.{Starts, StandsForThread};
ghost use Rattle.stack_certificate.specs.Certificates.{fact_at};
ghost use Rattle.segment_run.specs.Contexts.{checked_of, code_of, local_of, AreOf, IsReady};
ghost use Rattle.segment_run.specs.Starting.{IsStarted, first_arguments};

use crate::areas::{Areas, HEADER};
use crate::contexts::Context;
use crate::registers::{A0, RA, SP, TP};
use accepted_pairs::Accepted;
use stack_certificate::fact_of;
use stack_image::CODE_START;

// The address of the end stub, with which the code begins and to which the last frame of a thread returns.
pub(crate) const END_STUB: u32 = CODE_START;

/// Starts a new thread at the beginning of a function, with an argument in a0, on a chunk for the function's bound.
/// Returns `None` exactly if no free chunk fits that; then nothing changes. The function is one of the certificate's.
pub fn start(
    accepted: &Accepted,
    areas: &mut Areas,
    function: u32,
    argument: u32,
) -> Option<Context>
    requires areas { AreOf accepted.now areas.old }
    requires function { function < length accepted.now.certificate.functions }
    ensures none { IsNone result ↔ FitsNone areas.old.pool (fact_at accepted.now.certificate function).bound }

    // It is the machine's start of a thread, on a chunk for that bound.
    ensures machine { IsStarted (taken_for areas.old.pool (fact_at accepted.now.certificate function).bound) (fact_at accepted.now.certificate function).entry argument result areas.old areas.new }
    ensures areas { AreOf accepted.now areas.new }
    ensures ready { IfSome result (λ context. IsReady (checked_of accepted.now) (code_of accepted.now) (local_of areas.new context)) }

    // It stands for the new source thread, at its function's start.
    ensures source { IfSome result (λ context. (globals : List (List ℕ)) → AreGlobals (checked_of accepted.now).flat globals areas.new.globals →
        StandsForThread (checked_of accepted.now) (accepted_tree accepted.now) (local_of areas.new context)
        (Starts (pushed (accepted_tree accepted.now) function (first_arguments (function_at (accepted_tree accepted.now) function).params argument)) []) globals) }
{
    accepted.is_valid();
    let fact = fact_of(accepted.certificate(), function);
    let chunk = areas.pool.take(fact.bound)?;
    areas.pool.write(chunk, 0, 0);
    areas.pool.write(chunk, 1, 0);
    let place = areas.pool.place_of(chunk);
    let mut x = [0; 32];
    x[RA] = END_STUB;
    x[SP] = place + areas.pool.bytes_of(chunk);
    x[TP] = place + HEADER;
    x[A0] = argument;
    Some(Context {
        pc: fact.entry,
        x,
        chunk,
        depth: 1,
    })
}
