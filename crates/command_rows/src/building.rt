// The world of a source.

ghost use Rattle.codegen_link.specs.Plans.{AreInRange};
ghost use Rattle.std.specs.Prelude.{◌≡◌, IfSome, IsTrue};
ghost use Rattle.command_rows.specs.Given.{IsGiven, IsMade, policy_of};
ghost use Rattle.command_rows.specs.Moments.{IsAt};
ghost use Rattle.command_rows.specs.declared.moments.Moment.TheVariants.{Between};

use accepted_pairs::Accepted;
use c_scope::read_program;
use c_tree::Program;
use codegen_link::Options;
use stack_build::build;
use std::alloc::Global;
use thread_core::{World, WorldError, WorldPolicy};

/// The stack and the policy of a world: the size of a chunk, the maximum path in bytes, the number of chunks, the fuel,
/// the maximum length of a queue, and the cap of resource 1; no other resource has a cap.
#[derive(Clone, Copy)]
pub(crate) struct Setup {
    pub(crate) chunk: u32,
    pub(crate) max_path: u32,
    pub(crate) chunks: u32,
    pub(crate) fuel: u64,
    pub(crate) backlog: u32,
    pub(crate) cap: u32,
}

/// The usual sizes, and a cap of 1.
pub(crate) const USUAL: Setup = Setup {
    chunk: 4096,
    max_path: 2032,
    chunks: 1024,
    fuel: FUEL,
    backlog: 1024,
    cap: 1,
};

/// The maximum fuel of a run.
pub(crate) const FUEL: u64 = 1_000_000_000;

fn program_of(alloc: Global, source: &[u8]) -> Option<Program> {
    if source.len() > 1_048_576 {
        return None;
    }
    match read_program(alloc, source) {
        Ok(program) => Some(program),
        Err(error) => {
            drop(error);
            None
        }
    }
}

// Returns the sizes of a setup, if they are in their ranges.
fn options_of(setup: Setup) -> Option<Options>
    ensures { IfSome result AreInRange }
{
    let chunk = setup.chunk;
    let max_path = setup.max_path;
    if chunk % 16 != 0 || chunk < 64 || chunk > 65_536 || max_path < 16 || max_path > 4_080 {
        return None;
    }
    if max_path + 16 > chunk {
        return None;
    }
    Some(Options { chunk, max_path })
}

// Checks whether the policy of a setup, for chunks of this size, is in its ranges.
fn is_given(setup: Setup, chunk: u32) -> bool
    ensures { IsTrue result → IsGiven chunk setup.chunks setup.fuel setup.backlog setup.cap }
{
    if setup.chunks == 0 || setup.chunks > 65536 || setup.backlog == 0 || setup.backlog > 4096 {
        return false;
    }
    if setup.cap > 1_000_000 || u64::from(setup.chunks) * u64::from(chunk) > 67_108_864 {
        return false;
    }
    setup.fuel <= FUEL
}

// Returns the policy of a setup's world.
fn policy(setup: Setup) -> WorldPolicy
    ensures { result ≡ policy_of setup.chunks setup.backlog setup.cap }
{
    WorldPolicy {
        chunks: setup.chunks,
        extra: 0,
        extra_bytes: 64,
        backlog: setup.backlog,
        caps: [0, setup.cap, 0, 0, 0, 0, 0, 0],
    }
}

// Returns the accepted program that `build` makes of a source.
fn accepted_of(alloc: Global, source: &[u8], options: Options) -> Option<Accepted>
    requires { AreInRange options }
{
    let program = program_of(alloc, source)?;
    match build(alloc, program, options) {
        Ok(accepted) => Some(accepted),
        Err(_) => None,
    }
}

// Returns the world in which an accepted program starts.
fn world_made(alloc: Global, accepted: Accepted, setup: Setup) -> Option<World>
    requires { IsGiven accepted.certificate.chunk setup.chunks setup.fuel setup.backlog setup.cap }
    ensures made { IfSome result (IsMade setup.chunks setup.fuel setup.backlog setup.cap) }
    ensures between { IfSome result (IsAt Between) }
{
    match World::make(alloc, accepted, policy(setup), setup.fuel) {
        Ok(world) => Some(world),
        Err(WorldError::Memory { accepted }) => {
            drop(accepted);
            None
        }
    }
}

// Returns the world in which an accepted program starts, if the setup is in its ranges.
fn start_of(alloc: Global, accepted: Accepted, setup: Setup) -> Option<World>
    ensures made { IfSome result (IsMade setup.chunks setup.fuel setup.backlog setup.cap) }
    ensures between { IfSome result (IsAt Between) }
{
    let chunk = accepted.certificate().chunk;
    if is_given(setup, chunk) {
        world_made(alloc, accepted, setup)
    } else {
        drop(accepted);
        None
    }
}

/// Returns the world of a source.
pub(crate) fn world_of(alloc: Global, source: &[u8], setup: Setup) -> Option<World>
    ensures made { IfSome result (IsMade setup.chunks setup.fuel setup.backlog setup.cap) }
    ensures between { IfSome result (IsAt Between) }
{
    let options = options_of(setup)?;
    let accepted = accepted_of(alloc, source, options)?;
    start_of(alloc, accepted, setup)
}
