// Runs an accepted program on the trace, under a policy.
ghost use Rattle.std.specs.Prelude.{◌≡◌, ◌≤◌, Some, IfOk, OnOk};
ghost use Rattle.capriccio_commands.specs.Closings.{IsClosed};
ghost use Rattle.capriccio_commands.specs.FitLogs.{TakesFit};
ghost use Rattle.command_options.specs.Options.{IsRunPolicy, IsNewMonitor};
ghost use Rattle.capriccio_commands.specs.MadeWorlds.{IsMade, setup_in, world_policy_of};
ghost use Rattle.pair_commands.specs.Runs.{RunsOn, pool_bytes, rule_of, setup_of};
ghost use Rattle.accepted_pairs.specs.Accepting.{accepted_tree};
ghost use Rattle.thread_core.specs.Making.{IsStart};
ghost use Rattle.choice_rules.specs.Policy.{by_graph, by_stride};
ghost use Rattle.command_outcomes.specs.declared.stops.Stop.TheVariants.{Failed};
ghost use Rattle.command_outcomes.specs.Steps.{RunEnds};
ghost use Rattle.capriccio_commands.specs.Ends.{IsEnd};
ghost use Rattle.resource_monitor.specs.Pressure.{AnswersCurve, IsReading, curve_value};
ghost use Rattle.resource_monitor.specs.declared.curves.Curve.TheVariants.{Knee};
ghost use Rattle.stride_rule.specs.State.{new_rule};

use crate::ended::Ended;
use accepted_pairs::Accepted;
use cap_io::{Sink, Source};
use command_options::{monitor_of, stride_rule_of};
use command_outcomes::{Fault, Stop};
use command_words::{Policy, Rule};
use resource_monitor::{Measure, Monitor, past_knee};
use runner::{RunEnd, run, run_stride};
use std::alloc::{AllocError, Global};
use stride_rule::StrideRule;
use thread_core::{World, WorldError, WorldPolicy};

/// Runs an accepted program to its stop.
pub(crate) fn run_accepted<S: Source, K: Sink>(
    alloc: Global,
    accepted: Accepted,
    policy: Policy,
    trace: &mut S,
    out: &mut K,
) -> Result<Ended, Stop>
    requires range { IsRunPolicy policy }
    requires pool { pool_bytes policy accepted.certificate ≤ 67108864 }
    ensures ends { RunEnds IsEnd
        (RunsOn (S.left trace.old)
        (setup_of (accepted_tree accepted) accepted.image accepted.certificate policy))
        (S.left trace.old) (S.left trace.new) (S.faults trace.old) (S.faults trace.new)
        (K.taken out.old) (K.taken out.new) (K.faults out.old) (K.faults out.new) result }
    ensures fits { OnOk result (TakesFit (K.taken out.old) (K.taken out.new)) }
{
    accepted.is_valid();
    match made_world(alloc, accepted, policy) {
        Ok(world) => run_world(alloc, world, policy, trace, out),
        Err(AllocError) => Err(Stop::Failed(Fault::Memory)),
    }
}

/// Returns the world of an accepted program as a run by these options starts in it.
///
/// # Errors
///
/// `AllocError` if an allocation fails; the program is dropped then.
pub fn made_world(alloc: Global, accepted: Accepted, policy: Policy) -> Result<World, AllocError>
    requires range { IsRunPolicy policy }
    requires pool { pool_bytes policy accepted.certificate ≤ 67108864 }
    ensures { IfOk result (λ world. IsStart accepted (world_policy_of policy) policy.fuel world) }
{
    match World::make(alloc, accepted, world_policy(policy), policy.fuel) {
        Ok(world) => Ok(world),
        Err(WorldError::Memory { accepted }) => {
            drop(accepted);
            Err(AllocError)
        }
    }
}

/// Drops the world of a run. The drop of a world is proved once, with the runs; callers that kept a world use this
/// function so that they needn't prove it again.
pub fn let_go(world: World) {
    drop(world)
}

/// Runs a newly made world, with the policy's knee in the pressure curves of all resources.
fn run_world<S: Source, K: Sink>(
    alloc: Global,
    world: World,
    policy: Policy,
    trace: &mut S,
    out: &mut K,
) -> Result<Ended, Stop>
    requires range { IsRunPolicy policy }
    requires made { IsMade policy world }
    ensures ends { RunEnds IsEnd (RunsOn (S.left trace.old) (setup_in world policy))
        (S.left trace.old) (S.left trace.new) (S.faults trace.old) (S.faults trace.new) (K.taken out.old)
        (K.taken out.new) (K.faults out.old) (K.faults out.new) result }
    ensures fits { OnOk result (TakesFit (K.taken out.old) (K.taken out.new)) }
{
    let knee = policy.knee;
    let call = move |used: u32, cap: u32| -> u32
        requires { (knee ≤ 999) × IsReading used cap }
        ensures { result ≡ curve_value (Knee knee) used cap }
    { past_knee(knee, used, cap) };
    run_measured(alloc, world, policy, trace, out, call)
}

/// Runs a newly made world, with this measure of pressure.
fn run_measured<S: Source, K: Sink, C: Measure + Copy + Drop>(
    alloc: Global,
    world: World,
    policy: Policy,
    trace: &mut S,
    out: &mut K,
    call: C,
) -> Result<Ended, Stop>
    requires curve { AnswersCurve (C.can_measure call) (C.measure_gives call) (Knee policy.knee) }
    requires range { IsRunPolicy policy }
    requires made { IsMade policy world }
    ensures ends { RunEnds IsEnd (RunsOn (S.left trace.old) (setup_in world policy))
        (S.left trace.old) (S.left trace.new) (S.faults trace.old) (S.faults trace.new) (K.taken out.old)
        (K.taken out.new) (K.faults out.old) (K.faults out.new) result }
    ensures fits { OnOk result (TakesFit (K.taken out.old) (K.taken out.new)) }
{
    match monitor_of(alloc, policy, call) {
        Ok(monitor) => run_by_rule(alloc, world, policy, monitor, trace, out),
        Err(AllocError) => Err(failed(world, Fault::Memory)),
    }
}

/// Runs a newly made world by the rule of its policy, with the policy's monitor.
fn run_by_rule<S: Source, K: Sink, C: Measure + Drop>(
    alloc: Global,
    world: World,
    policy: Policy,
    monitor: Monitor<C>,
    trace: &mut S,
    out: &mut K,
) -> Result<Ended, Stop>
    requires range { IsRunPolicy policy }
    requires made { IsMade policy world }
    requires monitor { IsNewMonitor policy monitor }
    ensures ends { RunEnds IsEnd (RunsOn (S.left trace.old) (setup_in world policy))
        (S.left trace.old) (S.left trace.new) (S.faults trace.old) (S.faults trace.new) (K.taken out.old)
        (K.taken out.new) (K.faults out.old) (K.faults out.new) result }
    ensures fits { OnOk result (TakesFit (K.taken out.old) (K.taken out.new)) }
{
    match policy.rule {
        Rule::Graph => run_by_graph(alloc, world, policy, monitor, trace, out),
        Rule::Stride { tickets } => match stride_rule_of(alloc, &tickets) {
            Ok(rule) => run_by_strides(alloc, world, policy, rule, monitor, trace, out),
            Err(AllocError) => {
                drop(monitor);
                Err(failed(world, Fault::Memory))
            }
        },
    }
}

/// Runs a newly made world by the priority rule.
fn run_by_graph<S: Source, K: Sink, C: Measure + Drop>(
    alloc: Global,
    mut world: World,
    policy: Policy,
    monitor: Monitor<C>,
    trace: &mut S,
    out: &mut K,
) -> Result<Ended, Stop>
    requires made { IsMade policy world }
    requires monitor { IsNewMonitor policy monitor }
    requires rule { rule_of policy.rule ≡ by_graph }
    ensures ends { RunEnds IsEnd (RunsOn (S.left trace.old) (setup_in world policy))
        (S.left trace.old) (S.left trace.new) (S.faults trace.old) (S.faults trace.new) (K.taken out.old)
        (K.taken out.new) (K.faults out.old) (K.faults out.new) result }
    ensures fits { OnOk result (TakesFit (K.taken out.old) (K.taken out.new)) }
{
    let end = run(alloc, &mut world, monitor, trace, out);
    close(world, end)
}

/// Runs a newly made world by the stride rule.
fn run_by_strides<S: Source, K: Sink, C: Measure + Drop>(
    alloc: Global,
    mut world: World,
    policy: Policy,
    rule: StrideRule,
    monitor: Monitor<C>,
    trace: &mut S,
    out: &mut K,
) -> Result<Ended, Stop>
    requires made { IsMade policy world }
    requires monitor { IsNewMonitor policy monitor }
    requires rule { rule_of policy.rule ≡ by_stride rule.tickets }
    requires fresh { rule ≡ new_rule rule.tickets }
    ensures ends { RunEnds IsEnd (RunsOn (S.left trace.old) (setup_in world policy))
        (S.left trace.old) (S.left trace.new) (S.faults trace.old) (S.faults trace.new) (K.taken out.old)
        (K.taken out.new) (K.faults out.old) (K.faults out.new) result }
    ensures fits { OnOk result (TakesFit (K.taken out.old) (K.taken out.new)) }
{
    let end = run_stride(alloc, &mut world, rule, monitor, trace, out);
    close(world, end)
}

/// Returns the part of a policy that a world uses.
fn world_policy(policy: Policy) -> WorldPolicy
    ensures { result ≡ world_policy_of policy }
{
    let caps = policy.caps;
    WorldPolicy {
        chunks: policy.chunks,
        extra: policy.extra,
        extra_bytes: policy.extra_bytes,
        backlog: policy.backlog,
        caps,
    }
}

/// Returns the end of the command from the end of its run.
fn close(world: World, end: RunEnd) -> Result<Ended, Stop>
    ensures { IsClosed world end result }
{
    match end {
        RunEnd::Done => Ok(at_stop(world, 0)),
        RunEnd::BadTrace { .. } => Ok(at_stop(world, 4)),
        RunEnd::Idle => Ok(at_stop(world, 10)),
        RunEnd::Trap { .. } => Ok(at_stop(world, 11)),
        RunEnd::NoChunk { .. } => Ok(at_stop(world, 12)),
        RunEnd::Fuel { .. } => Ok(at_stop(world, 13)),
        RunEnd::Threads { .. } => Ok(at_stop(world, 14)),
        RunEnd::ReadFault => Err(failed(world, Fault::Read)),
        RunEnd::WriteFault => Err(failed(world, Fault::Write)),
        RunEnd::Memory => Err(failed(world, Fault::Memory)),
    }
}

/// Returns the end at a fault, and drops the world.
fn failed<T: Drop>(world: T, fault: Fault) -> Stop
    ensures { result ≡ Failed fault }
{
    drop(world);
    Stop::Failed(fault)
}

/// Returns the end at a stop.
fn at_stop(world: World, status: u8) -> Ended
    ensures { result ≡ record { status = status; last = Some world } }
{
    Ended {
        status,
        last: Some(world),
    }
}
