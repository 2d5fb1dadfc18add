// Reads and builds a source, and runs its program in memory.
ghost use Rattle.std.specs.Prelude.{◌∷◌, ◌≡◌, ◌≤◌, drop, IfOk, IsTrue, replicate};
ghost use Rattle.resource_monitor.specs.Pressure.{AnswersCurve, IsReading, curve_value};
ghost use Rattle.resource_monitor.specs.declared.curves.Curve.TheVariants.{Linear};
ghost use Rattle.command_rows.specs.Given.{IsMade, caps_of};

use crate::building::{Setup, world_of};
use cap_io::{MemSink, MemSource};
use resource_monitor::{Curve, Gauge, Measure, Monitor};
use runner::{RunEnd, run};
use std::alloc::{AllocError, Global};
use thread_core::World;

/// The input of a run: its source, setup and trace, the reads and the writes that fail (0 for none), and the number of
/// bytes of a read or a write, at least 1.
#[derive(Clone, Copy)]
pub(crate) struct Given<'a> {
    pub(crate) source: &'a [u8],
    pub(crate) setup: Setup,
    pub(crate) trace: &'a [u8],
    pub(crate) read: u64,
    pub(crate) write: u64,
    pub(crate) bytes: u32,
}

/// The share of a log that was written.
#[derive(Clone, Copy, PartialEq, Eq)]
pub(crate) enum Share {
    /// All of it.
    Whole,
    /// A proper prefix.
    Beginning,
    /// None of it.
    Nothing,
    /// Something that isn't a prefix.
    Other,
}

/// The thresholds of the gate.
const HIGH: u32 = 900;

const LOW: u32 = 700;

// Returns the share of a log that these bytes are.
fn share_of(bytes: &[u8], log: &[u8]) -> Share {
    if bytes == log {
        Share::Whole
    } else if bytes.is_empty() {
        Share::Nothing
    } else if log.starts_with(bytes) {
        Share::Beginning
    } else {
        Share::Other
    }
}

// Returns the calls of a stream that fail.
fn failing(alloc: Global, call: u64) -> Result<Vec<u64>, AllocError> {
    let mut calls = Vec::new(alloc);
    if call > 0 {
        calls.push(call)?;
    }
    Ok(calls)
}

fn trace_of(alloc: Global, given: &Given) -> Result<MemSource, AllocError> {
    let fails = failing(alloc, given.read)?;
    let bytes = given.trace.to_vec(alloc)?;
    Ok(MemSource::new(bytes, given.bytes.max(1), fails))
}

fn log_of(alloc: Global, given: &Given) -> Result<MemSink, AllocError> {
    let fails = failing(alloc, given.write)?;
    Ok(MemSink::new(alloc, given.bytes.max(1), fails))
}

/// Checks whether a run ends in this way, and writes this share of this log.
pub(crate) fn ends(alloc: Global, given: &Given, end: RunEnd, share: Share, log: &[u8]) -> bool {
    match trace_of(alloc, given) {
        Ok(mut trace) => {
            let is_so = writes(alloc, given, end, share, log, &mut trace);
            drop(trace);
            is_so
        }
        Err(_) => false,
    }
}

// Does the same on a trace.
fn writes(
    alloc: Global,
    given: &Given,
    end: RunEnd,
    share: Share,
    log: &[u8],
    trace: &mut MemSource,
) -> bool {
    match log_of(alloc, given) {
        Ok(mut out) => {
            let came = run_source(alloc, given.source, given.setup, trace, &mut out);
            let is_so = is_end(came, end) && share_of(out.bytes(), log) == share;
            drop(out);
            is_so
        }
        Err(_) => false,
    }
}

fn is_end(came: Option<RunEnd>, end: RunEnd) -> bool {
    match came {
        Some(came) => came == end,
        None => false,
    }
}

// Runs what is built of a source on a trace, and returns how the run ended, or `None` if the source isn't built.
fn run_source(
    alloc: Global,
    source: &[u8],
    setup: Setup,
    trace: &mut MemSource,
    out: &mut MemSink,
) -> Option<RunEnd> {
    let world = world_of(alloc, source, setup)?;
    run_world(alloc, world, setup, trace, out)
}

// Runs a newly made world, with linear pressure curves of all resources.
fn run_world(
    alloc: Global,
    world: World,
    setup: Setup,
    trace: &mut MemSource,
    out: &mut MemSink,
) -> Option<RunEnd>
    requires made { IsMade setup.chunks setup.fuel setup.backlog setup.cap world }
{
    let linear = |used: u32, cap: u32| -> u32
        requires { IsReading used cap }
        ensures { result ≡ curve_value Linear used cap }
    { 1000 * used / cap };
    run_measured(alloc, world, setup, trace, out, linear)
}

// Runs it with this measure of pressure.
fn run_measured<C: Measure + Copy + Drop>(
    alloc: Global,
    mut world: World,
    setup: Setup,
    trace: &mut MemSource,
    out: &mut MemSink,
    call: C,
) -> Option<RunEnd>
    requires curve { AnswersCurve (C.can_measure call) (C.measure_gives call) Linear }
    requires made { IsMade setup.chunks setup.fuel setup.backlog setup.cap world }
{
    match monitor_of(alloc, setup, call) {
        Ok(monitor) => {
            let end = run(alloc, &mut world, monitor, trace, out);
            drop(world);
            Some(end)
        }
        Err(_) => {
            drop(world);
            None
        }
    }
}

// Returns the monitor of a setup, with eight gauges of this measure.
fn monitor_of<C: Measure + Copy>(
    alloc: Global,
    setup: Setup,
    call: C,
) -> Result<Monitor<C>, AllocError>
    requires curve { AnswersCurve (C.can_measure call) (C.measure_gives call) Linear }
    requires few { setup.chunks ≤ 65536 }
    requires units { setup.cap ≤ 1000000 }
    ensures { IfOk result (λ monitor. (monitor.curves ≡ replicate 8 Linear) × (monitor.caps ≡ setup.chunks ∷ drop 1 (caps_of setup.cap)) × (monitor.high ≡ 900) × (monitor.low ≡ 700) × IsTrue monitor.is_open) }
{
    let mut gauges = Vec::new(alloc);
    for _ in 0..8usize {
        gauges.push(Gauge::new(Curve::Linear, call))?;
    }
    let caps = [setup.chunks, setup.cap, 0, 0, 0, 0, 0, 0];
    Ok(Monitor::new(gauges, caps, HIGH, LOW))
}
