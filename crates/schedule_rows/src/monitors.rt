// Uses, their pressures, and the gate after them.

ghost use Rattle.std.specs.Prelude.{◌≡◌, ◌≤◌, [], ◌∷◌, IfOk, vec_len};
ghost use Rattle.resource_monitor.specs.Pressure.{AnswersCurve, IsInRange, IsReading, curve_value};
ghost use Rattle.resource_monitor.specs.declared.curves.Curve.TheVariants.{Linear, Knee};

use resource_monitor::{Curve, Gauge, Measure, Monitor};
use std::alloc::{AllocError, Global};

/// The uses of resources 1 and 2, their pressures, and the gate after them.
type Row = (u32, u32, u32, u32, bool);

// Caps of 10 for resource 1 and of 3 for resource 2.
const ROWS: &[Row] = &[
    (9, 0, 900, 0, false),
    (8, 0, 800, 0, false),
    (7, 0, 700, 0, true),
    (8, 0, 800, 0, true),
    (7, 3, 700, 1000, false),
    (0, 2, 0, 666, true),
];

// Returns a gauge for each of the eight resources.
fn gauges_of<C: Measure + Copy>(
    alloc: Global,
    curve: Curve,
    call: C,
) -> Result<Vec<Gauge<C>>, AllocError>
    requires in_range { IsInRange curve }
    requires answers { AnswersCurve (C.can_measure call) (C.measure_gives call) curve }
    ensures { IfOk result (λ gauges. vec_len gauges ≡ 8) }
{
    let mut gauges = Vec::new(alloc);
    for _ in 0..8usize {
        gauges.push(Gauge::new(curve, call))?;
    }
    Ok(gauges)
}

/// Returns a monitor with a curve, and the caps of resources 1 and 2.
pub(crate) fn monitor_of<C: Measure + Copy>(
    alloc: Global,
    curve: Curve,
    call: C,
    first: u32,
    second: u32,
) -> Result<Monitor<C>, AllocError>
    requires in_range { IsInRange curve }
    requires answers { AnswersCurve (C.can_measure call) (C.measure_gives call) curve }
    requires first_small { first ≤ 10 }
    requires second_small { second ≤ 10 }
    ensures { IfOk result (λ monitor. monitor.caps ≡ 0 ∷ first ∷ second ∷ 0 ∷ 0 ∷ 0 ∷ 0 ∷ 0 ∷ []) }
{
    match gauges_of(alloc, curve, call) {
        Ok(gauges) => { Ok(Monitor::new(gauges, [0, first, second, 0, 0, 0, 0, 0], 900, 700)) }
        Err(error) => Err(error),
    }
}

fn observe_two<C: Measure>(monitor: &mut Monitor<C>, first: u32, second: u32)
    requires caps { monitor.old.caps ≡ 0 ∷ 10 ∷ 3 ∷ 0 ∷ 0 ∷ 0 ∷ 0 ∷ 0 ∷ [] }
    requires first_fits { first ≤ 10 }
    requires second_fits { second ≤ 3 }
    ensures { monitor.new.caps ≡ monitor.old.caps }
{
    monitor.observe([0, first, second, 0, 0, 0, 0, 0]);
}

// Checks whether the pressures and the gate are those of a row.
fn is_row<C: Measure>(monitor: &Monitor<C>, row: &Row) -> bool {
    monitor.pressure(0) == 0
        && monitor.pressure(1) == row.2
        && monitor.pressure(2) == row.3
        && monitor.gate() == row.4
}

// Checks whether the pressures and the gate are those of each row.
fn follows_rows<C: Measure>(monitor: &mut Monitor<C>, rows: &[Row]) -> bool
    requires { monitor.old.caps ≡ 0 ∷ 10 ∷ 3 ∷ 0 ∷ 0 ∷ 0 ∷ 0 ∷ 0 ∷ [] }
{
    let mut is_so = monitor.gate() && monitor.pressure(1) == 0;
    for row in rows {
        if row.0 > 10 || row.1 > 3 {
            return false;
        }
        observe_two(monitor, row.0, row.1);
        is_so = is_row(monitor, row) && is_so;
    }
    is_so
}

/// Checks whether the gate follows the pressure, as in each row.
pub(crate) fn gate_follows<C: Measure + Copy>(alloc: Global, call: C) -> bool
    requires { AnswersCurve (C.can_measure call) (C.measure_gives call) Linear }
{
    match monitor_of(alloc, Curve::Linear, call, 10, 3) {
        Ok(mut monitor) => {
            let is_so = follows_rows(&mut monitor, ROWS);
            drop(monitor);
            is_so
        }
        Err(_) => false,
    }
}

fn observe_four<C: Measure>(monitor: &mut Monitor<C>, used: u32)
    requires caps { monitor.old.caps ≡ 0 ∷ 4 ∷ 0 ∷ 0 ∷ 0 ∷ 0 ∷ 0 ∷ 0 ∷ [] }
    requires fits { used ≤ 4 }
    ensures { monitor.new.caps ≡ monitor.old.caps }
{
    monitor.observe([0, used, 0, 0, 0, 0, 0, 0]);
}

// Checks whether these are the pressures of resource 1 at uses from 0 to 4.
fn follows_curve<C: Measure>(monitor: &mut Monitor<C>, pressures: &[u32; 5]) -> bool
    requires { monitor.old.caps ≡ 0 ∷ 4 ∷ 0 ∷ 0 ∷ 0 ∷ 0 ∷ 0 ∷ 0 ∷ [] }
{
    let mut is_so = true;
    for used in 0..5u32 {
        observe_four(monitor, used);
        is_so = monitor.pressure(1) == pressures[used as usize] && is_so;
    }
    is_so
}

/// Checks whether the pressures of uses from 0 to 4 of a cap of 4 are these.
pub(crate) fn curve_follows<C: Measure + Copy>(
    alloc: Global,
    curve: Curve,
    call: C,
    pressures: &[u32; 5],
) -> bool
    requires in_range { IsInRange curve }
    requires answers { AnswersCurve (C.can_measure call) (C.measure_gives call) curve }
{
    match monitor_of(alloc, curve, call, 4, 0) {
        Ok(mut monitor) => {
            let is_so = follows_curve(&mut monitor, pressures);
            drop(monitor);
            is_so
        }
        Err(_) => false,
    }
}

// The pressures of uses from 0 to 4 of a cap of 4, with a knee at half of the cap.
const PAST_KNEE: [u32; 5] = [0, 0, 0, 500, 1000];

fn past_half(used: u32, cap: u32) -> u32
    requires { IsReading used cap }
    ensures { result ≡ curve_value (Knee 500) used cap }
{
    if 1000 * used <= 500 * cap {
        return 0;
    }
    let past = u64::from(1000 * used - 500 * cap);
    (1000 * past / u64::from(500 * cap)) as u32
}

#[test]
fn knees(rt: HostRuntime) {
    let call = |used: u32, cap: u32| -> u32
        requires { IsReading used cap }
        ensures { result ≡ curve_value (Knee 500) used cap }
    { past_half(used, cap) };
    assert!(rt; curve_follows(rt.alloc(), Curve::Knee { knee: 500 }, call, &PAST_KNEE));
}
