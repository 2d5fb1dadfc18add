// The monitor of pressures, from the options.
ghost use Rattle.std.specs.Prelude.{IfOk};
ghost use Rattle.command_options.specs.Options.{IsNewMonitor, IsRunPolicy};
ghost use Rattle.resource_monitor.specs.Pressure.{AnswersCurve};
ghost use Rattle.resource_monitor.specs.declared.curves.Curve.TheVariants.{Knee};

use command_words::Policy;
use resource_monitor::{Curve, Gauge, Measure, Monitor};
use std::alloc::{AllocError, Global};

/// Returns the monitor of a policy, with eight gauges of this measure.
pub fn monitor_of<C: Measure + Copy>(
    alloc: Global,
    policy: Policy,
    call: C,
) -> Result<Monitor<C>, AllocError>
    requires curve { AnswersCurve (C.can_measure call) (C.measure_gives call) (Knee policy.knee) }
    requires range { IsRunPolicy policy }
    ensures { IfOk result (IsNewMonitor policy) }
{
    let mut gauges = Vec::new(alloc);
    for _ in 0..8usize {
        gauges.push(Gauge::new(Curve::Knee { knee: policy.knee }, call))?;
    }
    let mut caps = policy.caps;
    caps[0] = policy.chunks + policy.extra;
    Ok(Monitor::new(gauges, caps, policy.high, policy.low))
}
