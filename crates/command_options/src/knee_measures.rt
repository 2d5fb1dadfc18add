// The measure of pressure with a knee.
ghost use Rattle.std.specs.Prelude.{◌≡◌, ◌≤◌};
ghost use Rattle.resource_monitor.specs.Pressure.{IsReading, curve_value};
ghost use Rattle.resource_monitor.specs.declared.curves.Curve.TheVariants.{Knee};

use resource_monitor::{Measure, past_knee};

/// Measures the pressure of a resource by the curve `Knee`, with this knee in thousandths of the cap: at most 999.
#[derive(Clone, Copy)]
pub struct KneeMeasure {
    /// Where the line begins.
    pub knee: u32,
}

impl Measure for KneeMeasure {
    ghost can_measure = { λ measure used cap. (measure.knee ≤ 999) × IsReading used cap };

    ghost measure_gives = { λ measure used cap answer. answer ≡ curve_value (Knee measure.knee) used cap };

    fn measure(&self, used: u32, cap: u32) -> u32 {
        past_knee(self.knee, used, cap)
    }
}
