// Pressures by steps.
ghost use Rattle.std.specs.Prelude.{◌≡◌};
ghost use Rattle.resource_monitor.specs.Pressure.{IsInRange, IsReading, curve_value};
ghost use Rattle.resource_monitor.specs.declared.curves.Curve.TheVariants.{Steps};
ghost use Rattle.schedule_rows.specs.Eighths.{eighths};

use crate::monitors::curve_follows;
use resource_monitor::Curve;

// A step at each eighth of the cap.
const EIGHTHS: [u32; 8] = [125, 250, 375, 500, 625, 750, 875, 1000];

// The pressures of uses from 0 to 4 of a cap of 4, each of which is two eighths.
const BY_EIGHTHS: [u32; 5] = [0, 250, 500, 750, 1000];

// Returns 125 for each of these thresholds that the use has reached.
fn by_steps(at: &[u32; 8], used: u32, cap: u32) -> u32
    requires range { IsInRange (Steps at.now) }
    requires reading { IsReading used cap }
    ensures { result ≡ curve_value (Steps at.now) used cap }
{
    let mut pressure = 0;
    for place in at {
        if u64::from(*place) * u64::from(cap) <= 1000 * u64::from(used) {
            pressure += 125;
        }
    }
    pressure
}

#[test]
fn steps(rt: HostRuntime) {
    let call = |used: u32, cap: u32| -> u32
        requires { IsReading used cap }
        ensures { result ≡ curve_value (Steps eighths) used cap }
    { by_steps(&EIGHTHS, used, cap) };
    assert!(rt; curve_follows(rt.alloc(), Curve::Steps { at: EIGHTHS }, call, &BY_EIGHTHS));
}
