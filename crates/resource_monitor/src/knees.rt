ghost use Rattle.std.specs.Prelude.{◌≡◌, ◌≤◌};
ghost use Rattle.resource_monitor.specs.Pressure.{IsReading, curve_value};
ghost use Rattle.resource_monitor.specs.declared.curves.Curve.TheVariants.{Knee};

/// Returns the value of the curve `Knee` at a use of `used` with the cap `cap`, from 0 to 1000. `knee` is in
/// thousandths of the cap, at most 999; `cap` is from 1 to 1,000,000, and `used` at most `cap`. Up to the knee it is 0,
/// and it increases from there without a jump; with knee 0 it is linear in the use. A closure that makes this call
/// returns the values of the curve, so a gauge may have it.
#[tactic(auto, using(crate::proofs::CurveLemmas::pressure_curve))]
pub fn past_knee(knee: u32, used: u32, cap: u32) -> u32
    requires in_range { knee ≤ 999 }
    requires reading { IsReading used cap }
    ensures value { result ≡ curve_value (Knee knee) used cap }
{
    let start = u64::from(knee) * u64::from(cap);
    let thousandths = 1000 * u64::from(used);
    if thousandths <= start {
        return 0;
    }
    let rest = u64::from(1000 - knee) * u64::from(cap);
    (1000 * (thousandths - start) / rest) as u32
}
