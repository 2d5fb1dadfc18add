ghost use Rattle.std.specs.Prelude.{◌≡◌, ◌≤◌};
ghost use Rattle.resource_monitor.specs.Pressure.{AnswersCurve, IsInRange, IsPressureCurve, pressure};

use crate::curves::Curve;
use crate::measures::Measure;
use std::marker::Model;

/// A closure over the use and the cap of a resource, with the curve whose values it returns. Contracts see that
/// curve.
#[derive(Drop)]
pub struct Gauge<C: Measure> {
    curve: Curve,
    call: C,
}

impl<C: Measure> Model for Gauge<C> {
    ghost use Rattle.resource_monitor.specs.declared.curves.Curve.{Curve};
    ghost use Rattle.resource_monitor.specs.Pressure.{AnswersCurve, IsInRange};

    ghost Value = { Curve };

    ghost view = { λ gauge. gauge.curve };

    ghost invariant = { λ gauge. IsInRange gauge.curve × AnswersCurve (C.can_measure gauge.call) (C.measure_gives gauge.call) gauge.curve };
}

impl<C: Measure> Gauge<C> {
    /// Returns the gauge of a closure that returns the curve's value for every cap from 1 to 1,000,000 and
    /// every use up to it. The curve is in its range.
    #[tactic(auto, using(crate::proofs::CurveLemmas::pressure_curve))]
    pub fn new(curve: Curve, call: C) -> Gauge<C>
        requires in_range { IsInRange curve }
        requires answers { AnswersCurve (C.can_measure call) (C.measure_gives call) curve }
        ensures meaning { result ≡ curve }
        ensures pressure_curve { IsPressureCurve curve }
    {
        Gauge { curve, call }
    }

    /// Returns the curve whose values the closure returns.
    pub(crate) fn curve(&self) -> Curve
        ensures value { result ≡ self.now }
        ensures in_range { IsInRange self.now }
    {
        self.curve
    }

    /// Returns the pressure at a use of `used` with the cap `cap`, from 0 to 1000. The closure isn't called
    /// with a cap of 0.
    #[tactic(auto, using(crate::proofs::CurveLemmas::pressures_bounded))]
    pub(crate) fn reading(&self, used: u32, cap: u32) -> u32
        requires within { used ≤ cap }
        requires most { cap ≤ 1000000 }
        ensures value { result ≡ pressure self.now used cap }
        ensures most { result ≤ 1000 }
    {
        if cap == 0 {
            0
        } else {
            self.call.measure(used, cap)
        }
    }
}
