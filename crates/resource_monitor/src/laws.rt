// Laws of the curves.
ghost use Rattle.std.specs.Prelude.{◌≡◌, ℕ};
ghost use Rattle.resource_monitor.specs.Pressure.{IsReading, curve_value};
ghost use Rattle.resource_monitor.specs.declared.curves.Curve.TheVariants.{Linear, Knee};

/// Law: a knee at 0 is the curve `Linear`.
pub fn knee_0_is_linear()
    ensures { (used cap : ℕ) → IsReading used cap → curve_value (Knee 0) used cap ≡ curve_value Linear used cap }
{}
