ghost use Rattle.std.specs.Prelude.{◌≡◌, ℕ, ◌+◌, List, Some};
ghost use Rattle.machine_world.specs.GoodRuns.{Entry, all_actions, IsGoodRun};
ghost use Rattle.machine_world.specs.Places.{Checked};
ghost use Rattle.machine_world.specs.Runs.{after_actions, after_steps};
ghost use Rattle.machine_world.specs.Stretches.{IsGoodStretch};
ghost use Rattle.machine_world.specs.Threads.{World, Setting};

/// Laws of good stretches and runs: a good stretch of m steps followed by one of n steps is a good stretch of m + n
/// steps, and the actions of a good run can be done.
pub fn stretch_laws()
    ensures joined { (c : Checked) (s : Setting) (m n : ℕ) (w after : World) → IsGoodStretch c s m w → after_steps s m w ≡ Some after →
        IsGoodStretch c s n after → IsGoodStretch c s (m + n) w }
    ensures done { (c : Checked) (s : Setting) (entries : List Entry) (w : World) → IsGoodRun c s entries w →
        (after : World) × (after_actions s (all_actions entries) w ≡ Some after) }
{}
