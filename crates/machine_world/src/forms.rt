ghost use Rattle.std.specs.Prelude.{ℕ, ◌^◌, ◌<◌, ◌≤◌};
ghost use Rattle.machine_world.specs.Areas.{Areas};
ghost use Rattle.machine_world.specs.Chains.{AreAllFree};
ghost use Rattle.machine_world.specs.Places.{Checked};
ghost use Rattle.machine_world.specs.Runs.{Action, start_world, after_action};
ghost use Rattle.machine_world.specs.Threads.{World, Setting, step};
ghost use Rattle.machine_world.specs.WellFormed.{AreWellFormed, most_fuel, IsWellFormed, KeepsWellFormed, IsWellFormedIf, DeliversWords};

/// Laws: a world is well formed if the areas of the start are and every chunk is free, and it is well formed after each
/// step, be it a store, a LINK, an UNLINK, a SPAWN, an END or any other, and after each action that delivers words.
pub fn form_laws()
    ensures start { (c : Checked) (s : Setting) (areas : Areas) (entry need : ℕ) → AreWellFormed c areas → AreAllFree areas.pool → s.fuel ≤ most_fuel → entry < 2 ^ 32 →
        IsWellFormedIf c s (start_world areas entry need) }
    ensures step { (c : Checked) (s : Setting) (w : World) → IsWellFormed c s w → KeepsWellFormed c s (step s w) }
    ensures action { (c : Checked) (s : Setting) (w : World) (action : Action) → DeliversWords action → IsWellFormed c s w → IsWellFormedIf c s (after_action s w action) }
{}
