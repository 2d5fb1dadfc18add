ghost use Rattle.std.specs.Prelude.{◌≡◌, ℕ, ◌+◌, ◌<◌, ◌≤◌, Some};
ghost use Rattle.cap_word.specs.declared.stops.Stop.{Stop};
ghost use Rattle.machine_world.specs.Counted.{IsCounted};
ghost use Rattle.machine_world.specs.Local.{Local, LocalMove, local_step};
ghost use Rattle.machine_world.specs.Places.{Checked};
ghost use Rattle.machine_world.specs.Runs.{after_steps};
ghost use Rattle.machine_world.specs.Threads.{Thread, World, Setting, thread_of, moved, step, local_in};
ghost use Rattle.machine_world.specs.Threads as world;
ghost use Rattle.segment_laws.specs.Ways.{Leads};
ghost use Rattle.segment_laws.specs.Silent.{GoesOn, after_silent};

/// Laws of the world's steps by those of its running thread. Good steps of the thread, as many as the fuel allows, are
/// silent steps of the world, which change only that thread, the areas, clock and cost. The next step is what the
/// thread's next step leads to in that world, or the stop by fuel. Silent steps add up, and are steps of a run.
pub fn step_laws()
    ensures goes_on { (c : Checked) (s : Setting) (w : World) (thread : Thread) (at : Local) (n : ℕ) → IsCounted w → w.running ≡ Some thread.number → thread_of w thread.number ≡ Some thread → w.cost + n ≤ s.fuel →
        Leads c s.code n (local_in w thread) at → GoesOn s n w (after_silent w thread at n) }
    ensures thread { (w : World) (thread : Thread) (at : Local) (n : ℕ) → thread_of w thread.number ≡ Some thread → thread_of (after_silent w thread at n) thread.number ≡ Some (record thread { core = at.core }) }
    ensures moves { (s : Setting) (w : World) (thread : Thread) (move : LocalMove) → w.running ≡ Some thread.number → thread_of w thread.number ≡ Some thread → w.cost < s.fuel →
        local_step s.code (local_in w thread) ≡ move → step s w ≡ moved s w thread move }
    ensures turns { (s : Setting) (w : World) (thread : Thread) (at : Local) (n : ℕ) (move : LocalMove) → w.running ≡ Some thread.number → thread_of w thread.number ≡ Some thread → w.cost + n < s.fuel →
        local_step s.code at ≡ move → step s (after_silent w thread at n) ≡ moved s (after_silent w thread at n) (record thread { core = at.core }) move }
    ensures fuel { (s : Setting) (w : World) (thread : Thread) → w.running ≡ Some thread.number → thread_of w thread.number ≡ Some thread → w.cost ≡ s.fuel → step s w ≡ world.Stops Stop.Fuel }
    ensures joined { (s : Setting) (m n : ℕ) (w between after : World) → GoesOn s m w between → GoesOn s n between after → GoesOn s (m + n) w after }
    ensures runs { (s : Setting) (n : ℕ) (w after : World) → GoesOn s n w after → after_steps s n w ≡ Some after }
{}
