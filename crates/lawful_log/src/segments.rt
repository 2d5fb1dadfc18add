ghost use Rattle.std.specs.Prelude.{◌≡◌, ◌+◌, ◌-◌, ◌++◌, ◌∷◌, [], length, IsSome, List, None, Some, slice_get, ℕ};
ghost use Rattle.cap_word.specs.Word.{signed};
ghost use Rattle.cap_word.specs.declared.stops.Stop.{Stop};
ghost use Rattle.c_mean.specs.Frames.{key_of};
ghost use Rattle.c_mean.specs.World as source;
ghost use Rattle.choice_rules.specs.Seen.{Waiter};
ghost use Rattle.lawful_log.specs.Good.{checked_of};
ghost use Rattle.lawful_log.specs.Segments.{HasRun, IsBlock, IsEnd, IsOut};
ghost use Rattle.lawful_log.specs.Setup.{Setup, setting_of};
ghost use Rattle.lawful_log.specs.State.{Segment, State};
ghost use Rattle.lawful_log.specs.Stops.{IsCutBy, IsStopped};
ghost use Rattle.lawful_log.specs.Entries.{BlocksHere, EndsHere, PutsHere};
ghost use Rattle.lawful_log.specs.Within.{IsWithin};
ghost use Rattle.machine_world.specs.StandsForWorld.{StandsForWorld};
ghost use Rattle.machine_world.specs.Threads.{Blocks, Ends, Goes, Puts, Spawns, Stops, World, step};
ghost use Rattle.chunk_pool.specs.Pool.{free_count};

/// Laws within a segment: a step without an entry stays within it, and a thread that it starts waits at node 0. A step
/// that puts a value, blocks, ends or stops the run is an allowed entry or stop, given what the source's run does.
pub fn segment_entry_laws()
    ensures goes { (g : Setup) (state : State) (segment : Segment) (begun : ℕ) (here after : World) (waiting : List Waiter) → IsWithin g state segment begun here waiting →
        step (setting_of g) here ≡ Goes after → IsWithin g state segment begun after waiting }
    ensures spawns { (g : Setup) (state : State) (segment : Segment) (begun : ℕ) (here : World) (waiting : List Waiter) (number : ℕ) (after : World) → IsWithin g state segment begun here waiting →
        step (setting_of g) here ≡ Spawns number after → IsWithin g state segment begun after (waiting ++ record { thread = number; node = 0; since = 0 } ∷ []) }
    ensures puts { (g : Setup) (state : State) (segment : Segment) (begun : ℕ) (here : World) (waiting : List Waiter) (word : ℕ) (after : World) → IsWithin g state segment begun here waiting →
        step (setting_of g) here ≡ Puts word after → PutsHere g state segment begun word after waiting }
    ensures blocks { (g : Setup) (state : State) (segment : Segment) (begun : ℕ) (here : World) (waiting : List Waiter) (after : World) (world : source.World) → IsWithin g state segment begun here waiting →
        step (setting_of g) here ≡ Blocks after → HasRun g state segment None world → StandsForWorld (checked_of g) g.program after world → BlocksHere g state segment begun after world }
    ensures ends { (g : Setup) (state : State) (segment : Segment) (begun : ℕ) (here : World) (waiting : List Waiter) (after : World) (world : source.World) → IsWithin g state segment begun here waiting →
        step (setting_of g) here ≡ Ends after → HasRun g state segment None world → StandsForWorld (checked_of g) g.program after world → IsSome (slice_get world.threads segment.thread) →
        EndsHere g state segment begun after world }
    ensures stops { (g : Setup) (state : State) (segment : Segment) (begun : ℕ) (here : World) (waiting : List Waiter) (stop : Stop) → IsWithin g state segment begun here waiting →
        step (setting_of g) here ≡ Stops stop → IsCutBy g state segment stop → IsStopped g state segment.thread stop (here.cost - begun) (free_count here.areas.pool) here }
{}
