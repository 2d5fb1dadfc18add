ghost use Rattle.std.specs.Prelude.{◌≡◌, ◌&&◌, not, true, false, All, Bool, Contains, List, [], ◌≤◌, Option, None, Some, map, ℕ};
ghost use Rattle.std.specs.List.{list_any};
ghost use Rattle.blocking_graph.specs.Edges.{edges_of};
ghost use Rattle.cap_word.specs.declared.threads.ThreadId.{ThreadId};
ghost use Rattle.choice_rules.specs.Choice.{monitor_of};
ghost use Rattle.choice_rules.specs.Clock.{IsLeastOf};
ghost use Rattle.choice_rules.specs.Policy.{by_graph};
ghost use Rattle.choice_rules.specs.Readiness.{any_elsewhere, any_ready, at_accept, is_ready, waking_times};
ghost use Rattle.choice_rules.specs.Seen.{Waiter};
ghost use Rattle.choice_rules.specs.Waiting.{AreQueued, IsPlaced};
ghost use Rattle.lawful_log.specs.Good.{checked_of};
ghost use Rattle.lawful_log.specs.Setup.{Setup, setting_of};
ghost use Rattle.lawful_log.specs.State.{State, seen_of};
ghost use Rattle.lawful_log.specs.Beside.{HasLasts, IsChosen};
ghost use Rattle.lawful_log.specs.Waiting.{AreWaiting, IsWaiting};
ghost use Rattle.machine_world.specs.Numbered.{IsNumbered};
ghost use Rattle.machine_world.specs.Runs.{advanced, asleep_until, may_run, is_blocked_at_accept};
ghost use Rattle.machine_world.specs.StandsForWorld.{StandsForWorld};
ghost use Rattle.resource_monitor.specs.Monitor.{MonitorState};
ghost use Rattle.scheduler.specs.LawfulChoice.{IsLawfulChoice, is_eligible};
ghost use Rattle.scheduler.specs.Scores.{score};
ghost use Rattle.scheduler.specs.State.{SchedulerState, last_of, queue_of};
ghost use Rattle.scheduler.specs.declared.choices.Choice.{Choice};

/// Laws: the live threads of the machine world are ready, asleep or at `accept` exactly as the waiting threads of the
/// source world are. The scheduler's choice over both is the lawful one by the graph, and there is one if any thread is
/// ready.
pub fn choice_laws()
    ensures any { (g : Setup) (state : State) (clock : ℕ) → IsNumbered state.machine → StandsForWorld (checked_of g) g.program state.machine state.source → AreWaiting state.machine state.waiting →
        list_any (λ thread. may_run (setting_of g) (advanced state.machine clock) thread.blocked) state.machine.threads ≡ any_ready g.policy (seen_of state) clock }
    ensures elsewhere { (g : Setup) (state : State) (clock : ℕ) → IsNumbered state.machine → StandsForWorld (checked_of g) g.program state.machine state.source → AreWaiting state.machine state.waiting →
        list_any (λ thread. may_run (setting_of g) (advanced state.machine clock) thread.blocked && not (is_blocked_at_accept thread.blocked)) state.machine.threads ≡ any_elsewhere g.policy (seen_of state) clock }
    ensures none_wakes { (g : Setup) (state : State) (clock : ℕ) → IsNumbered state.machine → StandsForWorld (checked_of g) g.program state.machine state.source → AreWaiting state.machine state.waiting →
        any_ready g.policy (seen_of state) clock ≡ false → All (λ thread. asleep_until (setting_of g) (advanced state.machine clock) thread.blocked ≡ None) state.machine.threads → waking_times (seen_of state) ≡ [] }
    ensures least_wakes { (g : Setup) (state : State) (clock : ℕ) → IsNumbered state.machine → StandsForWorld (checked_of g) g.program state.machine state.source → AreWaiting state.machine state.waiting →
        any_ready g.policy (seen_of state) clock ≡ false → (time : ℕ) → Contains (map (λ thread. asleep_until (setting_of g) (advanced state.machine clock) thread.blocked) state.machine.threads) (Some time) →
        ((other : ℕ) → Contains (map (λ thread. asleep_until (setting_of g) (advanced state.machine clock) thread.blocked) state.machine.threads) (Some other) → time ≤ other) → IsLeastOf (waking_times (seen_of state)) time }
    ensures choice { (g : Setup) (state : State) (clock : ℕ) (places : List (Option ℕ)) (scheduler : SchedulerState) (ready accept : ThreadId → Bool) (monitor : MonitorState) →
        g.policy.rule ≡ by_graph → IsNumbered state.machine → StandsForWorld (checked_of g) g.program state.machine state.source → AreWaiting state.machine state.waiting → AreQueued places scheduler state.waiting → HasLasts scheduler state.past →
        ((t : ThreadId) (x : Waiter) → t.number ≡ x.thread → IsPlaced places t → (v : IsWaiting state.machine x) → ready t ≡ may_run (setting_of g) (advanced state.machine clock) v.thread.blocked) →
        ((t : ThreadId) (x : Waiter) → t.number ≡ x.thread → IsPlaced places t → (v : IsWaiting state.machine x) → accept t ≡ is_blocked_at_accept v.thread.blocked) →
        monitor ≡ monitor_of g.policy (seen_of state) → any_ready g.policy (seen_of state) clock ≡ true → (choice : Option Choice) →
        IsLawfulChoice (queue_of scheduler) (is_eligible ready accept (any_elsewhere g.policy (seen_of state) clock) monitor.is_open) (score monitor (edges_of state.past.records)) (last_of scheduler) choice →
        IsChosen g state clock places choice }
{}
