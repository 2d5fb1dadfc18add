ghost use Rattle.std.specs.Prelude.{◌≡◌, ◌≤◌, ◌++◌, false, true, List, Option, None, Some, ℕ};
ghost use Rattle.choice_rules.specs.Choice.{IsLawful};
ghost use Rattle.choice_rules.specs.Clock.{IsLeastOf, event_times};
ghost use Rattle.choice_rules.specs.Deliveries.{delivery_of};
ghost use Rattle.choice_rules.specs.Readiness.{any_ready, waking_times};
ghost use Rattle.choice_rules.specs.Seen.{Waiter};
ghost use Rattle.event_trace.specs.declared.events.Event.{Event};
ghost use Rattle.lawful_log.specs.Setup.{Setup, setting_of};
ghost use Rattle.lawful_log.specs.State.{State, seen_of};
ghost use Rattle.lawful_log.specs.Clocks.{goes_on};
ghost use Rattle.lawful_log.specs.Entries.{ComesHere, RunsHere};
ghost use Rattle.lawful_log.specs.Within.{IsBetween};
ghost use Rattle.machine_world.specs.Runs.{Deliver, Pick, advanced, after_action};
ghost use Rattle.machine_world.specs.Threads.{World};
ghost use Rattle.machine_world.specs.WellFormed.{DeliversWords};

/// Laws between segments: a due event may be delivered, the clock may advance to the least time if nothing else can
/// happen, and the lawful choice may be picked. Each is allowed in the log.
pub fn point_laws()
    ensures comes { (g : Setup) (state : State) (event : Event) (machine : World) → IsBetween g state (Some (Some event)) machine → DeliversWords (Deliver (delivery_of event.kind)) → ComesHere g state event machine }
    ensures moves { (g : Setup) (state : State) (machine : World) (next : Option Event) (time : ℕ) → IsBetween g state (Some next) machine → machine.clock ≤ time → goes_on g state next machine.clock ≡ false →
        IsLeastOf (event_times next ++ waking_times (seen_of state)) time → IsBetween g state (Some next) (advanced machine time) }
    ensures runs { (g : Setup) (state : State) (next : Option Event) (machine : World) (chosen : Waiter) (picked : World) → IsBetween g state (Some next) machine →
        after_action (setting_of g) machine (Pick chosen.thread) ≡ Some picked → any_ready g.policy (seen_of state) machine.clock ≡ true → IsLawful g.policy (seen_of state) machine.clock chosen → RunsHere g state next machine chosen picked }
{}
