ghost use Rattle.std.specs.Prelude.{◌≡◌, ◌≢◌, ◌<◌, ◌≤◌, ◌∷◌, ◌++◌, [], Bool, List, None, Option, Some, filter, length, nat_eq, not, true, ℕ};
ghost use Rattle.std.specs.List.{AllByRecursion};
ghost use Rattle.cap_word.specs.declared.threads.ThreadId.{ThreadId};
ghost use Rattle.choice_rules.specs.Choice.{is_open};
ghost use Rattle.choice_rules.specs.Policy.{by_stride};
ghost use Rattle.choice_rules.specs.Readiness.{any_elsewhere, any_ready};
ghost use Rattle.choice_rules.specs.Seen.{PastChoice, Waiter};
ghost use Rattle.choice_rules.specs.Waiting.{IsPlaced};
ghost use Rattle.lawful_log.specs.Good.{checked_of};
ghost use Rattle.lawful_log.specs.Setup.{Setup, setting_of};
ghost use Rattle.lawful_log.specs.State.{State, seen_of};
ghost use Rattle.lawful_log.specs.Beside.{IsChosen};
ghost use Rattle.lawful_log.specs.Waiting.{AreWaiting, IsWaiting};
ghost use Rattle.machine_world.specs.Runs.{advanced, may_run, is_blocked_at_accept};
ghost use Rattle.machine_world.specs.StandsForWorld.{StandsForWorld};
ghost use Rattle.ready_tree.specs.declared.needs.Need.{Need as NeedOf};
ghost use Rattle.rule_state.specs.Strides.{IsChoiceByStrides, IsRejoined, IsStarted, StridesState};
ghost use Rattle.scheduler.specs.LawfulChoice.{is_eligible};
ghost use Rattle.scheduler.specs.declared.choices.Choice.{Choice};
ghost use Rattle.stride_rule.specs.Clients.{client_of};
ghost use Rattle.stride_rule.specs.State.{AreOnce, StrideState, after_choice, after_leaving, after_segment_for, with_client};
ghost use Rattle.stride_rule.specs.declared.choices.StrideChoice.{StrideChoice};
ghost use Rattle.stride_rule.specs.declared.clients.Client.{Client};
ghost use Rattle.lawful_log.specs.Clients.{AreClients, HasRunner, waiter_of};
ghost use Rattle.lawful_log.specs.Passes.{HasPasses, StartedBy};

/// Laws: if the clients of a stride rule are the waiting threads, and their passes are those of the log, the rule's
/// choice is the lawful one, and there is one if a thread is ready. A choice, a start and the end of a segment keep
/// clients and passes.
pub fn stride_step_laws()
    ensures choice { (g : Setup) (state : State) (clock : ℕ) (places : List (Option ℕ)) (strides : StridesState) (tickets : List (ℕ × ℕ)) (ready accept : ThreadId → Bool) (gate : Bool) →
        g.policy.rule ≡ by_stride tickets → StandsForWorld (checked_of g) g.program state.machine state.source → AreWaiting state.machine state.waiting → AreClients places strides state.waiting → HasPasses tickets strides.rule state.past.taken →
        strides.rule.running ≡ None →
        ((t : ThreadId) (x : Waiter) → t.number ≡ x.thread → IsPlaced places t → (v : IsWaiting state.machine x) → ready t ≡ may_run (setting_of g) (advanced state.machine clock) v.thread.blocked) →
        ((t : ThreadId) (x : Waiter) → t.number ≡ x.thread → IsPlaced places t → (v : IsWaiting state.machine x) → accept t ≡ is_blocked_at_accept v.thread.blocked) →
        gate ≡ is_open g.policy state.past → any_ready g.policy (seen_of state) clock ≡ true → (choice : Option Choice) →
        IsChoiceByStrides strides (is_eligible ready accept (any_elsewhere g.policy (seen_of state) clock) gate) choice → IsChosen g state clock places choice }
    ensures clients_taken { (places : List (Option ℕ)) (strides : StridesState) (waiting : List Waiter) (choice : StrideChoice) → strides.rule.running ≡ None → AreClients places strides waiting →
        AreClients places (record { rule = after_choice strides.rule choice; nodes = strides.nodes }) (filter (λ w. not (nat_eq w.thread choice.thread.number)) waiting) }
    ensures clients_started { (places : List (Option ℕ)) (strides new : StridesState) (waiting : List Waiter) (thread : ThreadId) → strides.rule.running ≢ Some thread.number → waiter_of thread.number waiting ≡ None → IsPlaced places thread →
        IsStarted strides new thread → AreClients places strides waiting → AreClients places new (waiting ++ record { thread = thread.number; node = 0; since = 0 } ∷ []) }
    ensures clients_rejoined { (places : List (Option ℕ)) (strides new : StridesState) (waiting : List Waiter) (thread : ThreadId) (node since : ℕ) (need : NeedOf) → HasRunner strides thread → waiter_of thread.number waiting ≡ None → IsPlaced places thread →
        IsRejoined strides new thread node need → AreClients places strides waiting → AreClients places new (waiting ++ record { thread = thread.number; node = node; since = since } ∷ []) }
    ensures clients_left { (places : List (Option ℕ)) (strides : StridesState) (waiting : List Waiter) (thread : ThreadId) → HasRunner strides thread → waiter_of thread.number waiting ≡ None → AreClients places strides waiting →
        AreClients places (record { rule = after_leaving strides.rule thread.number; nodes = strides.nodes }) waiting }
    ensures passes_taken { (tickets : List (ℕ × ℕ)) (rule : StrideState) (taken : List PastChoice) (choice : StrideChoice) (node started : ℕ) (client : Client) → client_of choice.thread.number rule.clients ≡ Some client → AreOnce rule.clients →
        AllByRecursion (λ c. c.thread.number < started) rule.clients → HasPasses tickets rule taken →
        HasPasses tickets (after_choice rule choice) (record { thread = choice.thread.number; node = node; started = started } ∷ taken) }
    ensures passes_started { (tickets : List (ℕ × ℕ)) (rule : StrideState) (taken : List PastChoice) (thread : ThreadId) (started : ℕ) → StartedBy taken started → started ≤ thread.number → HasPasses tickets rule taken →
        HasPasses tickets (with_client rule thread) taken }
    ensures passes_rejoined { (tickets : List (ℕ × ℕ)) (rule : StrideState) (taken : List PastChoice) (number : ℕ) (need : NeedOf) → HasPasses tickets rule taken → HasPasses tickets (after_segment_for rule number need) taken }
    ensures passes_left { (tickets : List (ℕ × ℕ)) (rule : StrideState) (taken : List PastChoice) (number : ℕ) → HasPasses tickets rule taken → HasPasses tickets (after_leaving rule number) taken }
{}
