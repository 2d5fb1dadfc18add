ghost use Rattle.std.specs.Prelude.{◌≡◌, Bool, Option, ℕ};
ghost use Rattle.choice_rules.specs.Choice.{IsChoice, IsLawful};
ghost use Rattle.choice_rules.specs.Clock.{IsChoicePoint};
ghost use Rattle.choice_rules.specs.Deliveries.{IsDelivery};
ghost use Rattle.choice_rules.specs.Policy.{Policy};
ghost use Rattle.choice_rules.specs.Seen.{Seen, Waiter};
ghost use Rattle.choice_rules.specs.Stops.{IsBadTrace, IsDone, IsIdle};
ghost use Rattle.event_trace.specs.declared.events.Event.{Event};
ghost use Rattle.schedule_log.specs.declared.entries.Item.{Item};

/// Law: at a choice point at most one thing happens, under either rule. The next event, the clock and the
/// lawful choice are unique; if an event is delivered, no thread is chosen; and the run either continues or
/// stops, not both. It has no effect at run time.
pub fn choice_point_laws()
    ensures point { (policy : Policy) (seen : Seen) (next other : Option Event) (clock time : ℕ) →
        IsChoicePoint policy seen next clock → IsChoicePoint policy seen other time →
        (next ≡ other) × (clock ≡ time) }
    ensures choice { (policy : Policy) (seen : Seen) (clock : ℕ) (chosen other : Waiter) →
        IsLawful policy seen clock chosen → IsLawful policy seen clock other → chosen ≡ other }
    ensures delivery { (policy : Policy) (seen : Seen) (clock time : ℕ) (event : Event)
        (item : Item) (drops : Bool) (chosen : Waiter) →
        IsDelivery policy seen clock event item drops → IsChoice policy seen time chosen → ⊥ }
    ensures done { (policy : Policy) (seen : Seen) (next : Option Event) (clock : ℕ) →
        IsChoicePoint policy seen next clock → IsDone seen → ⊥ }
    ensures bad_trace { (policy : Policy) (seen : Seen) (next : Option Event) (clock line : ℕ) →
        IsChoicePoint policy seen next clock → IsBadTrace seen line → ⊥ }
    ensures idle { (policy : Policy) (seen : Seen) (next : Option Event) (clock : ℕ) →
        IsChoicePoint policy seen next clock → IsIdle policy seen → ⊥ }
{}
