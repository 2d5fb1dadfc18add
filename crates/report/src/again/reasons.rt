ghost use Rattle.std.specs.Prelude.{◌≡◌, IfSome};
ghost use Rattle.report.specs.Counts.{with_reason};

/// The reason for a choice.
#[derive(Clone, Copy)]
pub enum Reason {
    /// The gate: if no thread counted as one at `accept`, another thread would have been chosen.
    Gate,
    /// The scores: without them another thread would have been chosen.
    Score,
    /// The turn of the thread.
    Turn,
}

/// The number of choices for each reason.
#[derive(Clone, Copy)]
pub struct Choices {
    /// The number of choices decided by the gate.
    pub by_gate: u64,
    /// The number of choices decided by the scores.
    pub by_score: u64,
    /// The number of choices decided by the turn.
    pub by_turn: u64,
}

impl Choices {
    /// Counts one more choice. Returns `None` if a count would be 2^64.
    pub fn with(self, reason: Reason) -> Option<Choices>
        ensures { IfSome result (λ more. more ≡ with_reason reason self) }
    {
        match reason {
            Reason::Gate => {
                let by_gate = self.by_gate.checked_add(1)?;
                Some(Choices { by_gate, ..self })
            }
            Reason::Score => {
                let by_score = self.by_score.checked_add(1)?;
                Some(Choices { by_score, ..self })
            }
            Reason::Turn => {
                let by_turn = self.by_turn.checked_add(1)?;
                Some(Choices { by_turn, ..self })
            }
        }
    }
}
