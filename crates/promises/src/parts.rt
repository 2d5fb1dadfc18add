ghost use Rattle.std.specs.Prelude.{ℕ, List, Option};
ghost use Rattle.capriccio_call.specs.EnoughChunks.{HasEnoughChunks};
ghost use Rattle.capriccio_call.specs.Headline.{IsAnswer};
ghost use Rattle.command_outcomes.specs.Done.{Outside};
ghost use Rattle.promises.specs.Audit.{KeepsAudit};
ghost use Rattle.promises.specs.Budget.{KeepsBudget};
ghost use Rattle.promises.specs.Choices.{KeepsChoices};
ghost use Rattle.promises.specs.Faults.{KeepsAfterFault};
ghost use Rattle.promises.specs.Memory.{KeepsMemory};
ghost use Rattle.promises.specs.Outputs.{KeepsOutputs};
ghost use Rattle.promises.specs.Pool.{KeepsPool};
ghost use Rattle.promises.specs.Stops.{KeepsStops};
ghost use Rattle.thread_core.specs.Worlds.{Held};

/// Law: in each world that the machine of a returned world reaches from its start, each frame of a live thread lies in
/// its chunk, and the running thread's next load or store in its frame or in one declared global or table. The returned
/// world is one of them.
pub fn memory()
    ensures { (words : List (List ℕ)) (before after : Outside) (err err' : Option (List ℕ)) (faults faults' : ℕ) (last : Option Held) (status : ℕ) →
        IsAnswer words before after err err' faults faults' last status → KeepsMemory words last status }
{}

/// Law: in a returned world, held and free chunks are exactly the pool, which has as many chunks as the words say.
pub fn pool()
    ensures { (words : List (List ℕ)) (before after : Outside) (err err' : Option (List ℕ)) (faults faults' : ℕ) (last : Option Held) (status : ℕ) →
        IsAnswer words before after err err' faults faults' last status → KeepsPool words last status }
{}

/// Law: each `run` line that the output took names the choice of the rule of the words, by what the lines before it
/// print, if the output exposes what it took.
pub fn choices()
    ensures { (words : List (List ℕ)) (before after : Outside) (err err' : Option (List ℕ)) (faults faults' : ℕ) (last : Option Held) (status : ℕ) →
        IsAnswer words before after err err' faults faults' last status → KeepsChoices words before.left before.taken after.taken last status }
{}

/// Law: the output, if it exposes what it took, took what the text of the source does by itself, under the schedule that
/// the lines print.
pub fn outputs()
    ensures { (words : List (List ℕ)) (before after : Outside) (err err' : Option (List ℕ)) (faults faults' : ℕ) (last : Option Held) (status : ℕ) →
        IsAnswer words before after err err' faults faults' last status → KeepsOutputs words before.files before.taken after.taken last status }
{}

/// Law: the last line that the output took is that of the stop, with the status that is returned, and the program stops
/// there in this way; of the place of `nochunk` nothing is said.
pub fn stops()
    ensures { (words : List (List ℕ)) (before after : Outside) (err err' : Option (List ℕ)) (faults faults' : ℕ) (last : Option Held) (status : ℕ) →
        IsAnswer words before after err err' faults faults' last status → KeepsStops words before.left before.taken after.taken last status }
{}

/// Law: a run with enough chunks for the budgets of its threads doesn't stop for want of a chunk.
pub fn budget()
    ensures { (words : List (List ℕ)) (before : Outside) (last : Option Held) (status : ℕ) → HasEnoughChunks words before last status → KeepsBudget last status }
{}

/// Law: if an audit ends with status 0, the log is what the text of the source does by itself, under the schedule that
/// its lines print.
pub fn audit()
    ensures { (words : List (List ℕ)) (before after : Outside) (err err' : Option (List ℕ)) (faults faults' : ℕ) (last : Option Held) (status : ℕ) →
        IsAnswer words before after err err' faults faults' last status → KeepsAudit words before.files before.left status }
{}

/// Law: a counted failure is reported, a reported one was counted, and which files may have changed then.
pub fn faults()
    ensures { (words : List (List ℕ)) (before after : Outside) (err err' : Option (List ℕ)) (faults faults' : ℕ) (last : Option Held) (status : ℕ) →
        IsAnswer words before after err err' faults faults' last status → KeepsAfterFault words before after err err' faults faults' status }
{}
