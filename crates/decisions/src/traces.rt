// Traces without a refused line.
ghost use Rattle.std.specs.Prelude.{ℕ, ◌≤◌, List};
ghost use Rattle.lawful_log.specs.Setup.{Setup};
ghost use Rattle.workload.specs.Traces.{trace_text};
ghost use Rattle.decisions.specs.Looked.{LooksAtGoodLines, IsGoodTrace};

/// Law: if no line of a trace is refused, no run on it examines a refused line; and the trace of a workload has no
/// refused line.
pub fn good_traces_are_looked_at()
    ensures looked { (g : Setup) (trace : List ℕ) → IsGoodTrace trace → LooksAtGoodLines g trace }
    ensures workload { (number : ℕ) → number ≤ 1000 → IsGoodTrace (trace_text number) }
{}
