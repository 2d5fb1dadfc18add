// The rules of choice points: between two segments, which events are delivered, how the clock
// advances, which threads are ready and eligible, and which of them is chosen.
//
// Definitions and their laws; nothing runs. What a choice point sees (Seen) is the source world,
// the trace, the waiting threads, the clock and the past, and nothing of the machine: lawful_log
// gets it from a machine world, and an audit from a log. The policy (Policy) names the rule of
// choice, and the lawful choice (Choice) has a case for each; under the stride rule the passes
// follow from the past choices (Strides). Readiness is that of the table of modelled calls
// (Readiness), the clock moves to the next event or sleeper (Clock), and an event is delivered or
// dropped (Deliveries), or the run stops (Stops). SourceRuns has what a segment does in the source
// world, EdgeLines how the edges are printed. Waiting has when the queues of a scheduler are those
// of the waiting threads; that its choice over such queues is then the lawful one, what joining and
// leaving do to them, and what the next line of a trace is (TraceLines), is in proofs/. The idea of
// choices by a blocking graph is Capriccio's (von Behren et al., SOSP 2003), that of strides is
// Waldspurger's and Weihl's (1995).
#![tactic(auto)]

mod laws;

pub use laws::choice_point_laws;
