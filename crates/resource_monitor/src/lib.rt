// Pressure on resources, and the gate that delays requests.
//
// Each of eight resources has a cap and a use. The pressure of a resource is the value of a curve at its use and
// cap, computed by a closure of the caller; a gauge has that closure and the proof that it returns the values of
// its curve. `past_knee` computes the curve `Knee`. The monitor takes the uses after each segment of a run
// (`observe`), and returns pressures from 0 to 1000, by its gauges' curves, and whether the gate is open. The
// scheduler and the runner cite `specs/Monitor.antt`, `specs/Pressure.antt` and `specs/Gate.antt`. The idea of
// delaying requests while resources are scarce is Capriccio's (von Behren et al., SOSP 2003); pressure and gate
// are our own. A law has no effect at run time: its contract is a theorem.
#![tactic(auto)]

mod curves;
mod gate;
mod gauges;
mod knees;
mod laws;
mod measures;
mod monitor;

pub use curves::Curve;
pub use gauges::Gauge;
pub use knees::past_knee;
pub use laws::knee_0_is_linear;
pub use measures::Measure;
pub use monitor::Monitor;
