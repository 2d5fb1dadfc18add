ghost use Rattle.std.specs.Prelude.{◌≡◌, ◌≤◌, ◌<◌, ℕ, true, IsTrue, length, replicate, slice_index, vec_len};
ghost use Rattle.resource_monitor.specs.Gate.{gate_after};
ghost use Rattle.resource_monitor.specs.Pressure.{pressures};
ghost use Rattle.resource_monitor.specs.Monitor.{AreInRange, NoneAbove, SmallCaps, pressure_at, started};

use crate::gate::is_open_after;
use crate::gauges::Gauge;
use crate::measures::Measure;
use std::marker::Model;

/// The eight resources of a run: their caps, their gauges, the uses observed last, and the gate. Resource 0 is
/// the pool of chunks; resources 1 to 7 have the caps that the caller gives them.
#[derive(Drop)]
pub struct Monitor<C: Measure> {
    gauges: Vec<Gauge<C>>,
    caps: [u32; 8],
    high: u32,
    low: u32,
    uses: [u32; 8],
    is_open: bool,
}

impl<C: Measure> Model for Monitor<C> {
    ghost use Rattle.resource_monitor.specs.Monitor.{MonitorState, IsMonitor};

    ghost Value = { MonitorState };

    ghost view = { λ m. record { curves = m.gauges.items; caps = m.caps; high = m.high; low = m.low; uses = m.uses; is_open = m.is_open } };

    ghost invariant = { λ m. IsMonitor (record { curves = m.gauges.items; caps = m.caps; high = m.high; low = m.low; uses = m.uses; is_open = m.is_open }) };
}

impl<C: Measure> Monitor<C> {
    /// Returns a monitor with all uses 0 and the gate open. The gate closes at a pressure of at least `high`,
    /// and opens if all pressures are at most `low`.
    pub fn new(gauges: Vec<Gauge<C>>, caps: [u32; 8], high: u32, low: u32) -> Monitor<C>
        requires eight { vec_len gauges ≡ 8 }
        requires small { SmallCaps caps }
        requires apart { low < high }
        requires most { high ≤ 1000 }
        ensures { result ≡ started gauges.items caps high low }
    {
        know_ranges(gauges.as_slice());
        Monitor {
            gauges,
            caps,
            high,
            low,
            uses: [0; 8],
            is_open: true,
        }
    }

    /// Observes the uses of the eight resources, each at most its cap, and updates the gate.
    pub fn observe(&mut self, uses: [u32; 8])
        requires { NoneAbove uses self.old.caps }
        ensures seen { self.new ≡ record self.old { uses = uses; is_open = gate_after self.old.high self.old.low self.old.is_open (pressures self.old.curves uses self.old.caps) } }
        ensures no_higher { NoneAbove uses self.old.uses → IsTrue self.old.is_open → IsTrue self.new.is_open }
    {
        let seen = readings(self.gauges.as_slice(), &self.caps, &uses);
        self.is_open = is_open_after(self.high, self.low, self.is_open, &seen);
        self.uses = uses;
    }

    /// Returns the pressure of a resource, from 0 to 1000: the value of its gauge's curve at the use observed
    /// last and the cap, or 0 if the cap is 0.
    pub fn pressure(&self, resource: u32) -> u32
        requires { resource < 8 }
        ensures value { result ≡ pressure_at self.now resource }
        ensures most { result ≤ 1000 }
    {
        let place = resource as usize;
        self.gauges[place].reading(self.uses[place], self.caps[place])
    }

    /// Returns whether the gate is open.
    pub fn gate(&self) -> bool
        ensures { result ≡ self.now.is_open }
    {
        self.is_open
    }
}

/// Uses the invariant of each gauge: its curve is in its range.
fn know_ranges<C: Measure>(gauges: &[Gauge<C>])
    requires { length gauges.now ≡ 8 }
    ensures { AreInRange gauges.now }
{
    for place in 0..8usize {
        gauges[place].curve();
    }
}

fn readings<C: Measure>(gauges: &[Gauge<C>], caps: &[u32; 8], uses: &[u32; 8]) -> [u32; 8]
    requires eight { length gauges.now ≡ 8 }
    requires small { SmallCaps caps.now }
    requires within { NoneAbove uses.now caps.now }
    ensures value { result ≡ pressures gauges.now uses.now caps.now }
    ensures eight { length uses.now ≡ 8 }
{
    let mut seen = [0; 8];
    for place in 0..8 {
        seen[place] = gauges[place].reading(uses[place], caps[place]);
    }
    seen
}
