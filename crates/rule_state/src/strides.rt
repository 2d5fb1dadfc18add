ghost use Rattle.std.specs.Prelude.{◌≡◌, ◌<◌, ◌^◌, [], length, Some, None, IfSome, OnOk, OnErr};
ghost use Rattle.scheduler.specs.LawfulChoice.{is_eligible};

use crate::nodes::{START, make_place, put};
use cap_word::ThreadId;
use ready_tree::{Bounded, Need};
use scheduler::Choice;
use std::alloc::{AllocError, Global};
use std::marker::Model;
use stride_rule::StrideRule;

/// Threads that are chosen by strides, with the node at which each waits, by the slot of its record.
#[derive(Drop)]
pub struct StridesAtNodes {
    rule: StrideRule,
    nodes: Vec<u32>,
}

impl Model for StridesAtNodes {
    ghost use Rattle.rule_state.specs.Strides.{StridesState, HaveNodes};

    ghost Value = { StridesState };

    ghost view = { λ s. record { rule = s.rule; nodes = s.nodes.items } };

    ghost invariant = { λ s. HaveNodes s.nodes.items s.rule.clients };
}

impl StridesAtNodes {
    ghost use Rattle.stride_rule.specs.Clients.{IsAbsent};
    ghost use Rattle.stride_rule.specs.State.{AreKnown};
    ghost use Rattle.rule_state.specs.Strides.{IsChoiceByStrides, IsLeft, IsNotedByStrides, IsRejoined, IsStarted};

    /// Returns a rule without threads. It doesn't allocate.
    pub fn new(alloc: Global, rule: StrideRule) -> StridesAtNodes
        requires { rule.clients ≡ [] }
        ensures { result ≡ record { rule = rule; nodes = [] } }
    {
        StridesAtNodes {
            rule,
            nodes: Vec::new(alloc),
        }
    }

    /// Adds a thread that waits at node 0, and allocates the room that later calls need for it.
    pub fn start(&mut self, thread: ThreadId) -> Result<(), AllocError>
        requires { IsAbsent thread.number self.old.rule.clients }
        ensures ok { OnOk result (IsStarted self.old self.new thread) }
        ensures err { OnErr result (self.new ≡ self.old) }
    {
        let places = self.nodes.len();
        make_place(&mut self.nodes, thread.slot)?;
        match self.rule.start(thread) {
            Ok(()) => {
                put(&mut self.nodes, thread.slot, START);
                Ok(())
            }
            Err(refusal) => {
                self.nodes.truncate(places);
                Err(refusal)
            }
        }
    }

    /// Chooses the thread that runs next, and returns it with the node at which it waits, or `None` if no waiting
    /// thread is eligible. The choice is noted, and its segment begins. It asks each waiting thread until some choice
    /// finds one that isn't eligible. From then on it asks none: the needs determine which threads are eligible. It
    /// doesn't allocate.
    pub fn take<W: Bounded>(&mut self, gate_open: bool, world: &W) -> Option<Choice>
        requires none_under_way { self.old.rule.running ≡ None }
        requires known { AreKnown (W.vouches world.now) self.old.rule }
        requires room { self.old.rule.noted < 2 ^ 40 }
        ensures lawful { IsChoiceByStrides self.old (is_eligible (W.is_ready world.now) (W.at_accept world.now) (W.any_elsewhere world.now) gate_open) result }
        ensures noted { IfSome result (λ choice. IsNotedByStrides self.old self.new (is_eligible (W.is_ready world.now) (W.at_accept world.now) (W.any_elsewhere world.now) gate_open) choice) }
        ensures place { IfSome result (λ choice. choice.thread.slot < length self.new.nodes) }
        ensures none { result ≡ None → self.new ≡ self.old }
    {
        let Some(thread) = self.rule.take_choice(gate_open, world) else {
            return None;
        };
        let node = self.nodes[thread.slot as usize];
        Some(Choice { thread, node })
    }

    /// Ends the segment in progress: its thread waits at a node, with this need. It doesn't allocate.
    pub fn rejoin(&mut self, thread: ThreadId, node: u32, need: Need)
        requires under_way { self.old.rule.running ≡ Some thread.number }
        requires place { thread.slot < length self.old.nodes }
        ensures { IsRejoined self.old self.new thread node need }
    {
        put(&mut self.nodes, thread.slot, node);
        self.rule.rejoin_for(thread, need);
    }

    /// Ends the segment in progress: its thread has ended. It doesn't allocate.
    pub fn leave(&mut self, thread: ThreadId)
        requires { self.old.rule.running ≡ Some thread.number }
        ensures { IsLeft self.old self.new thread }
    {
        self.rule.leave(thread);
    }
}
