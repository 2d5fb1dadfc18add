ghost use Rattle.std.specs.Prelude.{◌≡◌, ◌+◌, ◌-◌, ◌≤◌, ◌<◌, ◌^◌, not, None, IfOk, nat_le, length, if◌then◌else◌};
ghost use Rattle.c_mean.specs.ModelledCalls as table;
ghost use Rattle.c_mean.specs.ModelledCalls.{Arrival, Message, immediate_row};
ghost use Rattle.c_mean.specs.World.{empty_exchange};
ghost use Rattle.cap_word.specs.declared.calls.Ask.{Ask};
ghost use Rattle.thread_exchange.specs.Exchanges.{after_delivery, row_of, MayResume, after_ask, AreWithinCaps};

use crate::numbers::{is_negative, ticks_of};
use crate::queues::channel_queues;
use cap_word::{Block, TrapKind};
use circular_buffer::HeapCircularBuffer;
use std::alloc::{AllocError, Global};
use std::marker::Model;

/// The queue of arrivals, the 64 channel queues and the uses of the resources 1 to 7. Contracts see it as its caps, the
/// maximum length of a queue, and the queues and uses by themselves. Only `new` allocates memory.
#[derive(Drop)]
pub struct Exchange {
    caps: [u32; 8],
    backlog: u32,
    arrivals: HeapCircularBuffer<u32>,
    channels: Vec<HeapCircularBuffer<u32>>,
    uses: [u32; 8],
}

impl Model for Exchange {
    ghost use Rattle.thread_exchange.specs.Exchanges.{Exchanging};

    ghost Value = { Exchanging };

    ghost use Rattle.thread_exchange.specs.Inside.{exchanging, IsExchanging};

    ghost view = { exchanging };

    ghost invariant = { IsExchanging };
}

impl Exchange {
    /// The number of channels.
    pub const CHANNELS: u32 = 64;

    /// Returns an exchange with empty queues and unused resources. A queue has at most `backlog` items. The caps are
    /// given by resource number, of which 0 isn't read; a cap of 0 means that the resource has none.
    ///
    /// # Errors
    ///
    /// `AllocError` if an allocation fails.
    pub fn new(alloc: Global, backlog: u32, caps: [u32; 8]) -> Result<Exchange, AllocError>
        ensures { IfOk result (λ x. x ≡ record { caps = caps; backlog = backlog; exchange = empty_exchange }) }
    {
        let arrivals = HeapCircularBuffer::with_capacity(alloc, backlog as usize)?;
        let channels = channel_queues(alloc, backlog)?;
        Ok(Exchange {
            caps,
            backlog,
            arrivals,
            channels,
            uses: [0; 8],
        })
    }

    /// Adds an arriving value to the queue of arrivals. Returns whether it did: the value is dropped exactly if the
    /// queue is full.
    pub fn arrive(&mut self, value: u32) -> bool
        ensures queued { result ≡ not (table.is_dropped self.old.backlog self.old.exchange (Arrival value)) }
        ensures after { self.new ≡ after_delivery self.old (Arrival value) }
    {
        self.arrivals.try_push_back(value).is_ok()
    }

    /// Adds a message to its channel's queue. Returns whether it did: the message is dropped exactly if the queue is
    /// full.
    pub fn send(&mut self, channel: u32, value: u32) -> bool
        requires { channel < 64 }
        ensures queued { result ≡ not (table.is_dropped self.old.backlog self.old.exchange (Message channel value)) }
        ensures after { self.new ≡ after_delivery self.old (Message channel value) }
    {
        let queue = &mut self.channels[channel as usize];
        match queue.try_push_back(value) {
            Ok(()) => true,
            Err(_) => false,
        }
    }

    /// Returns the trap of a call that blocks, if it traps.
    pub fn trap_of(&self, block: Block) -> Option<TrapKind>
        ensures trap { result ≡ (row_of self.now block).trap }
        ensures caps { length self.now.caps ≡ 8 }
    {
        // By the invariant, there are eight caps.
        let _ = &self.caps;
        match block {
            Block::Accept | Block::Sleep { .. } | Block::Yield => None,
            Block::Wait { channel } | Block::WaitFor { channel, .. } => {
                if channel < Exchange::CHANNELS {
                    None
                } else {
                    Some(TrapKind::Channel)
                }
            }
            Block::Take { resource, amount } => self.resource_trap(resource, amount, false),
        }
    }

    /// Checks whether a thread is ready that has been blocked since `since` at a call that was no trap.
    pub fn is_ready(&self, block: Block, since: u64, clock: u64) -> bool
        requires untrapped { (row_of self.now block).trap ≡ None }
        requires early { since < 2 ^ 64 - 2 ^ 31 }
        ensures { result ≡ table.is_ready self.now.caps self.now.exchange clock since block }
    {
        match block {
            Block::Accept => !self.arrivals.is_empty(),
            Block::Wait { channel } => !self.channels[channel as usize].is_empty(),
            Block::Sleep { ticks } => since + ticks_of(ticks) <= clock,
            Block::Yield => true,
            Block::Take { resource, amount } => self.fits(resource, amount),
            Block::WaitFor { channel, ticks } => {
                self.holds_message(channel) || clock >= since + ticks_of(ticks)
            }
        }
    }

    /// Resumes a ready thread from a call that was no trap: `accept` and `wait` take the oldest item of their queue,
    /// `take` raises a use, `waitfor` takes nothing. Returns the call's result, or 0 if it has none.
    pub fn resume(&mut self, block: Block) -> u32
        requires { MayResume self.old block }
        ensures result_is { result ≡ (row_of self.old block).result }
        ensures after { self.new ≡ record self.old { exchange = (row_of self.old block).after } }
    {
        match block {
            Block::Accept => self.arrivals.pop_front().unwrap_or(0),
            Block::Wait { channel } => {
                let queue = &mut self.channels[channel as usize];
                queue.pop_front().unwrap_or(0)
            }
            Block::Sleep { .. } | Block::Yield => 0,
            Block::Take { resource, amount } => {
                self.uses[resource as usize] += amount;
                0
            }
            Block::WaitFor { channel, .. } => u32::from(self.holds_message(channel)),
        }
    }

    /// Does `give(resource, amount)`: lowers the use, or returns the trap of the call and changes nothing.
    pub fn give(&mut self, resource: u32, amount: u32) -> Option<TrapKind>
        ensures trap { result ≡ table.resource_trap self.old.caps resource amount (table.use_of self.old.exchange resource) }
        ensures after { self.new ≡ after_ask self.old (immediate_row self.old.caps self.old.exchange 0 0 (Ask.Give resource amount)) }
    {
        let trap = self.resource_trap(resource, amount, true);
        if trap.is_none() {
            self.uses[resource as usize] -= amount;
        }
        trap
    }

    /// Checks whether an arrival is in the queue.
    pub fn holds_arrival(&self) -> bool
        ensures { result ≡ table.holds_some self.now.exchange.arrivals }
    {
        !self.arrivals.is_empty()
    }

    /// Checks whether a message is in the channel's queue.
    pub fn holds_message(&self, channel: u32) -> bool
        requires { channel < 64 }
        ensures { result ≡ table.holds_some (table.channel_of self.now.exchange channel) }
    {
        !self.channels[channel as usize].is_empty()
    }

    /// Checks whether this amount of a resource with a cap is unused.
    pub fn fits(&self, resource: u32, amount: u32) -> bool
        requires { resource < 8 }
        ensures { result ≡ nat_le (table.use_of self.now.exchange resource + amount) (table.cap_of self.now.caps resource) }
    {
        self.used(resource) as u64 + amount as u64 <= self.cap(resource) as u64
    }

    /// Returns the use of a resource.
    pub fn used(&self, resource: u32) -> u32
        requires { resource < 8 }
        ensures use_is { result ≡ table.use_of self.now.exchange resource }
        ensures within { result ≤ table.cap_of self.now.caps resource }
    {
        self.uses[resource as usize]
    }

    /// Returns the cap of a resource, or 0 if it has none.
    pub fn cap(&self, resource: u32) -> u32
        requires { resource < 8 }
        ensures { result ≡ table.cap_of self.now.caps resource }
    {
        match resource {
            0 => 0,
            _ => self.caps[resource as usize],
        }
    }

    // Returns the trap of a call that takes an amount of a resource, at most its cap, or gives it, at most its use.
    fn resource_trap(&self, resource: u32, amount: u32, gives: bool) -> Option<TrapKind>
        ensures { result ≡ table.resource_trap self.now.caps resource amount (if gives then table.use_of self.now.exchange resource else table.cap_of self.now.caps resource) }
    {
        let caps = &self.caps;
        if resource as usize >= caps.len() {
            return Some(TrapKind::Resource);
        }
        let most = if gives {
            self.used(resource)
        } else {
            self.cap(resource)
        };
        if self.cap(resource) < 1 || is_negative(amount) || most < amount {
            Some(TrapKind::Resource)
        } else {
            None
        }
    }
}
