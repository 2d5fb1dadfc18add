ghost use Rattle.std.specs.Prelude.{◌≡◌};
ghost use Rattle.std.specs.List.{list_any};
ghost use Rattle.thread_waits.specs.Counted.{is_ready_anyway};
ghost use Rattle.thread_waits.specs.Telling.{is_at_message, is_taking, silent_wake, IsLeastNumber};
ghost use Rattle.thread_waits.specs.Waiting.{any_ready_in, any_elsewhere_in, IsWake};

use crate::kinds::sleep_number;
use crate::min_tree::MinTree;
use crate::waits::Waits;
use thread_exchange::Exchange;

impl Waits {
    /// Checks whether any waiting thread is ready.
    pub fn any_ready(&self, exchange: &Exchange) -> bool
        ensures { result ≡ any_ready_in exchange.now.caps exchange.now.exchange self.now }
    {
        if self.any_elsewhere(exchange) {
            return true;
        }
        if self.at_accept == 0 {
            return false;
        }
        exchange.holds_arrival()
    }

    /// Checks whether any thread that doesn't wait at `accept` is ready.
    pub fn any_elsewhere(&self, exchange: &Exchange) -> bool
        ensures { result ≡ any_elsewhere_in exchange.now.caps exchange.now.exchange self.now }
    {
        if self.any_anyway() {
            return true;
        }
        if self.any_at_channel(exchange) {
            return true;
        }
        self.any_at_resource(exchange)
    }

    /// Returns the least time at which a sleeping thread wakes, or `None` if no thread sleeps. A ready thread doesn't
    /// sleep. The time is constant if no thread is ready by a message or a time, and otherwise linear in the number of
    /// places.
    pub fn wake(&self, exchange: &Exchange) -> Option<u64>
        ensures { IsWake exchange.now.caps exchange.now.exchange self.now result }
    {
        let time = self.least_time(exchange);
        if time < MinTree::NONE {
            Some(time)
        } else {
            None
        }
    }

    // Returns the least wake time after the clock of the threads without a message, or `NONE`.
    fn least_time(&self, exchange: &Exchange) -> u64
        ensures { IsLeastNumber (silent_wake exchange.now.exchange self.now.clock) self.now.places result }
    {
        if self.any_at_channel(exchange) {
            return self.least_asleep(exchange);
        }
        let least = self.sleepers.least();
        if least <= self.clock {
            return self.least_asleep(exchange);
        }
        least
    }

    // Returns the same by a search of all places, since some threads whose times are in the tree are ready.
    fn least_asleep(&self, exchange: &Exchange) -> u64
        ensures { IsLeastNumber (silent_wake exchange.now.exchange self.now.clock) self.now.places result }
    {
        let mut least = MinTree::NONE;
        for place in 0..self.places.len() {
            let wait = self.at(place);
            least = least.min(sleep_number(exchange, self.clock, wait));
        }
        least
    }

    // Checks whether any thread is ready whatever the queues and uses are.
    fn any_anyway(&self) -> bool
        ensures { result ≡ list_any (is_ready_anyway self.now.clock) self.now.places }
    {
        if self.ready_always > 0 {
            return true;
        }
        self.sleepers.least() <= self.clock
    }

    // Checks whether any thread waits at a channel that has a message.
    fn any_at_channel(&self, exchange: &Exchange) -> bool
        ensures { result ≡ list_any (is_at_message exchange.now.exchange) self.now.places }
    {
        for channel in 0..Exchange::CHANNELS {
            if self.at_channels[channel as usize] > 0 && exchange.holds_message(channel) {
                return true;
            }
        }
        false
    }

    // Checks whether the least amount of a resource that is waited for is unused.
    fn any_at_resource(&self, exchange: &Exchange) -> bool
        ensures { result ≡ list_any (is_taking exchange.now.caps exchange.now.exchange) self.now.places }
    {
        for resource in 1..8u32 {
            let unused = exchange.cap(resource) - exchange.used(resource);
            let tree = &self.takers[resource as usize];
            if tree.least() <= unused as u64 {
                return true;
            }
        }
        false
    }
}
