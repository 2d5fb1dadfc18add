ghost use Rattle.std.specs.Prelude.{◌≡◌, ℕ, ◌<◌, ◌≤◌, length};
ghost use Rattle.chunk_pool.specs.Pool.{word_of, free_count, words_of};
ghost use Rattle.thread_core.specs.Needs.{IsWaitingIn, Vouches};
ghost use Rattle.thread_core.specs.Ready.{is_ready_in, is_at_accept_in, any_ready_in, any_elsewhere_in, IsWake};
ghost use Rattle.thread_core.specs.Standings.{standing_in};
ghost use Rattle.thread_core.specs.Worlds.{used_in, cap_in};

use crate::standing::Standing;
use crate::world::World;
use accepted_pairs::Accepted;
use cap_word::{Ready, ThreadId};
use ready_tree::{Bounded, Bounds, Need};

impl Ready for World {
    ghost is_ready = { is_ready_in };

    ghost at_accept = { is_at_accept_in };

    ghost any_elsewhere = { any_elsewhere_in };

    fn is_ready(&self, thread: ThreadId) -> bool {
        self.state.is_ready(thread)
    }

    fn at_accept(&self, thread: ThreadId) -> bool {
        self.state.at_accept(thread)
    }

    fn any_elsewhere(&self) -> bool {
        self.state.waits.any_elsewhere(&self.state.exchange)
    }
}

impl Bounded for World {
    ghost vouches = { Vouches };

    fn bounds(&self) -> Bounds {
        self.state.waits.bounds(&self.state.exchange)
    }
}

impl World {
    /// Returns the need of a thread that waits.
    pub fn need_of(&self, thread: ThreadId) -> Need
        requires { IsWaitingIn self.now thread }
        ensures { Vouches self.now thread result }
    {
        let Some(need) = self.state.need_of(thread) else {
            unreachable!()
        };
        need
    }

    /// Checks whether any thread is ready.
    pub fn any_ready(&self) -> bool
        ensures { result ≡ any_ready_in self.now }
    {
        self.state.waits.any_ready(&self.state.exchange)
    }

    /// Returns the clock.
    pub fn clock(&self) -> u64
        ensures { result ≡ self.now.machine.clock }
    {
        self.state.waits.clock()
    }

    /// Returns the least time at which a sleeping thread wakes, or `None` if no thread sleeps. A thread sleeps if it is
    /// blocked at `sleep` or `waitfor` and isn't ready.
    pub fn wake(&self) -> Option<u64>
        ensures { IsWake self.now.setting self.now.machine result }
    {
        self.state.waits.wake(&self.state.exchange)
    }

    /// Returns the number of live threads.
    pub fn live(&self) -> u32
        ensures { result ≡ length self.now.machine.threads }
    {
        self.state.live
    }

    /// Returns the number of free chunks.
    pub fn free(&self) -> u32
        ensures { result ≡ free_count self.now.machine.areas.pool }
    {
        self.state.areas.pool().free()
    }

    /// Returns the use of a resource below 8; the use of resource 0 is the number of held chunks.
    pub fn used(&self, resource: u32) -> u32
        requires { resource < 8 }
        ensures use_is { result ≡ used_in self.now.machine resource }
        ensures within { result ≤ cap_in self.now resource }
    {
        if resource == 0 {
            self.chunks - self.state.areas.pool().free()
        } else {
            self.state.exchange.used(resource)
        }
    }

    /// Returns the cap of a resource below 8, or 0 if it has none; the cap of resource 0 is the number of chunks of
    /// both sizes.
    pub fn cap(&self, resource: u32) -> u32
        requires { resource < 8 }
        ensures { result ≡ cap_in self.now resource }
    {
        if resource == 0 {
            self.chunks
        } else {
            self.state.exchange.cap(resource)
        }
    }

    /// Returns the number of retired instructions.
    pub fn cost(&self) -> u64
        ensures { result ≡ self.now.machine.cost }
    {
        self.most - self.state.fuel.left
    }

    /// Returns the program with its image and certificate, as passed to `make`.
    pub fn accepted(&self) -> &Accepted
        ensures { result.now ≡ self.now.accepted }
    {
        &self.accepted
    }

    /// Returns pc and registers of a thread, or `None` if it isn't live.
    pub fn standing(&self, thread: ThreadId) -> Option<Standing>
        ensures { result ≡ standing_in self.now thread }
    {
        self.state.standing(thread)
    }

    /// Returns the number of words of a chunk.
    pub fn chunk_words(&self, chunk: u32) -> u32
        requires { chunk < self.now.machine.areas.pool.count }
        ensures { result ≡ words_of self.now.machine.areas.pool chunk }
    {
        self.state.areas.pool().bytes_of(chunk) / 4
    }

    /// Returns a word of a chunk of the pool; `word` is below `chunk_words` of the chunk.
    pub fn word_at(&self, chunk: u32, word: u32) -> u32
        requires chunk { chunk < self.now.machine.areas.pool.count }
        requires word { word < words_of self.now.machine.areas.pool chunk }
        ensures { result ≡ word_of self.now.machine.areas.pool chunk word }
    {
        self.state.areas.pool().read(chunk, word)
    }
}
