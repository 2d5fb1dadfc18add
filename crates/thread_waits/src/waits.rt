ghost use Rattle.std.specs.Prelude.{◌≡◌, ℕ, ◌<◌, ◌≤◌, ◌^◌, ◌∷◌, [], length, Some, None, IsSome, IfOk, OnOk, OnErr, slice_set};
ghost use Rattle.thread_waits.specs.Waiting.{wait_at, IsWaitInRange, IsWaitInRangeIf, latest};

use crate::blocks::{BLOCK, renew_sleepers, renew_takers};
use crate::kinds::{at_accept, channel_of, ready_always};
use crate::min_tree::MinTree;
use crate::parts::{
    count_in, count_out, grow_places, grow_tree, grow_trees, one_block_each, one_place,
};
use cap_word::Block;
use std::alloc::{AllocError, Global};
use std::marker::Model;

/// What a waiting thread waits for.
#[derive(Clone, Copy)]
pub enum Wait {
    /// It waits to run for the first time.
    Fresh,
    /// It is blocked at a call since a clock.
    At { block: Block, since: u64 },
}

/// The waiting threads by place, and the clock.
#[derive(Drop)]
pub struct Waits {
    pub(crate) places: Vec<Option<Wait>>,
    pub(crate) clock: u64,
    pub(crate) ready_always: usize,
    pub(crate) at_accept: usize,
    pub(crate) at_channels: [usize; 64],
    pub(crate) sleepers: MinTree,
    pub(crate) takers: Vec<MinTree>,
}

impl Model for Waits {
    ghost use Rattle.thread_waits.specs.Waiting.{Waiting};

    ghost Value = { Waiting };

    ghost use Rattle.thread_waits.specs.Counted.{waiting, IsCounted};

    ghost view = { waiting };

    ghost invariant = { IsCounted };
}

impl Waits {
    /// Returns one place, at which no thread waits, at clock 0.
    ///
    /// # Errors
    ///
    /// `AllocError` if an allocation fails.
    pub fn new(alloc: Global) -> Result<Waits, AllocError>
        ensures { IfOk result (λ w. w ≡ record { places = None ∷ []; clock = 0 }) }
    {
        let places = one_place(alloc)?;
        let sleepers = MinTree::new(alloc, 1)?;
        let takers = one_block_each(alloc)?;
        Ok(Waits {
            places,
            clock: 0,
            ready_always: 0,
            at_accept: 0,
            at_channels: [0; 64],
            sleepers,
            takers,
        })
    }

    /// Adds a place, at which no thread waits, if it doesn't exist yet. All other places stay the same.
    pub fn make_place(&mut self, alloc: Global, place: usize) -> Result<(), AllocError>
        requires { place < 2 ^ 32 }
        ensures there { OnOk result (place < length self.new.places) }
        ensures longer { length self.old.places ≤ length self.new.places }
        ensures same { (other : ℕ) → wait_at self.new other ≡ wait_at self.old other }
        ensures clock { self.new.clock ≡ self.old.clock }
    {
        if place < self.places.len() {
            return Ok(());
        }
        let count = place + 1 + place / 2;
        let blocks = count / BLOCK + 1;
        grow_tree(&mut self.sleepers, alloc, blocks)?;
        grow_trees(&mut self.takers, alloc, blocks)?;
        grow_places(&mut self.places, count)?;
        Ok(())
    }

    /// Returns the wait at a place, if a thread waits there.
    pub fn at(&self, place: usize) -> Option<Wait>
        ensures { result ≡ wait_at self.now place }
    {
        self.places.get(place).copied().flatten()
    }

    /// Returns the clock.
    pub fn clock(&self) -> u64
        ensures { result ≡ self.now.clock }
    {
        self.clock
    }

    /// Begins a wait at a place.
    pub fn wait(&mut self, place: usize, wait: Wait)
        requires there { place < length self.old.places }
        requires empty { wait_at self.old place ≡ None }
        requires in_range { IsWaitInRange wait }
        ensures { self.new ≡ record self.old { places = slice_set self.old.places place (Some wait) } }
    {
        self.put(place, Some(wait));
    }

    /// Ends the wait at a place.
    pub fn go(&mut self, place: usize)
        requires { IsSome (wait_at self.old place) }
        ensures { self.new ≡ record self.old { places = slice_set self.old.places place None } }
    {
        self.put(place, None);
    }

    /// Advances the clock to a time.
    pub fn advance(&mut self, to: u64)
        requires later { self.old.clock ≤ to }
        requires possible { to ≤ latest }
        ensures { self.new ≡ record self.old { clock = to } }
    {
        self.clock = to;
    }

    // Sets the wait at a place.
    fn put(&mut self, place: usize, next: Option<Wait>)
        requires there { place < length self.old.places }
        requires in_range { IsWaitInRangeIf next }
        ensures { self.new ≡ record self.old { places = slice_set self.old.places place next } }
    {
        let now = self.places[place];
        self.ready_always = self.ready_always + ready_always(next) - ready_always(now);
        self.at_accept = self.at_accept + at_accept(next) - at_accept(now);
        count_out(&mut self.at_channels, channel_of(now));
        count_in(&mut self.at_channels, channel_of(next));
        renew_sleepers(&mut self.sleepers, &self.places, place, next);
        renew_takers(&mut self.takers, &self.places, place, next);
        self.places[place] = next;
    }
}
