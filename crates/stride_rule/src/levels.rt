// Summaries of 16, 256 and 4,096 places. Summary i of a level is that of the places from i times its size on.
ghost use Rattle.std.specs.Prelude.{◌≡◌, ◌≢◌, ◌<◌, ◌≤◌, ◌/◌, ◌^◌, ◌++◌, ◌∷◌, [], ℕ, length, None, Option, List, OnOk};
ghost use Rattle.stride_rule.specs.declared.rows.Row.{Row as RowOf};
ghost use Rattle.stride_rule.specs.Levels.{AreLevels, AreLevelsBut, HasRoom, IsCovered, IsThere};
ghost use Rattle.stride_rule.specs.Rows.{row_at};
ghost use Rattle.stride_rule.specs.Search.{met_with, met_among};
ghost use Rattle.stride_rule.specs.Summaries.{Covers, Includes, summary_at};

use crate::clients::Client;
use crate::rows::Row;
use crate::searching::met_at;
use crate::summaries::Summary;
use ready_tree::Bounds;
use std::alloc::{AllocError, Global};

/// The number of places, or of summaries of the level below, of a summary.
const SPAN: usize = 16;

/// The number of places of a summary of the middle level.
const MIDDLE: usize = 256;

/// The number of places of a summary of the large level.
const LARGE: usize = 4096;

/// The summaries of the places of a rule.
#[derive(Drop)]
pub struct Levels {
    /// Of 16 places each.
    pub small: Vec<Summary>,
    /// Of 256 places each.
    pub middle: Vec<Summary>,
    /// Of 4,096 places each.
    pub large: Vec<Summary>,
}

/// Returns the summary with this number, of 16 places.
fn summary_of_places(places: &[Option<Row>], index: usize) -> Summary
    requires { index ≤ length places.now }
    ensures { (place : ℕ) → place < length places.now → place / 16 ≡ index → Covers result (row_at places.now place) }
{
    let start = index * SPAN;
    let end = places.len().min(start + SPAN);
    let mut summary = Summary::NONE;
    for place in start..end {
        summary = summary.with(&places[place]);
    }
    summary
}

/// Returns the summary with this number, of 16 summaries of the level below.
fn summary_of_level(level: &[Summary], index: usize) -> Summary
    requires { index ≤ length level.now }
    ensures { (other : ℕ) → other < length level.now → other / 16 ≡ index → Includes result (summary_at level.now other) }
{
    let start = index * SPAN;
    let end = level.len().min(start + SPAN);
    let mut summary = Summary::NONE;
    for other in start..end {
        summary = summary.join(&level[other]);
    }
    summary
}

/// Adds one more place to the summary with this number, which may be a new one.
fn cover(level: &mut Vec<Summary>, index: usize, place: &Option<Row>) -> Result<(), AllocError>
    requires { index ≤ length level.old.items }
    ensures kept { (other : ℕ) → (row : Option RowOf) → IsCovered level.old.items other row → IsCovered level.new.items other row }
    ensures covered { OnOk result (IsCovered level.new.items index place.now) }
{
    if index < level.len() {
        level[index] = level[index].with(place);
        return Ok(());
    }
    level.push(Summary::NONE.with(place))?;
    Ok(())
}

/// Updates the summaries of the first places.
fn renew_small(small: &mut [Summary], places: &[Option<Row>])
    ensures { (place : ℕ) → place < length places.now → place / 16 < length small.old → Covers (summary_at small.new (place / 16)) (row_at places.now place) }
{
    for index in 0..small.len().min(places.len()) {
        small[index] = summary_of_places(places, index);
    }
}

/// Updates the summaries of a level from those of the level below.
fn renew_level(level: &mut [Summary], below: &[Summary])
    ensures { (other : ℕ) → other < length below.now → other / 16 < length level.old → Includes (summary_at level.new (other / 16)) (summary_at below.now other) }
{
    for index in 0..level.len().min(below.len()) {
        level[index] = summary_of_level(below, index);
    }
}

impl Levels {
    /// Returns the summaries of no places.
    pub fn new(alloc: Global) -> Levels
        ensures { AreLevels result [] }
    {
        Levels {
            small: Vec::new(alloc),
            middle: Vec::new(alloc),
            large: Vec::new(alloc),
        }
    }

    /// Adds one more place at the end to the summaries. If an allocation fails, they cover the places before it.
    pub fn add(&mut self, place: usize, row: &Option<Row>) -> Result<(), AllocError>
        requires { HasRoom self.old place }
        ensures kept { (places : List (Option RowOf)) → AreLevels self.old places → AreLevels self.new places }
        ensures added { OnOk result ((places : List (Option RowOf)) → place ≡ length places → AreLevels self.old places → AreLevels self.new (places ++ row.now ∷ [])) }
    {
        cover(&mut self.small, place / SPAN, row)?;
        cover(&mut self.middle, place / MIDDLE, row)?;
        cover(&mut self.large, place / LARGE, row)
    }

    /// Updates the summaries after a change at a place.
    pub fn renew(&mut self, places: &[Option<Row>], place: usize)
        requires there { place < length places.now }
        requires but { AreLevelsBut self.old places.now place }
        ensures { AreLevels self.new places.now }
    {
        self.small[place / SPAN] = summary_of_places(places, place / SPAN);
        self.middle[place / MIDDLE] = summary_of_level(&self.small, place / MIDDLE);
        self.large[place / LARGE] = summary_of_level(&self.middle, place / LARGE);
    }

    /// Updates the summaries of these places, if there are enough of them. Summaries after them may still cover removed
    /// places, which costs time but doesn't change a result.
    pub fn renew_all(&mut self, places: &[Option<Row>])
        requires { (place : ℕ) → place < length places.now → IsThere self.old place }
        ensures { AreLevels self.new places.now }
    {
        renew_small(&mut self.small, places);
        renew_level(&mut self.middle, &self.small);
        renew_level(&mut self.large, &self.middle);
    }

    /// Returns the next place to be tested: given the best so far, no thread from this place on and before that one is
    /// the first whose need is met.
    fn next_from(&self, place: usize, bounds: &Bounds, best: &Option<Client>) -> usize
        requires there { IsThere self.now place }
        requires room { place < 2 ^ 62 }
        ensures at_least { place ≤ result }
        ensures passed { (places : List (Option RowOf)) → AreLevels self.now places → (other : ℕ) → place ≤ other → other < result → other < length places → met_with bounds.now best.now (row_at places other) ≡ best.now }
    {
        if place % SPAN != 0 {
            return place;
        }
        if place % LARGE == 0 && !self.large[place / LARGE].may_help(bounds, best) {
            return place + LARGE;
        }
        if place % MIDDLE == 0 && !self.middle[place / MIDDLE].may_help(bounds, best) {
            return place + MIDDLE;
        }
        if !self.small[place / SPAN].may_help(bounds, best) {
            return place + SPAN;
        }
        place
    }

    /// Returns the first of the clients whose needs are met.
    pub fn first_met(&self, places: &[Option<Row>], bounds: &Bounds) -> Option<Client>
        requires { AreLevels self.now places.now }
        ensures { result ≡ met_among bounds.now None places.now }
    {
        let mut best: Option<Client> = None;
        let mut place = 0;
        while place < places.len() {
            let next = self.next_from(place, bounds, &best);
            if next > place {
                place = next;
            } else {
                best = met_at(best, &places[place], bounds);
                place += 1;
            }
        }
        best
    }
}
