// The budgets that are computed.

use crate::budget_sources::{LINKED, MUTUAL, PLAIN, RECURSIVE, SPAWNING, TABLE, workload_of};
use crate::built::{SMALL, USUAL, accepted_in_range};
use accepted_pairs::Accepted;
use chunk_budget::{Budget, MakeBudgetError, check_budget, make_budget};
use std::alloc::Global;

// A source, and its least budget: the chunks of a thread and the heights of its functions.
const ROWS: &[(&[u8], u32, &[u32])] = &[
    // The height of `main` is one more than that of the function that it calls at a linked site.
    (LINKED, 2, &[0, 1]),
    (PLAIN, 1, &[0, 0]),
    // The highest member counts.
    (TABLE, 3, &[0, 0, 1, 2]),
    // The highest first function of a thread counts, which isn't `main` here.
    (SPAWNING, 2, &[0, 1, 0]),
];

// A source with a cycle of calls, and the least function on one.
const CYCLES: &[(&[u8], u32)] = &[(RECURSIVE, 0), (MUTUAL, 1)];

// Returns the budget of a program, if it has one.
fn budget_of(alloc: Global, accepted: &Accepted) -> Option<Budget> {
    match make_budget(alloc, accepted) {
        Ok(budget) => Some(budget),
        Err(_) => None,
    }
}

fn is_accepted(accepted: &Accepted, budget: &Budget) -> bool {
    matches!(check_budget(accepted, budget), Ok(()))
}

// Checks whether that is the computed budget of a program, and the check accepts it.
fn is_budget(alloc: Global, accepted: &Accepted, per_thread: u32, heights: &[u32]) -> bool {
    match budget_of(alloc, accepted) {
        None => false,
        Some(budget) => {
            let right = budget.per_thread == per_thread
                && budget.heights.as_slice() == heights
                && is_accepted(accepted, &budget);
            drop(budget);
            right
        }
    }
}

fn is_row(alloc: Global, source: &[u8], per_thread: u32, heights: &[u32]) -> bool {
    match accepted_in_range(alloc, source, SMALL) {
        None => false,
        Some(accepted) => {
            let right = is_budget(alloc, &accepted, per_thread, heights);
            drop(accepted);
            right
        }
    }
}

fn all_hold(alloc: Global, rows: &[(&[u8], u32, &[u32])]) -> bool {
    for (source, per_thread, heights) in rows {
        if !is_row(alloc, source, *per_thread, heights) {
            return false;
        }
    }
    true
}

// Returns the function that is named if a program has no budget.
fn cycle_in(alloc: Global, accepted: &Accepted) -> Option<u32> {
    match make_budget(alloc, accepted) {
        Err(MakeBudgetError::Cycle { function }) => Some(function),
        Err(MakeBudgetError::Memory) => None,
        Ok(budget) => {
            drop(budget);
            None
        }
    }
}

fn is_cycle(alloc: Global, source: &[u8], function: u32) -> bool {
    match accepted_in_range(alloc, source, SMALL) {
        None => false,
        Some(accepted) => {
            let found = cycle_in(alloc, &accepted);
            drop(accepted);
            match found {
                Some(found) => found == function,
                None => false,
            }
        }
    }
}

fn all_are_cycles(alloc: Global, rows: &[(&[u8], u32)]) -> bool {
    for (source, function) in rows {
        if !is_cycle(alloc, source, *function) {
            return false;
        }
    }
    true
}

// Returns the number of chunks that a thread of a program may hold, or 0.
fn chunks_in(alloc: Global, accepted: &Accepted) -> u32 {
    match budget_of(alloc, accepted) {
        None => 0,
        Some(budget) => {
            let chunks = budget.per_thread;
            drop(budget);
            chunks
        }
    }
}

fn chunks_of(alloc: Global, source: &[u8]) -> u32 {
    match accepted_in_range(alloc, source, USUAL) {
        None => 0,
        Some(accepted) => {
            let chunks = chunks_in(alloc, &accepted);
            drop(accepted);
            chunks
        }
    }
}

// Returns the number of chunks that a thread of the workload of number 1000 may hold, or 0.
fn chunks_of_workload(alloc: Global) -> u32 {
    match workload_of(alloc) {
        None => 0,
        Some(source) => {
            let chunks = chunks_of(alloc, &source);
            drop(source);
            chunks
        }
    }
}

#[test]
fn made(rt: HostRuntime) {
    let alloc = rt.alloc();
    let right = all_hold(alloc, ROWS)
        && all_are_cycles(alloc, CYCLES)
        && chunks_of_workload(alloc) == 16;
    assert!(rt; right);
}
