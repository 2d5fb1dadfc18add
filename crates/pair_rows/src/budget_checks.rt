// The answers of the check of a budget.

use crate::budget_sources::{LINKED, PLAIN, SPAWNING, TABLE};
use crate::built::{SMALL, accepted_in_range};
use accepted_pairs::Accepted;
use cap_word::Words;
use chunk_budget::BudgetError::{Length, Low, Root, Zero};
use chunk_budget::{Budget, BudgetError, check_budget};
use std::alloc::Global;

// A source, the number of chunks that a thread may hold, the heights of its functions, and the answer. Sites are
// numbered in the order of the source.
const ROWS: &[(&[u8], u32, &[u32], Result<(), BudgetError>)] = &[
    // A linked call adds a chunk.
    (LINKED, 2, &[0, 1], Ok(())),
    (LINKED, 5, &[3, 4], Ok(())),
    (LINKED, 1, &[0, 1], Err(Root { function: 1 })),
    (LINKED, 2, &[0, 0], Err(Low { site: 0 })),
    (LINKED, 2, &[1, 1], Err(Low { site: 0 })),
    // The refusals are tested in this order.
    (
        LINKED,
        0,
        &[0],
        Err(Length {
            heights: 1,
            functions: 2,
        }),
    ),
    (
        LINKED,
        0,
        &[0, 0, 0],
        Err(Length {
            heights: 3,
            functions: 2,
        }),
    ),
    (LINKED, 0, &[0, 0], Err(Zero)),
    (LINKED, 1, &[9, 9], Err(Low { site: 0 })),
    // A height may be any number of 32 bits: the next number is no height.
    (
        LINKED,
        4_294_967_295,
        &[4_294_967_295, 4_294_967_295],
        Err(Low { site: 0 }),
    ),
    (
        LINKED,
        4_294_967_295,
        &[4_294_967_293, 4_294_967_294],
        Ok(()),
    ),
    // A plain call adds none.
    (PLAIN, 1, &[0, 0], Ok(())),
    (PLAIN, 1, &[1, 0], Err(Low { site: 0 })),
    // Each member of a table counts, and the site in the called function has the lesser number.
    (TABLE, 3, &[0, 0, 1, 2], Ok(())),
    (TABLE, 3, &[0, 0, 1, 1], Err(Low { site: 1 })),
    (TABLE, 3, &[0, 0, 0, 0], Err(Low { site: 0 })),
    (TABLE, 2, &[0, 0, 1, 2], Err(Root { function: 3 })),
    // The function with which a thread is started counts as `main` does, and its start is no call.
    (SPAWNING, 2, &[0, 1, 0], Ok(())),
    (SPAWNING, 1, &[0, 1, 0], Err(Root { function: 1 })),
    (SPAWNING, 1, &[0, 1, 1], Err(Root { function: 1 })),
];

// Returns the answer of the check of a budget, or `None` if memory runs out.
fn answer_of(
    alloc: Global,
    accepted: &Accepted,
    per_thread: u32,
    heights: &[u32],
) -> Option<Result<(), BudgetError>> {
    let Ok(heights) = Vec::from_slice(alloc, heights) else {
        return None;
    };
    let budget = Budget {
        per_thread,
        heights: Words::new(heights),
    };
    let answer = check_budget(accepted, &budget);
    drop(budget);
    Some(answer)
}

fn is_answer(found: Option<Result<(), BudgetError>>, answer: Result<(), BudgetError>) -> bool {
    match found {
        Some(found) => found == answer,
        None => false,
    }
}

// Checks whether the check of a budget of a source gives this answer.
fn is_row(
    alloc: Global,
    source: &[u8],
    per_thread: u32,
    heights: &[u32],
    answer: Result<(), BudgetError>,
) -> bool {
    match accepted_in_range(alloc, source, SMALL) {
        None => false,
        Some(accepted) => {
            let found = answer_of(alloc, &accepted, per_thread, heights);
            drop(accepted);
            is_answer(found, answer)
        }
    }
}

fn all_hold(alloc: Global, rows: &[(&[u8], u32, &[u32], Result<(), BudgetError>)]) -> bool {
    for (source, per_thread, heights, answer) in rows {
        if !is_row(alloc, source, *per_thread, heights, *answer) {
            return false;
        }
    }
    true
}

#[test]
fn checks(rt: HostRuntime) {
    assert!(rt; all_hold(rt.alloc(), ROWS));
}
