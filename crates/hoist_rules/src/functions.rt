// The rewriting of a function.
ghost use Rattle.std.specs.Prelude.{◌≡◌, IfOk};
ghost use Rattle.c_tree.specs.RawViews.{raw_stmt_trees};
ghost use Rattle.hoist_parts.specs.Statements.{all_hoisted};
ghost use Rattle.hoist_rules.specs.Receivers.{then_received};

use crate::hoisting::Hoisting;
use crate::receivers::Receive;
use c_tree::RawStmt;
use std::alloc::{AllocError, Global};

/// Passes the statements that replace the body of a function to the receiver, one after another, and returns the
/// receiver. Every call in these statements is whole: each call of the body that isn't whole goes before its statement,
/// as the declaration of a name that no source contains, and so does everything that is evaluated before the call. The
/// new names are numbered from 0.
///
/// # Errors
///
/// Returns `AllocError` if an allocation fails, or if the body needs more than 2^32 - 1 new names.
pub fn hoist_body<R: Receive + Drop>(
    alloc: Global,
    body: &[RawStmt],
    receiver: R,
) -> Result<R, AllocError>
    ensures { IfOk result (λ r. R.so_far r ≡ then_received (R.so_far receiver) (all_hoisted 0 (raw_stmt_trees body.now))) }
{
    let mut hoisting = Hoisting {
        alloc,
        next: 0,
        receiver,
    };
    hoisting.statements(body)?;
    Ok(hoisting.receiver)
}
