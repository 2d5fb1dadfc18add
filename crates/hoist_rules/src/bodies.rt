// Parts of the loop of a `while` whose condition contains a call.
ghost use Rattle.std.specs.Prelude.{◌≡◌, IfOk};
ghost use Rattle.c_tree.specs.RawTrees.{RawIf, RawBreak};
ghost use Rattle.c_tree.specs.RawViews.{raw_expr_tree, raw_stmt_tree};
ghost use Rattle.hoist_parts.specs.Expressions.{is_false};

use c_tree::{RawExpr, RawStmt};
use hoist_parts::is_false;
use std::alloc::{AllocError, Global};

/// Returns `if (!c) break;`. The `break` has the place 0, because it isn't in the source.
pub(crate) fn ends_unless(alloc: Global, condition: RawExpr) -> Result<RawStmt, AllocError>
    ensures { IfOk result (λ s. raw_stmt_tree s ≡ RawIf (is_false (raw_expr_tree condition)) (RawBreak 0)) }
{
    let condition = is_false(alloc, condition)?;
    let then = Box::new(alloc, RawStmt::Break { at: 0 })?;
    Ok(RawStmt::If { condition, then })
}
