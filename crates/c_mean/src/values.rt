// The value of an expression.
ghost use Rattle.std.specs.Prelude.{◌≡◌, ◌<◌, Ok, MatchOption, length, sum};
ghost use Rattle.c_tree.specs.Views.{expr_tree};
ghost use Rattle.c_tree.specs.ProgramView.{program_tree};
ghost use Rattle.c_mean.specs.Chains.{joined_value, IsDecided, IsOpen};
ghost use Rattle.c_mean.specs.Frames.{function_at};
ghost use Rattle.c_mean.specs.Layout.{rows_of, widths_of, IsInRange};
ghost use Rattle.c_mean.specs.Values.{value};

use crate::layout::{element_of_global, element_of_name, word_of_global, word_of_name};
use crate::operators::{binary, unary};
use c_tree::{Expr, GlobalFact, Infix, Program};
use cap_word::TrapKind;

/// Returns the value that the left operand alone determines: of `&&` if it is 0, and of `||` if it isn't.
pub fn decided(operator: Infix, left: u32) -> Option<u32>
    ensures { MatchOption result (IsOpen operator left) (IsDecided operator left) }
{
    match operator {
        Infix::LogicalAnd if left == 0 => Some(0),
        Infix::LogicalOr if left != 0 => Some(1),
        Infix::Binary(_) | Infix::LogicalAnd | Infix::LogicalOr => None,
    }
}

/// Returns the value of an operator on two operands.
#[inline(always)]
pub fn joined(operator: Infix, left: u32, right: u32) -> u32
    ensures { joined_value operator (Ok left) (Ok right) ≡ Ok result }
{
    match operator {
        Infix::Binary(binary_operator) => binary(binary_operator, left, right),
        Infix::LogicalAnd if left == 0 => 0,
        Infix::LogicalOr if left != 0 => 1,
        Infix::LogicalAnd | Infix::LogicalOr => if right == 0 { 0 } else { 1 },
    }
}

// Returns the value of an expression over names of these sizes and globals of these facts, or its first trap.
fn evaluate(
    sizes: &[u32],
    names: &[u32],
    facts: &[GlobalFact],
    globals: &[u32],
    expr: &Expr,
) -> Result<u32, TrapKind>
    requires names { length names.now ≡ sum sizes.now }
    requires globals { length globals.now ≡ sum (widths_of facts.now) }
    requires in_range { IsInRange sizes.now (widths_of facts.now) (expr_tree expr.now) }
    ensures { result ≡ value (rows_of sizes.now names.now) (rows_of (widths_of facts.now) globals.now) (expr_tree expr.now) }
{
    match expr {
        Expr::Number(number) => Ok(*number),
        Expr::Local(x) => Ok(word_of_name(sizes, *x, names)),
        Expr::Global(g) => Ok(word_of_global(facts, *g, globals)),
        Expr::LocalElement { array, index } => {
            let index = evaluate(sizes, names, facts, globals, index)?;
            element_of_name(sizes, *array, names, index)
        }
        Expr::GlobalElement { array, index } => {
            let index = evaluate(sizes, names, facts, globals, index)?;
            element_of_global(facts, *array, globals, index)
        }
        Expr::Unary { operator, operand } => {
            let operand = evaluate(sizes, names, facts, globals, operand)?;
            Ok(unary(*operator, operand))
        }
        Expr::Parenthesized(inner) => evaluate(sizes, names, facts, globals, inner),
        Expr::Chain { first, rest } => {
            let mut left = evaluate(sizes, names, facts, globals, first)?;
            for (operator, operand) in rest {
                if let Some(word) = decided(*operator, left) {
                    left = word;
                } else {
                    let right = evaluate(sizes, names, facts, globals, operand)?;
                    left = joined(*operator, left, right);
                }
            }
            Ok(left)
        }
        Expr::Conditional {
            condition,
            then,
            otherwise,
        } => {
            let condition = evaluate(sizes, names, facts, globals, condition)?;
            if condition != 0 {
                evaluate(sizes, names, facts, globals, then)
            } else {
                evaluate(sizes, names, facts, globals, otherwise)
            }
        }
    }
}

/// Returns the value of an expression of one of the program's functions, or its first trap (ISO/IEC 9899:2018, 6.5,
/// where sums, differences, products and `<<` wrap). `names` has the words of the function's parameters and declared
/// names in the order of the text, and `globals` those of the globals in the order of their declarations; an array has
/// as many words as its size. It doesn't allocate, and recurses as deep as the expression nests. Each name costs a walk
/// over the names before it.
///
/// The function must exist, both slices must have as many words as the program declares, and the expression may use
/// only the function's names and the globals, and without an index only those of one word.
///
/// # Errors
///
/// The trap `Index` exactly if the first part that can't be evaluated is an index that, read as an unsigned number,
/// isn't below the size of its array.
pub fn value_of(
    program: &Program,
    function: u32,
    names: &[u32],
    globals: &[u32],
    expr: &Expr,
) -> Result<u32, TrapKind>
    requires there { function < length (program_tree program.now).functions }
    requires names { length names.now ≡ sum (function_at (program_tree program.now) function).sizes }
    requires globals { length globals.now ≡ sum (widths_of (program_tree program.now).globals) }
    requires in_range { IsInRange (function_at (program_tree program.now) function).sizes (widths_of (program_tree program.now).globals) (expr_tree expr.now) }
    ensures value { result
        ≡ value
        (rows_of (function_at (program_tree program.now) function).sizes names.now)
        (rows_of (widths_of (program_tree program.now).globals) globals.now)
        (expr_tree expr.now) }
{
    let function = &program.functions()[function as usize];
    evaluate(&function.sizes, names, program.globals(), globals, expr)
}
