// The value of a long sum, on the default stack.

ghost use Rattle.std.specs.Prelude.{IfOk};
ghost use Rattle.c_tree.specs.Views.{expr_tree};
ghost use Rattle.reader_rows.specs.Small.{NamesNothing};

use c_tree::{BinaryOperator, Expr, Infix};
use source_items::{Rows, evaluate};
use std::alloc::{AllocError, Global};
use std::test::Fail;

const TERMS: u32 = 500_000;

// `1 + 1 + ..`
fn long_sum(alloc: Global) -> Result<Expr, AllocError>
    ensures { IfOk result (λ e. NamesNothing (expr_tree e)) }
{
    let mut rest = Vec::new(alloc);
    for _ in 1..TERMS {
        rest.push((Infix::Binary(BinaryOperator::Add), Expr::Number(1)))?;
    }
    Ok(Expr::Chain {
        first: Box::new(alloc, Expr::Number(1))?,
        rest,
    })
}

// Whether an expression without names has this value.
fn has_value(expr: &Expr, value: u32) -> bool
    requires { NamesNothing (expr_tree expr.now) }
{
    let none = Rows {
        widths: &[],
        starts: &[],
        words: &[],
    };
    evaluate(&none, &none, expr) == Ok(value)
}

#[test]
fn a_long_sum_has_a_value(rt: HostRuntime) -> Result<(), Fail> {
    let alloc = rt.alloc();
    let sum = long_sum(alloc)?;
    assert!(rt; has_value(&sum, 500_000));
    Ok(())
}
