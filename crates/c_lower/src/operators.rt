// Operators of a source, and their operations.

ghost use Rattle.std.specs.Prelude.{◌≡◌, ◌++◌, OnOk};
ghost use Rattle.c_lower.specs.Chains.{infix_size};
ghost use Rattle.c_lower.specs.Operations.{operator_of, unary_code, unary_size};

use crate::places::put;
use c_tree::{BinaryOperator, Infix, UnaryOperator};
use flat_code::{BinOp, Op};
use std::alloc::AllocError;

pub fn operator_for(operator: BinaryOperator) -> BinOp
    ensures { result ≡ operator_of operator }
{
    match operator {
        BinaryOperator::Add => BinOp::Add,
        BinaryOperator::Subtract => BinOp::Subtract,
        BinaryOperator::Multiply => BinOp::Multiply,
        BinaryOperator::Divide => BinOp::Divide,
        BinaryOperator::Remainder => BinOp::Remainder,
        BinaryOperator::BitAnd => BinOp::BitAnd,
        BinaryOperator::BitOr => BinOp::BitOr,
        BinaryOperator::BitXor => BinOp::BitXor,
        BinaryOperator::ShiftLeft => BinOp::ShiftLeft,
        BinaryOperator::ShiftRight => BinOp::ShiftRight,
        BinaryOperator::Less => BinOp::Less,
        BinaryOperator::Greater => BinOp::Greater,
        BinaryOperator::LessOrEqual => BinOp::LessOrEqual,
        BinaryOperator::GreaterOrEqual => BinOp::GreaterOrEqual,
        BinaryOperator::Equal => BinOp::Equal,
        BinaryOperator::NotEqual => BinOp::NotEqual,
    }
}

// The operations after the operand of a unary operator, when its value is in variable k.
pub fn put_unary(code: &mut Vec<Op>, k: u32, operator: UnaryOperator) -> Result<(), AllocError>
    ensures { OnOk result (code.new.items ≡ code.old.items ++ unary_code operator k) }
{
    match operator {
        UnaryOperator::Plus => Ok(()),
        UnaryOperator::Negate => put(code, Op::Neg { d: k, s: k }),
        UnaryOperator::Complement => put(code, Op::Not { d: k, s: k }),
        UnaryOperator::Not => put(code, Op::Flip { d: k, s: k }),
    }
}

pub fn size_of_unary(operator: UnaryOperator) -> u32
    ensures { result ≡ unary_size operator }
{
    match operator {
        UnaryOperator::Plus => 0,
        UnaryOperator::Negate | UnaryOperator::Complement | UnaryOperator::Not => 1,
    }
}

pub fn size_of_infix(operator: Infix) -> u32
    ensures { result ≡ infix_size operator }
{
    match operator {
        Infix::Binary(_) => 1,
        Infix::LogicalAnd => 5,
        Infix::LogicalOr => 6,
    }
}
