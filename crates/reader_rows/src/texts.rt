// The text of a tree with names: each operator is in parentheses of its own, those of the source are left out, and a
// name that begins with a digit gets an `h` before it.

use c_tree::{
    BinaryOperator, Infix, Name, RawExpr, RawForParts, RawItem, RawSimple, RawStmt, UnaryOperator,
};
use cap_text::put_dec;
use std::alloc::AllocError;

fn put(text: &mut Vec<u8>, part: &str) -> Result<(), AllocError> {
    text.extend_from_slice(part.as_bytes())
}

fn put_number(text: &mut Vec<u8>, number: u32) -> Result<(), AllocError> {
    put_dec(text, i128::from(number))
}

fn put_name(text: &mut Vec<u8>, name: &Name) -> Result<(), AllocError> {
    if let Some(first) = name.text.first() {
        if first.is_ascii_digit() {
            put(text, "h")?;
        }
    }
    text.extend_from_slice(&name.text)
}

fn infix_text(operator: Infix) -> &'static str {
    match operator {
        Infix::LogicalAnd => " && ",
        Infix::LogicalOr => " || ",
        Infix::Binary(BinaryOperator::Add) => " + ",
        Infix::Binary(BinaryOperator::Subtract) => " - ",
        Infix::Binary(BinaryOperator::Multiply) => " * ",
        Infix::Binary(BinaryOperator::Divide) => " / ",
        Infix::Binary(BinaryOperator::Remainder) => " % ",
        Infix::Binary(BinaryOperator::BitAnd) => " & ",
        Infix::Binary(BinaryOperator::BitOr) => " | ",
        Infix::Binary(BinaryOperator::BitXor) => " ^ ",
        Infix::Binary(BinaryOperator::ShiftLeft) => " << ",
        Infix::Binary(BinaryOperator::ShiftRight) => " >> ",
        Infix::Binary(BinaryOperator::Less) => " < ",
        Infix::Binary(BinaryOperator::Greater) => " > ",
        Infix::Binary(BinaryOperator::LessOrEqual) => " <= ",
        Infix::Binary(BinaryOperator::GreaterOrEqual) => " >= ",
        Infix::Binary(BinaryOperator::Equal) => " == ",
        Infix::Binary(BinaryOperator::NotEqual) => " != ",
    }
}

fn unary_text(operator: UnaryOperator) -> &'static str {
    match operator {
        UnaryOperator::Plus => "+",
        UnaryOperator::Negate => "-",
        UnaryOperator::Complement => "~",
        UnaryOperator::Not => "!",
    }
}

#[cycle(expressions)]
fn put_expr(text: &mut Vec<u8>, expr: &RawExpr) -> Result<(), AllocError> {
    match expr {
        RawExpr::Number(number) => put_number(text, *number),
        RawExpr::Name(name) => put_name(text, name),
        RawExpr::Element { name, index } => {
            put_name(text, name)?;
            put(text, "[")?;
            put_expr(text, index)?;
            put(text, "]")
        }
        RawExpr::Unary { operator, operand } => {
            put(text, unary_text(*operator))?;
            put_expr(text, operand)
        }
        RawExpr::Parenthesized(inner) => put_expr(text, inner),
        RawExpr::Chain { first, rest } => {
            for _ in rest {
                put(text, "(")?;
            }
            put_expr(text, first)?;
            for (operator, operand) in rest {
                put(text, infix_text(*operator))?;
                put_expr(text, operand)?;
                put(text, ")")?;
            }
            Ok(())
        }
        RawExpr::Conditional {
            condition,
            then,
            otherwise,
        } => {
            put(text, "(")?;
            put_expr(text, condition)?;
            put(text, " ? ")?;
            put_expr(text, then)?;
            put(text, " : ")?;
            put_expr(text, otherwise)?;
            put(text, ")")
        }
        RawExpr::Call { name, arguments } => {
            put_name(text, name)?;
            put_arguments(text, arguments)
        }
        RawExpr::TableCall {
            name,
            index,
            argument,
        } => {
            put_name(text, name)?;
            put(text, "[")?;
            put_expr(text, index)?;
            put(text, "](")?;
            put_expr(text, argument)?;
            put(text, ")")
        }
    }
}

#[cycle(expressions)]
fn put_arguments(text: &mut Vec<u8>, arguments: &[RawExpr]) -> Result<(), AllocError> {
    put(text, "(")?;
    for argument in arguments {
        put_expr(text, argument)?;
        put(text, ",")?;
    }
    put(text, ")")
}

fn put_set(text: &mut Vec<u8>, name: &Name, value: &RawExpr) -> Result<(), AllocError> {
    put_name(text, name)?;
    put(text, " = ")?;
    put_expr(text, value)
}

fn put_index(text: &mut Vec<u8>, name: &Name, index: &RawExpr) -> Result<(), AllocError> {
    put_name(text, name)?;
    put(text, "[")?;
    put_expr(text, index)?;
    put(text, "]")
}

fn put_simple(text: &mut Vec<u8>, simple: &RawSimple) -> Result<(), AllocError> {
    match simple {
        RawSimple::DeclareScalar { name } => {
            put(text, "int ")?;
            put_name(text, name)
        }
        RawSimple::DeclareArray { name, words } => {
            put(text, "int ")?;
            put_name(text, name)?;
            put(text, "[")?;
            put_number(text, *words)?;
            put(text, "]")
        }
        RawSimple::DeclareWith { name, value } => {
            put(text, "int ")?;
            put_set(text, name, value)
        }
        RawSimple::Set { name, value } => put_set(text, name, value),
        RawSimple::SetElement { name, index, value } => {
            put_index(text, name, index)?;
            put(text, " = ")?;
            put_expr(text, value)
        }
        RawSimple::Call { name, arguments } => {
            put_name(text, name)?;
            put_arguments(text, arguments)
        }
        RawSimple::TableCall {
            name,
            index,
            argument,
        } => {
            put_index(text, name, index)?;
            put(text, "(")?;
            put_expr(text, argument)?;
            put(text, ")")
        }
    }
}

fn put_parts(text: &mut Vec<u8>, parts: &RawForParts) -> Result<(), AllocError> {
    for simple in &parts.init {
        put_simple(text, simple)?;
        put(text, ",")?;
    }
    put(text, "; ")?;
    if let Some(condition) = &parts.condition {
        put_expr(text, condition)?;
    }
    put(text, "; ")?;
    if let Some(step) = &parts.step {
        put_simple(text, step)?;
    }
    put(text, ") ")
}

fn put_condition(text: &mut Vec<u8>, word: &str, condition: &RawExpr) -> Result<(), AllocError> {
    put(text, word)?;
    put_expr(text, condition)?;
    put(text, ") ")
}

#[cycle(statements)]
fn put_stmt(text: &mut Vec<u8>, stmt: &RawStmt) -> Result<(), AllocError> {
    match stmt {
        RawStmt::Simple(simple) => {
            put_simple(text, simple)?;
            put(text, ";")
        }
        RawStmt::Empty => put(text, ";"),
        RawStmt::Block(stmts) => put_block(text, stmts),
        RawStmt::If { condition, then } => {
            put_condition(text, "if (", condition)?;
            put_stmt(text, then)
        }
        RawStmt::IfElse {
            condition,
            then,
            otherwise,
        } => {
            put_condition(text, "if (", condition)?;
            put_stmt(text, then)?;
            put(text, " else ")?;
            put_stmt(text, otherwise)
        }
        RawStmt::While { condition, body } => {
            put_condition(text, "while (", condition)?;
            put_stmt(text, body)
        }
        RawStmt::For { parts, body } => {
            put(text, "for (")?;
            put_parts(text, parts)?;
            put_stmt(text, body)
        }
        RawStmt::Break { .. } => put(text, "break;"),
        RawStmt::Continue { .. } => put(text, "continue;"),
        RawStmt::Return { value, .. } => {
            put(text, "return ")?;
            if let Some(value) = value {
                put_expr(text, value)?;
            }
            put(text, ";")
        }
    }
}

#[cycle(statements)]
fn put_block(text: &mut Vec<u8>, stmts: &[RawStmt]) -> Result<(), AllocError> {
    put(text, "{ ")?;
    for stmt in stmts {
        put_stmt(text, stmt)?;
        put(text, " ")?;
    }
    put(text, "}")
}

fn put_names(text: &mut Vec<u8>, names: &[Name]) -> Result<(), AllocError> {
    for name in names {
        put_name(text, name)?;
        put(text, ",")?;
    }
    Ok(())
}

/// Appends the text of a declaration or a definition.
pub(crate) fn put_item(text: &mut Vec<u8>, item: &RawItem) -> Result<(), AllocError> {
    match item {
        RawItem::Global { name, start } => {
            put(text, "int ")?;
            put_name(text, name)?;
            put(text, " = ")?;
            put_number(text, *start)?;
            put(text, "; ")
        }
        RawItem::GlobalArray { name, words } => {
            put(text, "int ")?;
            put_name(text, name)?;
            put(text, "[")?;
            put_number(text, *words)?;
            put(text, "]; ")
        }
        RawItem::Table(table) => {
            put(text, "int (*")?;
            put_name(text, &table.name)?;
            put(text, "[")?;
            put_number(text, table.size)?;
            put(text, "])(int) = { ")?;
            put_names(text, &table.members)?;
            put(text, "}; ")
        }
        RawItem::Prototype(prototype) => {
            put(text, if prototype.gives { "int " } else { "void " })?;
            put_name(text, &prototype.name)?;
            put(text, "(")?;
            for param in &prototype.params {
                if let Some(name) = param {
                    put_name(text, name)?;
                }
                put(text, ",")?;
            }
            put(text, "); ")
        }
        RawItem::Function(function) => {
            put(text, if function.gives { "int " } else { "void " })?;
            put_name(text, &function.name)?;
            put(text, "(")?;
            put_names(text, &function.params)?;
            put(text, ") ")?;
            put_block(text, &function.body)?;
            put(text, " ")
        }
    }
}
