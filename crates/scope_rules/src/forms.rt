// The form of an expression: a name alone, a call, or neither.

ghost use Rattle.c_tree.specs.RawViews.{raw_expr_tree};
ghost use Rattle.scope_rules.specs.Forms.{IsForm};

use c_tree::{Name, RawExpr};

/// The form of an expression. A chain without operators has the form of its one operand.
#[derive(Clone, Copy)]
pub enum Form<'r> {
    Name(&'r Name),
    Call(&'r Name, &'r [RawExpr]),
    TableCall(&'r Name, &'r RawExpr, &'r RawExpr),
    Neither,
}

/// Returns the form of the expression.
pub fn form_of(raw: &RawExpr) -> Form<'_>
    ensures { IsForm result (raw_expr_tree raw.now) }
{
    match raw {
        RawExpr::Name(name) => Form::Name(name),
        RawExpr::Call { name, arguments } => Form::Call(name, arguments),
        RawExpr::TableCall {
            name,
            index,
            argument,
        } => Form::TableCall(name, index, argument),
        RawExpr::Chain { first, rest } => {
            if rest.is_empty() {
                form_of(first)
            } else {
                Form::Neither
            }
        }
        RawExpr::Number(_)
        | RawExpr::Element { .. }
        | RawExpr::Unary { .. }
        | RawExpr::Parenthesized(_)
        | RawExpr::Conditional { .. } => Form::Neither,
    }
}
