// Renumbering the call sites of functions.
ghost use Rattle.std.specs.Prelude.{◌≡◌, map, option_map};
ghost use Rattle.c_tree.specs.Views.{call_tree, right_tree, simple_tree, stmt_tree, stmt_trees, function_tree};
ghost use Rattle.scope_rules.specs.Numbered.{number_at, call_numbered, right_numbered, simple_numbered, stmt_numbered, stmts_numbered, function_numbered};

use c_tree::{Call, ForParts, Function, RightSide, Simple, Stmt};

/// Replaces the number of each call by the one in the table.
pub(crate) fn number_functions(functions: &mut [Function], numbers: &[u32])
    ensures { map function_tree functions.new ≡ map (function_numbered numbers.now) (map function_tree functions.old) }
{
    for i in 0..functions.len() {
        number_function(&mut functions[i], numbers);
    }
}

fn number_function(function: &mut Function, numbers: &[u32])
    ensures { function_tree function.new ≡ function_numbered numbers.now (function_tree function.old) }
{
    number_stmts(&mut function.body, numbers);
}

// The number in the table that replaces k.
fn number_at(numbers: &[u32], k: u32) -> u32
    ensures { result ≡ number_at numbers.now k }
{
    match numbers.get(k as usize) {
        Some(number) => *number,
        None => k,
    }
}

fn number_call(call: &mut Call, numbers: &[u32])
    ensures { call_tree call.new ≡ call_numbered numbers.now (call_tree call.old) }
{
    match call {
        Call::Function { site, .. } => *site = number_at(numbers, *site),
        Call::Table { site, .. } => *site = number_at(numbers, *site),
        Call::Spawn { site, .. } => *site = number_at(numbers, *site),
        Call::Modelled { site, .. } => *site = number_at(numbers, *site),
    }
}

fn number_right(value: &mut RightSide, numbers: &[u32])
    ensures { right_tree value.new ≡ right_numbered numbers.now (right_tree value.old) }
{
    match value {
        RightSide::Call(call) => number_call(call, numbers),
        RightSide::Expr(_) => {}
    }
}

fn number_simple(simple: &mut Simple, numbers: &[u32])
    ensures { simple_tree simple.new ≡ simple_numbered numbers.now (simple_tree simple.old) }
{
    match simple {
        Simple::DeclareScalar { .. } | Simple::DeclareArray { .. } => {}
        Simple::DeclareWith { value, .. } => number_right(value, numbers),
        Simple::SetLocal { value, .. } => number_right(value, numbers),
        Simple::SetGlobal { value, .. } => number_right(value, numbers),
        Simple::SetLocalElement { value, .. } => number_right(value, numbers),
        Simple::SetGlobalElement { value, .. } => number_right(value, numbers),
        Simple::Call(call) => number_call(call, numbers),
    }
}

fn number_simples(simples: &mut [Simple], numbers: &[u32])
    ensures { map simple_tree simples.new ≡ map (simple_numbered numbers.now) (map simple_tree simples.old) }
{
    for i in 0..simples.len() {
        number_simple(&mut simples[i], numbers);
    }
}

fn number_step(step: &mut Option<Simple>, numbers: &[u32])
    ensures { option_map simple_tree step.new ≡ option_map (simple_numbered numbers.now) (option_map simple_tree step.old) }
{
    match step {
        Some(step) => number_simple(step, numbers),
        None => {}
    }
}

fn number_returned(value: &mut Option<RightSide>, numbers: &[u32])
    ensures { option_map right_tree value.new ≡ option_map (right_numbered numbers.now) (option_map right_tree value.old) }
{
    match value {
        Some(value) => number_right(value, numbers),
        None => {}
    }
}

// The parts in the parentheses of a `for`.
fn number_parts(parts: &mut ForParts, numbers: &[u32])
    ensures init { map simple_tree parts.new.init.items ≡ map (simple_numbered numbers.now) (map simple_tree parts.old.init.items) }
    ensures condition { parts.new.condition ≡ parts.old.condition }
    ensures step { option_map simple_tree parts.new.step ≡ option_map (simple_numbered numbers.now) (option_map simple_tree parts.old.step) }
{
    number_simples(&mut parts.init, numbers);
    number_step(&mut parts.step, numbers);
}

#[cycle(number)]
fn number_stmt(stmt: &mut Stmt, numbers: &[u32])
    ensures { stmt_tree stmt.new ≡ stmt_numbered numbers.now (stmt_tree stmt.old) }
{
    match stmt {
        Stmt::Simple(simple) => number_simple(simple, numbers),
        Stmt::Empty | Stmt::Break | Stmt::Continue => {}
        Stmt::Block(stmts) => number_stmts(stmts, numbers),
        Stmt::If { then, .. } => number_stmt(then, numbers),
        Stmt::IfElse {
            then,
            otherwise,
            ..
        } => {
            number_stmt(then, numbers);
            number_stmt(otherwise, numbers);
        }
        Stmt::While { body, .. } => number_stmt(body, numbers),
        Stmt::For { parts, body } => {
            number_parts(parts, numbers);
            number_stmt(body, numbers);
        }
        Stmt::Return(value) => number_returned(value, numbers),
    }
}

#[cycle(number)]
fn number_stmts(stmts: &mut [Stmt], numbers: &[u32])
    ensures { stmt_trees stmts.new ≡ stmts_numbered numbers.now (stmt_trees stmts.old) }
{
    for i in 0..stmts.len() {
        number_stmt(&mut stmts[i], numbers);
    }
}
