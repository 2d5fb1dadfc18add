// Large trees, and each public call once.

ghost use Rattle.std.specs.Prelude.{◌≡◌, IfOk};
ghost use Rattle.c_tree.specs.Views.{function_tree, stmt_trees};
ghost use Rattle.reader_rows.specs.Sample.{identity_tree, caller_tree};

use c_tree::{
    BinaryOperator, Call, Expr, Function, GlobalFact, Infix, ModelledCall, Name, Program, RawExpr,
    RawItem, RawProgram, RawStmt, RightSide, Simple, Site, SiteKind, Stmt, TableFact,
};
use std::alloc::{AllocError, Global};

const TERMS: u32 = 200_000;

const STATEMENTS: u32 = 100_000;

// The operands after the first of `1 + 1 + ..`.
fn long_rest(alloc: Global) -> Result<Vec<(Infix, Expr)>, AllocError> {
    let mut rest = Vec::new(alloc);
    for _ in 1..TERMS {
        rest.push((Infix::Binary(BinaryOperator::Add), Expr::Number(1)))?;
    }
    Ok(rest)
}

// `1 + 1 + ..`
fn long_sum(alloc: Global) -> Result<Expr, AllocError> {
    let first = Box::new(alloc, Expr::Number(1))?;
    match long_rest(alloc) {
        Ok(rest) => Ok(Expr::Chain { first, rest }),
        Err(error) => {
            drop(first);
            Err(error)
        }
    }
}

// `put(value);`
fn put(alloc: Global, site: u32, value: Expr) -> Result<Stmt, AllocError> {
    let arguments = vec![in alloc; value]?;
    Ok(Stmt::Simple(Simple::Call(Call::Modelled {
        site,
        call: ModelledCall::Put,
        arguments,
    })))
}

// `put(1 + 1 + ..); put(0); put(0); ..`
fn long_body(alloc: Global) -> Result<Vec<Stmt>, AllocError> {
    let first = put(alloc, 0, long_sum(alloc)?)?;
    let mut body = Vec::new(alloc);
    body.push(first)?;
    for site in 1..STATEMENTS {
        body.push(put(alloc, site, Expr::Number(0))?)?;
    }
    Ok(body)
}

// Returns the number of temporaries that the long sum needs, or 0.
fn sum_temporaries(alloc: Global) -> u32 {
    match long_sum(alloc) {
        Ok(sum) => {
            let count = sum.temporaries();
            drop(sum);
            count
        }
        Err(_) => 0,
    }
}

// Returns the number of temporaries that a function with the long body needs, or 0.
fn body_temporaries(alloc: Global) -> u32 {
    match long_body(alloc) {
        Ok(body) => {
            let function = Function {
                name: Vec::new(alloc),
                params: 0,
                gives: true,
                sizes: Vec::new(alloc),
                body,
            };
            let count = function.temporaries();
            drop(function);
            count
        }
        Err(_) => 0,
    }
}

#[test]
fn long_lists_are_built_walked_and_dropped(rt: HostRuntime) {
    assert!(rt; sum_temporaries(rt.alloc()) == 2 && body_temporaries(rt.alloc()) == 2);
}

// `return 1 && 1 && ..;`
fn long_return(alloc: Global) -> Result<RawStmt, AllocError> {
    let first = Box::new(alloc, RawExpr::Number(1))?;
    let mut rest = Vec::new(alloc);
    for _ in 1..TERMS {
        rest.push((Infix::LogicalAnd, RawExpr::Number(1)))?;
    }
    let value = Some(RawExpr::Chain { first, rest });
    Ok(RawStmt::Return { at: 0, value })
}

// The long return, and a `break` at each number from 1.
fn long_raw_body(alloc: Global) -> Result<Vec<RawStmt>, AllocError> {
    let first = long_return(alloc)?;
    let mut body = Vec::new(alloc);
    body.push(first)?;
    for at in 1..STATEMENTS {
        body.push(RawStmt::Break { at })?;
    }
    Ok(body)
}

// Returns the number of statements of the long raw list, or 0.
fn raw_length(alloc: Global) -> usize {
    match long_raw_body(alloc) {
        Ok(body) => {
            let length = body.len();
            drop(body);
            length
        }
        Err(_) => 0,
    }
}

#[test]
fn long_raw_lists_are_built_and_dropped(rt: HostRuntime) {
    assert!(rt; raw_length(rt.alloc()) == 100_000);
}

// `int g(int x) { return x; }`
fn identity(alloc: Global) -> Result<Function, AllocError>
    ensures { IfOk result (λ f. function_tree f ≡ identity_tree) }
{
    let name = vec![in alloc; b'g']?;
    let sizes = vec![in alloc; 1]?;
    let body = vec![in alloc; Stmt::Return(Some(RightSide::Expr(Expr::Local(0))))]?;
    Ok(Function {
        name,
        params: 1,
        gives: true,
        sizes,
        body,
    })
}

// `int a; int b; a = g(1); return a;`
fn caller_body(alloc: Global) -> Result<Vec<Stmt>, AllocError>
    ensures { IfOk result (λ body. stmt_trees body.items ≡ caller_tree.body) }
{
    let arguments = vec![in alloc; Expr::Number(1)]?;
    let value = RightSide::Call(Call::Function {
        site: 0,
        function: 0,
        arguments,
    });
    let body = vec![in alloc;
        Stmt::Simple(Simple::DeclareScalar { variable: 0 }),
        Stmt::Simple(Simple::DeclareScalar { variable: 1 }),
        Stmt::Simple(Simple::SetLocal { variable: 0, value }),
        Stmt::Return(Some(RightSide::Expr(Expr::Local(0)))),
    ]?;
    Ok(body)
}

// `int main() { int a; int b; a = g(1); return a; }`
fn caller(alloc: Global) -> Result<Function, AllocError>
    ensures { IfOk result (λ f. function_tree f ≡ caller_tree) }
{
    let body = caller_body(alloc)?;
    let name = vec![in alloc; b'm', b'a', b'i', b'n']?;
    let sizes = vec![in alloc; 1, 1]?;
    Ok(Function {
        name,
        params: 0,
        gives: true,
        sizes,
        body,
    })
}

fn sample(alloc: Global) -> Result<Program, AllocError> {
    let functions = vec![in alloc; identity(alloc)?, caller(alloc)?]?;
    let globals = vec![in alloc; GlobalFact { words: 3, start: 0 }]?;
    let members = vec![in alloc; 0]?;
    let tables = vec![in alloc; TableFact { members }]?;
    Program::new(alloc, functions, globals, tables, 1)
}

// Checks whether the program returns the parts of the sample.
fn tells_parts(program: &Program) -> bool {
    let site = Site {
        number: 0,
        kind: SiteKind::Function(0),
    };
    program.functions().len() == 2
        && program.main_number() == 1
        && program.globals().len() == 1
        && program.tables().len() == 1
        && program.sites().first().copied() == Some(site)
}

// Checks whether the sample is made, and returns its parts.
fn sample_tells_parts(alloc: Global) -> bool {
    match sample(alloc) {
        Ok(program) => {
            let tells = tells_parts(&program);
            drop(program);
            tells
        }
        Err(_) => false,
    }
}

#[test]
fn a_program_tells_its_parts(rt: HostRuntime) {
    assert!(rt; sample_tells_parts(rt.alloc()));
}

// The numbers of the calls of the run time, by docs/LANGUAGE.md.
#[test]
fn modelled_calls_have_numbers(rt: HostRuntime) {
    let rows = [
        (ModelledCall::Put, 3),
        (ModelledCall::Give, 5),
        (ModelledCall::SelfNumber, 6),
        (ModelledCall::Accept, 16),
        (ModelledCall::Wait, 17),
        (ModelledCall::Sleep, 18),
        (ModelledCall::Yield, 19),
        (ModelledCall::Take, 20),
        (ModelledCall::WaitFor, 21),
    ];
    for (call, number) in rows {
        assert!(rt; call.number() == number, "{number}");
    }
}

// The site of `spawn(f, 4)`, where f is function 2 and the site has number 9.
fn site_of_a_spawn(alloc: Global) -> Result<Site, AllocError> {
    let argument = Box::new(alloc, Expr::Number(4))?;
    let call = Call::Spawn {
        site: 9,
        function: 2,
        argument,
    };
    let told = call.site();
    drop(call);
    Ok(told)
}

#[test]
fn a_spawn_tells_its_site(rt: HostRuntime) {
    let told = site_of_a_spawn(rt.alloc());
    assert!(rt;
        matches!(
            told,
            Ok(Site {
                number: 9,
                kind: SiteKind::Spawn(2)
            })
        )
    );
}

// Returns the number of items of a raw program of `int g = 7;`, or 0.
fn raw_items(alloc: Global) -> Result<usize, AllocError> {
    let text = vec![in alloc; b'g']?;
    let items = vec![in alloc;
        RawItem::Global {
            name: Name { at: 4, text },
            start: 7
        },
    ]?;
    let raw = RawProgram::new(items);
    let count = raw.items().len();
    drop(raw);
    Ok(count)
}

#[test]
fn a_raw_program_tells_its_items(rt: HostRuntime) {
    assert!(rt; matches!(raw_items(rt.alloc()), Ok(1)));
}
