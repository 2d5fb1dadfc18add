// A program with an operation of each kind, and its certificate.

ghost use Rattle.std.specs.Prelude.{◌≡◌, [], ◌∷◌, IfOk};
ghost use Rattle.flat_code.specs.ProgramView.{program_code};
ghost use Rattle.pair_rows.specs.Sample.{all_ops, callee_function, main_function, sample_code, sample_certificate, putting_function, putting_code, putting_certificate};

use cap_word::Words;
use flat_code::{BinOp, FlatFunction, FlatGlobal, FlatProgram, Op, Ops};
use stack_certificate::{Certificate, FunctionFact, FunctionFacts, LinkKind, SiteFact, SiteFacts};
use std::alloc::{AllocError, Global};

fn words(alloc: Global, items: &[u32]) -> Result<Words, AllocError>
    ensures { IfOk result (λ list. list ≡ items.now) }
{
    Ok(Words::new(Vec::from_slice(alloc, items)?))
}

fn callee(alloc: Global) -> Result<FlatFunction, AllocError>
    ensures { IfOk result (λ f. f ≡ callee_function) }
{
    let ops = Vec::from_array(
        alloc,
        [
            Op::Copy { d: 1, s: 0 },
            Op::Return { s: Some(1) },
            Op::Const { d: 1, value: 0 },
            Op::Return { s: Some(1) },
        ],
    )?;
    Ok(FlatFunction {
        params: 1,
        gives: true,
        sizes: words(alloc, &[1, 1])?,
        ops: Ops::new(ops),
    })
}

fn main_ops(alloc: Global) -> Result<Ops, AllocError>
    ensures { IfOk result (λ ops. ops ≡ all_ops) }
{
    let two = words(alloc, &[2])?;
    let three = words(alloc, &[3])?;
    let none = words(alloc, &[])?;
    let both = words(alloc, &[2, 3])?;
    let ops = Vec::from_array(
        alloc,
        [
            Op::Const {
                d: 0,
                value: 0x1234_5fff,
            },
            Op::Copy { d: 2, s: 0 },
            Op::Neg { d: 2, s: 0 },
            Op::Not { d: 2, s: 0 },
            Op::Flip { d: 2, s: 0 },
            Op::Bin {
                op: BinOp::Add,
                d: 2,
                a: 0,
                b: 3,
            },
            Op::Bin {
                op: BinOp::Subtract,
                d: 2,
                a: 0,
                b: 3,
            },
            Op::Bin {
                op: BinOp::Multiply,
                d: 2,
                a: 0,
                b: 3,
            },
            Op::Bin {
                op: BinOp::Divide,
                d: 2,
                a: 0,
                b: 3,
            },
            Op::Bin {
                op: BinOp::Remainder,
                d: 2,
                a: 0,
                b: 3,
            },
            Op::Bin {
                op: BinOp::BitAnd,
                d: 2,
                a: 0,
                b: 3,
            },
            Op::Bin {
                op: BinOp::BitOr,
                d: 2,
                a: 0,
                b: 3,
            },
            Op::Bin {
                op: BinOp::BitXor,
                d: 2,
                a: 0,
                b: 3,
            },
            Op::Bin {
                op: BinOp::ShiftLeft,
                d: 2,
                a: 0,
                b: 3,
            },
            Op::Bin {
                op: BinOp::ShiftRight,
                d: 2,
                a: 0,
                b: 3,
            },
            Op::Bin {
                op: BinOp::Less,
                d: 2,
                a: 0,
                b: 3,
            },
            Op::Bin {
                op: BinOp::Greater,
                d: 2,
                a: 0,
                b: 3,
            },
            Op::Bin {
                op: BinOp::LessOrEqual,
                d: 2,
                a: 0,
                b: 3,
            },
            Op::Bin {
                op: BinOp::GreaterOrEqual,
                d: 2,
                a: 0,
                b: 3,
            },
            Op::Bin {
                op: BinOp::Equal,
                d: 2,
                a: 0,
                b: 3,
            },
            Op::Bin {
                op: BinOp::NotEqual,
                d: 2,
                a: 0,
                b: 3,
            },
            Op::Zero { a: 1 },
            Op::LoadGlobal { d: 2, g: 1 },
            Op::StoreGlobal { g: 1, s: 2 },
            Op::LoadLocal { d: 2, a: 1, i: 3 },
            Op::LoadArray { d: 2, a: 0, i: 3 },
            Op::StoreLocal { a: 1, i: 3, s: 2 },
            Op::StoreArray { a: 0, i: 3, s: 2 },
            Op::Jump { to: 30 },
            Op::JumpZero { s: 2, to: 0 },
            Op::Call {
                site: 0,
                d: Some(0),
                f: 0,
                args: two,
            },
            Op::Call {
                site: 1,
                d: None,
                f: 0,
                args: three,
            },
            Op::CallTable {
                site: 2,
                d: Some(2),
                t: 1,
                i: 2,
                s: 3,
            },
            Op::Model {
                site: 3,
                d: Some(0),
                n: 16,
                args: none,
            },
            Op::Model {
                site: 4,
                d: None,
                n: 20,
                args: both,
            },
            Op::Spawn {
                site: 5,
                d: Some(2),
                f: 0,
                s: 3,
            },
            Op::Return { s: Some(0) },
        ],
    )?;
    Ok(Ops::new(ops))
}

fn main_of_rows(alloc: Global) -> Result<FlatFunction, AllocError>
    ensures { IfOk result (λ f. f ≡ main_function) }
{
    Ok(FlatFunction {
        params: 0,
        gives: true,
        sizes: words(alloc, &[1, 3, 1, 1])?,
        ops: main_ops(alloc)?,
    })
}

/// Returns the program.
pub fn program(alloc: Global) -> Result<FlatProgram, AllocError>
    ensures { IfOk result (λ flat. program_code flat ≡ sample_code) }
{
    let globals = globals_of_rows(alloc)?;
    let tables = tables_of_rows(alloc)?;
    let functions = functions_of_rows(alloc)?;
    Ok(FlatProgram::new(functions, globals, tables, 1))
}

fn functions_of_rows(alloc: Global) -> Result<Vec<FlatFunction>, AllocError>
    ensures { IfOk result (λ functions. functions.items ≡ callee_function ∷ main_function ∷ []) }
{
    let called = callee(alloc)?;
    match main_of_rows(alloc) {
        Ok(main) => Ok(Vec::from_array(alloc, [called, main])?),
        Err(error) => {
            drop(called);
            Err(error)
        }
    }
}

fn globals_of_rows(alloc: Global) -> Result<Vec<FlatGlobal>, AllocError>
    ensures { IfOk result (λ globals. globals.items ≡ sample_code.globals) }
{
    Ok(Vec::from_array(
        alloc,
        [
            FlatGlobal { words: 4, start: 0 },
            FlatGlobal { words: 1, start: 9 },
        ],
    )?)
}

fn tables_of_rows(alloc: Global) -> Result<Vec<Words>, AllocError>
    ensures { IfOk result (λ tables. tables.items ≡ sample_code.tables) }
{
    let one = words(alloc, &[0])?;
    let two = words(alloc, &[0, 0])?;
    Ok(Vec::from_array(alloc, [one, two])?)
}

/// Returns its certificate.
pub fn certificate(alloc: Global) -> Result<Certificate, AllocError>
    ensures { IfOk result (λ c. c ≡ sample_certificate) }
{
    let callee = FunctionFact {
        entry: 4104,
        words: 16,
        frame: 16,
        ra: 12,
        bound: 16,
        places: words(alloc, &[0, 4])?,
    };
    let main = FunctionFact {
        entry: 4168,
        words: 206,
        frame: 64,
        ra: 60,
        bound: 96,
        places: words(alloc, &[8, 12, 24, 28])?,
    };
    let sites = [
        SiteFact {
            number: 0,
            kind: LinkKind::Plain,
        },
        SiteFact {
            number: 1,
            kind: LinkKind::Linked { need: 48 },
        },
        SiteFact {
            number: 2,
            kind: LinkKind::Linked { need: 16 },
        },
        SiteFact {
            number: 5,
            kind: LinkKind::Spawned { need: 32 },
        },
    ];
    Ok(Certificate {
        chunk: 4096,
        max_path: 2032,
        functions: FunctionFacts::new(Vec::from_array(alloc, [callee, main])?),
        sites: SiteFacts::new(Vec::from_slice(alloc, &sites)?),
    })
}

/// Returns the program `int main() { put(7); return 0; }`.
pub fn putting(alloc: Global) -> Result<FlatProgram, AllocError>
    ensures { IfOk result (λ flat. program_code flat ≡ putting_code) }
{
    let function = putting_main(alloc)?;
    let functions = Vec::from_array(alloc, [function])?;
    let globals = Vec::new(alloc);
    let tables = Vec::new(alloc);
    Ok(FlatProgram::new(functions, globals, tables, 0))
}

fn putting_main(alloc: Global) -> Result<FlatFunction, AllocError>
    ensures { IfOk result (λ f. f ≡ putting_function) }
{
    let args = words(alloc, &[0])?;
    let ops = Vec::from_array(
        alloc,
        [
            Op::Const { d: 0, value: 7 },
            Op::Model {
                site: 0,
                d: None,
                n: 3,
                args,
            },
            Op::Const { d: 0, value: 0 },
            Op::Return { s: Some(0) },
            Op::Const { d: 0, value: 0 },
            Op::Return { s: Some(0) },
        ],
    )?;
    Ok(FlatFunction {
        params: 0,
        gives: true,
        sizes: words(alloc, &[1])?,
        ops: Ops::new(ops),
    })
}

/// Returns its certificate, as in the format's worked example.
pub fn certificate_of_putting(alloc: Global) -> Result<Certificate, AllocError>
    ensures { IfOk result (λ c. c ≡ putting_certificate) }
{
    let main = FunctionFact {
        entry: 4104,
        words: 22,
        frame: 16,
        ra: 12,
        bound: 16,
        places: words(alloc, &[0])?,
    };
    Ok(Certificate {
        chunk: 4096,
        max_path: 2032,
        functions: FunctionFacts::new(Vec::from_array(alloc, [main])?),
        sites: SiteFacts::new(Vec::new(alloc)),
    })
}

/// Returns a function of one variable with this number of words.
pub fn of_words(alloc: Global, size: u32) -> Result<FlatFunction, AllocError>
    ensures { IfOk result (λ f. f.sizes ≡ size ∷ []) }
{
    Ok(FlatFunction {
        params: 0,
        gives: false,
        sizes: words(alloc, &[size])?,
        ops: Ops::new(Vec::new(alloc)),
    })
}
