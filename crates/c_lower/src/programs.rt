// The flat code of a program.

ghost use Rattle.std.specs.Prelude.{◌≡◌, ◌≤◌, ◌^◌, IfOk, length, map};
ghost use Rattle.std.specs.List.{AllByRecursion};
ghost use Rattle.c_tree.specs.ProgramView.{program_tree};
ghost use Rattle.c_tree.specs.Sizes.{sizes_of};
ghost use Rattle.c_tree.specs.Temporaries.{function_temporaries};
ghost use Rattle.c_tree.specs.Views.{function_tree, table_row};
ghost use Rattle.flat_code.specs.ProgramView.{program_code};
ghost use Rattle.c_lower.specs.ProgramCode.{lowered_function, lowered_global, lowered};

use crate::functions::lower_function;
use c_tree::{Function, GlobalFact, Program, TableFact};
use cap_word::Words;
use flat_code::{FlatFunction, FlatGlobal, FlatProgram};
use std::alloc::{AllocError, Global};

/// Returns the flat code of a program, operation for operation by the table: the variables of a function
/// are its parameters, its declared names in the order of the text, and its temporaries; calls keep the
/// numbers of their sites; after its body an `int` function returns 0.
///
/// # Errors
///
/// `AllocError` if an allocation fails, or if a function has more than 2^32 operations.
pub fn lower(alloc: Global, program: &Program) -> Result<FlatProgram, AllocError>
    ensures { IfOk result (λ flat. program_code flat ≡ lowered (program_tree program.now)) }
{
    let functions = lower_functions(alloc, program.functions())?;
    let globals = lower_globals(alloc, program.globals())?;
    let tables = lower_tables(alloc, program.tables())?;
    Ok(FlatProgram::new(functions, globals, tables, program.main_number()))
}

fn lower_functions(alloc: Global, functions: &[Function]) -> Result<Vec<FlatFunction>, AllocError>
    requires small { AllByRecursion (λ f. function_temporaries f ≤ 65536) (map function_tree functions.now) }
    requires few { AllByRecursion (λ f. length f.sizes ≤ 65536) (map function_tree functions.now) }
    ensures code { IfOk result (λ list. list.items ≡ map lowered_function (map function_tree functions.now)) }
    ensures numbered { IfOk result (λ list. AllByRecursion (λ flat. length flat.ops ≤ 2 ^ 32) list.items) }
{
    let mut list = Vec::new(alloc);
    for function in functions {
        list.push(lower_function(alloc, function)?)?;
    }
    Ok(list)
}

fn lower_globals(alloc: Global, globals: &[GlobalFact]) -> Result<Vec<FlatGlobal>, AllocError>
    ensures { IfOk result (λ list. list.items ≡ map lowered_global globals.now) }
{
    let mut list = Vec::new(alloc);
    for global in globals {
        list.push(FlatGlobal {
            words: global.words,
            start: global.start,
        })?;
    }
    Ok(list)
}

fn lower_tables(alloc: Global, tables: &[TableFact]) -> Result<Vec<Words>, AllocError>
    ensures { IfOk result (λ list. list.items ≡ map table_row tables.now) }
{
    let mut list = Vec::new(alloc);
    for table in tables {
        list.push(Words::new(Vec::from_slice(alloc, &table.members)?))?;
    }
    Ok(list)
}
