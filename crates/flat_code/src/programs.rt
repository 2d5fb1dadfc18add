ghost use Rattle.flat_code.specs.Codes.{code_of};
ghost use Rattle.flat_code.specs.WellFormed.{IsWellFormed};
ghost use Rattle.flat_code.specs.OneProof.{IsWellFormed-prop};

use crate::functions::FlatFunction;
use cap_word::Words;

/// A global of `words` words, each with the initial value `start`.
#[derive(Clone, Copy, PartialEq, Eq)]
pub struct FlatGlobal {
    pub words: u32,
    pub start: u32,
}

/// A program of flat code that is well formed: every number in it is in range, no two operations have
/// the same site number, every table has a member, arguments agree with parameters, a result is used
/// only of a call that gives one, and the limits hold.
#[derive(Drop)]
pub struct FlatProgram {
    functions: Vec<FlatFunction>,
    globals: Vec<FlatGlobal>,
    tables: Vec<Words>,
    main: u32,
    pub ghost well_formed: { IsWellFormed (code_of functions.items globals.items tables.items main) } by { IsWellFormed-prop (code_of functions.items globals.items tables.items main) },
}

impl FlatProgram {
    ghost use Rattle.std.specs.Prelude.{◌≡◌};
    ghost use Rattle.flat_code.specs.Codes.{code_of};
    ghost use Rattle.flat_code.specs.ProgramView.{program_code};
    ghost use Rattle.flat_code.specs.WellFormed.{IsWellFormed};

    /// Returns the program with these functions, globals and tables, in the order of their numbers,
    /// and with this number of `main`. It doesn't allocate.
    pub fn new(
        functions: Vec<FlatFunction>,
        globals: Vec<FlatGlobal>,
        tables: Vec<Words>,
        main: u32,
    ) -> FlatProgram
        requires { IsWellFormed (code_of functions.items globals.items tables.items main) }
        ensures { program_code result ≡ code_of functions.items globals.items tables.items main }
    {
        FlatProgram {
            functions,
            globals,
            tables,
            main,
        }
    }

    /// Returns the functions, in the order of their numbers.
    pub fn functions(&self) -> &[FlatFunction]
        ensures { result.now ≡ (program_code self.now).functions }
    {
        &self.functions
    }

    /// Returns the globals, in the order of their declarations.
    pub fn globals(&self) -> &[FlatGlobal]
        ensures { result.now ≡ (program_code self.now).globals }
    {
        &self.globals
    }

    /// Returns the tables, in the order of their declarations: the numbers of their members.
    pub fn tables(&self) -> &[Words]
        ensures { result.now ≡ (program_code self.now).tables }
    {
        &self.tables
    }

    /// Returns the number of `main`.
    pub fn main_number(&self) -> u32
        ensures { result ≡ (program_code self.now).main }
    {
        self.main
    }
}
