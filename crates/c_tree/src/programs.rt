// A whole program.

ghost use Rattle.std.specs.Prelude.{◌≡◌, map};
ghost use Rattle.c_tree.specs.TextOrder.{program_sites};
ghost use Rattle.c_tree.specs.WellScoped.{IsWellScoped};
ghost use Rattle.c_tree.specs.OneProof.{IsWellScoped-prop};
ghost use Rattle.c_tree.specs.Views.{function_tree, table_row};
ghost use Rattle.c_tree.specs.Programs.{tree_of};

use crate::facts::{Function, GlobalFact, Site, TableFact};
use crate::sites;
use std::alloc::{AllocError, Global};

/// A program that is well scoped: each number is in range and each name in its scope, arguments agree
/// with parameters, results are used only of calls that give one, `return`, `break` and `continue` stand
/// where they may, and the limits hold (ISO/IEC 9899:2018, 6.2.1, 6.5.2.2 and 6.8.6).
pub struct Program {
    functions: Vec<Function>,
    globals: Vec<GlobalFact>,
    tables: Vec<TableFact>,
    main: u32,
    sites: Vec<Site>,
    pub ghost well_scoped: { IsWellScoped (tree_of functions.items globals.items tables.items main) } by { IsWellScoped-prop (tree_of functions.items globals.items tables.items main) },
    ghost sites_listed: { sites.items ≡ program_sites (tree_of functions.items globals.items tables.items main) },
}

impl Drop for Program {
    // Written out, so that no crate above proves how a tree is dropped.
    fn drop(self) {
        let Program {
            functions: _functions,
            globals: _globals,
            tables: _tables,
            main: _,
            sites: _sites,
        } = self;
    }
}

impl Program {
    ghost use Rattle.std.specs.Prelude.{◌≡◌, map, IfOk};
    ghost use Rattle.c_tree.specs.TextOrder.{program_sites};
    ghost use Rattle.c_tree.specs.Views.{function_tree, table_row};
    ghost use Rattle.c_tree.specs.Programs.{tree_of};
    ghost use Rattle.c_tree.specs.WellScoped.{IsWellScoped};
    ghost use Rattle.c_tree.specs.ProgramView.{program_tree};

    /// Returns the program with these functions, globals and tables, in the order of their numbers, and
    /// with this number of `main`. It allocates the list of the program's sites.
    pub fn new(
        alloc: Global,
        functions: Vec<Function>,
        globals: Vec<GlobalFact>,
        tables: Vec<TableFact>,
        main: u32,
    ) -> Result<Program, AllocError>
        requires { IsWellScoped (tree_of functions.items globals.items tables.items main) }
        ensures { IfOk result (λ p. program_tree p ≡ tree_of functions.items globals.items tables.items main) }
    {
        let mut sites = Vec::new(alloc);
        sites::list_functions(&mut sites, &functions)?;
        Ok(Program {
            functions,
            globals,
            tables,
            main,
            sites,
        })
    }

    /// Returns the functions, in the order of their definitions.
    pub fn functions(&self) -> &[Function]
        ensures { map function_tree result.now ≡ (program_tree self.now).functions }
    {
        &self.functions
    }

    /// Returns the globals, in the order of their declarations.
    pub fn globals(&self) -> &[GlobalFact]
        ensures { result.now ≡ (program_tree self.now).globals }
    {
        &self.globals
    }

    /// Returns the tables, in the order of their declarations.
    pub fn tables(&self) -> &[TableFact]
        ensures { map table_row result.now ≡ (program_tree self.now).tables }
    {
        &self.tables
    }

    /// Returns the number of `main`.
    pub fn main_number(&self) -> u32
        ensures { result ≡ (program_tree self.now).main }
    {
        self.main
    }

    /// Returns the call sites, in the order of the tree. Their numbers needn't increase in this order: a
    /// resolver numbers them by their places in the source.
    pub fn sites(&self) -> &[Site]
        ensures { result.now ≡ program_sites (program_tree self.now) }
    {
        &self.sites
    }
}
