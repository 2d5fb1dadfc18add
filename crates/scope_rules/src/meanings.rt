// The meaning of a name, and its permitted uses.

ghost use Rattle.std.specs.Prelude.{◌≡◌};
ghost use Rattle.scope_rules.specs.Meanings.{is_scalar, is_array, is_table, is_callable, is_modelled, is_spawnable, is_member, is_void, takes, is_wrong_count, variable_in, variable_of, table_in, table_of, function_in, function_of, callee_of};

use c_tree::ModelledCall;

/// The meaning of a name at a place (ISO/IEC 9899:2018, 6.2.1).
#[derive(Clone, Copy)]
pub enum Meaning {
    /// A variable of the function, or a parameter.
    Local {
        variable: u32,
        array: bool,
    },
    /// A global.
    Global {
        global: u32,
        array: bool,
    },
    /// A table of functions.
    Table {
        table: u32,
    },
    /// A function by its number, as its latest prototype or definition declares it, and whether it is
    /// already defined.
    Function {
        function: u32,
        gives: bool,
        params: usize,
        defined: bool,
    },
    /// A call that the thread package answers, other than `spawn`.
    Modelled(ModelledCall),
    Spawn,
}

/// The meaning of a name, and the number of names that were in scope before it.
#[derive(Clone, Copy)]
pub struct Found {
    pub position: usize,
    pub meaning: Meaning,
}

/// A variable of the function, or a global.
#[derive(Clone, Copy)]
pub enum Variable {
    Local(u32),
    Global(u32),
}

/// The callee of a call.
#[derive(Clone, Copy)]
pub enum Callee {
    Function(u32),
    Modelled(ModelledCall),
    Spawn,
}

impl Meaning {
    /// Returns whether it is a variable or a global of one word.
    pub fn is_scalar(self) -> bool
        ensures { result ≡ is_scalar self }
    {
        match self {
            Meaning::Local { array, .. } | Meaning::Global { array, .. } => !array,
            Meaning::Table { .. }
            | Meaning::Function { .. }
            | Meaning::Modelled(_)
            | Meaning::Spawn => false,
        }
    }

    /// Returns whether it is an array.
    pub fn is_array(self) -> bool
        ensures { result ≡ is_array self }
    {
        match self {
            Meaning::Local { array, .. } | Meaning::Global { array, .. } => array,
            Meaning::Table { .. }
            | Meaning::Function { .. }
            | Meaning::Modelled(_)
            | Meaning::Spawn => false,
        }
    }

    /// Returns whether it is a table.
    pub fn is_table(self) -> bool
        ensures { result ≡ is_table self }
    {
        match self {
            Meaning::Table { .. } => true,
            Meaning::Local { .. }
            | Meaning::Global { .. }
            | Meaning::Function { .. }
            | Meaning::Modelled(_)
            | Meaning::Spawn => false,
        }
    }

    /// Returns whether it can be called without an index.
    pub fn is_callable(self) -> bool
        ensures { result ≡ is_callable self }
    {
        match self {
            Meaning::Function { .. } | Meaning::Modelled(_) | Meaning::Spawn => true,
            Meaning::Local { .. } | Meaning::Global { .. } | Meaning::Table { .. } => false,
        }
    }

    /// Returns whether it is a modelled call, whose name can't be declared.
    pub fn is_modelled(self) -> bool
        ensures { result ≡ is_modelled self }
    {
        match self {
            Meaning::Modelled(_) | Meaning::Spawn => true,
            Meaning::Local { .. }
            | Meaning::Global { .. }
            | Meaning::Table { .. }
            | Meaning::Function { .. } => false,
        }
    }

    /// Returns whether `spawn` can start it: a function with one parameter.
    pub fn is_spawnable(self) -> bool
        ensures { result ≡ is_spawnable self }
    {
        match self {
            Meaning::Function { params, .. } => params == 1,
            Meaning::Local { .. }
            | Meaning::Global { .. }
            | Meaning::Table { .. }
            | Meaning::Modelled(_)
            | Meaning::Spawn => false,
        }
    }

    /// Returns whether it can be a table's member: an `int` function with one parameter.
    pub fn is_member(self) -> bool
        ensures { result ≡ is_member self }
    {
        match self {
            Meaning::Function { gives, params, .. } => gives && params == 1,
            Meaning::Local { .. }
            | Meaning::Global { .. }
            | Meaning::Table { .. }
            | Meaning::Modelled(_)
            | Meaning::Spawn => false,
        }
    }

    /// Returns whether a call of it gives no result.
    pub fn is_void(self) -> bool
        ensures { result ≡ is_void self }
    {
        match self {
            Meaning::Function { gives, .. } => !gives,
            Meaning::Modelled(call) => !call.gives_result(),
            Meaning::Local { .. }
            | Meaning::Global { .. }
            | Meaning::Table { .. }
            | Meaning::Spawn => false,
        }
    }

    // The number of arguments of a call of it.
    fn takes(self) -> Option<usize>
        ensures { result ≡ takes self }
    {
        match self {
            Meaning::Local { .. } | Meaning::Global { .. } => None,
            Meaning::Table { .. } => Some(1),
            Meaning::Function { params, .. } => Some(params),
            Meaning::Modelled(call) => Some(call.parameters()),
            Meaning::Spawn => Some(2),
        }
    }

    /// Returns whether `count` arguments are too few or too many for a call of it.
    pub fn is_wrong_count(self, count: usize) -> bool
        ensures { result ≡ is_wrong_count (takes self) count }
    {
        match self.takes() {
            None => false,
            Some(params) => params != count,
        }
    }
}

/// Returns the variable or global that a name stands for.
pub fn variable_of(found: Option<Found>) -> Variable
    ensures { result ≡ variable_of found }
{
    match found {
        Some(
            Found {
                meaning: Meaning::Local { variable, .. },
                ..
            },
        ) => Variable::Local(variable),
        Some(
            Found {
                meaning: Meaning::Global { global, .. },
                ..
            },
        ) => Variable::Global(global),
        _ => Variable::Local(0),
    }
}

/// Returns the table that a name stands for.
pub fn table_of(found: Option<Found>) -> u32
    ensures { result ≡ table_of found }
{
    match found {
        Some(
            Found {
                meaning: Meaning::Table { table },
                ..
            },
        ) => table,
        _ => 0,
    }
}

/// Returns the function that a name stands for.
pub fn function_of(found: Option<Found>) -> u32
    ensures { result ≡ function_of found }
{
    match found {
        Some(
            Found {
                meaning: Meaning::Function { function, .. },
                ..
            },
        ) => function,
        _ => 0,
    }
}

/// Returns the callee of a call of a name.
pub fn callee_of(found: Option<Found>) -> Callee
    ensures { result ≡ callee_of found }
{
    match found {
        Some(
            Found {
                meaning: Meaning::Function { function, .. },
                ..
            },
        ) => Callee::Function(function),
        Some(
            Found {
                meaning: Meaning::Modelled(call),
                ..
            },
        ) => Callee::Modelled(call),
        Some(
            Found {
                meaning: Meaning::Spawn,
                ..
            },
        ) => Callee::Spawn,
        _ => Callee::Function(0),
    }
}
