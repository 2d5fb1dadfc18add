// The limits of a program.

ghost use Rattle.std.specs.Prelude.{◌≡◌, ◌≤◌, ◌+◌, map, sum, drop, length, max};
ghost use Rattle.c_tree.specs.Views.{function_tree, table_row};
ghost use Rattle.c_tree.specs.Temporaries.{capped};
ghost use Rattle.scope_rules.specs.Limits.{most_params};

use c_tree::{Function, GlobalFact, TableFact};

// A sum up to 65,537.
fn plus(total: u32, more: u32) -> u32
    requires { total ≤ 65537 }
    ensures { result ≡ capped (total + more) }
{
    if more < 65_537 - total {
        total + more
    } else {
        65_537
    }
}

/// Returns the larger of two.
pub fn larger(a: u32, b: u32) -> u32
    ensures { result ≡ max a b }
{
    if a < b { b } else { a }
}

/// Returns the number of words of variables, up to 65,537.
pub fn words(sizes: &[u32]) -> u32
    ensures { result ≡ capped (sum sizes.now) }
{
    let mut total = 0;
    for size in sizes {
        total = plus(total, *size);
    }
    total
}

/// Returns the number of words of the variables after the parameters, up to 65,537.
pub fn declared_words(sizes: &[u32], params: usize) -> u32
    ensures { result ≡ capped (sum (drop params sizes.now)) }
{
    if sizes.len() < params {
        0
    } else {
        words(&sizes[params..])
    }
}

/// Returns the number of words of globals, up to 65,537.
pub fn global_words(globals: &[GlobalFact]) -> u32
    ensures { result ≡ capped (sum (map (λ g. g.words) globals.now)) }
{
    let mut total = 0;
    for global in globals {
        total = plus(total, global.words);
    }
    total
}

// A count up to 65,537.
fn count(length: usize) -> u32
    ensures { result ≡ capped length }
{
    if length < 65_537 {
        length as u32
    } else {
        65_537
    }
}

/// Returns the number of members of tables, up to 65,537.
pub fn table_members(tables: &[TableFact]) -> u32
    ensures { result ≡ capped (sum (map length (map table_row tables.now))) }
{
    let mut total = 0;
    for table in tables {
        total = plus(total, count(table.members.len()));
    }
    total
}

/// Returns the maximum number of parameters of a function.
pub fn most_params(functions: &[Function]) -> u32
    ensures { result ≡ most_params (map function_tree functions.now) }
{
    let mut most = 0;
    for function in functions {
        most = larger(most, function.params);
    }
    most
}
