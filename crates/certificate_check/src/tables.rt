ghost use Rattle.std.specs.Prelude.{◌≡◌, ◌<◌, IfOk, All, length, map};
ghost use Rattle.flat_code.specs.ProgramView.{program_code};
ghost use Rattle.certificate_rules.specs.Sites.{greatest_bound};
ghost use Rattle.rule_failures.specs.TablesOf.{AreTablesOf};

use flat_code::FlatProgram;
use rule_failures::Tables;
use stack_certificate::{Certificate, fact_of, global_addresses, table_addresses};
use std::alloc::{AllocError, Global};

// The tables of globals and tables of a program.
pub(crate) fn tables_of(
    alloc: Global,
    flat: &FlatProgram,
    certificate: &Certificate,
) -> Result<Tables, AllocError>
    requires { length certificate.now.functions ≡ length (program_code flat.now).functions }
    ensures { IfOk result (λ tables. AreTablesOf (program_code flat.now) certificate.now tables) }
{
    let global_addresses = global_addresses(alloc, flat)?;
    let table_addresses = table_addresses(alloc, flat)?;
    let member_bounds = member_bounds(alloc, flat, certificate)?;
    Ok(Tables {
        global_addresses,
        table_addresses,
        member_bounds,
    })
}

// The greatest bound of each table's members.
fn member_bounds(
    alloc: Global,
    flat: &FlatProgram,
    certificate: &Certificate,
) -> Result<Vec<u32>, AllocError>
    requires { length certificate.now.functions ≡ length (program_code flat.now).functions }
    ensures { IfOk result (λ list. list.items ≡ map (greatest_bound certificate.now) (program_code flat.now).tables) }
{
    let mut bounds = Vec::new(alloc);
    for table in flat.tables() {
        bounds.push(greatest_bound(certificate, table.as_slice()))?;
    }
    Ok(bounds)
}

// The greatest bound of some functions, or 0 if there are none.
fn greatest_bound(certificate: &Certificate, functions: &[u32]) -> u32
    requires { All (λ f. f < length certificate.now.functions) functions.now }
    ensures { result ≡ greatest_bound certificate.now functions.now }
{
    let mut greatest = 0;
    for function in functions {
        greatest = greatest.max(fact_of(certificate, *function).bound);
    }
    greatest
}
