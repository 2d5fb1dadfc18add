// The addresses of globals and tables.

ghost use Rattle.std.specs.Prelude.{◌≡◌, ◌≤◌, length, map, IfOk};
ghost use Rattle.std.specs.List.{range_with_len};
ghost use Rattle.flat_code.specs.ProgramView.{program_code};
ghost use Rattle.stack_certificate.specs.Certificates.{global_address, table_address};

use flat_code::FlatProgram;
use std::alloc::{AllocError, Global};

/// The address of the first word of the globals.
pub const GLOBALS_START: u32 = 0x1000_0000;

/// The address of the first word of the tables.
pub const TABLES_START: u32 = 0x2000_0000;

// The address of the first word of a global.
pub(crate) fn address_of_global(flat: &FlatProgram, g: u32) -> u32
    requires { g ≤ length (program_code flat.now).globals }
    ensures { result ≡ global_address (program_code flat.now) g }
{
    let mut words = 0;
    for i in 0..g {
        words += flat.globals()[i as usize].words;
    }
    GLOBALS_START + 4 * words
}

// The address of the first word of a table.
pub(crate) fn address_of_table(flat: &FlatProgram, t: u32) -> u32
    requires { t ≤ length (program_code flat.now).tables }
    ensures { result ≡ table_address (program_code flat.now) t }
{
    let mut words = 0;
    for i in 0..t {
        words += flat.tables()[i as usize].len() as u32;
    }
    TABLES_START + 4 * words
}

/// The address of the first word of each global, in order of numbers.
pub fn global_addresses(alloc: Global, flat: &FlatProgram) -> Result<Vec<u32>, AllocError>
    ensures { IfOk result (λ addresses. addresses.items ≡ map (global_address (program_code flat.now)) (range_with_len 0 (length (program_code flat.now).globals))) }
{
    let globals = flat.globals();
    let mut addresses = Vec::with_capacity(alloc, globals.len())?;
    let mut words = 0;
    for global in globals {
        addresses.push(GLOBALS_START + 4 * words)?;
        words += global.words;
    }
    Ok(addresses)
}

/// The address of the first word of each table, in order of numbers.
pub fn table_addresses(alloc: Global, flat: &FlatProgram) -> Result<Vec<u32>, AllocError>
    ensures { IfOk result (λ addresses. addresses.items ≡ map (table_address (program_code flat.now)) (range_with_len 0 (length (program_code flat.now).tables))) }
{
    let tables = flat.tables();
    let mut addresses = Vec::with_capacity(alloc, tables.len())?;
    let mut words = 0;
    for table in tables {
        addresses.push(TABLES_START + 4 * words)?;
        words += table.len() as u32;
    }
    Ok(addresses)
}
