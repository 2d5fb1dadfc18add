ghost use Rattle.std.specs.Prelude.{◌≡◌, ◌<◌, ℕ, List, length, IfSome};
ghost use Rattle.std.specs.List.{AllByRecursion};
ghost use Rattle.flat_code.specs.Codes.{FlatCode, members_of};
ghost use Rattle.flat_code.specs.ProgramView.{program_code};
ghost use Rattle.chunk_budget.specs.Known.{IsKnown};
ghost use Rattle.chunk_budget.specs.Tests.{highest};

use flat_code::FlatProgram;

// The greatest height of a table's members.
#[derive(Clone, Copy)]
pub(crate) struct Highest {
    pub(crate) table: u32,
    pub(crate) height: u32,
}

// The greatest height of some functions, or 0 if there are none.
fn greatest_height(functions: &[u32], heights: &[u32]) -> u32
    requires { AllByRecursion (λ f. f < length heights.now) functions.now }
    ensures { result ≡ highest heights.now functions.now }
{
    let mut most = 0;
    for function in functions {
        most = most.max(heights[*function as usize]);
    }
    most
}

// A cache: the greatest heights of the most recent tables.
#[derive(Clone, Copy)]
pub(crate) struct Known {
    pub(crate) kept: [Option<Highest>; 64],
    // The index of the entry to be replaced next.
    pub(crate) oldest: usize,
}

// An empty cache.
pub(crate) fn nothing_known() -> Known
    ensures { (code : FlatCode) → (heights : List ℕ) → IsKnown code heights result }
{
    Known {
        kept: [None; 64],
        oldest: 0,
    }
}

// The greatest height of a table's members, if it is cached.
fn kept_height(known: &Known, table: u32) -> Option<u32>
    ensures { (code : FlatCode) → (heights : List ℕ) → IsKnown code heights known.now → IfSome result (λ height. height ≡ highest heights (members_of code table)) }
{
    for kept in &known.kept {
        if let Some(last) = kept {
            if last.table == table {
                return Some(last.height);
            }
        }
    }
    None
}

// Caches the greatest height of one more table, in place of the oldest entry.
fn keep(known: &mut Known, newest: Highest)
    requires { known.old.oldest < 64 }
    ensures { (code : FlatCode) → (heights : List ℕ) → IsKnown code heights known.old → newest.height ≡ highest heights (members_of code newest.table) → IsKnown code heights known.new }
{
    known.kept[known.oldest] = Some(newest);
    known.oldest = (known.oldest + 1) % 64;
}

// The greatest height of a table's members, computed.
fn height_of_members(flat: &FlatProgram, heights: &[u32], table: u32) -> u32
    requires table { table < length (program_code flat.now).tables }
    requires heights { length heights.now ≡ length (program_code flat.now).functions }
    ensures { result ≡ highest heights.now (members_of (program_code flat.now) table) }
{
    greatest_height(flat.tables()[table as usize].as_slice(), heights)
}

// The greatest height of a table's members. It is computed unless the table is one of the last 64.
pub(crate) fn table_height(
    flat: &FlatProgram,
    heights: &[u32],
    table: u32,
    known: &mut Known,
) -> u32
    requires table { table < length (program_code flat.now).tables }
    requires heights { length heights.now ≡ length (program_code flat.now).functions }
    requires known { IsKnown (program_code flat.now) heights.now known.old }
    ensures highest { result ≡ highest heights.now (members_of (program_code flat.now) table) }
    ensures known { IsKnown (program_code flat.now) heights.now known.new }
{
    if let Some(height) = kept_height(known, table) {
        return height;
    }
    let height = height_of_members(flat, heights, table);
    keep(known, Highest { table, height });
    height
}
