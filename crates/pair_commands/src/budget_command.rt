// The command `budget`: the number of chunks that is enough for a source with its image and certificate.
ghost use Rattle.std.specs.Prelude.{ℕ, List, Option, ◌≡◌, ◌++◌, ◌≤◌, length, MatchResult, IfOk, OnOk};
ghost use Rattle.cap_io.specs.Files.{KeepsFiles};
ghost use Rattle.c_tree.specs.ProgramView.{program_tree};
ghost use Rattle.c_lower.specs.ProgramCode.{lowered};
ghost use Rattle.call_cycles.specs.Cycles.{IsLeast, IsOnCycle};
ghost use Rattle.accepted_pairs.specs.Accepting.{accepted_tree};
ghost use Rattle.pair_commands.specs.Budgets.{Budgets, BudgetsBytes, BudgetsPair, IsCycleRefused, budget_text, height_line, height_lines};
ghost use Rattle.command_outcomes.specs.Outcome.{printed};
ghost use Rattle.command_outcomes.specs.Steps.{EndsAs, IsStatus, IsStop, IsShelfStop};
ghost use Rattle.command_outcomes.specs.Done.{Outside, outside_beside};

use crate::pairs::{ReadPair, read_pair};
use crate::run_command::check_stop;
use accepted_pairs::Accepted;
use c_tree::Program;
use cap_io::{Shelf, Sink};
use certificate_check::check;
use chunk_budget::{Budget, MakeBudgetError, make_budget};
use command_files::load_three;
use command_outcomes::{Cause, Fault, Stop, print, put_number, put_text};
use stack_certificate::Certificate;
use stack_image::Image;
use std::alloc::{AllocError, Global};

/// Does the command `budget`: writes the least budget of a source with its image and certificate to `out`. Returns
/// status 0.
///
/// # Errors
///
/// `Refused` if a file is absent, too long or malformed, the pair breaks a rule of the certificate, or a function is on
/// a cycle of calls. `Failed` with `Read` or `Write` only if a load or a write failed, and with `Memory` if an
/// allocation fails.
pub fn do_budget<F: Shelf, K: Sink>(
    alloc: Global,
    shelf: &mut F,
    out: &mut K,
    source: &str,
    image: &str,
    certificate: &str,
) -> Result<u8, Stop>
    ensures { (left : Option (List ℕ)) (reads : ℕ) →
        let outside = outside_beside F.files F.load_faults F.store_faults left reads K.taken K.faults in
        let before : Outside = outside shelf.old out.old in
        let after : Outside = outside shelf.new out.new in
        EndsAs IsStatus (Budgets before.files source.now image.now certificate.now) before after result }
{
    let text = budget_files(alloc, shelf, source, image, certificate)?;
    print(out, text.as_slice(), 0)
}

/// Returns the text of the least budget of the files of these names.
fn budget_files<F: Shelf>(
    alloc: Global,
    shelf: &mut F,
    source_name: &str,
    image_name: &str,
    certificate_name: &str,
) -> Result<Vec<u8>, Stop>
    ensures answer { MatchResult result
        (λ text. Budgets (F.files shelf.old) source_name.now image_name.now certificate_name.now
        (printed 0 text.items) × (F.load_faults shelf.new ≡ F.load_faults shelf.old))
        (IsShelfStop
        (Budgets (F.files shelf.old) source_name.now image_name.now certificate_name.now)
        (F.load_faults shelf.old) (F.load_faults shelf.new)) }
    ensures files { KeepsFiles (F.files shelf.old) (F.files shelf.new) }
    ensures stores { F.store_faults shelf.new ≡ F.store_faults shelf.old }
{
    let files = load_three(alloc, shelf, source_name, image_name, certificate_name)?;
    budget_bytes(
        alloc,
        files.source.as_slice(),
        files.image.as_slice(),
        files.certificate.as_slice(),
    )
}

/// Returns the text of the least budget of files of these bytes.
fn budget_bytes(
    alloc: Global,
    source: &[u8],
    image: &[u8],
    certificate: &[u8],
) -> Result<Vec<u8>, Stop>
    requires { length source.now ≤ 1048576 }
    ensures { MatchResult result
        (λ text. BudgetsBytes source.now image.now certificate.now (printed 0 text.items))
        (IsStop (BudgetsBytes source.now image.now certificate.now)) }
{
    let ReadPair {
        program,
        image,
        certificate,
    } = read_pair(alloc, source, image, certificate)?;
    budget_pair(alloc, program, image, certificate)
}

/// Returns the text of the least budget of a program with its image and certificate.
fn budget_pair(
    alloc: Global,
    program: Program,
    image: Image,
    certificate: Certificate,
) -> Result<Vec<u8>, Stop>
    ensures { MatchResult result
        (λ text. BudgetsPair (program_tree program) image certificate (printed 0 text.items))
        (IsStop (BudgetsPair (program_tree program) image certificate)) }
{
    match check(alloc, program, image, certificate) {
        Ok(accepted) => {
            let text = budget_accepted(alloc, &accepted);
            drop(accepted);
            text
        }
        Err(error) => Err(check_stop(error)),
    }
}

/// Returns the text of the least budget of an accepted program.
fn budget_accepted(alloc: Global, accepted: &Accepted) -> Result<Vec<u8>, Stop>
    ensures { MatchResult result
        (λ text. BudgetsPair (accepted_tree accepted.now) accepted.now.image
        accepted.now.certificate (printed 0 text.items))
        (IsStop (BudgetsPair (accepted_tree accepted.now) accepted.now.image
        accepted.now.certificate)) }
{
    accepted.is_valid();
    match make_budget(alloc, accepted) {
        Ok(budget) => match text_of(alloc, &budget) {
            Ok(text) => Ok(text),
            Err(AllocError) => Err(Stop::Failed(Fault::Memory)),
        },
        Err(MakeBudgetError::Cycle { function }) => {
            Err(cycle_stop(alloc, accepted.program(), function))
        }
        Err(MakeBudgetError::Memory) => Err(Stop::Failed(Fault::Memory)),
    }
}

/// Returns the refusal of the least function on a cycle of calls.
fn cycle_stop(alloc: Global, program: &Program, function: u32) -> Stop
    requires { IsLeast (IsOnCycle (lowered (program_tree program.now))) function }
    ensures { IsStop (IsCycleRefused (program_tree program.now)) result }
{
    let functions = program.functions();
    match Vec::from_slice(alloc, functions[function as usize].name.as_slice()) {
        Ok(name) => Stop::Refused(Cause::Cycle { name }),
        Err(_) => Stop::Failed(Fault::Memory),
    }
}

/// Returns the text of a budget.
fn text_of(alloc: Global, budget: &Budget) -> Result<Vec<u8>, AllocError>
    ensures { IfOk result (λ text. text.items ≡ budget_text budget.now) }
{
    let mut text = Vec::new(alloc);
    put_text(&mut text, b"chunks ")?;
    put_number(&mut text, u64::from(budget.per_thread))?;
    put_text(&mut text, b"\n")?;
    put_heights(&mut text, budget.heights.as_slice())?;
    Ok(text)
}

/// Appends the lines of heights.
fn put_heights(text: &mut Vec<u8>, heights: &[u32]) -> Result<(), AllocError>
    ensures { OnOk result (text.new.items ≡ text.old.items ++ height_lines 0 heights.now) }
{
    for (function, height) in heights.iter().enumerate() {
        put_height(text, function as u64, *height)?;
    }
    Ok(())
}

/// Appends the line of a height.
fn put_height(text: &mut Vec<u8>, function: u64, height: u32) -> Result<(), AllocError>
    ensures { OnOk result (text.new.items ≡ text.old.items ++ height_line function height) }
{
    put_text(text, b"height ")?;
    put_number(text, function)?;
    put_text(text, b" ")?;
    put_number(text, u64::from(height))?;
    put_text(text, b"\n")
}
