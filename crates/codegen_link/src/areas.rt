// The words of an image other than its code.

ghost use Rattle.std.specs.Prelude.{◌≡◌, ◌<◌, ◌++◌, length, map, flat_map, replicate, IfOk, OnOk};
ghost use Rattle.std.specs.List.{AllByRecursion};
ghost use Rattle.flat_code.specs.ProgramView.{program_code};
ghost use Rattle.stack_certificate.specs.Certificates.{fact_at};
ghost use Rattle.codegen_link.specs.Emission.{entry_in};

use cap_word::Words;
use flat_code::FlatProgram;
use stack_certificate::{Certificate, FunctionFact};
use std::alloc::{AllocError, Global};

// Appends a word a number of times.
fn push_copies(word: u32, count: u32, words: &mut Vec<u32>) -> Result<(), AllocError>
    ensures { OnOk result (words.new.items ≡ words.old.items ++ replicate count word) }
{
    for _copy in 0..count {
        words.push(word)?;
    }
    Ok(())
}

// The initial words of the globals, one after another.
pub(crate) fn global_words(alloc: Global, flat: &FlatProgram) -> Result<Words, AllocError>
    ensures { IfOk result (λ words. words ≡ flat_map (λ g. replicate g.words g.start) (program_code flat.now).globals) }
{
    let mut words = Vec::new(alloc);
    for global in flat.globals() {
        push_copies(global.start, global.words, &mut words)?;
    }
    Ok(Words::new(words))
}

// Appends the entries of these members of a table.
fn push_members(
    members: &[u32],
    facts: &[FunctionFact],
    words: &mut Vec<u32>,
) -> Result<(), AllocError>
    requires { AllByRecursion (λ f. f < length facts.now) members.now }
    ensures { OnOk result (words.new.items ≡ words.old.items ++ map (entry_in facts.now) members.now) }
{
    for member in members {
        words.push(facts[*member as usize].entry)?;
    }
    Ok(())
}

// The entries of the tables' members.
pub(crate) fn table_words(
    alloc: Global,
    flat: &FlatProgram,
    certificate: &Certificate,
) -> Result<Words, AllocError>
    requires { length certificate.now.functions ≡ length (program_code flat.now).functions }
    ensures { IfOk result (λ words. words ≡ flat_map (map (λ f. (fact_at certificate.now f).entry)) (program_code flat.now).tables) }
{
    let facts = certificate.functions.as_slice();
    let mut words = Vec::new(alloc);
    for members in flat.tables() {
        push_members(members.as_slice(), facts, &mut words)?;
    }
    Ok(Words::new(words))
}

// The entries of the functions.
pub(crate) fn entries(alloc: Global, certificate: &Certificate) -> Result<Words, AllocError>
    ensures { IfOk result (λ words. words ≡ map (λ fact. fact.entry) certificate.now.functions) }
{
    let mut words = Vec::with_capacity(alloc, certificate.functions.len())?;
    for fact in certificate.functions.as_slice() {
        words.push(fact.entry)?;
    }
    Ok(Words::new(words))
}
