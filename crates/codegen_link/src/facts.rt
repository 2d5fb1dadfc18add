// The facts of functions in a certificate.

ghost use Rattle.std.specs.Prelude.{◌≡◌, ◌+◌, ◌*◌, ◌<◌, ◌≤◌, ◌^◌, length, map, sum, IfOk};
ghost use Rattle.std.specs.List.{range_with_len};
ghost use Rattle.std.specs.List.Sorted.{IsStrictlyIncreasing};
ghost use Rattle.flat_code.specs.Codes.{function_at};
ghost use Rattle.flat_code.specs.ProgramView.{program_code};
ghost use Rattle.codegen_link.specs.Layout.{code_words, fact_of, function_words, places_from, words_to};

use crate::sizes::function_size;
use cap_word::Words;
use checkpoint_place::Plan;
use flat_code::{FlatProgram, weight};
use stack_certificate::{FunctionFact, function_of};
use stack_image::CODE_START;
use std::alloc::{AllocError, Global};

// The places of variables with these numbers of words, from 0 upward.
fn places(alloc: Global, sizes: &[u32]) -> Result<Words, AllocError>
    requires { sum sizes.now ≤ 2 ^ 20 }
    ensures { IfOk result (λ places. places ≡ places_from 0 sizes.now) }
{
    let mut places = Vec::with_capacity(alloc, sizes.len())?;
    let mut place = 0;
    for words in sizes {
        places.push(place)?;
        place += 4 * *words;
    }
    Ok(Words::new(places))
}

// The fact of a function whose code has this number of words, after those of other functions.
fn fact(
    alloc: Global,
    flat: &FlatProgram,
    plan: &Plan,
    function: u32,
    before: u32,
    words: u32,
) -> Result<FunctionFact, AllocError>
    requires each { length plan.now.bounds ≡ length (program_code flat.now).functions }
    requires function { function < length (program_code flat.now).functions }
    requires before { before ≡ words_to (program_code flat.now) plan.now function }
    requires words { words ≡ function_words (program_code flat.now) plan.now (function_at (program_code flat.now) function) }
    requires few { before ≤ 200000 }
    ensures { IfOk result (λ fact. fact ≡ fact_of (program_code flat.now) plan.now function) }
{
    let body = function_of(flat, function);
    let frame = weight(body);
    Ok(FunctionFact {
        entry: CODE_START + 4 * before,
        words,
        frame,
        ra: frame - 4,
        bound: plan.bounds.as_slice()[function as usize],
        places: places(alloc, body.sizes.as_slice())?,
    })
}

// The facts of all functions, in order of numbers.
pub(crate) fn facts_of(
    alloc: Global,
    flat: &FlatProgram,
    plan: &Plan,
) -> Result<Vec<FunctionFact>, AllocError>
    requires rising { IsStrictlyIncreasing plan.now.checkpointed }
    requires each { length plan.now.bounds ≡ length (program_code flat.now).functions }
    requires fits { code_words (program_code flat.now) plan.now ≤ 200000 }
    ensures { IfOk result (λ facts. facts.items ≡ map (fact_of (program_code flat.now) plan.now) (range_with_len 0 (length (program_code flat.now).functions))) }
{
    let count = flat.functions().len() as u32;
    let mut facts = Vec::new(alloc);
    let mut before = 2;
    for function in 0..count {
        let words = function_size(flat, plan, function) as u32;
        let fact = fact(alloc, flat, plan, function, before, words)?;
        facts.push(fact)?;
        before += words;
    }
    Ok(facts)
}
