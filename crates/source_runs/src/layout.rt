// The places of names' words.
ghost use Rattle.std.specs.Prelude.{◌≡◌, ◌<◌, ◌^◌, IfOk, length, map, replicate, sum};
ghost use Rattle.c_tree.specs.Views.{function_tree};
ghost use Rattle.c_mean.specs.Layout as rows;
ghost use Rattle.source_runs.specs.Layouts.{AreLayouts, AreSmall, IsLayout};

use crate::frames::push;
use c_tree::{Function, GlobalFact};
use std::alloc::{AllocError, Global};

/// The index of the first word of each of a function's names in a frame, and the number of words of
/// a frame.
#[derive(Drop)]
pub(crate) struct Layout {
    pub(crate) starts: Vec<u32>,
    pub(crate) words: usize,
}

/// Returns the layout of names with these numbers of words.
pub(crate) fn layout_of(alloc: Global, widths: &[u32]) -> Result<Layout, AllocError>
    requires { sum widths.now < 2 ^ 32 }
    ensures { IfOk result (λ layout. IsLayout widths.now layout) }
{
    let mut starts = Vec::with_capacity(alloc, widths.len())?;
    let mut words: usize = 0;
    for width in widths {
        starts.push(words as u32)?;
        words += *width as usize;
    }
    Ok(Layout { starts, words })
}

/// Returns the layouts of functions, in the order of their numbers.
pub(crate) fn layouts_of(alloc: Global, functions: &[Function]) -> Result<Vec<Layout>, AllocError>
    requires { AreSmall (map function_tree functions.now) }
    ensures { IfOk result (λ layouts. AreLayouts (map function_tree functions.now) layouts.items) }
{
    let mut layouts = Vec::with_capacity(alloc, functions.len())?;
    for function in functions {
        let layout = layout_of(alloc, function.sizes.as_slice())?;
        push(&mut layouts, layout)?;
    }
    Ok(layouts)
}

/// Returns the number of words of each global.
pub(crate) fn widths_of(alloc: Global, facts: &[GlobalFact]) -> Result<Vec<u32>, AllocError>
    ensures { IfOk result (λ widths. widths.items ≡ rows.widths_of facts.now) }
{
    let mut widths = Vec::with_capacity(alloc, facts.len())?;
    for fact in facts {
        widths.push(fact.words)?;
    }
    Ok(widths)
}

/// Returns the words of the globals at the start of a run.
pub(crate) fn first_words(alloc: Global, facts: &[GlobalFact]) -> Result<Vec<u32>, AllocError>
    requires { sum (rows.widths_of facts.now) < 2 ^ 32 }
    ensures rows { IfOk result (λ words. rows.rows_of (rows.widths_of facts.now) words.items ≡ map (λ g. replicate g.words g.start) facts.now) }
    ensures count { IfOk result (λ words. length words.items ≡ sum (rows.widths_of facts.now)) }
{
    let mut words = Vec::new(alloc);
    for fact in facts {
        let more = words.len() + fact.words as usize;
        words.resize(more, fact.start)?;
    }
    Ok(words)
}
