// The lines of an analysis.
ghost use Rattle.std.specs.Prelude.{ℕ, ◌≡◌, ◌<◌, ◌≤◌, ◌∷◌, [], ◌++◌, List, IfOk, OnOk, codes, length, map};
ghost use Rattle.std.specs.List.{AllByRecursion};
ghost use Rattle.std.specs.List.Sorted.{IsStrictlyIncreasing};
ghost use Rattle.cap_text.specs.Decimals.{canonical_decimal};
ghost use Rattle.cap_text.specs.TextLines.{ended_lines};
ghost use Rattle.c_tree.specs.declared.facts.Function.{Function};
ghost use Rattle.call_graph.specs.declared.sites.GraphSite.{GraphSite};
ghost use Rattle.analysis_lines.specs.Lines.{site_line, kind_word, functions_text, analysis_lines};

use c_tree::Function;
use call_graph::{GraphSite, is_among};
use cap_text::put_dec;
use std::alloc::{AllocError, Global};

/// The results of the analysis of a program's calls.
#[derive(Clone, Copy)]
pub struct Findings<'a> {
    /// The functions, by number.
    pub functions: &'a [Function],
    /// The size of each function's frame in bytes.
    pub weights: &'a [u32],
    /// The bound of each function in bytes.
    pub bounds: &'a [u32],
    /// The call sites, in order of their numbers.
    pub sites: &'a [GraphSite],
    /// The numbers of the back edges, increasing.
    pub back: &'a [u32],
    /// The numbers of the checkpointed sites, increasing.
    pub checkpointed: &'a [u32],
}

/// Returns a line for each function, by number, and then a line for each call site, in order: `function I NAME frame F
/// bound B`, and `site S CALLER` followed by `back`, `over` or `plain`.
pub fn analysis_text(alloc: Global, found: Findings) -> Result<Vec<u8>, AllocError>
    requires frames { length found.weights.now ≡ length found.functions.now }
    requires bounds { length found.bounds.now ≡ length found.functions.now }
    requires callers { AllByRecursion (λ (site : GraphSite). site.caller < length found.functions.now) found.sites.now }
    requires back { IsStrictlyIncreasing found.back.now }
    requires checkpointed { IsStrictlyIncreasing found.checkpointed.now }
    ensures { IfOk result (λ text. text.items ≡ analysis_lines (map (λ (f : Function). f.name.items) found.entry.functions.now)
        found.entry.weights.now found.entry.bounds.now found.entry.sites.now found.entry.back.now found.entry.checkpointed.now) }
{
    let mut text = Vec::new(alloc);
    put_functions(&mut text, found.functions, found.weights, found.bounds)?;
    put_sites(
        &mut text,
        found.functions,
        found.sites,
        found.back,
        found.checkpointed,
    )?;
    Ok(text)
}

// Appends the line of each function.
fn put_functions(
    text: &mut Vec<u8>,
    functions: &[Function],
    weights: &[u32],
    bounds: &[u32],
) -> Result<(), AllocError>
    requires frames { length weights.now ≡ length functions.now }
    requires bounds { length bounds.now ≡ length functions.now }
    ensures { OnOk result (text.new.items ≡ text.old.items ++ functions_text (map (λ (f : Function). f.name.items) functions.now) weights.now bounds.now (length functions.now)) }
{
    for (number, function) in functions.iter().enumerate() {
        put_function(
            text,
            number,
            &function.name,
            weights[number],
            bounds[number],
        )?;
    }
    Ok(())
}

// Appends the line of a function.
fn put_function(
    text: &mut Vec<u8>,
    number: usize,
    name: &[u8],
    frame: u32,
    bound: u32,
) -> Result<(), AllocError>
    ensures { OnOk result (text.new.items ≡ text.old.items ++ (((((((codes "function " ++ canonical_decimal number) ++ 32 ∷ name.now) ++ codes " frame ") ++ canonical_decimal frame) ++ codes " bound ") ++ canonical_decimal bound) ++ 10 ∷ [])) }
{
    text.extend_from_slice(b"function ")?;
    put_number(text, number as u64)?;
    text.push(b' ')?;
    text.extend_from_slice(name)?;
    text.extend_from_slice(b" frame ")?;
    put_number(text, u64::from(frame))?;
    text.extend_from_slice(b" bound ")?;
    put_number(text, u64::from(bound))?;
    text.push(b'\n')?;
    Ok(())
}

// Appends the line of each site.
fn put_sites(
    text: &mut Vec<u8>,
    functions: &[Function],
    sites: &[GraphSite],
    back: &[u32],
    checkpointed: &[u32],
) -> Result<(), AllocError>
    requires callers { AllByRecursion (λ (site : GraphSite). site.caller < length functions.now) sites.now }
    requires back { IsStrictlyIncreasing back.now }
    requires checkpointed { IsStrictlyIncreasing checkpointed.now }
    ensures { OnOk result (text.new.items ≡ text.old.items ++ ended_lines (map (site_line (map (λ (f : Function). f.name.items) functions.now) back.now checkpointed.now) sites.now)) }
{
    for site in sites {
        let name = &functions[site.caller as usize].name;
        put_site(
            text,
            site.number,
            name,
            kind_of(site.number, back, checkpointed),
        )?;
    }
    Ok(())
}

// Appends the line of a site.
fn put_site(text: &mut Vec<u8>, number: u32, caller: &[u8], kind: &[u8]) -> Result<(), AllocError>
    ensures { OnOk result (text.new.items ≡ text.old.items ++ (((((codes "site " ++ canonical_decimal number) ++ 32 ∷ caller.now) ++ 32 ∷ []) ++ kind.now) ++ 10 ∷ [])) }
{
    text.extend_from_slice(b"site ")?;
    put_number(text, u64::from(number))?;
    text.push(b' ')?;
    text.extend_from_slice(caller)?;
    text.push(b' ')?;
    text.extend_from_slice(kind)?;
    text.push(b'\n')?;
    Ok(())
}

// The kind of a site.
fn kind_of(number: u32, back: &[u32], checkpointed: &[u32]) -> &'static [u8]
    requires back { IsStrictlyIncreasing back.now }
    requires checkpointed { IsStrictlyIncreasing checkpointed.now }
    ensures { result.now ≡ kind_word back.now checkpointed.now number }
{
    if is_among(number, back) {
        b"back"
    } else if is_among(number, checkpointed) {
        b"over"
    } else {
        b"plain"
    }
}

// Appends a number.
fn put_number(text: &mut Vec<u8>, number: u64) -> Result<(), AllocError>
    ensures { OnOk result (text.new.items ≡ text.old.items ++ canonical_decimal number) }
{
    put_dec(text, i128::from(number))
}
