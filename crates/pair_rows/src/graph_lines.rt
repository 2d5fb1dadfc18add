ghost use Rattle.std.specs.Prelude.{◌≡◌, ◌<◌, length};
ghost use Rattle.std.specs.List.{AllByRecursion};
ghost use Rattle.std.specs.List.Sorted.{IsStrictlyIncreasing};
ghost use Rattle.call_graph.specs.declared.sites.GraphSite.{GraphSite};

use crate::graph_sites::call;
use analysis_lines::{Findings, analysis_text};
use c_tree::Function;
use call_graph::GraphSite;
use std::alloc::{AllocError, Global};

/// Appends a function of this name, with arbitrary other values. Returns `false` if memory runs out.
fn put_named(alloc: Global, list: &mut Vec<Function>, name: &[u8]) -> bool {
    match Vec::from_slice(alloc, name) {
        Ok(name) => {
            let function = Function {
                name,
                params: 0,
                gives: true,
                sizes: Vec::new(alloc),
                body: Vec::new(alloc),
            };
            matches!(list.push(function), Ok(()))
        }
        Err(_) => false,
    }
}

/// Returns functions of these names.
fn functions_named(alloc: Global, names: &[&[u8]]) -> Vec<Function> {
    let mut list = Vec::new(alloc);
    for name in names {
        if !put_named(alloc, &mut list, name) {
            break;
        }
    }
    list
}

/// Checks whether the text of these results about functions of these names is this.
fn has_text(
    alloc: Global,
    names: &[&[u8]],
    weights: &[u32],
    bounds: &[u32],
    sites: &[GraphSite],
    back: &[u32],
    checkpointed: &[u32],
    text: &[u8],
) -> bool
    requires frames { length weights.now ≡ length names.now }
    requires bounds { length bounds.now ≡ length names.now }
    requires callers { AllByRecursion (λ (site : GraphSite). site.caller < length names.now) sites.now }
    requires back { IsStrictlyIncreasing back.now }
    requires checkpointed { IsStrictlyIncreasing checkpointed.now }
{
    let functions = functions_named(alloc, names);
    let found = Findings {
        functions: &functions,
        weights,
        bounds,
        sites,
        back,
        checkpointed,
    };
    let same = functions.len() == names.len() && is_text(analysis_text(alloc, found), text);
    drop(functions);
    same
}

fn is_text(found: Result<Vec<u8>, AllocError>, text: &[u8]) -> bool {
    match found {
        Ok(found) => found.as_slice() == text,
        Err(_) => false,
    }
}

/// A call is plain within max path.
fn a_plain_call_has_its_text(alloc: Global) -> bool {
    has_text(
        alloc,
        &[b"g", b"main"],
        &[16, 16],
        &[16, 32],
        &[call(0, 1, 0)],
        &[],
        &[],
        b"function 0 g frame 16 bound 16\nfunction 1 main frame 16 bound 32\nsite 0 main plain\n",
    )
}

/// A longer call is checkpointed.
fn a_call_over_max_path_has_its_text(alloc: Global) -> bool {
    has_text(
        alloc,
        &[b"g", b"main"],
        &[16, 32],
        &[16, 32],
        &[call(0, 1, 0)],
        &[],
        &[0],
        b"function 0 g frame 16 bound 16\nfunction 1 main frame 32 bound 32\nsite 0 main over\n",
    )
}

/// A back edge is no other kind.
fn a_back_edge_has_its_text(alloc: Global) -> bool {
    has_text(
        alloc,
        &[b"a", b"b", b"main"],
        &[32, 32, 16],
        &[64, 32, 80],
        &[call(0, 0, 1), call(1, 1, 0), call(2, 2, 0)],
        &[1],
        &[1],
        b"function 0 a frame 32 bound 64\nfunction 1 b frame 32 bound 32\nfunction 2 main frame 16 bound 80\nsite 0 a plain\nsite 1 b back\nsite 2 main plain\n",
    )
}

#[test]
fn calls_have_their_lines(rt: HostRuntime) {
    let alloc = rt.alloc();
    assert!(rt;
        a_plain_call_has_its_text(alloc)
            && a_call_over_max_path_has_its_text(alloc)
            && a_back_edge_has_its_text(alloc)
    );
}
