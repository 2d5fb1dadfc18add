ghost use Rattle.std.specs.Prelude.{◌≡◌, ◌⊎◌, Some, IfOk, IfErr};
ghost use Rattle.c_tree.specs.ProgramView.{program_tree};
ghost use Rattle.c_lower.specs.ProgramCode.{lowered};
ghost use Rattle.call_graph.specs.Callees.{callees};
ghost use Rattle.stack_build.specs.declared.refusals.BuildError.TheVariants.{Memory};
ghost use Rattle.stack_build.specs.Builds.{frame_refusal, IsPlacedBy};
ghost use Rattle.stack_plan.specs.Plans.{IsEnough};

use crate::graphs::graph_of;
use crate::refusals::BuildError;
use c_tree::Program;
use call_graph::{Callees, GraphSite, callees_of};
use cap_word::Words;
use checkpoint_place::Plan;
use codegen_link::Options;
use stack_plan::plan_of_graph;
use std::alloc::{AllocError, Global};

/// The results of the analysis of a program's calls.
#[derive(Drop)]
pub struct Analysis {
    /// The size of each function's frame in bytes, by number.
    pub weights: Words,
    /// The bound of each function in bytes, by number.
    pub bounds: Words,
    /// The members of the tables, by number.
    pub tables: Vec<Callees>,
    /// The call sites, in order of their numbers. A site that calls a table names the table.
    pub sites: Vec<GraphSite>,
    /// The numbers of the back-edge sites, increasing.
    pub back: Words,
    /// The numbers of the checkpointed sites, increasing.
    pub checkpointed: Words,
}

impl Analysis {
    /// Returns the functions that the call at a site may enter, in order.
    pub fn callees<'a>(&'a self, site: &'a GraphSite) -> &'a [u32]
        ensures { result.now ≡ callees self.now.tables.items site.now.target }
    {
        callees_of(self.tables.as_slice(), site)
    }
}

/// Returns the analysis of a program for paths of at most `options.max_path` bytes: its call graph, the back edges of
/// the walk, and the placement.
///
/// # Errors
///
/// `FrameTooLarge` only if a frame exceeds that or 2,032 bytes, with the first such function; if there is one, no
/// analysis is returned. `Memory` if an allocation fails.
pub fn analyse(alloc: Global, program: &Program, options: Options) -> Result<Analysis, BuildError>
    ensures refused { IfErr result (λ error. (error ≡ Memory)
        ⊎ (frame_refusal (lowered (program_tree program.now)) options.max_path ≡ Some error)) }
    ensures planned { IfOk result (λ a.
        IsPlacedBy (lowered (program_tree program.now)) options.max_path
        (record {
          weights = a.weights;
          tables = (program_tree program.now).tables;
          sites = a.sites.items;
          main = (program_tree program.now).main;
        })
        a.back (record { checkpointed = a.checkpointed; bounds = a.bounds })) }
    ensures tables { IfOk result (λ a. a.tables.items ≡ (program_tree program.now).tables) }
    // No frame exceeds 2,032 bytes or its bound, and no bound exceeds max path.
    ensures enough { IfOk result (λ a.
        IsEnough (lowered (program_tree program.now)) options.max_path
        (record { checkpointed = a.checkpointed; bounds = a.bounds })) }
{
    let graph = graph_of(alloc, program)?;
    let planned = plan_of_graph(alloc, graph, options.max_path)?;
    let (weights, tables, sites) = planned.graph.into_lists();
    let Plan {
        checkpointed,
        bounds,
    } = planned.plan;
    Ok(Analysis {
        weights: Words::new(weights),
        bounds,
        tables,
        sites,
        back: planned.back,
        checkpointed,
    })
}
