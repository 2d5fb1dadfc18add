ghost use Rattle.std.specs.Prelude.{◌≡◌};
ghost use Rattle.call_graph.specs.declared.sites.GraphSite as sites;
ghost use Rattle.call_graph.specs.declared.sites.Target.TheVariants as targets;

use call_graph::{GraphSite, Target};

/// Returns a site that calls a function.
pub(crate) fn call(number: u32, caller: u32, function: u32) -> GraphSite
    ensures { result ≡ record { number = number; caller = caller; target = targets.Function function } }
{
    GraphSite {
        number,
        caller,
        target: Target::Function(function),
    }
}
