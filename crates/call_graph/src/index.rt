ghost use Rattle.std.specs.Prelude.{◌≡◌, IfOk};
ghost use Rattle.std.specs.List.Sorted.{IsStrictlyIncreasing};
ghost use Rattle.call_graph.specs.Index.{CallersBelow, IsIndex};
ghost use Rattle.call_graph.specs.Lists.{has};

use crate::sites::GraphSite;
use std::alloc::{AllocError, Global};

/// The indices of each function's sites in the list of all sites, without some of them.
#[derive(Drop)]
pub struct CallerIndex<'a> {
    /// All sites.
    pub sites: &'a [GraphSite],
    /// The numbers of the sites that are left out, increasing.
    pub without: &'a [u32],
    /// The index of each function's first site, or the number of sites.
    pub first: Vec<usize>,
    /// The index of the next site of the same caller, or the number of sites.
    pub next: Vec<usize>,
}

/// Whether a number is one of these, which rise. It takes no memory.
pub fn is_among(number: u32, numbers: &[u32]) -> bool
    requires { IsStrictlyIncreasing numbers.now }
    ensures { result ≡ has number numbers.now }
{
    numbers.binary_search(&number).is_ok()
}

impl<'a> CallerIndex<'a> {
    /// Returns the index of these sites, without those with the numbers in `without`, which increase. Each
    /// caller is below the number of functions.
    pub fn new(
        alloc: Global,
        functions: usize,
        sites: &'a [GraphSite],
        without: &'a [u32],
    ) -> Result<CallerIndex<'a>, AllocError>
        requires callers { CallersBelow functions sites.now }
        requires rising { IsStrictlyIncreasing without.now }
        ensures index { IfOk result (λ index. IsIndex sites.now without.now functions index.first.items index.next.items) }
        ensures sites { IfOk result (λ index. index.sites.now ≡ sites.now) }
        ensures without { IfOk result (λ index. index.without.now ≡ without.now) }
    {
        let end = sites.len();
        let mut first = vec![in alloc; end; functions]?;
        let mut next = vec![in alloc; end; end]?;
        let mut place = end;
        while place > 0 {
            place -= 1;
            let site = sites[place];
            if !is_among(site.number, without) {
                next[place] = first[site.caller as usize];
                first[site.caller as usize] = place;
            }
        }
        Ok(CallerIndex {
            sites,
            without,
            first,
            next,
        })
    }
}
