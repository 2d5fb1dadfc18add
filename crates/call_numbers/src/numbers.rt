// The numbers of calls by the places of their names.
ghost use Rattle.std.specs.Prelude.{◌≡◌, ◌<◌, ◌^◌, ℕ, length, slice_index, EachIndex, IfOk};
ghost use Rattle.c_tree.specs.WellScoped.{AreSiteNumbers};
ghost use Rattle.grammar_laws.specs.Ranks.{lesser, ranks};

use std::alloc::{AllocError, Global};

/// Returns the number of each call, from the places of the calls' names, in the order of the tree: how many of the
/// places are less.
///
/// # Errors
///
/// `AllocError` if an allocation fails, or if there are 2^32 places or more.
pub fn numbers_by_places(alloc: Global, places: &[u32]) -> Result<Vec<u32>, AllocError>
    ensures numbers { IfOk result (λ ns. ns.items ≡ ranks places.now) }
    ensures distinct { IfOk result (λ ns. AreSiteNumbers ns.items) }
{
    if places.len() > u32::MAX as usize {
        return Err(AllocError);
    }
    let numbers = ranks(alloc, places)?;
    Ok(numbers)
}

// The rank of each place. A source has at most 1,048,576 bytes, so a table over all places is small.
fn ranks(alloc: Global, places: &[u32]) -> Result<Vec<u32>, AllocError>
    requires { length places.now < 2 ^ 32 }
    ensures { IfOk result (λ ns. ns.items ≡ ranks places.now) }
{
    let mut starts = starts(alloc, places)?;
    let mut numbers = Vec::new(alloc);
    for place in places {
        let rank = starts[*place as usize];
        numbers.push(rank)?;
        starts[*place as usize] = rank + 1;
    }
    Ok(numbers)
}

// The number of places below each place, up to the greatest.
fn starts(alloc: Global, places: &[u32]) -> Result<Vec<u32>, AllocError>
    requires { length places.now < 2 ^ 32 }
    ensures all { IfOk result (λ v. EachIndex places.now (λ k. slice_index places.now k < length v.items)) }
    ensures each { IfOk result (λ v. EachIndex v.items (λ at. slice_index v.items at ≡ lesser at places.now)) }
{
    let mut counts = Vec::from_elem(alloc, 0, end_of(places))?;
    for place in places {
        counts[*place as usize] += 1;
    }
    let mut sum = 0;
    for at in 0..counts.len() {
        let here = counts[at];
        counts[at] = sum;
        sum += here;
    }
    Ok(counts)
}

// The place after the greatest of these, or 0.
fn end_of(places: &[u32]) -> usize
    ensures { EachIndex places.now (λ k. slice_index places.now k < result) }
{
    let mut end = 0;
    for place in places {
        if *place as usize >= end {
            end = *place as usize + 1;
        }
    }
    end
}
