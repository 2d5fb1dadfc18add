ghost use Rattle.std.specs.Prelude.{◌≡◌};
ghost use Rattle.chunk_budget.specs.Least.{lesser};

// The lesser of two optional numbers.
pub(crate) fn lesser(first: Option<u32>, second: Option<u32>) -> Option<u32>
    ensures { result ≡ lesser first second }
{
    match (first, second) {
        (Some(first), Some(second)) => Some(first.min(second)),
        (Some(first), None) => Some(first),
        (None, second) => second,
    }
}
