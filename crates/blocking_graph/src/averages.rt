ghost use Rattle.std.specs.Prelude.{◌≡◌, ◌≤◌, ◌^◌, ℕ, ◌<◌, ℤ, pos, map, unsigned_abs, slice_index_or};
ghost use Rattle.blocking_graph.specs.Averages.{first_average, floor_div, next_average, next_averages};

/// Returns an eighth of an average, rounded down.
#[tactic(auto, using(crate::proofs::AverageLemmas::quotients))]
fn eighth_of(average: i128) -> i128
    ensures value { result ≡ floor_div average 8 }
    ensures small { unsigned_abs result ≤ unsigned_abs average }
{
    average.div_euclid(8)
}

/// Returns the average after one more sample, scaled by 256: it subtracts an eighth of the average,
/// rounded down, and adds 32 times the sample.
pub(crate) fn next_average_of(average: i128, sample: i128) -> i128
    requires average { unsigned_abs average ≤ 2 ^ 48 }
    requires sample { unsigned_abs sample ≤ 2 ^ 63 }
    ensures { result ≡ next_average average sample }
{
    average - eighth_of(average) + 32 * sample
}

/// Returns the averages of one sample of each resource.
pub(crate) fn first_averages_of(samples: &[i64; 8]) -> [i128; 8]
    ensures { result ≡ map first_average samples.now }
{
    let mut averages = [0; 8];
    for resource in 0..8 {
        averages[resource] = 256 * i128::from(samples[resource]);
    }
    averages
}

/// Returns the averages after one more sample of each resource.
pub(crate) fn next_averages_of(averages: &[i128; 8], samples: &[i64; 8]) -> [i128; 8]
    requires { (k : ℕ) → k < 8 → unsigned_abs (slice_index_or averages.now k (pos 0)) ≤ 2 ^ 39 }
    ensures { result ≡ next_averages averages.now samples.now }
{
    let mut next = [0; 8];
    for resource in 0..8 {
        next[resource] = next_average_of(averages[resource], i128::from(samples[resource]));
    }
    next
}
