// The place of an address in the code.
ghost use Rattle.std.specs.Prelude.{◌≡◌, ℕ};
ghost use Rattle.c_lower.specs.ProgramCode.{lowered};
ghost use Rattle.accepted_pairs.specs.Accepting.{accepted_tree};
ghost use Rattle.certificate_rules.specs.Validity.{IsValid};
ghost use Rattle.machine_world.specs.Places.{InOperation, IsAt};
ghost use Rattle.segment_run.specs.Contexts.{checked_of};
ghost use Rattle.segment_run.specs.Walking.{IsInCall};

use crate::lookups::{function_of, site_of};
use accepted_pairs::Accepted;
use stack_certificate::fact_of;

// A call in the code: its function and the number of its site.
#[derive(Clone, Copy)]
pub(crate) struct CallPlace {
    pub(crate) function: u32,
    pub(crate) site: u32,
}

// Returns the call whose words contain an address.
pub(crate) fn call_at(accepted: &Accepted, address: u32) -> CallPlace
    requires valid { IsValid (lowered (accepted_tree accepted.now)) accepted.now.image accepted.now.certificate }
    requires there { (f : ℕ) × (site : ℕ) × IsInCall (checked_of accepted.now) address f site }
    ensures function { (f site : ℕ) → IsInCall (checked_of accepted.now) address f site → result.function ≡ f }
    ensures site { (f site : ℕ) → IsInCall (checked_of accepted.now) address f site → result.site ≡ site }
{
    let function = accepted.function_at(address);
    let op = operation_with(accepted, function, address);
    let body = function_of(accepted.flat(), function);
    match site_of(&body.ops.as_slice()[op as usize]) {
        Some(site) => CallPlace { function, site },
        None => unreachable!(),
    }
}

// Returns the operation of a function whose words contain an address, by binary search.
fn operation_with(accepted: &Accepted, function: u32, address: u32) -> u32
    requires valid { IsValid (lowered (accepted_tree accepted.now)) accepted.now.image accepted.now.certificate }
    requires there { (i : ℕ) × (word : ℕ) × IsAt (checked_of accepted.now) address (InOperation function i word) }
    ensures { (i word : ℕ) → IsAt (checked_of accepted.now) address (InOperation function i word) → result ≡ i }
{
    let body = function_of(accepted.flat(), function);
    let before = accepted.words_before(function);
    let word = u64::from((address - fact_of(accepted.certificate(), function).entry) / 4);
    let mut low = 0;
    let mut high = body.ops.len();
    'halving: while high - low > 1 {
        let middle = low + (high - low) / 2;
        if before[middle] <= word {
            low = middle;
        } else {
            high = middle;
        }
    }
    low as u32
}
