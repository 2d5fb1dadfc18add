// Look-ups in an accepted program by number or address.

ghost use Rattle.std.specs.Prelude.{◌≡◌, ℕ, ◌<◌, length};
ghost use Rattle.certificate_rules.specs.Validity.{IsValid};
ghost use Rattle.flat_code.specs.Codes as codes;
ghost use Rattle.flat_code.specs.ProgramView.{program_code};
ghost use Rattle.segment_run.specs.Contexts.{checked_of};
ghost use Rattle.segment_run.specs.Lookups.{HasEntry};

use accepted_pairs::Accepted;
use flat_code::{FlatFunction, FlatProgram, Op};

// Returns a function of the program.
pub(crate) fn function_of(flat: &FlatProgram, function: u32) -> &FlatFunction
    requires { function < length (program_code flat.now).functions }
    ensures { result.now ≡ codes.function_at (program_code flat.now) function }
{
    &flat.functions()[function as usize]
}

// Returns the function that begins at an address. Each function has at least one word, so there is only one.
pub(crate) fn function_with_entry(accepted: &Accepted, entry: u32) -> u32
    requires valid { IsValid (checked_of accepted.now).flat accepted.now.image accepted.now.certificate }
    requires there { (f : ℕ) × HasEntry accepted.now.certificate entry f }
    ensures { HasEntry accepted.now.certificate entry result }
{
    accepted.function_at(entry)
}

// Returns the site of an operation, if it is a call.
pub(crate) fn site_of(op: &Op) -> Option<u32>
    ensures { result ≡ codes.site_of op.now }
{
    match op {
        Op::Call { site, .. }
        | Op::CallTable { site, .. }
        | Op::Model { site, .. }
        | Op::Spawn { site, .. } => Some(*site),
        _ => None,
    }
}
