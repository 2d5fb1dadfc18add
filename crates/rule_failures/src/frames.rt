ghost use Rattle.std.specs.Prelude.{◌≡◌, ◌<◌, length};
ghost use Rattle.flat_code.specs.Codes.{FlatCode};
ghost use Rattle.certificate_rules.specs.Rules.{V3, V11};
ghost use Rattle.rule_failures.specs.First.{IsFirst};

use stack_certificate::{Certificate, fact_of};

/// Returns the first index at which V3 fails in a function.
pub fn first_wrong_frame(certificate: &Certificate, function: u32) -> Option<u64>
    requires { function < length certificate.now.functions }
    ensures { (code : FlatCode) → length code.functions ≡ length certificate.now.functions → IsFirst (V3 code certificate.now function) result }
{
    let frame = fact_of(certificate, function).frame;
    if frame % 16 == 0 && frame >= 16 && frame <= 2032 {
        None
    } else {
        Some(0)
    }
}

/// Returns the first index at which V11 fails in a function.
pub fn first_outside_path(certificate: &Certificate, function: u32) -> Option<u64>
    requires { function < length certificate.now.functions }
    ensures { (code : FlatCode) → length code.functions ≡ length certificate.now.functions → IsFirst (V11 code certificate.now function) result }
{
    let fact = fact_of(certificate, function);
    if fact.frame > fact.bound {
        return Some(1);
    }
    if fact.bound > certificate.max_path {
        return Some(2);
    }
    if u64::from(certificate.max_path) + 16 > u64::from(certificate.chunk) {
        return Some(3);
    }
    None
}
