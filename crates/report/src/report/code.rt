// The function and the operation at an address.

use accepted_pairs::Accepted;
use flat_code::Op;
use stack_certificate::FunctionFact;

/// Returns the number of the function whose words contain an address, with the certificate's entry for it, or `None` if
/// there is none.
pub(crate) fn function_at(accepted: &Accepted, address: u32) -> Option<(u32, &FunctionFact)> {
    let mut number: u32 = 0;
    for fact in accepted.certificate().functions.as_slice() {
        if fact.entry <= address {
            let words = u64::from(address - fact.entry) / 4;
            if words < u64::from(fact.words) {
                return Some((number, fact));
            }
        }
        number = number.saturating_add(1);
    }
    None
}

/// Returns the operation whose words contain an address, of the function of that number, or `None` in the prologue.
pub(crate) fn operation_at<'a>(
    accepted: &'a Accepted,
    function: u32,
    fact: &FunctionFact,
    address: u32,
) -> Option<&'a Op> {
    let functions = accepted.flat().functions();
    let number = function as usize;
    if number >= functions.len() {
        return None;
    }
    let word = u64::from(address.checked_sub(fact.entry)?) / 4;
    let mut found = None;
    let mut place: usize = 0;
    for first in accepted.words_before(function) {
        if *first <= word {
            found = Some(place);
        }
        place = place.saturating_add(1);
    }
    functions[number].ops.as_slice().get(found?)
}

/// Returns the site of an operation, if it has one.
pub(crate) fn site_of(op: &Op) -> Option<u32> {
    match op {
        Op::Call { site, .. }
        | Op::CallTable { site, .. }
        | Op::Model { site, .. }
        | Op::Spawn { site, .. } => Some(*site),
        _ => None,
    }
}
