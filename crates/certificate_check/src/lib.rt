// The checker of certificates: whether an image and a certificate are valid for a program in flat
// code.
//
// In: a program, an image and a certificate, from anywhere. Out: the first failure of the rules V1
// to V12, or none. The rules are the definitions of certificate_rules, and the contract of
// `first_failure` says that it decides exactly these. It compares single words and numbers and
// doesn't compile again, so its time is linear in the code, the certificate and the program, up to
// a logarithm. rule_failures decides all rules except V9 and V10, which are decided here. `check`
// does the same for a source's program, whose flat code it computes, and returns an `Accepted` of
// accepted_pairs. The crates above rely only on that value, so neither the code generator nor a
// file is trusted.
#![tactic(auto)]

mod checking;
mod failures;
mod first;
mod rules;
mod site_rules;
mod tables;

pub use accepted_pairs::Accepted;
pub use checking::{CheckError, check};
pub use failures::Failure;
pub use first::first_failure;
