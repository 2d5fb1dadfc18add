// The words of the command line.
ghost use Rattle.std.specs.Prelude.{◌≡◌, IfOk, drop};
ghost use Rattle.std.specs.Vec.Iter.{into_iter_items};

use std::alloc::{AllocError, Global};
use std::env::{self, Args};
use std::io::ErrorKind;
use std::rt::Env;

/// Returns the words after the program's name. If they aren't available, for instance because one isn't UTF-8, it
/// returns no words, which is a faulty command line too.
///
/// # Errors
///
/// `AllocError` if an allocation fails.
///
/// No clause says which words they are, since the contract of `std::env::args` doesn't.
pub fn words_of<E: Env>(alloc: Global, environment: &E) -> Result<Vec<String>, AllocError> {
    match env::args(&(environment, alloc)) {
        Ok(arguments) => words_after_name(arguments, alloc),
        Err(error) if error.kind() == ErrorKind::OutOfMemory => Err(AllocError),
        Err(_) => Ok(Vec::new(alloc)),
    }
}

/// Returns all arguments except the first, which is the program's name.
fn words_after_name(arguments: Args<Global>, alloc: Global) -> Result<Vec<String>, AllocError>
    ensures { IfOk result (λ words. words.items ≡ drop 1 (into_iter_items arguments)) }
{
    let mut arguments = arguments;
    let mut words = Vec::new(alloc);
    let _name = arguments.next();
    for word in arguments {
        words.push(word)?;
    }
    Ok(words)
}
