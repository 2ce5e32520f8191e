//! The arguments as the system gives them.
ghost use Rattle.std.specs.Prelude.{◌≡◌, IfOk, MatchResult, drop, map, string_bytes};
ghost use Rattle.std.specs.Vec.Iter.{into_iter_items};
ghost use Rattle.app_text.specs.Given.{IsAskedBy, MayLackMemory};

use std::alloc::{AllocError, Global};
use std::env::Args;
use std::io;
use std::io::ErrorKind;

/// The arguments behind the program's name. Arguments that are no text are none.
///
/// # Errors
///
/// Where there is no memory for them.
pub fn words_of(alloc: Global, given: io::Result<Args>) -> Result<Vec<String>, AllocError>
    ensures { MatchResult result (λ words. IsAskedBy given (map string_bytes words.items)) (λ _. MayLackMemory given) }
{
    match given {
        Ok(args) => Ok(behind_name(alloc, args)?),
        Err(error) if error.kind() == ErrorKind::OutOfMemory => Err(AllocError),
        Err(_) => Ok(Vec::new(alloc)),
    }
}

// All arguments but the first.
fn behind_name(alloc: Global, args: Args) -> Result<Vec<String>, AllocError>
    ensures { IfOk result (λ words. words.items ≡ drop 1 (into_iter_items args)) }
{
    args.skip(1).collect(alloc)
}
