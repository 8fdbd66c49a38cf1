//! The arguments as `std::env::args` provides them.

ghost use Rattle.std.specs.Prelude.{◌≡◌, ◌≢◌, [], drop, IsErr, IsOkAnd, IfOk, IfErr};
ghost use Rattle.std.specs.IoError.{error_kind};
ghost use Rattle.std.specs.Vec.Iter.{into_iter_items};

use base_words::NoMemory;
use std::alloc::Global;
use std::env::Args;
use std::io::{self, ErrorKind};

/// All arguments but the first.
fn after_name(alloc: Global, all: Args) -> Result<Vec<String>, NoMemory>
    ensures { IfOk result (λ arguments. arguments.items ≡ drop 1 (into_iter_items all)) }
{
    Ok(all.skip(1).collect(alloc)?)
}

/// The arguments after the program's name, in order. There are none if one of them is not UTF-8, since that is as invalid
/// as none.
pub fn arguments_from(alloc: Global, args: io::Result<Args>) -> Result<Vec<String>, NoMemory>
    ensures text { IfOk args (λ all. IfOk result (λ arguments.
        arguments.items ≡ drop 1 (into_iter_items all))) }
    ensures not_text { IfErr args (λ error. error_kind error ≡ ErrorKind.InvalidData
        → IsOkAnd result (λ arguments. arguments.items ≡ [])) }
    ensures no_memory { IfErr args (λ error. error_kind error ≢ ErrorKind.InvalidData
        → IsErr result) }
{
    match args {
        Ok(all) => after_name(alloc, all),
        Err(error) => match error.kind() {
            ErrorKind::InvalidData => Ok(Vec::new(alloc)),
            _ => Err(NoMemory),
        },
    }
}
