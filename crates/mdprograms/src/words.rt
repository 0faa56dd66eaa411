//! A program's arguments, as words.

ghost use Rattle.std.specs.Prelude.{IsOkUnless};

use crate::failure::Failure;
use std::env;
use std::io::ErrorKind;
use std::rt::Env;

/// The arguments after the program's name; `None` if one of them is not UTF-8.
///
/// It fails only with `Memory`.
pub fn words_of(rt: &(impl Env + AllocGlobal)) -> Result<Option<Vec<String>>, Failure>
    ensures cause { IsOkUnless result Failure.Memory }
{
    match env::args(rt) {
        Ok(mut arguments) => {
            let _ = arguments.next();
            let words: Vec<String> = arguments.collect(rt.alloc())?;
            Ok(Some(words))
        }
        Err(error) if error.kind() == ErrorKind::InvalidData => Ok(None),
        Err(_) => Err(Failure::Memory),
    }
}
