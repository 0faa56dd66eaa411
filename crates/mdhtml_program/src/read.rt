//! Reading input to its end.

ghost use Rattle.std.specs.Prelude.{◌≡◌, ◌≢◌, ◌⊎◌, IfErr, IfOk, IsErrOf};
ghost use Rattle.std.specs.IoError.{error_kind};
ghost use Rattle.mdprograms.specs.Failure.{IsOfReading};
ghost use Rattle.mdprograms.specs.Input.{IsReadToEnd, ReadsPastLimit};

use markdown_base::configuration::TabSize;
use mddocument::limit::limit_of;
use mdprograms::failure::Failure;
use std::alloc::Global;
use std::io::{Error, ErrorKind, Read};

/// Reads to the end. Returns `Failure::Memory` if it runs out of memory, and `Failure::Read` for any other error of the reader. Returns
/// `Failure::TooLong` if what was read is past the limit, which depends on the tab size.
///
/// After a failure, what was read is lost.
pub fn read_to_end<R: Read>(alloc: Global, reader: &mut R, tab: TabSize) -> Result<Vec<u8>, Failure>
    ensures all { IfOk result (λ bytes. IsReadToEnd tab (R.remaining reader.old) (R.remaining reader.new) bytes.items) }
    ensures too_long { IsErrOf result Failure.TooLong → ReadsPastLimit tab (R.remaining reader.old) (R.remaining reader.new) }
    ensures cause { IfErr result IsOfReading }
{
    let mut bytes = Vec::new(alloc);
    if let Err(error) = reader.read_to_end(&mut bytes) {
        return Err(failure_of(&error));
    }
    if bytes.len() > limit_of(tab) {
        return Err(Failure::TooLong);
    }
    Ok(bytes)
}

/// The failure of an error of a reader.
fn failure_of(error: &Error) -> Failure
    ensures cause { (result ≡ Failure.Memory) ⊎ (result ≡ Failure.Read) }
    ensures memory { error_kind error.now ≡ ErrorKind.OutOfMemory → result ≡ Failure.Memory }
    ensures other { error_kind error.now ≢ ErrorKind.OutOfMemory → result ≡ Failure.Read }
{
    match error.kind() {
        ErrorKind::OutOfMemory => Failure::Memory,
        _ => Failure::Read,
    }
}
