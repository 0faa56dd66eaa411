//! Reading input to its end.

ghost use Rattle.std.specs.Prelude.{◌≡◌, ◌≢◌, ◌<◌, ℕ, List, ◌++◌, length, true, false, IfOk, IfErr, OnOk, OnErr, IsErrOf, Ok};
ghost use Rattle.std.specs.Io.KnownBytes.{Consumes, IsAtEnd};
ghost use Rattle.mdprograms.specs.Failure.{IsOfReading};
ghost use Rattle.mdprograms.specs.Input.{ReadsWithinLimit, ReadsPastLimit};
ghost use Rattle.markdown.specs.Virtual.{IsWithinLimit};

use markdown::configuration::TabSize;
use mddocument::limit::limit_of;
use mdprograms::failure::Failure;
use std::alloc::Global;
use std::io::Read;

/// Reads to the end: until a read returns 0 bytes. Returns `Failure::Read` for any error of the reader. Returns `Failure::TooLong`
/// as soon as what was read is past the limit, which depends on the tab size; so it ends for every reader. Returns
/// `Failure::Memory` if it runs out of memory.
///
/// After a failure, what was read so far is lost.
pub fn read_to_end<R: Read>(alloc: Global, reader: &mut R, tab: TabSize) -> Result<Vec<u8>, Failure>
    ensures all { IfOk result (λ bytes. Consumes (R.remaining reader.old) (R.remaining reader.new) bytes.items) }
    ensures end { OnOk result (IsAtEnd (R.remaining reader.new)) }
    ensures within { IfOk result (λ bytes. IsWithinLimit tab bytes.items) }
    ensures too_long { IsErrOf result Failure.TooLong → ReadsPastLimit tab (R.remaining reader.old) (R.remaining reader.new) }
    ensures failed { OnErr result ((bytes : List ℕ) × Consumes (R.remaining reader.old) (R.remaining reader.new) bytes) }
    ensures within_else { IfErr result (λ failure. failure ≢ Failure.TooLong → ReadsWithinLimit tab (R.remaining reader.old) (R.remaining reader.new)) }
    ensures cause { IfErr result IsOfReading }
{
    let mut bytes = Vec::new(alloc);
    'reading: while read_more(reader, &mut bytes, tab)? {}
    bytes.shrink_to_fit();
    Ok(bytes)
}

/// Reads once, and appends the bytes. Returns whether there were any.
fn read_more<R: Read>(reader: &mut R, bytes: &mut Vec<u8>, tab: TabSize) -> Result<bool, Failure>
    requires { IsWithinLimit tab bytes.old.items }
    ensures appends { OnOk result ((piece : List ℕ) × (bytes.new.items ≡ bytes.old.items ++ piece)
        × Consumes (R.remaining reader.old) (R.remaining reader.new) piece) }
    ensures grows { result ≡ Ok true → length bytes.old.items < length bytes.new.items }
    ensures end { result ≡ Ok false → IsAtEnd (R.remaining reader.new) }
    ensures within { OnOk result (IsWithinLimit tab bytes.new.items) }
    ensures too_long { IsErrOf result Failure.TooLong → (piece : List ℕ)
        × Consumes (R.remaining reader.old) (R.remaining reader.new) piece × ¬ IsWithinLimit tab (bytes.old.items ++ piece) }
    ensures failed { OnErr result ((piece : List ℕ) × Consumes (R.remaining reader.old) (R.remaining reader.new) piece) }
    ensures within_else { IfErr result (λ failure. failure ≢ Failure.TooLong → (piece : List ℕ)
        × Consumes (R.remaining reader.old) (R.remaining reader.new) piece × IsWithinLimit tab (bytes.old.items ++ piece)) }
    ensures cause { IfErr result IsOfReading }
{
    let mut piece = [0u8; 4096];
    let Ok(count) = reader.read(&mut piece) else {
        return Err(Failure::Read);
    };
    if count > limit_of(tab) - bytes.len() {
        return Err(Failure::TooLong);
    }
    bytes.extend_from_slice(&piece[..count])?;
    Ok(count > 0)
}
