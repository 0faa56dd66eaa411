//! Writing a text.

ghost use Rattle.std.specs.Prelude.{◌<◌, ℕ, take, length, IsOkUnless, OnOk, OnErr};
ghost use Rattle.std.specs.Io.KnownBytes.{Appends};

use crate::failure::Failure;
use std::io::Write;

/// Writes all of a text and nothing else. Returns `Failure::Write` for any error of the writer, and for a write of 0
/// bytes; a beginning of the text was then written. An empty text needs no write.
pub fn write_all<W: Write>(writer: &mut W, text: &[u8]) -> Result<(), Failure>
    ensures all { OnOk result (Appends (W.contents writer.old) (W.contents writer.new) text.now) }
    ensures failed { OnErr result ((count : ℕ) × Appends (W.contents writer.old) (W.contents writer.new) (take count text.now)) }
    ensures cause { IsOkUnless result Failure.Write }
    ensures asked { OnErr result (0 < length text.now) }
{
    let mut written = 0;
    'writing: while written < text.len() {
        match writer.write(&text[written..]) {
            Ok(0) | Err(_) => return Err(Failure::Write),
            Ok(count) => written += count,
        }
    }
    Ok(())
}
