//! What the program does, for any reader and writer.

ghost use Rattle.std.specs.Prelude.{◌≡◌, ◌≢◌, [], false, IfErr, IfOk, OnOk, IsErrOf};
ghost use Rattle.std.specs.Io.KnownBytes.{Keeps};
ghost use Rattle.markdown_base.specs.Virtual.{IsWithinLimit};
ghost use Rattle.mdhtml_document.specs.HtmlLaws.{AreSafeOptions};
ghost use Rattle.mdhtml_markup.specs.SafeHtml.{IsSafeHtml};
ghost use Rattle.mdhtml_program.specs.Arguments.{tab_of};
ghost use Rattle.mdhtml_program.specs.Program.{IsHtmlOfRead, WritesSafe, html_by};
ghost use Rattle.mdprograms.specs.Input.{ReadsPastLimit};
ghost use Rattle.mdprograms.specs.Output.{Writes, WritesFront};

use crate::arguments::{Choice, options_of, tab_of};
use crate::read::read_to_end;
use markdown_base::configuration::Options;
use mdhtml_calls::html::{to_html_with_options, to_html_within};
use mdprograms::failure::Failure;
use mdprograms::write::write_all;
use std::alloc::{AllocError, Global};
use std::io::{Read, Write};

/// Reads a document to its end, makes its HTML, and then writes that.
///
/// Returns the first failure, in the order of reading, length, making HTML, and writing. After `Write`, a beginning of the HTML was written, and
/// after any other failure nothing. What was written is safe HTML, unless the choice is unsafe or something failed.
///
/// Two failures never come: `Message` and `NotReady`.
pub fn write_html<R: Read, W: Write>(
    alloc: Global,
    reader: &mut R,
    writer: &mut W,
    choice: &Choice,
) -> Result<(), Failure>
    ensures written { OnOk result (Writes IsHtmlOfRead choice.now R.remaining reader.old reader.new W.contents writer.old writer.new) }
    ensures safe { choice.now.is_unsafe ≡ false → OnOk result (WritesSafe (W.contents writer.old) (W.contents writer.new)) }
    ensures too_long { IsErrOf result Failure.TooLong → ReadsPastLimit (tab_of choice.now) (R.remaining reader.old) (R.remaining reader.new) }
    ensures never_refused { (m : _) → ¬ IsErrOf result (Failure.Message m) }
    ensures ready { ¬ IsErrOf result Failure.NotReady }
    ensures cut_short { IsErrOf result Failure.Write → WritesFront IsHtmlOfRead choice.now R.remaining reader.old reader.new W.contents writer.old writer.new }
    ensures nothing { IfErr result (λ failure. failure ≢ Failure.Write → Keeps (W.contents writer.old) (W.contents writer.new)) }
{
    let bytes = read_to_end(alloc, reader, tab_of(choice))?;
    let html = html_by(alloc, bytes.as_slice(), &options_of(choice), choice.depth)?;
    write_all(writer, html.as_slice())
}

/// The HTML of a document, within a limit of depth if there is one.
fn html_by(
    alloc: Global,
    bytes: &[u8],
    options: &Options,
    depth: Option<usize>,
) -> Result<Vec<u8>, AllocError>
    requires limit { IsWithinLimit options.now.parse.tab_size bytes.now }
    ensures html { IfOk result (λ html. html.items ≡ html_by depth options.now bytes.now) }
    ensures safe { IfOk result (λ html. AreSafeOptions options.now.compile → IsSafeHtml [] html.items) }
{
    match depth {
        None => to_html_with_options(alloc, bytes, options),
        Some(limit) => to_html_within(alloc, bytes, options, limit),
    }
}
