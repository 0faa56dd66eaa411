//! A document as HTML.

ghost use Rattle.std.specs.Prelude.{◌≡◌, [], IfOk};
ghost use Rattle.markdown_base.specs.Presets.{default_options};
ghost use Rattle.markdown_base.specs.Virtual.{IsWithinLimit};
ghost use Rattle.mdhtml_calls.specs.Document.{html_of_document, html_within};
ghost use Rattle.mdhtml_document.specs.HtmlLaws.{AreSafeOptions};
ghost use Rattle.mdhtml_markup.specs.SafeHtml.{IsSafeHtml};

use markdown_base::configuration::Options;
use mdgfm_documents::documents::read_gfm_document;
use mdhtml_depth::spans::within;
use mdhtml_document::html::html_of_events;
use std::alloc::{AllocError, Global};

/// A document as HTML, as CommonMark says. It is safe, whatever the document is. Fails only if it runs out of memory.
pub fn to_html(alloc: Global, bytes: &[u8]) -> Result<Vec<u8>, AllocError>
    requires limit { IsWithinLimit 4 bytes.now }
    ensures html { IfOk result (λ html. html.items ≡ html_of_document default_options bytes.now) }
    ensures safe { IfOk result (λ html. IsSafeHtml [] html.items) }
{
    to_html_with_options(alloc, bytes, &Options::default())
}

/// A document as HTML, with these options. It is safe, whatever the document is, if they let nothing through. Fails only if it runs out of memory.
pub fn to_html_with_options(
    alloc: Global,
    bytes: &[u8],
    options: &Options,
) -> Result<Vec<u8>, AllocError>
    requires limit { IsWithinLimit options.now.parse.tab_size bytes.now }
    ensures html { IfOk result (λ html. html.items ≡ html_of_document options.now bytes.now) }
    ensures safe { IfOk result (λ html. AreSafeOptions options.now.compile → IsSafeHtml [] html.items) }
{
    let events = read_gfm_document(alloc, bytes, &options.parse)?;
    html_of_events(
        alloc,
        bytes,
        events.as_slice(),
        &options.compile,
        options.parse.tab_size,
    )
}

/// A document as HTML, with these options, and within a limit of depth. Block quotes, lists, emphasis, strikethrough and links around which there are as many
/// of these as the limit are written without their tags; what is in them is written. It is safe, whatever the document is, if the options let nothing
/// through. Fails only if it runs out of memory.
pub fn to_html_within(
    alloc: Global,
    bytes: &[u8],
    options: &Options,
    limit: usize,
) -> Result<Vec<u8>, AllocError>
    requires limit { IsWithinLimit options.now.parse.tab_size bytes.now }
    ensures html { IfOk result (λ html. html.items ≡ html_within limit options.now bytes.now) }
    ensures safe { IfOk result (λ html. AreSafeOptions options.now.compile → IsSafeHtml [] html.items) }
{
    let events = read_gfm_document(alloc, bytes, &options.parse)?;
    let shallow = within(alloc, events, limit)?;
    html_of_events(
        alloc,
        bytes,
        shallow.as_slice(),
        &options.compile,
        options.parse.tab_size,
    )
}
