//! What images are described by, and the addresses of autolinks.

ghost use Rattle.std.specs.Prelude.{◌≡◌, ◌++◌, ◌≤◌, ◌∷◌, IfOk, length};
ghost use Rattle.markdown_base.specs.declared.event.Kind.TheVariants.{Enter};
ghost use Rattle.mdhtml_document.specs.Values.{autolink_address, is_address, is_email};
ghost use Rattle.mdhtml_document.specs.Walks.{alt_from};

use crate::lines::{code_text, html_text};
use crate::names::{Inline, inline_of};
use crate::spans::{behind_first, bytes_at, inside, push_said};
use markdown_base::event::{Event, Kind, Name};
use mddocument_link_targets::spans::enters;
use std::alloc::{AllocError, Global};

/// Whether an event enters the address of an autolink.
fn is_address(event: &Event) -> bool
    ensures { result ≡ is_address event.now }
{
    enters(event, Name::AutolinkEmail) || enters(event, Name::AutolinkProtocol)
}

/// The address of an autolink, by the events in it.
pub(crate) fn autolink_address<'a>(bytes: &'a [u8], events: &[Event]) -> &'a [u8]
    ensures { result.now ≡ autolink_address bytes.now events.now }
{
    for (i, event) in events.iter().enumerate() {
        if is_address(event) {
            return bytes_at(bytes, event, &events[i + 1..]);
        }
    }
    &[]
}

/// Whether the address of an autolink is one of email, by the events in it.
pub(crate) fn is_email(events: &[Event]) -> bool
    ensures { result ≡ is_email events.now }
{
    events
        .iter()
        .any(|event| enters(event, Name::AutolinkEmail))
}

/// Adds what a span within an image's description is told as, by the event that enters it and those behind that. Returns how many of those are passed
/// over.
fn push_entered(
    alloc: Global,
    text: &mut Vec<u8>,
    bytes: &[u8],
    event: &Event,
    behind: &[Event],
) -> Result<usize, AllocError>
    requires { event.now.kind ≡ Enter }
    ensures added { IfOk result (λ passed. text.new.items ++ alt_from bytes.now passed behind.now ≡ text.old.items ++ alt_from bytes.now 0 (event.now ∷ behind.now)) }
    ensures within { IfOk result (λ passed. passed ≤ length behind.now) }
{
    match inline_of(event.name) {
        Inline::Ending => {
            text.push(b' ')?;
            Ok(inside(behind).len())
        }
        Inline::Code => {
            let inner = inside(behind);
            let code = code_text(alloc, bytes, inner)?;
            text.extend_from_slice(code.as_slice())?;
            Ok(inner.len())
        }
        Inline::Html => {
            let inner = inside(behind);
            let html = html_text(alloc, bytes, inner)?;
            text.extend_from_slice(html.as_slice())?;
            Ok(inner.len())
        }
        Inline::Autolink => {
            let inner = inside(behind);
            text.extend_from_slice(autolink_address(bytes, inner))?;
            Ok(inner.len())
        }
        Inline::Tail => Ok(inside(behind).len()),
        _ => {
            push_said(text, bytes, event, behind)?;
            Ok(0)
        }
    }
}

/// Adds what an event gives to an image's description, by those behind it. Returns those that are left of these.
fn push_alt<'a>(
    alloc: Global,
    text: &mut Vec<u8>,
    bytes: &[u8],
    event: &Event,
    behind: &'a [Event],
) -> Result<&'a [Event], AllocError>
    ensures added { IfOk result (λ rest. text.new.items ++ alt_from bytes.now 0 rest.now ≡ text.old.items ++ alt_from bytes.now 0 (event.now ∷ behind.now)) }
    ensures within { IfOk result (λ rest. length rest.now ≤ length behind.now) }
{
    match event.kind {
        Kind::Enter => {
            let passed = push_entered(alloc, text, bytes, event, behind)?;
            Ok(behind_first(behind, passed))
        }
        Kind::Exit => Ok(behind),
    }
}

/// What an image is described by, by the events in it: its text, without links and emphasis.
pub(crate) fn alt_of(alloc: Global, bytes: &[u8], events: &[Event]) -> Result<Vec<u8>, AllocError>
    ensures { IfOk result (λ text. text.items ≡ alt_from bytes.now 0 events.now) }
{
    let mut text = Vec::new(alloc);
    let mut rest = events;
    'events: while let [event, behind @ ..] = rest {
        rest = push_alt(alloc, &mut text, bytes, event, behind)?;
    }
    Ok(text)
}
