//! Beginnings of spans of inline text.

ghost use Rattle.std.specs.Prelude.{◌≡◌, ◌++◌, ◌∷◌, [], IfOk, OnOk, true};
ghost use Rattle.mddocument_link_targets.specs.Spans.{inside};
ghost use Rattle.mdhtml_document.specs.Frames.{Opens, known_of};
ghost use Rattle.mdhtml_document.specs.Html.{alone, task_box, check, inline_shape, is_check, is_checked, literal, paragraph_shape, raw_within, told};
ghost use Rattle.mdhtml_document.specs.Written.{after};
ghost use Rattle.mdhtml_document.specs.Values.{cell_text, code_text, html_text};
ghost use Rattle.mdhtml_document.specs.Walks.{alt_from, inner_bytes, said_at, says_bytes};
ghost use Rattle.mdhtml_markup.specs.Escapes.{escaped};
ghost use Rattle.mdhtml_markup.specs.Pieces.{Close, Open, Text, written};
ghost use Rattle.mdhtml_markup.specs.declared.elements.Element.TheVariants as element;

use crate::lines::{cell_text, code_in, code_text, html_text};
use crate::links::{Whole, autolink, image, literal, open_link};
use crate::names::Inline;
use crate::notes::open_call;
use crate::shapes::{DONE, Frame, Mode, open_within_line, through};
use crate::spans::{inside, push_said};
use markdown_base::configuration::CompileOptions;
use markdown_base::event::{Event, Kind, Name};
use mddocument_link_targets::spans::enters;
use mddocument_link_targets::strings::slice;
use mdhtml_markup::elements::Element;
use mdhtml_markup::escape::{push_escaped, push_kept};
use mdhtml_markup::tag_filter::push_first_filtered;
use std::alloc::{AllocError, Global};

/// Writes code within text.
fn code_of(out: &mut Vec<u8>, text: &[u8]) -> Result<Frame, AllocError>
    ensures { IfOk result (λ frame. Opens (alone (Open element.Code [] ∷ Text text.now ∷ Close element.Code ∷ [])) out.old.items out.new.items frame) }
{
    out.extend_from_slice(b"<code>")?;
    push_escaped(out, text)?;
    out.extend_from_slice(b"</code>")?;
    Ok(DONE)
}

/// Writes a code span, by the events in it.
fn code(
    alloc: Global,
    out: &mut Vec<u8>,
    bytes: &[u8],
    is_in_cell: bool,
    inner: &[Event],
) -> Result<Frame, AllocError>
    ensures { IfOk result (λ frame. Opens (alone (Open element.Code [] ∷ Text (cell_text is_in_cell (code_text bytes.now inner.now)) ∷ Close element.Code ∷ [])) out.old.items out.new.items frame) }
{
    match code_in(bytes, inner) {
        Some(text) if !is_in_cell => code_of(out, text),
        _ => {
            let text = code_text(alloc, bytes, inner)?;
            let text = cell_text(alloc, is_in_cell, text)?;
            code_of(out, text.as_slice())
        }
    }
}

/// Adds HTML of the document within text: as it is, or with its tag filtered; or as text.
fn push_raw(out: &mut Vec<u8>, options: &CompileOptions, html: &[u8]) -> Result<(), AllocError>
    ensures { OnOk result (out.new.items ≡ after out.old.items (raw_within options.now html.now ∷ [])) }
{
    if !options.allow_dangerous_html {
        push_escaped(out, html)
    } else if options.gfm_tagfilter {
        push_first_filtered(out, html)
    } else {
        push_kept(out, html)
    }
}

/// Writes HTML within text, by the events in it.
fn html(
    alloc: Global,
    out: &mut Vec<u8>,
    whole: &Whole<'_>,
    is_in_cell: bool,
    inner: &[Event],
) -> Result<Frame, AllocError>
    ensures { IfOk result (λ frame. Opens (alone (raw_within whole.now.options.now (cell_text is_in_cell (html_text whole.now.bytes.now inner.now)) ∷ [])) out.old.items out.new.items frame) }
{
    let html = html_text(alloc, whole.bytes, inner)?;
    let html = cell_text(alloc, is_in_cell, html)?;
    push_raw(out, whole.options, html.as_slice())?;
    Ok(DONE)
}

/// Whether innermost spans of a name say their bytes as they are.
pub(crate) fn says_bytes(name: Name) -> bool
    ensures { result ≡ says_bytes name }
{
    Name::Data == name || Name::CharacterEscapeValue == name
}

/// The bytes of the span that an event enters, if it is an innermost one, by the events behind that.
pub(crate) fn inner_bytes<'a>(bytes: &'a [u8], event: &Event, behind: &[Event]) -> &'a [u8]
    ensures { result.now ≡ inner_bytes bytes.now event.now behind.now }
{
    match behind {
        [exit, ..] if event.kind == Kind::Enter && exit.kind == Kind::Exit => slice(
            bytes,
            event.point.index,
            exit.point.index,
        ),
        _ => &[],
    }
}

/// Adds what a span says, escaped, if it is an innermost one.
#[tactic(auto, using(crate::proofs::SpanFacts::said_bytes))]
fn push_told(
    alloc: Global,
    out: &mut Vec<u8>,
    bytes: &[u8],
    event: &Event,
    behind: &[Event],
) -> Result<(), AllocError>
    ensures { OnOk result (out.new.items ≡ out.old.items ++ escaped (said_at bytes.now event.now behind.now)) }
{
    if says_bytes(event.name) {
        push_escaped(out, inner_bytes(bytes, event, behind))?;
        return Ok(());
    }
    let mut text = Vec::new(alloc);
    push_said(&mut text, bytes, event, behind)?;
    push_escaped(out, text.as_slice())
}

/// Writes what a span says, if it is an innermost one.
fn told(
    alloc: Global,
    out: &mut Vec<u8>,
    bytes: &[u8],
    event: &Event,
    behind: &[Event],
) -> Result<Frame, AllocError>
    ensures { IfOk result (λ frame. Opens (told (said_at bytes.now event.now behind.now)) out.old.items out.new.items frame) }
{
    push_told(alloc, out, bytes, event, behind)?;
    Ok(through(Mode::Text))
}

/// Writes a literal, with this scheme in front of it.
fn open_literal(
    alloc: Global,
    out: &mut Vec<u8>,
    whole: &Whole<'_>,
    scheme: &[u8],
    event: &Event,
    behind: &[Event],
) -> Result<Frame, AllocError>
    ensures { IfOk result (λ frame. Opens (literal whole.now.options.now scheme.now (said_at whole.now.bytes.now event.now behind.now)) out.old.items out.new.items frame) }
{
    let mut said = Vec::new(alloc);
    push_said(&mut said, whole.bytes, event, behind)?;
    literal(alloc, out, whole.options, scheme, said.as_slice())
}

/// Begins a span of inline text, by whether it is in a cell of a table, what it is, the event that enters it and those behind that.
pub(crate) fn open_inline(
    alloc: Global,
    out: &mut Vec<u8>,
    whole: &Whole<'_>,
    is_in_cell: bool,
    inline: Inline,
    event: &Event,
    behind: &[Event],
) -> Result<Frame, AllocError>
    ensures { IfOk result (λ frame. Opens (inline_shape whole.now.options.now whole.now.bytes.now (known_of whole.now) whole.now.tab is_in_cell inline (inside behind.now) (said_at whole.now.bytes.now event.now behind.now) (alt_from whole.now.bytes.now 0 (inside behind.now))) out.old.items out.new.items frame) }
{
    match inline {
        Inline::Ending => {
            out.push(b'\n')?;
            Ok(DONE)
        }
        Inline::Break => {
            out.extend_from_slice(b"<br />")?;
            Ok(DONE)
        }
        Inline::Emphasis => open_within_line(out, Element::Emphasis),
        Inline::Strong => open_within_line(out, Element::Strong),
        Inline::Struck => open_within_line(out, Element::Deleted),
        Inline::Code => code(alloc, out, whole.bytes, is_in_cell, inside(behind)),
        Inline::Html => html(alloc, out, whole, is_in_cell, inside(behind)),
        Inline::Autolink => autolink(out, whole, inside(behind)),
        Inline::Www => open_literal(alloc, out, whole, b"http://", event, behind),
        Inline::Email => open_literal(alloc, out, whole, b"mailto:", event, behind),
        Inline::Address => open_literal(alloc, out, whole, b"", event, behind),
        Inline::Link => open_link(alloc, out, whole, inside(behind)),
        Inline::Image => image(alloc, out, whole, inside(behind)),
        Inline::Call => open_call(alloc, out, whole.calls, inside(behind)),
        Inline::Check | Inline::Tail => Ok(DONE),
        Inline::Other => told(alloc, out, whole.bytes, event, behind),
    }
}

/// Whether a check of a task says that it is done, by the events in it.
fn is_checked(inner: &[Event]) -> bool
    ensures { result ≡ is_checked inner.now }
{
    inner
        .iter()
        .any(|event| enters(event, Name::GfmTaskListItemValueChecked))
}

/// Whether a span is a check of a task.
fn is_check(inline: Inline) -> bool
    ensures { result ≡ is_check inline }
{
    matches!(inline, Inline::Check)
}

/// The tag of the box of a task.
fn box_of(is_checked: bool) -> &'static [u8]
    ensures { result.now ≡ written true (task_box is_checked) }
{
    if is_checked {
        b"<input type=\"checkbox\" checked=\"\" disabled=\"\" />"
    } else {
        b"<input type=\"checkbox\" disabled=\"\" />"
    }
}

/// Writes the box of a task.
fn check(out: &mut Vec<u8>, is_checked: bool) -> Result<Frame, AllocError>
    ensures { IfOk result (λ frame. Opens (check is_checked) out.old.items out.new.items frame) }
{
    out.extend_from_slice(box_of(is_checked))?;
    Ok(DONE)
}

/// Begins a span directly in a paragraph, by whether that is in a cell of a table, what it is, the event that enters it and those behind that.
pub(crate) fn open_in_paragraph(
    alloc: Global,
    out: &mut Vec<u8>,
    whole: &Whole<'_>,
    is_in_cell: bool,
    inline: Inline,
    event: &Event,
    behind: &[Event],
) -> Result<Frame, AllocError>
    ensures { IfOk result (λ frame. Opens (paragraph_shape whole.now.options.now whole.now.bytes.now (known_of whole.now) whole.now.tab is_in_cell inline (inside behind.now) (said_at whole.now.bytes.now event.now behind.now) (alt_from whole.now.bytes.now 0 (inside behind.now))) out.old.items out.new.items frame) }
{
    if is_check(inline) {
        check(out, is_checked(inside(behind)))
    } else {
        open_inline(alloc, out, whole, is_in_cell, inline, event, behind)
    }
}
