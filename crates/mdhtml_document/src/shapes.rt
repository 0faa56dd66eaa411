//! Shapes of spans: the tags that they begin with, and what ends them.

ghost use Rattle.std.specs.Prelude.{◌≡◌, ◌++◌, [], IfOk, OnOk, true};
ghost use Rattle.mdhtml_document.specs.Frames.{Opens, closed_by};
ghost use Rattle.mdhtml_document.specs.Written.{after};
ghost use Rattle.mdhtml_document.specs.Html.{container, line, through, within_line};
ghost use Rattle.mdhtml_markup.specs.Pieces.{Fresh, is_fresh, written};
ghost use Rattle.mdhtml_markup.specs.SafeHtml.{close_tag, open_tag};

use markdown_base::event::Event;
use mdhtml_markup::elements::Element;
use std::alloc::AllocError;

/// What is written of the spans in a span.
#[derive(Clone, Copy, Debug, PartialEq, Eq)]
pub enum Mode {
    /// Blocks.
    Flow,
    /// Blocks in an item of a tight list: paragraphs are their texts alone.
    Tight,
    /// The items of a loose list.
    LooseItems,
    /// The items of a tight list.
    TightItems,
    /// The text of a heading, or of a cell of a table.
    Heading,
    /// The head and the body of a table.
    Table,
    /// The rows of the head of a table, or of its body.
    Rows(bool),
    /// The cells of a row of the head of a table, or of its body.
    Cells(bool),
    /// Inline text that is a paragraph's.
    Paragraph,
    /// Inline text.
    Text,
    /// Nothing.
    Nothing,
}

/// What ends a span.
#[derive(Clone, Copy, Debug, PartialEq, Eq)]
pub enum End {
    /// Nothing.
    Nothing,
    /// A close tag within a line.
    WithinLine(Element),
    /// A close tag at the end of a line.
    Line(Element),
    /// A close tag on a line of its own.
    Lines(Element),
}

/// A span that is open: what is written of the spans in it, and what ends it.
#[derive(Clone, Copy, Debug, PartialEq, Eq)]
pub struct Frame {
    /// What is written of the spans in it.
    pub mode: Mode,
    /// What ends it.
    pub end: End,
}

/// A span that is open, with the columns that the spans in it stand in from here on.
#[derive(Clone, Copy)]
pub struct Level<'a> {
    /// What is written of the spans in it.
    pub mode: Mode,
    /// The events of the delimiter row of the table around it from its column on; none outside of tables.
    pub columns: &'a [Event],
    /// What ends it.
    pub end: End,
}

/// The frame of a span of which nothing more is written.
pub(crate) const DONE: Frame = Frame {
    mode: Mode::Nothing,
    end: End::Nothing,
};

/// The frame of a span of which only what is in it is written.
pub(crate) fn through(mode: Mode) -> Frame
    ensures mode { result.mode ≡ mode }
    ensures closed { closed_by result.end ≡ [] }
{
    Frame {
        mode,
        end: End::Nothing,
    }
}

/// Whether a line has just begun behind bytes.
fn is_fresh(out: &[u8]) -> bool
    ensures { result ≡ is_fresh true out.now }
{
    match out.last() {
        None => true,
        Some(last) => *last == b'\n',
    }
}

/// Begins a line, unless one has begun.
pub(crate) fn push_fresh(out: &mut Vec<u8>) -> Result<(), AllocError>
    ensures { OnOk result (out.new.items ≡ out.old.items ++ written (is_fresh true out.old.items) Fresh) }
{
    if is_fresh(out.as_slice()) {
        Ok(())
    } else {
        Ok(out.push(b'\n')?)
    }
}

/// The open tag of an element without attributes.
pub(crate) fn open_tag(element: Element) -> &'static [u8]
    ensures { result.now ≡ open_tag element [] }
{
    match element {
        Element::Anchor => b"<a>",
        Element::BlockQuote => b"<blockquote>",
        Element::Break => b"<br>",
        Element::Checkbox => b"<input>",
        Element::Code => b"<code>",
        Element::DataCell => b"<td>",
        Element::Deleted => b"<del>",
        Element::Emphasis => b"<em>",
        Element::HeaderCell => b"<th>",
        Element::Heading1 => b"<h1>",
        Element::Heading2 => b"<h2>",
        Element::Heading3 => b"<h3>",
        Element::Heading4 => b"<h4>",
        Element::Heading5 => b"<h5>",
        Element::Heading6 => b"<h6>",
        Element::Image => b"<img>",
        Element::ListItem => b"<li>",
        Element::OrderedList => b"<ol>",
        Element::Paragraph => b"<p>",
        Element::Preformatted => b"<pre>",
        Element::Section => b"<section>",
        Element::Strong => b"<strong>",
        Element::Superscript => b"<sup>",
        Element::Table => b"<table>",
        Element::TableBody => b"<tbody>",
        Element::TableHead => b"<thead>",
        Element::TableRow => b"<tr>",
        Element::ThematicBreak => b"<hr>",
        Element::UnorderedList => b"<ul>",
    }
}

/// The close tag of an element.
pub(crate) fn close_tag(element: Element) -> &'static [u8]
    ensures { result.now ≡ close_tag element }
{
    match element {
        Element::Anchor => b"</a>",
        Element::BlockQuote => b"</blockquote>",
        Element::Break => b"</br>",
        Element::Checkbox => b"</input>",
        Element::Code => b"</code>",
        Element::DataCell => b"</td>",
        Element::Deleted => b"</del>",
        Element::Emphasis => b"</em>",
        Element::HeaderCell => b"</th>",
        Element::Heading1 => b"</h1>",
        Element::Heading2 => b"</h2>",
        Element::Heading3 => b"</h3>",
        Element::Heading4 => b"</h4>",
        Element::Heading5 => b"</h5>",
        Element::Heading6 => b"</h6>",
        Element::Image => b"</img>",
        Element::ListItem => b"</li>",
        Element::OrderedList => b"</ol>",
        Element::Paragraph => b"</p>",
        Element::Preformatted => b"</pre>",
        Element::Section => b"</section>",
        Element::Strong => b"</strong>",
        Element::Superscript => b"</sup>",
        Element::Table => b"</table>",
        Element::TableBody => b"</tbody>",
        Element::TableHead => b"</thead>",
        Element::TableRow => b"</tr>",
        Element::ThematicBreak => b"</hr>",
        Element::UnorderedList => b"</ul>",
    }
}

/// Begins an element within a line.
pub(crate) fn open_within_line(out: &mut Vec<u8>, element: Element) -> Result<Frame, AllocError>
    ensures { IfOk result (λ frame. Opens (within_line element []) out.old.items out.new.items frame) }
{
    out.extend_from_slice(open_tag(element))?;
    Ok(Frame {
        mode: Mode::Text,
        end: End::WithinLine(element),
    })
}

/// Begins an element that is a line.
pub(crate) fn open_line(
    out: &mut Vec<u8>,
    element: Element,
    mode: Mode,
) -> Result<Frame, AllocError>
    ensures { IfOk result (λ frame. Opens (line element mode) out.old.items out.new.items frame) }
{
    push_fresh(out)?;
    out.extend_from_slice(open_tag(element))?;
    Ok(Frame {
        mode,
        end: End::Line(element),
    })
}

/// Begins an element of lines of its own.
pub(crate) fn open_container(
    out: &mut Vec<u8>,
    element: Element,
    mode: Mode,
) -> Result<Frame, AllocError>
    ensures { IfOk result (λ frame. Opens (container element [] mode) out.old.items out.new.items frame) }
{
    push_fresh(out)?;
    out.extend_from_slice(open_tag(element))?;
    out.push(b'\n')?;
    Ok(Frame {
        mode,
        end: End::Lines(element),
    })
}

/// Writes what ends a span.
pub(crate) fn push_end(out: &mut Vec<u8>, end: End) -> Result<(), AllocError>
    ensures { OnOk result (out.new.items ≡ after out.old.items (closed_by end)) }
{
    match end {
        End::Nothing => Ok(()),
        End::WithinLine(element) => out.extend_from_slice(close_tag(element)),
        End::Line(element) => {
            out.extend_from_slice(close_tag(element))?;
            Ok(out.push(b'\n')?)
        }
        End::Lines(element) => {
            push_fresh(out)?;
            out.extend_from_slice(close_tag(element))?;
            Ok(out.push(b'\n')?)
        }
    }
}
