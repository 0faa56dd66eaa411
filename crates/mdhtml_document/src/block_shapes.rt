//! Beginnings of spans among blocks.

ghost use Rattle.std.specs.Char.{is_ascii_whitespace};
ghost use Rattle.std.specs.List.{flat_map, prefix_len, take_while};
ghost use Rattle.std.specs.Option.{option_map_or};
ghost use Rattle.std.specs.Prelude.{◌≡◌, ◌==◌, ◌++◌, ◌∷◌, ◌≤◌, [], IfOk, MatchOption, None, OnOk, Some, codes, cond, false, length, not, slice_get};
ghost use Rattle.markdown_base.specs.declared.event.Name.TheVariants as name;
ghost use Rattle.mdhtml_document.specs.Frames.{Opens, closed_by, known_of, loose_of, start_of};
ghost use Rattle.mdhtml_document.specs.Written.{after};
ghost use Rattle.mdhtml_document.specs.Html.{block_shape, blocks, byte_of_first, code, container, heading, heading_shape, item_shape, items, language, length_of_first, line, ordered, raw, setext_rank, through, alone};
ghost use Rattle.mddocument_link_targets.specs.Spans.{first_in, inside};
ghost use Rattle.mddocument_link_targets.specs.Strings.{decoded};
ghost use Rattle.mdhtml_document.specs.declared.shapes.Mode.TheVariants as mode;
ghost use Rattle.mdhtml_document.specs.Values.{behind_first_line, code_lines, html_flow};
ghost use Rattle.mdhtml_markup.specs.Escapes.{escaped};
ghost use Rattle.mdhtml_markup.specs.Pieces.{Feed, Fresh, Language, Start, Void, attribute};
ghost use Rattle.mdhtml_markup.specs.declared.elements.Element.TheVariants as element;

use crate::blocks::{behind_first_line, code_lines, html_flow};
use crate::links::Whole;
use crate::names::Block;
use crate::shapes::{DONE, End, Frame, Mode, open_container, open_line, push_fresh, through};
use crate::spans::inside;
use markdown_base::configuration::CompileOptions;
use markdown_base::event::{Event, Name};
use mdblock_containers::list_shapes::ListShape;
use mddocument_link_targets::spans::enters;
use mddocument_link_targets::targets::decoded_inside;
use mdhtml_markup::elements::Element;
use mdhtml_markup::escape::{push_escaped, push_kept};
use mdhtml_markup::tag_filter::push_filtered;
use std::alloc::{AllocError, Global};

/// The length of the first span of a name among events.
fn length_of_first(events: &[Event], name: Name) -> usize
    ensures { result ≡ length_of_first name events.now }
{
    let mut rest = events;
    'events: while let [event, behind @ ..] = rest {
        if let Some(exit) = behind.first() {
            if enters(event, name) {
                return exit.point.index.saturating_sub(event.point.index);
            }
        }
        rest = behind;
    }
    0
}

/// The byte at an index, if there is one.
fn byte_at(bytes: &[u8], index: usize) -> Option<u8>
    ensures { result ≡ slice_get bytes.now index }
{
    bytes.get(index).copied()
}

/// The byte that the first span of a name begins with, if there is one.
fn byte_of_first(bytes: &[u8], name: Name, events: &[Event]) -> Option<u8>
    ensures { result ≡ byte_of_first bytes.now name events.now }
{
    for event in events {
        if enters(event, name) {
            return byte_at(bytes, event.point.index);
        }
    }
    None
}

/// Whether a byte is an equals sign.
fn is_equals_sign(byte: Option<u8>) -> bool
    ensures { result ≡ option_map_or (λ b. b == 61) byte false }
{
    match byte {
        None => false,
        Some(byte) => byte == b'=',
    }
}

/// The rank of a heading that is underlined, by the byte of its underline.
fn setext_rank(bytes: &[u8], events: &[Event]) -> usize
    ensures { result ≡ setext_rank bytes.now events.now }
{
    if is_equals_sign(byte_of_first(bytes, Name::HeadingSetextUnderlineSequence, events)) {
        1
    } else {
        2
    }
}

/// The element of a heading of a rank.
fn heading(rank: usize) -> Element
    ensures { result ≡ heading rank }
{
    match rank {
        1 => Element::Heading1,
        2 => Element::Heading2,
        3 => Element::Heading3,
        4 => Element::Heading4,
        5 => Element::Heading5,
        _ => Element::Heading6,
    }
}

/// What is written of the items of a list.
fn items(is_loose: bool) -> Mode
    ensures { result ≡ items is_loose }
{
    if is_loose {
        Mode::LooseItems
    } else {
        Mode::TightItems
    }
}

/// What is written of the blocks of an item.
fn blocks(is_tight: bool) -> Mode
    ensures { result ≡ blocks is_tight }
{
    if is_tight { Mode::Tight } else { Mode::Flow }
}

/// Adds the number that a list starts with.
fn push_number(alloc: Global, out: &mut Vec<u8>, number: u32) -> Result<(), AllocError>
    ensures { OnOk result (out.new.items ≡ out.old.items ++ attribute (Start number)) }
{
    let digits = format!(in alloc; "{number}")?;
    out.extend_from_slice(b" start=\"")?;
    out.extend_from_slice(digits.as_bytes())?;
    out.extend_from_slice(b"\"")
}

/// Adds the number that a list starts with, unless it is 1.
fn push_start(alloc: Global, out: &mut Vec<u8>, start: Option<u32>) -> Result<(), AllocError>
    ensures { OnOk result (out.new.items ≡ out.old.items ++ flat_map attribute (ordered start)) }
{
    match start {
        None => Ok(()),
        Some(number) => {
            if number == 1 {
                Ok(())
            } else {
                push_number(alloc, out, number)
            }
        }
    }
}

/// Begins a list with numbers.
fn open_numbers(
    alloc: Global,
    out: &mut Vec<u8>,
    is_loose: bool,
    start: Option<u32>,
) -> Result<Frame, AllocError>
    ensures { IfOk result (λ frame. Opens (container element.OrderedList (ordered start) (items is_loose)) out.old.items out.new.items frame) }
{
    push_fresh(out)?;
    out.extend_from_slice(b"<ol")?;
    push_start(alloc, out, start)?;
    out.extend_from_slice(b">\n")?;
    Ok(Frame {
        mode: items(is_loose),
        end: End::Lines(Element::OrderedList),
    })
}

/// Adds HTML of the document in lines of its own: as it is, or with its tags filtered; or as text.
fn push_raw(out: &mut Vec<u8>, options: &CompileOptions, html: &[u8]) -> Result<(), AllocError>
    ensures { OnOk result (out.new.items ≡ after out.old.items (raw options.now html.now ∷ [])) }
{
    if !options.allow_dangerous_html {
        push_escaped(out, html)
    } else if options.gfm_tagfilter {
        push_filtered(out, html)
    } else {
        push_kept(out, html)
    }
}

/// Writes a block of HTML.
fn html(
    alloc: Global,
    out: &mut Vec<u8>,
    whole: &Whole<'_>,
    inner: &[Event],
) -> Result<Frame, AllocError>
    ensures { IfOk result (λ frame. Opens (alone (Fresh ∷ raw whole.now.options.now (html_flow whole.now.bytes.now whole.now.tab inner.now) ∷ Fresh ∷ [])) out.old.items out.new.items frame) }
{
    let html = html_flow(alloc, whole.bytes, whole.tab, inner)?;
    push_fresh(out)?;
    push_raw(out, whole.options, html.as_slice())?;
    push_fresh(out)?;
    Ok(DONE)
}

/// How many bytes of a text come before its first white space.
fn word_len(text: &[u8]) -> usize
    ensures value { result ≡ prefix_len (λ b. not (is_ascii_whitespace b)) text.now }
    ensures within { result ≤ length text.now }
{
    text.iter()
        .take_while(|byte| !byte.is_ascii_whitespace())
        .count()
}

/// The bytes of a text that come before its first white space.
fn first_word(text: &[u8]) -> &[u8]
    ensures { result.now ≡ take_while (λ b. not (is_ascii_whitespace b)) text.now }
{
    &text[..word_len(text)]
}

/// The events in the first span of a name, if there is one.
pub(crate) fn first_in(events: &[Event], name: Name) -> Option<&[Event]>
    ensures { MatchOption result (first_in name events.now ≡ None) (λ found. first_in name events.now ≡ Some found.now) }
{
    for (i, event) in events.iter().enumerate() {
        if enters(event, name) {
            return Some(inside(&events[i + 1..]));
        }
    }
    None
}

/// Adds the language of a block of fenced code, by the events in its info string.
fn push_class(
    alloc: Global,
    out: &mut Vec<u8>,
    bytes: &[u8],
    info: &[Event],
) -> Result<(), AllocError>
    ensures { OnOk result (out.new.items ≡ out.old.items ++ attribute (Language (take_while (λ b. not (is_ascii_whitespace b)) (decoded bytes.now info.now)))) }
{
    let info = decoded_inside(alloc, bytes, info)?;
    out.extend_from_slice(b" class=\"language-")?;
    push_escaped(out, first_word(info.as_slice()))?;
    out.extend_from_slice(b"\"")?;
    Ok(())
}

/// Adds the language of a block of fenced code, if it is told, by the events in it.
fn push_language(
    alloc: Global,
    out: &mut Vec<u8>,
    bytes: &[u8],
    inner: &[Event],
) -> Result<(), AllocError>
    ensures { OnOk result (out.new.items ≡ out.old.items ++ flat_map attribute (language bytes.now (first_in name.CodeFencedFenceInfo inner.now))) }
{
    match first_in(inner, Name::CodeFencedFenceInfo) {
        None => Ok(()),
        Some(info) => push_class(alloc, out, bytes, info),
    }
}

/// Writes the lines of a block of code, and what ends it.
fn push_code_lines(
    alloc: Global,
    out: &mut Vec<u8>,
    whole: &Whole<'_>,
    inner: &[Event],
) -> Result<(), AllocError>
    ensures { OnOk result (out.new.items ≡ ((out.old.items ++ codes ">") ++ escaped (code_lines whole.now.bytes.now whole.now.tab inner.now)) ++ codes "</code></pre>\n") }
{
    let text = code_lines(alloc, whole.bytes, whole.tab, inner)?;
    out.extend_from_slice(b">")?;
    push_escaped(out, text.as_slice())?;
    out.extend_from_slice(b"</code></pre>\n")
}

/// Writes a block of fenced code.
fn fenced(
    alloc: Global,
    out: &mut Vec<u8>,
    whole: &Whole<'_>,
    inner: &[Event],
) -> Result<Frame, AllocError>
    ensures { IfOk result (λ frame. Opens (code (language whole.now.bytes.now (first_in name.CodeFencedFenceInfo inner.now)) (code_lines whole.now.bytes.now whole.now.tab (behind_first_line inner.now))) out.old.items out.new.items frame) }
{
    push_fresh(out)?;
    out.extend_from_slice(b"<pre><code")?;
    push_language(alloc, out, whole.bytes, inner)?;
    push_code_lines(alloc, out, whole, behind_first_line(inner))?;
    Ok(DONE)
}

/// Writes a block of indented code.
fn indented(
    alloc: Global,
    out: &mut Vec<u8>,
    whole: &Whole<'_>,
    inner: &[Event],
) -> Result<Frame, AllocError>
    ensures { IfOk result (λ frame. Opens (code [] (code_lines whole.now.bytes.now whole.now.tab inner.now)) out.old.items out.new.items frame) }
{
    push_fresh(out)?;
    out.extend_from_slice(b"<pre><code")?;
    push_code_lines(alloc, out, whole, inner)?;
    Ok(DONE)
}

/// Writes a thematic break.
fn rule(out: &mut Vec<u8>) -> Result<Frame, AllocError>
    ensures { IfOk result (λ frame. Opens (alone (Fresh ∷ Void element.ThematicBreak [] ∷ Feed ∷ [])) out.old.items out.new.items frame) }
{
    push_fresh(out)?;
    out.extend_from_slice(b"<hr />\n")?;
    Ok(DONE)
}

/// Begins a paragraph.
fn paragraph(out: &mut Vec<u8>, is_tight: bool) -> Result<Frame, AllocError>
    ensures { IfOk result (λ frame. Opens (cond is_tight (through mode.Paragraph) (line element.Paragraph mode.Paragraph)) out.old.items out.new.items frame) }
{
    if is_tight {
        Ok(through(Mode::Paragraph))
    } else {
        open_line(out, Element::Paragraph, Mode::Paragraph)
    }
}

/// Whether a list is loose.
fn is_loose(list: Option<ListShape>) -> bool
    ensures { result ≡ loose_of list }
{
    match list {
        None => false,
        Some(list) => list.is_loose,
    }
}

/// The number that a list starts with.
fn start_of(list: Option<ListShape>) -> Option<u32>
    ensures { result ≡ start_of list }
{
    list?.start
}

/// Begins a span among blocks, by what it is, the events behind its enter, and what is said of it if it is a list.
pub(crate) fn open_block(
    alloc: Global,
    out: &mut Vec<u8>,
    whole: &Whole<'_>,
    is_tight: bool,
    block: Block,
    list: Option<ListShape>,
    behind: &[Event],
) -> Result<Frame, AllocError>
    ensures { IfOk result (λ frame. Opens (block_shape whole.now.options.now whole.now.bytes.now (known_of whole.now) whole.now.tab is_tight block (inside behind.now) (loose_of list) (start_of list)) out.old.items out.new.items frame) }
{
    match block {
        Block::Paragraph => paragraph(out, is_tight),
        Block::HeadingAtx => {
            let rank = length_of_first(inside(behind), Name::HeadingAtxSequence);
            open_line(out, heading(rank), Mode::Heading)
        }
        Block::HeadingSetext => {
            let rank = setext_rank(whole.bytes, inside(behind));
            open_line(out, heading(rank), Mode::Heading)
        }
        Block::HeadingText => Ok(DONE),
        Block::Quote => open_container(out, Element::BlockQuote, Mode::Flow),
        Block::Bullets => open_container(out, Element::UnorderedList, items(is_loose(list))),
        Block::Numbers => open_numbers(alloc, out, is_loose(list), start_of(list)),
        Block::Item => Ok(through(blocks(is_tight))),
        Block::Fenced => fenced(alloc, out, whole, inside(behind)),
        Block::Indented => indented(alloc, out, whole, inside(behind)),
        Block::Html => html(alloc, out, whole, inside(behind)),
        Block::Rule => rule(out),
        Block::Table => open_container(out, Element::Table, Mode::Table),
        Block::TableHead | Block::TableBody | Block::TableRow | Block::TableCell | Block::Other =>
            Ok(DONE),
    }
}

/// Begins a span directly in a list, by what it is.
pub(crate) fn open_item(
    out: &mut Vec<u8>,
    is_tight: bool,
    block: Block,
) -> Result<Frame, AllocError>
    ensures { IfOk result (λ frame. Opens (item_shape is_tight block) out.old.items out.new.items frame) }
{
    match block {
        Block::Item => open_line(out, Element::ListItem, blocks(is_tight)),
        _ => Ok(DONE),
    }
}

/// The frame of a span directly in a heading, by what it is: nothing is written of any but the text.
pub(crate) fn open_in_heading(block: Block) -> Frame
    ensures mode { result.mode ≡ (heading_shape block).inside }
    ensures closed { closed_by result.end ≡ (heading_shape block).closed }
    ensures opened { (heading_shape block).opened ≡ [] }
{
    match block {
        Block::HeadingText => through(Mode::Text),
        _ => DONE,
    }
}
