//! Values: names, constants, options, messages, states, what owns them, and characters, as they are made, cloned and shown.

use crate::shown::{assert_holds, assert_shown};
use markdown::configuration::{CompileOptions, ParseOptions, TabSize};
use markdown::event::{Name, VOID_EVENTS};
use markdown::message::{Message, Place};
use markdown::owned::{Boxed, Items, StaticBytes};
use markdown::state::State;
use markdown::unist::{Point, Position};
use markdown::util::char::{
    Kind, after_index, before_index, classify, classify_opt, format, format_byte, format_byte_opt,
    format_opt, kind_after_index,
};
use markdown::util::constant::{
    CHARACTER_REFERENCE_DECIMAL_SIZE_MAX, CHARACTER_REFERENCE_HEXADECIMAL_SIZE_MAX,
    GFM_HTML_TAGFILTER_NAMES, GFM_HTML_TAGFILTER_SIZE_MAX, HTML_RAW_NAMES, HTML_RAW_SIZE_MAX,
};
use markdown::util::line_ending::LineEnding;
use mdtests_base::shown::{at, boxed, owned};
use std::alloc::{AllocError, Global};

/// Points, a range, a place and a tab size.
fn places_shown(alloc: Global) -> Result<String, AllocError> {
    let place = Place::Point(Point::new(12, 7, 345));
    let position = Position::new(1, 1, 0, 1, 3, 2);
    let point = at(1, 1, 0, 0).to_unist();
    let tab = TabSize::default();
    format!(in alloc; "{point:?}, {position:?}, {place}, {tab:?}")
}

/// The options that are there by default.
fn options_shown(alloc: Global) -> Result<String, AllocError> {
    format!(in alloc; "{:?}", ParseOptions::default())
}

const OPTIONS: &str =
    "ParseOptions { constructs: Constructs { attention: true, autolink: true, block_quote: true, \
    character_escape: true, character_reference: true, code_indented: true, code_fenced: true, \
    code_text: true, definition: true, frontmatter: false, gfm_autolink_literal: false, \
    gfm_footnote_definition: false, gfm_label_start_footnote: false, gfm_strikethrough: false, \
    gfm_table: false, gfm_task_list_item: false, hard_break_escape: true, hard_break_trailing: true, \
    heading_atx: true, heading_setext: true, html_flow: true, html_text: true, label_start_image: true, \
    label_start_link: true, label_end: true, list_item: true, math_flow: false, math_text: false, \
    mdx_esm: false, mdx_expression_flow: false, mdx_expression_text: false, mdx_jsx_flow: false, \
    mdx_jsx_text: false, thematic_break: true }, gfm_strikethrough_single_tilde: true, \
    math_text_single_dollar: true, tab_size: 4 }";

/// The label in a clone of options for HTML that have one.
fn cloned_label(alloc: Global) -> Result<String, AllocError> {
    let options = CompileOptions {
        gfm_footnote_label: Some(owned(alloc, "Fußnoten")?),
        ..CompileOptions::gfm()
    };
    let copy = options.try_clone(alloc)?;
    match &copy.gfm_footnote_label {
        Some(label) => String::from_str(alloc, label.as_str()),
        None => Ok(String::new(alloc)),
    }
}

/// The message `1:2: x (markdown:r)`.
fn message(alloc: Global) -> Result<Message, AllocError> {
    let place = Box::new(alloc, Place::Point(Point::new(1, 2, 1)))?;
    Ok(Message {
        place: Some(Boxed::from_box(place)),
        reason: owned(alloc, "x")?,
        rule_id: boxed(alloc, "r")?,
        source: boxed(alloc, "markdown")?,
    })
}

/// Whether the clone of an error state is equal to it; then the message that it gives, and the clone of that.
fn cloned_message(alloc: Global) -> Result<String, AllocError> {
    let error = State::Error(message(alloc)?);
    let is_same = error.try_clone(alloc)? == error;
    match error.to_result() {
        Ok(()) => Ok(String::new(alloc)),
        Err(message) => {
            let copy = message.try_clone(alloc)?;
            format!(in alloc; "{is_same}: {message}; {copy}")
        }
    }
}

/// The clone of a text, as it comes out.
fn cloned_text(alloc: Global) -> Result<String, AllocError> {
    Ok(owned(alloc, "a\u{e9}")?.try_clone(alloc)?.into_string())
}

/// Appends what was written, and ends the line.
fn push_line(text: &mut String, line: Result<String, AllocError>) -> Result<(), AllocError> {
    text.push_str(line?.as_str())?;
    text.push('\n')
}

/// The printed forms of characters and of bytes, of an exclamation mark that may be the end, and of the end, a line for each.
fn printed(alloc: Global, chars: &str, bytes: &[u8]) -> Result<String, AllocError> {
    let mut text = String::new(alloc);
    for char in chars.chars() {
        push_line(&mut text, format(alloc, char))?;
    }
    for byte in bytes {
        push_line(&mut text, format_byte(alloc, *byte))?;
    }
    push_line(&mut text, format_opt(alloc, Some('!')))?;
    push_line(&mut text, format_byte_opt(alloc, Some(b'!')))?;
    push_line(&mut text, format_opt(alloc, None))?;
    push_line(&mut text, format_byte_opt(alloc, None))?;
    Ok(text)
}

/// What is shown of values, made, cloned and printed.
#[test]
fn values_are_shown(rt: HostRuntime) {
    let alloc = rt.alloc();
    let points = "1:1 (0), 1:1-1:3 (0-2), 12:7, 4";
    assert_shown(&rt, places_shown(alloc), points);
    assert_shown(&rt, options_shown(alloc), OPTIONS);
    assert_shown(&rt, cloned_label(alloc), "Fußnoten");
    let message = "true: 1:2: x (markdown:r); 1:2: x (markdown:r)";
    assert_shown(&rt, cloned_message(alloc), message);
    assert_shown(&rt, cloned_text(alloc), "a\u{e9}");
    let printed = printed(alloc, "! `\u{10ffff}", b"! `\xe9");
    assert_shown(
        &rt,
        printed,
        "`!` (U+0021)\nU+0020\n`` ` `` (U+0060)\nU+10FFFF\n\
        `!` (U+0021)\nU+0020\n`` ` `` (U+0060)\nU+00E9\n\
        character `!` (U+0021)\nbyte `!` (U+0021)\nend of file\nend of file\n",
    );
}

/// Whether constants are of what they measure: two are how many digits the number of the greatest character has.
fn constants_measure(alloc: Global) -> Result<bool, AllocError> {
    let greatest = 0x10FFFFu32;
    let decimal = format!(in alloc; "{greatest}")?.len();
    let hexadecimal = format!(in alloc; "{greatest:x}")?.len();
    Ok(
        decimal == CHARACTER_REFERENCE_DECIMAL_SIZE_MAX
            && hexadecimal == CHARACTER_REFERENCE_HEXADECIMAL_SIZE_MAX,
    )
}

/// The length of the longest of these names.
fn longest(names: &[&str]) -> usize {
    names.iter().map(|name| name.len()).max().unwrap_or(0)
}

/// Whether the longest names are as long as constants say, and void events are void.
fn names_are_measured() -> bool {
    GFM_HTML_TAGFILTER_SIZE_MAX == 9
        && longest(&GFM_HTML_TAGFILTER_NAMES) == 9
        && HTML_RAW_SIZE_MAX == 8
        && longest(&HTML_RAW_NAMES) == 8
        && VOID_EVENTS[0].is_void()
        && !Name::Paragraph.is_void()
}

/// Whether items come out as they were put in, one by one.
fn items_come_out(alloc: Global) -> Result<bool, AllocError> {
    let mut items = Items::new(alloc);
    items.push(4)?;
    items.push(2)?;
    let same = Items::from_vec(Vec::from_array(alloc, [4, 2])?);
    Ok(items == same && items.into_vec().as_slice() == [4, 2].as_slice())
}

/// Whether a box gives back what it holds.
fn boxes_give_back(alloc: Global) -> Result<bool, AllocError> {
    let boxed = Boxed::from_box(Box::new(alloc, 7)?);
    Ok(*boxed.as_ref() == 7 && Box::into_inner(boxed.into_box()) == 7)
}

/// Whether line endings are read, and no other text.
fn line_endings_are_read() -> bool {
    LineEnding::parse("\r\n") == Ok(LineEnding::CarriageReturnLineFeed)
        && LineEnding::parse("\n") == Ok(LineEnding::default())
        && LineEnding::parse("aaa") == Err("Expected CR, LF, or CRLF")
        && LineEnding::CarriageReturn.as_str() == "\r"
}

/// Whether characters are decoded on both sides of an index.
fn characters_are_decoded() -> bool {
    let bytes = "é".as_bytes();
    before_index(bytes, 2) == Some('é')
        && before_index(bytes, 0).is_none()
        && after_index(bytes, 0) == Some('é')
        && after_index(bytes, 2).is_none()
}

/// Is true only for the ideographic comma.
fn is_comma(char: char) -> bool {
    char == '\u{3001}'
}

/// Holds of no character.
fn is_none(_char: char) -> bool {
    false
}

/// Whether characters have their classes: the ideographic comma is punctuation if it is said to be. The end is white space.
fn characters_have_classes() -> bool {
    classify(' ', &is_comma) == Kind::Whitespace
        && classify('a', &is_comma) == Kind::Other
        && classify('.', &is_comma) == Kind::Punctuation
        && classify('\u{3001}', &is_comma) == Kind::Punctuation
        && classify('\u{3001}', &is_none) == Kind::Other
        && kind_after_index("é".as_bytes(), 2, &is_comma) == Kind::Whitespace
        && kind_after_index(b"\x0b", 0, &is_comma) == Kind::Whitespace
        && classify_opt(None, &is_comma) == Kind::Whitespace
}

#[test]
fn values_are_as_made(rt: HostRuntime) {
    assert!(rt; names_are_measured());
    assert!(rt; line_endings_are_read());
    assert!(rt; characters_are_decoded());
    assert!(rt; characters_have_classes());
    assert!(rt; State::Ok.to_result().is_ok());
    assert!(rt; StaticBytes::new(b"*_~").as_slice() == b"*_~".as_slice());
    assert_holds(&rt, constants_measure(rt.alloc()), "sizes of numbers");
    assert_holds(&rt, items_come_out(rt.alloc()), "items come out");
    assert_holds(&rt, boxes_give_back(rt.alloc()), "boxes give back");
}
