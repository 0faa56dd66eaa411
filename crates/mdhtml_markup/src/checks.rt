//! A test of HTML: whether it is safe. It reads the bytes once, with a stack of the tags that are open.

ghost use Rattle.std.specs.Char.{is_ascii_alphanumeric, is_ascii_digit, is_ascii_whitespace};
ghost use Rattle.std.specs.List.{list_all, prefix_len};
ghost use Rattle.std.specs.Prelude.{◌≡◌, ◌↔◌, ◌∷◌, ◌+◌, ◌<◌, ◌≤◌, ◌==◌, [], IfOk, MatchOption, None, Some, drop, is_some, length, not, option_map, reverse, slice_index, true};
ghost use Rattle.mdhtml_markup.specs.SafeChecks.{behind_attribute, behind_attributes, behind_close, behind_element, behind_mark, behind_name, behind_value, elements, front_of, is_safe_html, named, tag_end};
ghost use Rattle.mdhtml_markup.specs.SafeHtml.{IsSafeHtml, attributes_of, behind, entity_at, holds_blocks, holds_cells, holds_items, holds_parts, holds_rows, holds_text, is_address_byte, is_alignment, is_footnote_class, is_id, is_id_byte, is_language, is_mark, is_safe_address, is_said, is_text, is_text_byte, is_value, must_be_given, stands_in, undone};

use crate::addresses::{Place, is_allowed, is_plain};
use crate::elements::{Alignment, AttributeName, Element};
use std::alloc::{AllocError, Global};

/// What is behind a front, if bytes begin with that.
fn behind<'a>(bytes: &'a [u8], front: &[u8]) -> Option<&'a [u8]>
    ensures { MatchOption result (behind front.now bytes.now ≡ None) (λ rest. behind front.now bytes.now ≡ Some rest.now) }
{
    bytes.strip_prefix(front)
}

/// Whether bytes begin with a front.
fn begins(bytes: &[u8], front: &[u8]) -> bool
    ensures { result ≡ is_some (behind front.now bytes.now) }
{
    behind(bytes, front).is_some()
}

/// The byte that an entity stands for, whose `&` is in front of these bytes, and how many of them it has.
fn entity_at(bytes: &[u8]) -> Option<(u8, usize)>
    ensures { result ≡ option_map (λ e. (e.1, length e.0)) (entity_at bytes.now) }
{
    if begins(bytes, b"amp;") {
        Some((b'&', 4))
    } else if begins(bytes, b"#x27;") {
        Some((b'\'', 5))
    } else if begins(bytes, b"lt;") {
        Some((b'<', 3))
    } else if begins(bytes, b"gt;") {
        Some((b'>', 3))
    } else if begins(bytes, b"quot;") {
        Some((b'"', 5))
    } else if begins(bytes, b"#x1B;") {
        Some((27, 5))
    } else {
        None
    }
}

/// Whether a byte is a mark, which text does not have.
fn is_mark(byte: u8) -> bool
    ensures { result ≡ is_mark byte }
{
    matches!(byte, b'<' | b'>' | b'&' | b'"' | 0 | 27)
}

/// Whether a byte is text, in front of others.
fn is_text_byte(byte: u8, behind: &[u8]) -> bool
    ensures { result ≡ is_text_byte byte behind.now }
{
    if byte == b'&' {
        entity_at(behind).is_some()
    } else {
        !is_mark(byte)
    }
}

/// Whether bytes are text.
fn is_text(bytes: &[u8]) -> bool
    ensures { result ≡ is_text bytes.now }
{
    let mut at = 0;
    while at < bytes.len() {
        if !is_text_byte(bytes[at], &bytes[at + 1..]) {
            return false;
        }
        at += 1;
    }
    true
}

/// The first byte that a browser reads of a text, and how many bytes it is written with.
fn read_first(bytes: &[u8]) -> (u8, usize)
    requires { 0 < length bytes.now }
    ensures inside { result.1 ≤ length bytes.now }
    ensures some { 0 < result.1 }
    ensures read { undone bytes.now ≡ result.0 ∷ undone (drop result.1 bytes.now) }
{
    if bytes[0] != b'&' {
        return (bytes[0], 1);
    }
    match entity_at(&bytes[1..]) {
        None => (b'&', 1),
        Some((byte, size)) => (byte, size + 1),
    }
}

/// What a browser reads of a text.
fn undone(alloc: Global, bytes: &[u8]) -> Result<Vec<u8>, AllocError>
    ensures { IfOk result (λ out. out.items ≡ undone bytes.now) }
{
    let mut out = Vec::new(alloc);
    let mut at = 0;
    while at < bytes.len() {
        let (byte, size) = read_first(&bytes[at..]);
        out.push(byte)?;
        at += size;
    }
    Ok(out)
}

/// Whether a byte may stand in an address.
fn is_address_byte(byte: u8) -> bool
    ensures { result ≡ is_address_byte byte }
{
    is_plain(byte) || byte == b'&' || byte == b'\''
}

/// Whether all bytes may stand in an address.
fn are_address_bytes(bytes: &[u8]) -> bool
    ensures { result ≡ list_all is_address_byte bytes.now }
{
    let mut at = 0;
    while at < bytes.len() {
        if !is_address_byte(bytes[at]) {
            return false;
        }
        at += 1;
    }
    true
}

/// Whether no byte is white space.
fn is_solid(bytes: &[u8]) -> bool
    ensures { result ≡ list_all (λ b. not (is_ascii_whitespace b)) bytes.now }
{
    let mut at = 0;
    while at < bytes.len() {
        if bytes[at].is_ascii_whitespace() {
            return false;
        }
        at += 1;
    }
    true
}

/// Whether all bytes are digits.
fn are_digits(bytes: &[u8]) -> bool
    ensures { result ≡ list_all is_ascii_digit bytes.now }
{
    let mut at = 0;
    while at < bytes.len() {
        if !bytes[at].is_ascii_digit() {
            return false;
        }
        at += 1;
    }
    true
}

/// Whether a value is an address that is safe at a place.
fn is_safe_address(alloc: Global, place: Place, value: &[u8]) -> Result<bool, AllocError>
    ensures { IfOk result (λ b. b ≡ is_safe_address place value.now) }
{
    if !is_text(value) {
        return Ok(false);
    }
    let url = undone(alloc, value)?;
    Ok(are_address_bytes(url.as_slice()) && is_allowed(place, url.as_slice()))
}

/// Whether a value is one class that names a language.
fn is_language(value: &[u8]) -> bool
    ensures { result ≡ is_language value.now }
{
    match behind(value, b"language-") {
        None => false,
        Some(word) => is_text(word) && is_solid(word),
    }
}

/// Whether a value is the class of a part of footnotes.
fn is_footnote_class(value: &[u8]) -> bool
    ensures { result ≡ is_footnote_class value.now }
{
    value == b"footnotes".as_slice()
        || value == b"footnote-ref".as_slice()
        || value == b"footnote-backref".as_slice()
}

/// Whether all bytes may stand in an id behind its prefix.
fn are_id_bytes(bytes: &[u8]) -> bool
    ensures { result ≡ list_all is_id_byte bytes.now }
{
    let mut at = 0;
    while at < bytes.len() {
        if !(bytes[at].is_ascii_alphanumeric() || bytes[at] == b'-') {
            return false;
        }
        at += 1;
    }
    true
}

/// Whether a value is an id.
fn is_id(value: &[u8]) -> bool
    ensures { result ≡ is_id value.now }
{
    match behind(value, b"user-content-") {
        None => false,
        Some(rest) => are_id_bytes(rest),
    }
}

/// Whether an element must have an attribute that is one of its names.
fn must_be_given(name: AttributeName) -> bool
    ensures { result ≡ must_be_given name }
{
    matches!(name, AttributeName::Disabled | AttributeName::InputType)
}

/// Whether a value says where the text of a cell stands.
fn is_alignment(value: &[u8]) -> bool
    ensures { result ≡ is_alignment value.now }
{
    value == Alignment::Left.word()
        || value == Alignment::Center.word()
        || value == Alignment::Right.word()
}

/// Whether an attribute may have a value.
fn is_value(alloc: Global, name: AttributeName, value: &[u8]) -> Result<bool, AllocError>
    ensures { IfOk result (λ b. b ≡ is_value name value.now) }
{
    match name {
        AttributeName::Align => Ok(is_alignment(value)),
        AttributeName::Alt => Ok(is_text(value)),
        AttributeName::Checked
        | AttributeName::Disabled
        | AttributeName::FootnoteBack
        | AttributeName::FootnoteCall
        | AttributeName::Footnotes => Ok(value == b"".as_slice()),
        AttributeName::Class => Ok(is_language(value)),
        AttributeName::FootnoteClass => Ok(is_footnote_class(value)),
        AttributeName::Href => is_safe_address(alloc, Place::Href, value),
        AttributeName::Id => Ok(is_id(value)),
        AttributeName::InputType => Ok(value == b"checkbox".as_slice()),
        AttributeName::Label => Ok(is_text(value)),
        AttributeName::Src => is_safe_address(alloc, Place::Src, value),
        AttributeName::Start => Ok(are_digits(value)),
        AttributeName::Title => Ok(is_text(value)),
    }
}

/// How many bytes there are before the first quotation mark.
fn value_size(bytes: &[u8]) -> usize
    ensures inside { result ≤ length bytes.now }
    ensures size { result ≡ prefix_len (λ b. not (b == 34)) bytes.now }
{
    let mut at = 0;
    while at < bytes.len() && bytes[at] != b'"' {
        at += 1;
    }
    at
}

/// What is behind a value of an attribute.
fn behind_value<'a>(
    alloc: Global,
    name: AttributeName,
    bytes: &'a [u8],
) -> Result<Option<&'a [u8]>, AllocError>
    ensures { IfOk result (λ next. MatchOption next (behind_value name bytes.now ≡ None) (λ rest. behind_value name bytes.now ≡ Some rest.now)) }
{
    let size = value_size(bytes);
    if is_value(alloc, name, &bytes[..size])? {
        Ok(behind(&bytes[size..], b"\""))
    } else {
        Ok(None)
    }
}

/// What is in front of an attribute's value.
fn front_of(name: AttributeName) -> &'static [u8]
    ensures { result.now ≡ front_of name }
{
    match name {
        AttributeName::Align => b" align=\"",
        AttributeName::Alt => b" alt=\"",
        AttributeName::Checked => b" checked=\"",
        AttributeName::Class => b" class=\"",
        AttributeName::Disabled => b" disabled=\"",
        AttributeName::FootnoteBack => b" data-footnote-backref=\"",
        AttributeName::FootnoteCall => b" data-footnote-ref=\"",
        AttributeName::FootnoteClass => b" class=\"",
        AttributeName::Footnotes => b" data-footnotes=\"",
        AttributeName::Href => b" href=\"",
        AttributeName::Id => b" id=\"",
        AttributeName::InputType => b" type=\"",
        AttributeName::Label => b" aria-label=\"",
        AttributeName::Src => b" src=\"",
        AttributeName::Start => b" start=\"",
        AttributeName::Title => b" title=\"",
    }
}

/// What is behind an attribute of a name, if there is one or need be none.
fn behind_attribute<'a>(
    alloc: Global,
    name: AttributeName,
    bytes: &'a [u8],
) -> Result<Option<&'a [u8]>, AllocError>
    ensures { IfOk result (λ next. MatchOption next (behind_attribute name bytes.now ≡ None) (λ rest. behind_attribute name bytes.now ≡ Some rest.now)) }
{
    match behind(bytes, front_of(name)) {
        None => {
            if must_be_given(name) {
                Ok(None)
            } else {
                Ok(Some(bytes))
            }
        }
        Some(value) => behind_value(alloc, name, value),
    }
}

/// The attributes that an element may have, in order.
fn attributes_of(element: Element) -> &'static [AttributeName]
    ensures { result.now ≡ attributes_of element }
{
    match element {
        Element::Anchor => &[
            AttributeName::Href,
            AttributeName::Title,
            AttributeName::Id,
            AttributeName::FootnoteClass,
            AttributeName::FootnoteCall,
            AttributeName::FootnoteBack,
            AttributeName::Label,
        ],
        Element::Checkbox => &[
            AttributeName::InputType,
            AttributeName::Checked,
            AttributeName::Disabled,
        ],
        Element::Code => &[AttributeName::Class],
        Element::DataCell | Element::HeaderCell => &[AttributeName::Align],
        Element::Image => &[AttributeName::Src, AttributeName::Alt, AttributeName::Title],
        Element::ListItem => &[AttributeName::Id],
        Element::OrderedList => &[AttributeName::Start],
        Element::Section => &[AttributeName::FootnoteClass, AttributeName::Footnotes],
        Element::Superscript => &[AttributeName::FootnoteClass],
        _ => &[],
    }
}

/// What is behind attributes of these names, in this order.
fn behind_attributes<'a>(
    alloc: Global,
    names: &[AttributeName],
    bytes: &'a [u8],
) -> Result<Option<&'a [u8]>, AllocError>
    ensures { IfOk result (λ next. MatchOption next (behind_attributes names.now bytes.now ≡ None) (λ rest. behind_attributes names.now bytes.now ≡ Some rest.now)) }
{
    let mut left = names;
    let mut rest = bytes;
    'names: while let [name, others @ ..] = left {
        match behind_attribute(alloc, *name, rest)? {
            None => return Ok(None),
            Some(next) => rest = next,
        }
        left = others;
    }
    Ok(Some(rest))
}

/// How a tag of an element ends.
fn tag_end(element: Element) -> &'static [u8]
    ensures { result.now ≡ tag_end element }
{
    if element.is_void() { b" />" } else { b">" }
}

/// What is behind a tag of an element, from behind its name on.
fn behind_name<'a>(
    alloc: Global,
    element: Element,
    bytes: &'a [u8],
) -> Result<Option<&'a [u8]>, AllocError>
    ensures { IfOk result (λ next. MatchOption next (behind_name element bytes.now ≡ None) (λ rest. behind_name element bytes.now ≡ Some rest.now)) }
{
    match behind_attributes(alloc, attributes_of(element), bytes)? {
        None => Ok(None),
        Some(rest) => Ok(behind(rest, tag_end(element))),
    }
}

/// The element of a name.
fn element_of(name: &[u8]) -> Option<Element>
    ensures { result ≡ named elements name.now }
{
    if name == b"a".as_slice() {
        return Some(Element::Anchor);
    }
    if name == b"blockquote".as_slice() {
        return Some(Element::BlockQuote);
    }
    if name == b"br".as_slice() {
        return Some(Element::Break);
    }
    if name == b"input".as_slice() {
        return Some(Element::Checkbox);
    }
    if name == b"code".as_slice() {
        return Some(Element::Code);
    }
    if name == b"td".as_slice() {
        return Some(Element::DataCell);
    }
    if name == b"del".as_slice() {
        return Some(Element::Deleted);
    }
    if name == b"em".as_slice() {
        return Some(Element::Emphasis);
    }
    if name == b"th".as_slice() {
        return Some(Element::HeaderCell);
    }
    if name == b"h1".as_slice() {
        return Some(Element::Heading1);
    }
    if name == b"h2".as_slice() {
        return Some(Element::Heading2);
    }
    if name == b"h3".as_slice() {
        return Some(Element::Heading3);
    }
    if name == b"h4".as_slice() {
        return Some(Element::Heading4);
    }
    if name == b"h5".as_slice() {
        return Some(Element::Heading5);
    }
    if name == b"h6".as_slice() {
        return Some(Element::Heading6);
    }
    if name == b"img".as_slice() {
        return Some(Element::Image);
    }
    if name == b"li".as_slice() {
        return Some(Element::ListItem);
    }
    if name == b"ol".as_slice() {
        return Some(Element::OrderedList);
    }
    if name == b"p".as_slice() {
        return Some(Element::Paragraph);
    }
    if name == b"pre".as_slice() {
        return Some(Element::Preformatted);
    }
    if name == b"strong".as_slice() {
        return Some(Element::Strong);
    }
    if name == b"table".as_slice() {
        return Some(Element::Table);
    }
    if name == b"tbody".as_slice() {
        return Some(Element::TableBody);
    }
    if name == b"thead".as_slice() {
        return Some(Element::TableHead);
    }
    if name == b"tr".as_slice() {
        return Some(Element::TableRow);
    }
    if name == b"hr".as_slice() {
        return Some(Element::ThematicBreak);
    }
    if name == b"section".as_slice() {
        return Some(Element::Section);
    }
    if name == b"sup".as_slice() {
        return Some(Element::Superscript);
    }
    if name == b"ul".as_slice() {
        return Some(Element::UnorderedList);
    }
    None
}

/// Whether items may stand behind these open tags: directly in a list.
fn holds_items(tags: &Vec<Element>) -> bool
    ensures { result ≡ holds_items (reverse tags.now.items) }
{
    matches!(
        tags.last(),
        Some(Element::OrderedList | Element::UnorderedList)
    )
}

/// Whether blocks may stand behind these open tags: behind none, or directly in a quotation, an item or the section of footnotes.
fn holds_blocks(tags: &Vec<Element>) -> bool
    ensures { result ≡ holds_blocks (reverse tags.now.items) }
{
    matches!(
        tags.last(),
        None | Some(Element::BlockQuote | Element::ListItem | Element::Section)
    )
}

/// Whether parts of a table may stand behind these open tags: directly in a table.
fn holds_parts(tags: &Vec<Element>) -> bool
    ensures { result ≡ holds_parts (reverse tags.now.items) }
{
    matches!(tags.last(), Some(Element::Table))
}

/// Whether rows may stand behind these open tags: directly in the head or the body of a table.
fn holds_rows(tags: &Vec<Element>) -> bool
    ensures { result ≡ holds_rows (reverse tags.now.items) }
{
    matches!(tags.last(), Some(Element::TableBody | Element::TableHead))
}

/// Whether cells may stand behind these open tags: directly in a row.
fn holds_cells(tags: &Vec<Element>) -> bool
    ensures { result ≡ holds_cells (reverse tags.now.items) }
{
    matches!(tags.last(), Some(Element::TableRow))
}

/// Whether text may stand behind these open tags: not where parts of tables do.
fn holds_text(tags: &Vec<Element>) -> bool
    ensures { result ≡ holds_text (reverse tags.now.items) }
{
    !(holds_parts(tags) || holds_rows(tags) || holds_cells(tags))
}

/// Whether a byte may be said behind these open tags.
fn is_said(tags: &Vec<Element>, byte: u8) -> bool
    ensures { result ≡ is_said (reverse tags.now.items) byte }
{
    holds_text(tags) || byte == b'\n'
}

/// Whether an element may stand behind these open tags.
fn stands_in(element: Element, tags: &Vec<Element>) -> bool
    ensures { result ≡ stands_in element (reverse tags.now.items) }
{
    match element {
        Element::ListItem => holds_items(tags),
        Element::DataCell | Element::HeaderCell => holds_cells(tags),
        Element::TableBody | Element::TableHead => holds_parts(tags),
        Element::TableRow => holds_rows(tags),
        Element::Anchor
        | Element::Break
        | Element::Checkbox
        | Element::Code
        | Element::Deleted
        | Element::Emphasis
        | Element::Image
        | Element::Strong
        | Element::Superscript => holds_text(tags),
        _ => holds_blocks(tags),
    }
}

/// What is behind a close tag, from behind its `</` on. It closes the innermost open tag.
fn behind_close<'a>(tags: &mut Vec<Element>, bytes: &'a [u8]) -> Option<&'a [u8]>
    ensures { MatchOption result (behind_close (reverse tags.old.items) bytes.now ≡ None) (λ rest. behind_close (reverse tags.old.items) bytes.now ≡ Some (reverse tags.new.items, rest.now)) }
{
    let element = tags.pop()?;
    behind(behind(bytes, element.name())?, b">")
}

/// What is behind a tag of an element that is opened, from behind its name on.
fn behind_element<'a>(
    alloc: Global,
    tags: &mut Vec<Element>,
    element: Element,
    bytes: &'a [u8],
) -> Result<Option<&'a [u8]>, AllocError>
    ensures { IfOk result (λ next. MatchOption next (behind_element (reverse tags.old.items) (Some element) bytes.now ≡ None) (λ rest. behind_element (reverse tags.old.items) (Some element) bytes.now ≡ Some (reverse tags.new.items, rest.now))) }
{
    if !stands_in(element, tags) {
        return Ok(None);
    }
    match behind_name(alloc, element, bytes)? {
        None => Ok(None),
        Some(rest) => {
            if !element.is_void() {
                tags.push(element)?;
            }
            Ok(Some(rest))
        }
    }
}

/// How many bytes a name has that these begin with.
fn name_size(bytes: &[u8]) -> usize
    ensures inside { result ≤ length bytes.now }
    ensures size { result ≡ prefix_len is_ascii_alphanumeric bytes.now }
{
    let mut at = 0;
    while at < bytes.len() && bytes[at].is_ascii_alphanumeric() {
        at += 1;
    }
    at
}

/// What is behind a tag, from behind its `<` on.
fn behind_mark<'a>(
    alloc: Global,
    tags: &mut Vec<Element>,
    bytes: &'a [u8],
) -> Result<Option<&'a [u8]>, AllocError>
    ensures { IfOk result (λ next. MatchOption next (behind_mark (reverse tags.old.items) bytes.now ≡ None) (λ rest. behind_mark (reverse tags.old.items) bytes.now ≡ Some (reverse tags.new.items, rest.now))) }
{
    match behind(bytes, b"/") {
        Some(rest) => Ok(behind_close(tags, rest)),
        None => {
            let size = name_size(bytes);
            match element_of(&bytes[..size]) {
                None => Ok(None),
                Some(element) => behind_element(alloc, tags, element, &bytes[size..]),
            }
        }
    }
}

/// Whether bytes pass the test of safe HTML.
fn passes(alloc: Global, html: &[u8]) -> Result<bool, AllocError>
    ensures { IfOk result (λ b. b ≡ is_safe_html html.now) }
{
    let mut tags: Vec<Element> = Vec::new(alloc);
    let mut rest = html;
    while rest.len() > 0 {
        let more = &rest[1..];
        if rest[0] != b'<' {
            if !(is_said(&tags, rest[0]) && is_text_byte(rest[0], more)) {
                return Ok(false);
            }
            rest = more;
        } else {
            match behind_mark(alloc, &mut tags, more)? {
                None => return Ok(false),
                Some(next) => rest = next,
            }
        }
    }
    Ok(tags.is_empty())
}

/// Whether bytes are safe HTML: few elements and attributes, closed in order, and no script. `specs/SafeHtml.antt` says what is promised.
///
/// Its time is in proportion to the bytes, and its memory to the depth of the tags and the longest address. Returns `AllocError` if it runs
/// out of memory.
pub fn is_safe_html(alloc: Global, html: &[u8]) -> Result<bool, AllocError>
    ensures safe { IfOk result (λ b. (b ≡ true) ↔ IsSafeHtml [] html.now) }
    ensures tested { IfOk result (λ b. b ≡ is_safe_html html.now) }
{
    passes(alloc, html)
}
