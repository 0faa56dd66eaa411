//! Lists: whether they are tight or loose, the kind of their markers, and the numbers that they start with.
//!
//! CommonMark says it of items and of blank lines, so it is read of the events of a document: each function takes them, and the index of an enter.

ghost use Rattle.std.specs.Prelude.{◌≡◌, ◌≤◌, ◌<◌, ◌+◌, ◌==◌, ◌&&◌, ℕ, IfSome, MatchOption, None, Some, cond, drop, length, option_and_then, option_map, slice_index};
ghost use Rattle.std.specs.List.{list_any, prefix_len};
ghost use Rattle.markdown_edits.specs.SpanWalks.{is_wanted};
ghost use Rattle.mdblock_containers.specs.ListWalks.{depth_next, depth_at, is_found, is_item, known_next};
ghost use Rattle.mdblock_containers.specs.Lists.{behind_enter, block_names, digits_at, first_in, in_first_prefix, is_blank_behind, is_digit, is_loose, is_spread, item_names, items_in, list_marker, list_names, list_start, marker_of, number_of};

use markdown_base::event::{Event, Kind, Name, Point};

/// The kind of a list's markers: a bullet, or what is behind a number.
#[derive(Clone, Copy, Debug, PartialEq, Eq)]
pub enum Marker {
    /// The bullet `-`.
    Dash,
    /// The bullet `+`.
    Plus,
    /// The bullet `*`.
    Star,
    /// A number and `.`.
    Period,
    /// A number and `)`.
    Parenthesis,
}

pub(crate) const LISTS: [Name; 2] = [Name::ListOrdered, Name::ListUnordered];

pub(crate) const ITEMS: [Name; 1] = [Name::ListItem];

pub(crate) const BLOCKS: [Name; 13] = [
    Name::BlockQuote,
    Name::ListOrdered,
    Name::ListUnordered,
    Name::Paragraph,
    Name::HeadingAtx,
    Name::HeadingSetext,
    Name::CodeIndented,
    Name::CodeFenced,
    Name::HtmlFlow,
    Name::ThematicBreak,
    Name::Definition,
    Name::GfmTable,
    Name::GfmFootnoteDefinition,
];

/// The most digits that a marker has.
const MOST_DIGITS: usize = 9;

/// What is known of the spans of some names directly in a span, before one of its parts.
#[derive(Clone, Copy)]
enum Known {
    /// None was there.
    Nothing,
    /// The last one ended here, and no blank line came since.
    Ended(Point),
    /// A blank line came behind the last one.
    Apart,
}

/// Whether a name is one of the names.
pub(crate) fn is_wanted(names: &[Name], name: Name) -> bool
    ensures { result ≡ is_wanted names.now name }
{
    names.contains(&name)
}

/// How many spans are open around the span of an enter or exit, by how many were open before it. None if it exits a span around all.
fn depth_at(kind: Kind, depth: usize) -> Option<usize>
    ensures value { result ≡ depth_at kind depth }
    ensures few { IfSome result (λ around. around ≤ depth) }
{
    match kind {
        Kind::Enter => Some(depth),
        Kind::Exit => depth.checked_sub(1),
    }
}

/// How many spans are open behind an enter or exit, by how many are open around its span.
fn depth_next(kind: Kind, around: usize) -> usize
    requires { around < usize.MAX }
    ensures value { result ≡ depth_next kind around }
    ensures few { result ≤ around + 1 }
{
    match kind {
        Kind::Enter => around + 1,
        Kind::Exit => around,
    }
}

/// Whether an event is the enter of a blank line behind a block that ends at a place.
fn is_blank_behind(end: Point, event: &Event) -> bool
    ensures { result ≡ is_blank_behind end event.now }
{
    event.kind == Kind::Enter
        && event.name == Name::BlankLineEnding
        && (end.line < event.point.line || end.column == 1)
}

/// What is known behind a part of a span.
fn known_next(names: &[Name], known: Known, event: &Event) -> Known
    ensures { result ≡ known_next names.now known event.now }
{
    if is_wanted(names, event.name) {
        return Known::Ended(event.point);
    }
    match known {
        Known::Ended(end) => {
            if is_blank_behind(end, event) {
                Known::Apart
            } else {
                known
            }
        }
        _ => known,
    }
}

/// What is known behind an event of a span in so many others: only parts of the span itself count.
fn known_behind(names: &[Name], known: Known, event: &Event, around: usize) -> Known
    ensures { result ≡ cond (around == 0) (known_next names.now known event.now) known }
{
    if around == 0 {
        known_next(names, known, event)
    } else {
        known
    }
}

/// A blank line came, and an event is of another span of these names, in so many others.
fn is_found(names: &[Name], known: Known, event: &Event, around: usize) -> bool
    ensures { result ≡ ((around == 0) && is_found names.now known event.now) }
{
    match known {
        Known::Apart => around == 0 && is_wanted(names, event.name),
        _ => false,
    }
}

/// Whether two spans of these names directly in a span have a blank line between them, by the events behind its enter.
fn is_spread(events: &[Event], names: &[Name]) -> bool
    ensures { result ≡ is_spread names.now events.now }
{
    let mut depth = 0;
    let mut known = Known::Nothing;
    for event in events {
        let Some(around) = depth_at(event.kind, depth) else {
            return false;
        };
        if is_found(names, known, event, around) {
            return true;
        }
        known = known_behind(names, known, event, around);
        depth = depth_next(event.kind, around);
    }
    false
}

/// Whether an event is the enter of an item.
pub(crate) fn is_item(event: &Event) -> bool
    ensures { result ≡ is_item event.now }
{
    event.kind == Kind::Enter && event.name == Name::ListItem
}

/// Whether an item of a list has a blank line between two of its blocks, by the events behind the list's enter.
fn has_spread_item(events: &[Event]) -> bool
    ensures { result ≡ list_any (λ item. is_spread block_names item.behind) (items_in events.now) }
{
    let mut depth = 0;
    for (i, event) in events.iter().enumerate() {
        let Some(around) = depth_at(event.kind, depth) else {
            return false;
        };
        if around == 0 && is_item(event) && is_spread(&events[i + 1..], &BLOCKS) {
            return true;
        }
        depth = depth_next(event.kind, around);
    }
    false
}

/// The first enter of a name directly in a span, and the events behind it, by the events behind the span's enter.
fn first_in(events: &[Event], name: Name) -> Option<(Event, &[Event])>
    ensures { MatchOption result (first_in name events.now ≡ None) (λ found. first_in name events.now ≡ Some (record { event = found.0; behind = found.1.now })) }
{
    let mut depth = 0;
    for (i, event) in events.iter().enumerate() {
        let around = depth_at(event.kind, depth)?;
        if around == 0 && event.name == name {
            return Some((*event, &events[i + 1..]));
        }
        depth = depth_next(event.kind, around);
    }
    None
}

/// Where a part of the prefix of a list's first item is, by the events behind the list's enter.
fn in_first_prefix(events: &[Event], name: Name) -> Option<Point>
    ensures { result ≡ option_map (λ part. part.event.point) (in_first_prefix name events.now) }
{
    let (_, item) = first_in(events, Name::ListItem)?;
    let (_, prefix) = first_in(item, Name::ListItemPrefix)?;
    let (part, _) = first_in(prefix, name)?;
    Some(part.point)
}

/// The events behind an enter of one of these names at an index, if one is there.
fn behind_enter<'a>(events: &'a [Event], at: usize, names: &[Name]) -> Option<&'a [Event]>
    ensures { MatchOption result (behind_enter names.now at events.now ≡ None) (λ behind. behind_enter names.now at events.now ≡ Some behind.now) }
{
    let event = events.get(at)?;
    if event.kind == Kind::Enter && is_wanted(names, event.name) {
        Some(&events[at + 1..])
    } else {
        None
    }
}

/// Whether two items of the list whose enter is at an index have a blank line between them: unist's `spread` of a list. None if no list is
/// entered there.
pub fn list_spread(events: &[Event], at: usize) -> Option<bool>
    ensures { result ≡ option_map (is_spread item_names) (behind_enter list_names at events.now) }
{
    let inside = behind_enter(events, at, &LISTS)?;
    Some(is_spread(inside, &ITEMS))
}

/// Whether two blocks of the item whose enter is at an index have a blank line between them: unist's `spread` of an item. None if no item is
/// entered there.
pub fn item_spread(events: &[Event], at: usize) -> Option<bool>
    ensures { result ≡ option_map (is_spread block_names) (behind_enter item_names at events.now) }
{
    let inside = behind_enter(events, at, &ITEMS)?;
    Some(is_spread(inside, &BLOCKS))
}

/// Whether the list whose enter is at an index is loose. None if no list is entered there. It walks over the list at most three
/// times; `lists_of` of `list_shapes` says it of all lists in one walk.
pub fn is_loose(events: &[Event], at: usize) -> Option<bool>
    ensures { result ≡ option_map is_loose (behind_enter list_names at events.now) }
{
    let inside = behind_enter(events, at, &LISTS)?;
    Some(is_spread(inside, &ITEMS) || has_spread_item(inside))
}

/// The kind of marker that a byte is.
fn marker_of_byte(byte: u8) -> Option<Marker>
    ensures { result ≡ marker_of byte }
{
    match byte {
        b'-' => Some(Marker::Dash),
        b'+' => Some(Marker::Plus),
        b'*' => Some(Marker::Star),
        b'.' => Some(Marker::Period),
        b')' => Some(Marker::Parenthesis),
        _ => None,
    }
}

/// The kind of the markers of the list whose enter is at an index. None if no list is entered there, or none of an item with a marker.
pub fn marker_of(bytes: &[u8], events: &[Event], at: usize) -> Option<Marker>
    ensures { result ≡ option_and_then (list_marker bytes.now) (behind_enter list_names at events.now) }
{
    let inside = behind_enter(events, at, &LISTS)?;
    let place = in_first_prefix(inside, Name::ListItemMarker)?;
    marker_of_byte(*bytes.get(place.index)?)
}

/// Whether a byte is a digit.
fn is_digit(byte: u8) -> bool
    ensures { result ≡ is_digit byte }
{
    byte.is_ascii_digit()
}

/// The bytes from an index on.
fn behind(bytes: &[u8], index: usize) -> &[u8]
    ensures { result.now ≡ drop index bytes.now }
{
    match bytes.get(index..) {
        Some(rest) => rest,
        None => &[],
    }
}

/// How many digits come first.
fn digits_first(t: &[u8]) -> usize
    ensures value { result ≡ prefix_len is_digit t.now }
    ensures within { result ≤ length t.now }
{
    t.iter().take_while(|byte| is_digit(**byte)).count()
}

/// The digits from an index on.
fn digits_at(bytes: &[u8], index: usize) -> &[u8]
    ensures value { result.now ≡ digits_at bytes.now index }
    ensures digits { (k : ℕ) → k < length result.now → (48 ≤ slice_index result.now k) × (slice_index result.now k ≤ 57) }
{
    let rest = behind(bytes, index);
    &rest[..digits_first(rest)]
}

/// At most nine digits as a number.
fn number_of(digits: &[u8]) -> Option<u32>
    requires { (k : ℕ) → k < length digits.now → (48 ≤ slice_index digits.now k) × (slice_index digits.now k ≤ 57) }
    ensures { result ≡ number_of digits.now }
{
    if digits.is_empty() || digits.len() > MOST_DIGITS {
        return None;
    }
    let mut number = 0;
    for digit in digits {
        number = 10 * number + u32::from(*digit - b'0');
    }
    Some(number)
}

/// The number that the ordered list starts with whose enter is at an index. None if no list is entered there, or one without numbers.
pub fn start_of(bytes: &[u8], events: &[Event], at: usize) -> Option<u32>
    ensures { result ≡ option_and_then (list_start bytes.now) (behind_enter list_names at events.now) }
{
    let inside = behind_enter(events, at, &LISTS)?;
    let place = in_first_prefix(inside, Name::ListItemValue)?;
    number_of(digits_at(bytes, place.index))
}
