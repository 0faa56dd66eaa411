//! All lists of a document at once, in one walk over its events from the last one on.
//!
//! Behind an event it is known, for each span that is open there, what is in the rest of it.

ghost use Rattle.std.specs.Prelude.{◌≡◌, ◌∷◌, ◌++◌, IfOk, OnOk, cond, drop, replicate, reverse, true};
ghost use Rattle.mdblock_containers.specs.ListSeen.{all_seen, blank_before, has_blank, is_list, is_quiet, nothing_seen, parts_before, seen_before, shape_at, stack_at_enter, stack_at_exit, stack_before, top_of};
ghost use Rattle.mdblock_containers.specs.ListShapes.{shapes_from};

use crate::lists::{BLOCKS, ITEMS, LISTS, Marker, is_item, is_wanted, marker_of, start_of};
use markdown_base::event::{Event, Kind, Name, Point};
use std::alloc::{AllocError, Global};

/// A list of a document.
#[derive(Clone, Copy, Debug, PartialEq, Eq)]
pub struct ListShape {
    /// The index of its enter.
    pub at: usize,
    /// It is loose.
    pub is_loose: bool,
    /// Two of its items have a blank line between them: unist's `spread`.
    pub is_spread: bool,
    /// The kind of its markers.
    pub marker: Option<Marker>,
    /// The number that it starts with, if it is ordered.
    pub start: Option<u32>,
}

/// What is known of the spans of some names directly in a span, from an event on.
#[derive(Clone, Copy)]
struct Parts {
    /// There is one.
    any: bool,
    /// Two have a blank line between them.
    is_apart: bool,
    /// The greatest line of the blank lines before the first one.
    blank: Option<usize>,
}

/// What is known of the parts of a span, from an event on.
#[derive(Clone, Copy)]
struct Seen {
    /// Of items.
    items: Parts,
    /// Of blocks.
    blocks: Parts,
    /// Two blocks of an item have a blank line between them.
    has_spread_item: bool,
}

/// A span of which something is known.
#[derive(Clone, Copy)]
struct Level {
    /// What is known of it.
    seen: Seen,
    /// How many spans are directly around it of which nothing is known.
    around: usize,
}

/// The spans that are open behind an event.
#[derive(Drop)]
struct Levels {
    /// Those of which something is known, from the outermost on.
    known: Vec<Level>,
    /// How many are inside all of these: nothing is known of them.
    inside: usize,
}

const NO_PARTS: Parts = Parts {
    any: false,
    is_apart: false,
    blank: None,
};

const NOTHING: Seen = Seen {
    items: NO_PARTS,
    blocks: NO_PARTS,
    has_spread_item: false,
};

/// Whether one of the blank lines is behind a block that ends at a place, by the greatest line of theirs.
fn has_blank(end: Point, blank: Option<usize>) -> bool
    ensures { result ≡ has_blank end blank }
{
    match blank {
        Some(line) => end.line < line || end.column == 1,
        None => false,
    }
}

/// The greatest line of blank lines, from one event before on.
fn blank_before(event: &Event, blank: Option<usize>) -> Option<usize>
    ensures { result ≡ blank_before event.now blank }
{
    if event.kind == Kind::Enter && event.name == Name::BlankLineEnding {
        Some(event.point.line.max(blank.unwrap_or(0)))
    } else {
        blank
    }
}

/// What is known of spans of these names from one event before on.
fn parts_before(names: &[Name], event: &Event, parts: Parts) -> Parts
    ensures { result ≡ parts_before names.now event.now parts }
{
    if is_wanted(names, event.name) {
        return Parts {
            any: true,
            is_apart: (parts.any && has_blank(event.point, parts.blank)) || parts.is_apart,
            blank: None,
        };
    }
    Parts {
        any: parts.any,
        is_apart: parts.is_apart,
        blank: blank_before(event, parts.blank),
    }
}

/// What is known from one event before on. If it enters an item, `is_spread` says whether that has a blank line between two of its blocks.
fn seen_before(event: &Event, is_spread: bool, seen: Seen) -> Seen
    ensures { result ≡ seen_before event.now is_spread seen }
{
    Seen {
        items: parts_before(&ITEMS, event, seen.items),
        blocks: parts_before(&BLOCKS, event, seen.blocks),
        has_spread_item: (is_item(event) && is_spread) || seen.has_spread_item,
    }
}

/// Takes what is known of the innermost span: nothing, if no exit of it came.
fn take_last(stack: &mut Levels) -> Seen
    ensures last { result ≡ top_of (all_seen stack.old) }
    ensures others { all_seen stack.new ≡ drop 1 (all_seen stack.old) }
{
    if stack.inside > 0 {
        stack.inside -= 1;
        return NOTHING;
    }
    match stack.known.pop() {
        None => NOTHING,
        Some(level) => {
            stack.inside = level.around;
            level.seen
        }
    }
}

/// A span is open inside all others, and in it so many more, of which nothing is known.
fn push_level(stack: &mut Levels, seen: Seen, inside: usize) -> Result<(), AllocError>
    ensures { IfOk result (λ _. all_seen stack.new ≡ replicate inside nothing_seen ++ (seen ∷ all_seen stack.old)) }
{
    stack.known.push(Level {
        seen,
        around: stack.inside,
    })?;
    stack.inside = inside;
    Ok(())
}

/// An exit comes before. Returns what was known of the innermost span.
fn before_exit(stack: &mut Levels, event: &Event) -> Result<Seen, AllocError>
    ensures last { IfOk result (λ last. last ≡ top_of (all_seen stack.old)) }
    ensures stack { IfOk result (λ _. all_seen stack.new ≡ stack_at_exit event.now (all_seen stack.old)) }
{
    let last = take_last(stack);
    push_level(stack, seen_before(event, false, last), 1)?;
    Ok(last)
}

/// An enter comes before. Returns what was known of the innermost span: of that which it enters.
fn before_enter(stack: &mut Levels, event: &Event) -> Result<Seen, AllocError>
    ensures last { IfOk result (λ last. last ≡ top_of (all_seen stack.old)) }
    ensures stack { IfOk result (λ _. all_seen stack.new ≡ stack_at_enter event.now (all_seen stack.old)) }
{
    let last = take_last(stack);
    let around = take_last(stack);
    push_level(stack, seen_before(event, last.blocks.is_apart, around), 0)?;
    Ok(last)
}

/// An event comes before. Returns what was known of the innermost span.
fn before(stack: &mut Levels, event: &Event) -> Result<Seen, AllocError>
    ensures last { IfOk result (λ last. last ≡ top_of (all_seen stack.old)) }
    ensures stack { IfOk result (λ _. all_seen stack.new ≡ stack_before event.now (all_seen stack.old)) }
{
    match event.kind {
        Kind::Exit => before_exit(stack, event),
        Kind::Enter => before_enter(stack, event),
    }
}

/// Whether spans of a name are no parts of lists and of items, and no blank lines.
fn is_quiet(name: Name) -> bool
    ensures { result ≡ is_quiet name }
{
    !(Name::BlankLineEnding == name
        || Name::ListItem == name
        || Name::BlockQuote == name
        || Name::ListOrdered == name
        || Name::ListUnordered == name
        || Name::Paragraph == name
        || Name::HeadingAtx == name
        || Name::HeadingSetext == name
        || Name::CodeIndented == name
        || Name::CodeFenced == name
        || Name::HtmlFlow == name
        || Name::ThematicBreak == name
        || Name::Definition == name
        || Name::GfmTable == name
        || Name::GfmFootnoteDefinition == name)
}

/// An event comes before of whose name nothing is to be known.
fn before_quiet(stack: &mut Levels, event: &Event) -> Result<(), AllocError>
    requires { is_quiet event.now.name ≡ true }
    ensures { OnOk result (all_seen stack.new ≡ stack_before event.now (all_seen stack.old)) }
{
    match event.kind {
        Kind::Exit if stack.known.len() > 0 && stack.inside < usize::MAX => stack.inside += 1,
        Kind::Enter if stack.known.len() > 0 && stack.inside > 0 => stack.inside -= 1,
        _ => {
            before(stack, event)?;
        }
    }
    Ok(())
}

/// Whether an event is the enter of a list.
fn is_list(event: &Event) -> bool
    ensures { result ≡ is_list event.now }
{
    event.kind == Kind::Enter && is_wanted(&LISTS, event.name)
}

/// What is said of the list whose enter is at an index, by what is known of its parts.
fn shape_at(bytes: &[u8], events: &[Event], at: usize, inside: Seen) -> ListShape
    ensures { result ≡ shape_at bytes.now events.now at inside }
{
    ListShape {
        at,
        is_loose: inside.items.is_apart || inside.has_spread_item,
        is_spread: inside.items.is_apart,
        marker: marker_of(bytes, events, at),
        start: start_of(bytes, events, at),
    }
}

/// The list whose enter is at an index, if one is entered there, goes to the lists.
fn push_list(
    lists: &mut Vec<ListShape>,
    bytes: &[u8],
    events: &[Event],
    at: usize,
    event: &Event,
    inside: Seen,
) -> Result<(), AllocError>
    ensures { IfOk result (λ _. reverse lists.new.items ≡ cond (is_list event.now) (shape_at bytes.now events.now at inside ∷ reverse lists.old.items) (reverse lists.old.items)) }
{
    if is_list(event) {
        lists.push(shape_at(bytes, events, at, inside))?;
    }
    Ok(())
}

/// An event comes before, at an index. If it enters a list, that goes to the lists.
#[tactic(auto, using(crate::proofs::ListSeenLemmas::quiet_list))]
fn meet(
    stack: &mut Levels,
    lists: &mut Vec<ListShape>,
    bytes: &[u8],
    events: &[Event],
    at: usize,
    event: &Event,
) -> Result<(), AllocError>
    ensures lists { OnOk result (reverse lists.new.items ≡ cond (is_list event.now) (shape_at bytes.now events.now at (top_of (all_seen stack.old)) ∷ reverse lists.old.items) (reverse lists.old.items)) }
    ensures stack { OnOk result (all_seen stack.new ≡ stack_before event.now (all_seen stack.old)) }
{
    if is_quiet(event.name) {
        before_quiet(stack, event)?;
        return Ok(());
    }
    let inside = before(stack, event)?;
    push_list(lists, bytes, events, at, event, inside)?;
    Ok(())
}

/// All lists among the events of a document, in order of their enters, in time linear in the number of events. Fails only for want of memory.
pub fn lists_of(alloc: Global, bytes: &[u8], events: &[Event]) -> Result<Vec<ListShape>, AllocError>
    ensures { IfOk result (λ lists. lists.items ≡ shapes_from bytes.now 0 events.now) }
{
    let mut lists = Vec::new(alloc);
    let mut stack = Levels {
        known: Vec::new(alloc),
        inside: 0,
    };
    let mut at = events.len();
    while at > 0 {
        at -= 1;
        meet(&mut stack, &mut lists, bytes, events, at, &events[at])?;
    }
    lists.reverse();
    Ok(lists)
}
