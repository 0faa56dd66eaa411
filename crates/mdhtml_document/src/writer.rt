//! Writing the spans of a document, in one walk over its events.

ghost use Rattle.std.specs.Prelude.{◌≡◌, ◌≤◌, [], ◌∷◌, IfOk, OnOk, drop, length};
ghost use Rattle.markdown_base.specs.declared.event.Kind.TheVariants.{Enter};
ghost use Rattle.mdhtml_document.specs.Frames.{AreListsOf, Opens, closed_by, closed_of, columns_at, ends, events_past, from_list, is_list, is_over, is_silent, list_at, lists_behind, lists_past, mode_of, moved, opens};
ghost use Rattle.mdhtml_document.specs.Html.{lacking};
ghost use Rattle.mdhtml_document.specs.Names.{block_of};
ghost use Rattle.mdhtml_document.specs.Written.{after};
ghost use Rattle.mdhtml_document.specs.Walks.{is_bytes, is_inline, shape_in, walked_in};

use crate::block_shapes::{open_block, open_in_heading, open_item};
use crate::links::Whole;
use crate::names::{Block, block_of, inline_of};
use crate::shapes::{DONE, End, Frame, Level, Mode, push_end};
use crate::spans::behind_first;
use crate::tables::{
    columns_behind, columns_in, is_in_cell, open_in_row, open_in_table, open_row, push_lacking,
};
use crate::text_shapes::{inner_bytes, open_in_paragraph, open_inline, says_bytes};
use markdown_base::event::{Event, Kind, Name};
use mdblock_containers::list_shapes::{ListShape, lists_of};
use mdhtml_markup::escape::push_escaped;
use std::alloc::{AllocError, Global};

/// Begins a span, by what is written of those that it stands among, the columns that it stands in, the event that enters it and those behind that.
fn open(
    alloc: Global,
    out: &mut Vec<u8>,
    whole: &Whole<'_>,
    mode: Mode,
    columns: &[Event],
    list: Option<ListShape>,
    event: &Event,
    behind: &[Event],
) -> Result<Frame, AllocError>
    ensures { IfOk result (λ frame. Opens (shape_in whole.now mode columns.now list event.now behind.now) out.old.items out.new.items frame) }
{
    match mode {
        Mode::Flow => open_block(alloc, out, whole, false, block_of(event.name), list, behind),
        Mode::Tight => open_block(alloc, out, whole, true, block_of(event.name), list, behind),
        Mode::LooseItems => open_item(out, false, block_of(event.name)),
        Mode::TightItems => open_item(out, true, block_of(event.name)),
        Mode::Heading => Ok(open_in_heading(block_of(event.name))),
        Mode::Table => open_in_table(out, block_of(event.name), behind),
        Mode::Rows(is_head) => open_row(out, is_head, block_of(event.name)),
        Mode::Cells(is_head) => open_in_row(out, is_head, columns, block_of(event.name)),
        Mode::Paragraph => open_in_paragraph(
            alloc,
            out,
            whole,
            is_in_cell(columns),
            inline_of(event.name),
            event,
            behind,
        ),
        Mode::Text => open_inline(
            alloc,
            out,
            whole,
            is_in_cell(columns),
            inline_of(event.name),
            event,
            behind,
        ),
        Mode::Nothing => Ok(DONE),
    }
}

/// What is written of spans in the innermost one that is open.
fn mode_of(levels: &[Level<'_>]) -> Mode
    ensures { result ≡ mode_of (opens levels.now) }
{
    match levels.last() {
        None => Mode::Flow,
        Some(level) => level.mode,
    }
}

/// The columns that they stand in.
fn columns_at<'a>(levels: &[Level<'a>]) -> &'a [Event]
    ensures { result.now ≡ columns_at (opens levels.now) }
{
    match levels.last() {
        None => &[],
        Some(level) => level.columns,
    }
}

/// Lets the spans behind a span stand in the columns behind it.
#[tactic(auto, using(crate::proofs::Entered::unmoved))]
fn move_on<'a>(levels: &mut Vec<Level<'a>>, block: Block) -> Result<(), AllocError>
    ensures { OnOk result (opens levels.new.items ≡ moved block (opens levels.old.items)) }
{
    if !is_in_cell(columns_at(levels.as_slice())) {
        return Ok(());
    }
    match levels.pop() {
        None => Ok(()),
        Some(level) => Ok(levels.push(Level {
            mode: level.mode,
            columns: columns_behind(block, level.columns),
            end: level.end,
        })?),
    }
}

/// Whether an event enters a list.
fn is_list(event: &Event) -> bool
    ensures { result ≡ is_list event.now }
{
    event.kind == Kind::Enter
        && (Name::ListOrdered == event.name || Name::ListUnordered == event.name)
}

/// The events from the first on that enters a list.
pub(crate) fn from_list(events: &[Event]) -> &[Event]
    ensures { result.now ≡ from_list events.now }
{
    let mut rest = events;
    'events: while let [event, behind @ ..] = rest {
        if is_list(event) {
            return rest;
        }
        rest = behind;
    }
    rest
}

/// The list that an event enters, if it does, and the lists behind it.
fn split_list<'a>(lists: &'a [ListShape], event: &Event) -> (Option<ListShape>, &'a [ListShape])
    ensures list { result.0 ≡ list_at lists.now event.now }
    ensures others { result.1.now ≡ lists_behind lists.now event.now }
{
    match lists {
        [list, others @ ..] if is_list(event) => (Some(*list), others),
        _ => (None, lists),
    }
}

/// The lists behind an event.
fn lists_behind<'a>(lists: &'a [ListShape], event: &Event) -> &'a [ListShape]
    ensures { result.now ≡ lists_behind lists.now event.now }
{
    match lists {
        [_, others @ ..] if is_list(event) => others,
        _ => lists,
    }
}

/// Whether the span ends that some events are in: its exit is the first of them.
fn ends(events: &[Event]) -> bool
    ensures { result ≡ ends events.now }
{
    match events {
        [] => false,
        [event, ..] => event.kind == Kind::Exit,
    }
}

/// Whether nothing more is written of a span, by what is written of the spans in it and the events behind its enter.
fn is_silent(mode: Mode, behind: &[Event]) -> bool
    ensures { result ≡ is_silent mode behind.now }
{
    match mode {
        Mode::Nothing => true,
        Mode::Text => ends(behind),
        _ => false,
    }
}

/// Whether nothing more is written of a span, neither of what is in it nor at its end.
fn is_over(frame: &Frame, behind: &[Event]) -> bool
    ensures { result ≡ is_over frame.now.end frame.now.mode behind.now }
{
    match frame.end {
        End::Nothing => is_silent(frame.mode, behind),
        _ => false,
    }
}

/// Passes over a span, by the events behind its enter. Returns the lists and the events behind its exit.
fn pass<'a, 'b>(given: &'a [ListShape], events: &'b [Event]) -> (&'a [ListShape], &'b [Event])
    ensures lists { result.0.now ≡ lists_past 0 given.now events.now }
    ensures events { result.1.now ≡ events_past 0 events.now }
{
    let mut lists = given;
    let mut rest = events;
    let mut depth = 0usize;
    'events: while let [event, behind @ ..] = rest {
        rest = behind;
        match event.kind {
            Kind::Enter => {
                lists = lists_behind(lists, event);
                depth += 1;
            }
            Kind::Exit => {
                if depth == 0 {
                    return (lists, rest);
                }
                depth -= 1;
            }
        }
    }
    (lists, rest)
}

/// Begins a span, and lets the spans behind it stand in the columns behind it.
fn begin(
    alloc: Global,
    out: &mut Vec<u8>,
    levels: &mut Vec<Level<'_>>,
    whole: &Whole<'_>,
    list: Option<ListShape>,
    event: &Event,
    behind: &[Event],
) -> Result<Frame, AllocError>
    ensures opened { IfOk result (λ frame. Opens (shape_in whole.now (mode_of (opens levels.old.items)) (columns_at (opens levels.old.items)) list event.now behind.now) out.old.items out.new.items frame) }
    ensures moved { OnOk result (opens levels.new.items ≡ moved (block_of event.now.name) (opens levels.old.items)) }
{
    let columns = columns_at(levels.as_slice());
    let mode = mode_of(levels.as_slice());
    let frame = open(alloc, out, whole, mode, columns, list, event, behind)?;
    move_on(levels, block_of(event.name))?;
    Ok(frame)
}

/// Lets a span be open.
fn push_level<'a>(
    levels: &mut Vec<Level<'a>>,
    frame: &Frame,
    columns: &'a [Event],
) -> Result<(), AllocError>
    ensures { OnOk result (opens levels.new.items ≡ record { mode = frame.now.mode; columns = columns.now; closed = closed_by frame.now.end } ∷ opens levels.old.items) }
{
    levels.push(Level {
        mode: frame.mode,
        columns,
        end: frame.end,
    })?;
    Ok(())
}

/// Whether what is written of spans is that of inline text.
fn is_inline(mode: Mode) -> bool
    ensures { result ≡ is_inline mode }
{
    matches!(mode, Mode::Text | Mode::Paragraph)
}

/// Whether its bytes are all that is written of a span, by what is written of spans there, the event that enters it and those behind that.
fn is_bytes(mode: Mode, event: &Event, behind: &[Event]) -> bool
    ensures { result ≡ is_bytes mode event.now behind.now }
{
    is_inline(mode) && (says_bytes(event.name) && ends(behind))
}

/// Begins the span that an event enters. Returns the lists and the events that are left: those behind its exit, if nothing more is written of it.
fn enter<'a, 'b>(
    alloc: Global,
    out: &mut Vec<u8>,
    levels: &mut Vec<Level<'b>>,
    whole: &Whole<'_>,
    lists: &'a [ListShape],
    event: &Event,
    behind: &'b [Event],
) -> Result<(&'a [ListShape], &'b [Event]), AllocError>
    requires kind { event.now.kind ≡ Enter }
    requires lists { AreListsOf whole.now.bytes.now lists.now (event.now ∷ behind.now) }
    ensures lists { IfOk result (λ left. AreListsOf whole.now.bytes.now left.0.now left.1.now) }
    ensures written { IfOk result (λ left. after out.new.items (walked_in whole.now (opens levels.new.items) left.1.now) ≡ after out.old.items (walked_in whole.now (opens levels.old.items) (event.now ∷ behind.now))) }
    ensures within { IfOk result (λ left. length left.1.now ≤ length behind.now) }
{
    if is_bytes(mode_of(levels.as_slice()), event, behind) {
        push_escaped(out, inner_bytes(whole.bytes, event, behind))?;
        return Ok((lists, behind_first(behind, 1)));
    }
    let (list, others) = split_list(lists, event);
    let columns = columns_at(levels.as_slice());
    let frame = begin(alloc, out, levels, whole, list, event, behind)?;
    if is_over(&frame, behind) {
        return Ok(pass(others, behind));
    }
    push_level(
        levels,
        &frame,
        columns_in(block_of(event.name), columns, behind),
    )?;
    Ok((others, behind))
}

/// Ends the innermost span that is open.
fn exit(out: &mut Vec<u8>, levels: &mut Vec<Level<'_>>) -> Result<(), AllocError>
    ensures written { OnOk result (out.new.items ≡ after (after out.old.items (lacking (mode_of (opens levels.old.items)) (columns_at (opens levels.old.items)))) (closed_of (opens levels.old.items))) }
    ensures others { OnOk result (opens levels.new.items ≡ drop 1 (opens levels.old.items)) }
{
    match levels.pop() {
        None => Ok(()),
        Some(level) => {
            push_lacking(out, level.mode, level.columns)?;
            push_end(out, level.end)
        }
    }
}

/// Writes what is written of an event. Returns the lists and the events that are left.
fn write_event<'a, 'b>(
    alloc: Global,
    out: &mut Vec<u8>,
    levels: &mut Vec<Level<'b>>,
    whole: &Whole<'_>,
    lists: &'a [ListShape],
    event: &Event,
    behind: &'b [Event],
) -> Result<(&'a [ListShape], &'b [Event]), AllocError>
    requires { AreListsOf whole.now.bytes.now lists.now (event.now ∷ behind.now) }
    ensures lists { IfOk result (λ left. AreListsOf whole.now.bytes.now left.0.now left.1.now) }
    ensures written { IfOk result (λ left. after out.new.items (walked_in whole.now (opens levels.new.items) left.1.now) ≡ after out.old.items (walked_in whole.now (opens levels.old.items) (event.now ∷ behind.now))) }
    ensures within { IfOk result (λ left. length left.1.now ≤ length behind.now) }
{
    match event.kind {
        Kind::Enter => enter(alloc, out, levels, whole, lists, event, behind),
        Kind::Exit => {
            exit(out, levels)?;
            Ok((lists, behind))
        }
    }
}

/// Writes spans of a document among others that something is written of, by their events.
pub(crate) fn write_in(
    alloc: Global,
    out: &mut Vec<u8>,
    whole: &Whole<'_>,
    mode: Mode,
    events: &[Event],
) -> Result<(), AllocError>
    ensures { OnOk result (out.new.items ≡ after out.old.items (walked_in whole.now (record { mode = mode; columns = []; closed = [] } ∷ []) events.now)) }
{
    let all = lists_of(alloc, whole.bytes, from_list(events))?;
    let mut levels: Vec<Level<'_>> = Vec::new(alloc);
    levels.push(Level {
        mode,
        columns: &[],
        end: End::Nothing,
    })?;
    let mut lists = all.as_slice();
    let mut rest = events;
    'events: while let [event, behind @ ..] = rest {
        let left = write_event(alloc, out, &mut levels, whole, lists, event, behind)?;
        lists = left.0;
        rest = left.1;
    }
    Ok(())
}

/// Writes all spans of a document.
pub(crate) fn write(
    alloc: Global,
    whole: &Whole<'_>,
    lists: &[ListShape],
) -> Result<Vec<u8>, AllocError>
    requires { AreListsOf whole.now.bytes.now lists.now whole.now.events.now }
    ensures { IfOk result (λ html. html.items ≡ after [] (walked_in whole.now [] whole.now.events.now)) }
{
    let mut out = Vec::new(alloc);
    let mut levels: Vec<Level<'_>> = Vec::new(alloc);
    let mut lists = lists;
    let mut rest = whole.events;
    'events: while let [event, behind @ ..] = rest {
        let left = write_event(alloc, &mut out, &mut levels, whole, lists, event, behind)?;
        lists = left.0;
        rest = left.1;
    }
    Ok(out)
}
