//! Lines of blocks: code and HTML, with spaces for the columns of tabs.

ghost use Rattle.std.specs.List.{list_any, repeat};
ghost use Rattle.std.specs.Prelude.{◌≡◌, ◌++◌, ◌-◌, ◌%◌, ◌∷◌, [], IfOk, OnOk, drop};
ghost use Rattle.markdown_base.specs.Events.{is_enter};
ghost use Rattle.markdown_base.specs.declared.event.Name.TheVariants as name;
ghost use Rattle.mddocument_link_targets.specs.Spans.{enters};
ghost use Rattle.mdhtml_document.specs.Values.{behind_first_line, block_lines, code_lines, cut, cut_at, has_last_line, html_flow, last_line};

use markdown_base::configuration::TabSize;
use markdown_base::event::{Event, Kind, Name, Point};
use mddocument_link_targets::spans::enters;
use mddocument_link_targets::strings::slice;
use std::alloc::{AllocError, Global};

/// Adds spaces.
fn push_spaces(text: &mut Vec<u8>, count: usize) -> Result<(), AllocError>
    ensures { OnOk result (text.new.items ≡ text.old.items ++ repeat count (32 ∷ [])) }
{
    let mut left = count;
    while left > 0 {
        text.push(b' ')?;
        left -= 1;
    }
    Ok(())
}

/// How many columns of a tab are behind a place in it, and at it.
fn columns_left(tab: TabSize, column: usize) -> usize
    ensures { result ≡ tab - (column - 1) % tab }
{
    let tab = tab.get();
    tab - column.saturating_sub(1) % tab
}

/// Adds the bytes between two places that begin in a tab, with spaces for the columns of that.
fn push_from_tab(
    text: &mut Vec<u8>,
    tab: TabSize,
    column: usize,
    between: &[u8],
) -> Result<(), AllocError>
    ensures { OnOk result (text.new.items ≡ text.old.items ++ (repeat (tab - (column - 1) % tab) (32 ∷ []) ++ drop 1 between.now)) }
{
    push_spaces(text, columns_left(tab, column))?;
    text.extend_from_slice(between.get(1..).unwrap_or(&[]))
}

/// Adds the bytes between two places, with spaces for the columns of a tab that they begin or end in.
fn push_cut(
    text: &mut Vec<u8>,
    bytes: &[u8],
    tab: TabSize,
    from: Point,
    to: Point,
) -> Result<(), AllocError>
    ensures { OnOk result (text.new.items ≡ text.old.items ++ cut bytes.now tab from to) }
{
    if from.index == to.index {
        return push_spaces(text, to.vs.saturating_sub(from.vs));
    }
    let between = slice(bytes, from.index, to.index);
    if from.vs == 0 {
        text.extend_from_slice(between)?;
    } else {
        push_from_tab(text, tab, from.column, between)?;
    }
    push_spaces(text, to.vs)
}

/// Adds the bytes of the innermost span that an event enters, by the events behind that, as they are cut from a block.
fn push_cut_at(
    text: &mut Vec<u8>,
    bytes: &[u8],
    tab: TabSize,
    event: &Event,
    behind: &[Event],
) -> Result<(), AllocError>
    ensures { OnOk result (text.new.items ≡ text.old.items ++ cut_at bytes.now tab event.now behind.now) }
{
    match behind {
        [] => Ok(()),
        [exit, ..] => push_cut(text, bytes, tab, event.point, exit.point),
    }
}

/// Adds what an event says in the lines of a block, by the events behind it.
fn push_block_line(
    text: &mut Vec<u8>,
    bytes: &[u8],
    tab: TabSize,
    name: Name,
    event: &Event,
    behind: &[Event],
) -> Result<(), AllocError>
    ensures { OnOk result (text.new.items ++ block_lines bytes.now tab name behind.now ≡ text.old.items ++ block_lines bytes.now tab name (event.now ∷ behind.now)) }
{
    if enters(event, Name::LineEnding) || enters(event, Name::BlankLineEnding) {
        text.push(b'\n')?;
        return Ok(());
    }
    if enters(event, name) {
        push_cut_at(text, bytes, tab, event, behind)?;
        return Ok(());
    }
    Ok(())
}

/// The lines of a block, by the events in it: spans of a name, and line endings.
fn block_lines(
    alloc: Global,
    bytes: &[u8],
    tab: TabSize,
    name: Name,
    events: &[Event],
) -> Result<Vec<u8>, AllocError>
    ensures { IfOk result (λ text. text.items ≡ block_lines bytes.now tab name events.now) }
{
    let mut text = Vec::new(alloc);
    for (i, event) in events.iter().enumerate() {
        push_block_line(&mut text, bytes, tab, name, event, &events[i + 1..])?;
    }
    Ok(text)
}

/// The lines of a block of HTML, by the events in it.
pub(crate) fn html_flow(
    alloc: Global,
    bytes: &[u8],
    tab: TabSize,
    events: &[Event],
) -> Result<Vec<u8>, AllocError>
    ensures { IfOk result (λ text. text.items ≡ html_flow bytes.now tab events.now) }
{
    block_lines(alloc, bytes, tab, Name::HtmlFlowData, events)
}

/// Events without the first one.
fn behind_one(events: &[Event]) -> &[Event]
    ensures { result.now ≡ drop 1 events.now }
{
    match events {
        [] => &[],
        [_, rest @ ..] => rest,
    }
}

/// The events behind the first line ending.
pub(crate) fn behind_first_line(events: &[Event]) -> &[Event]
    ensures { result.now ≡ behind_first_line events.now }
{
    for (i, event) in events.iter().enumerate() {
        if enters(event, Name::LineEnding) {
            return behind_one(&events[i + 1..]);
        }
    }
    &[]
}

/// The events of the last line.
fn last_line(events: &[Event]) -> &[Event]
    ensures { result.now ≡ last_line events.now }
{
    let mut from = events.len();
    while from > 0 {
        if enters(&events[from - 1], Name::LineEnding) {
            return &events[from..];
        }
        from -= 1;
    }
    events
}

/// Whether an event is an enter.
fn is_enter(event: &Event) -> bool
    ensures { result ≡ is_enter event.now.kind }
{
    event.kind == Kind::Enter
}

/// Whether some event enters a span.
fn has_enter(events: &[Event]) -> bool
    ensures { result ≡ list_any (λ e. is_enter e.kind) events.now }
{
    events.iter().any(is_enter)
}

/// Whether some event enters a fence.
fn has_fence(events: &[Event]) -> bool
    ensures { result ≡ list_any (enters name.CodeFencedFence) events.now }
{
    events
        .iter()
        .any(|event| enters(event, Name::CodeFencedFence))
}

/// Whether a last line of code has begun that no line ending ends.
fn has_last_line(events: &[Event]) -> bool
    ensures { result ≡ has_last_line events.now }
{
    let last = last_line(events);
    has_enter(last) && !has_fence(last)
}

/// The lines of a block of code, by the events in it.
pub(crate) fn code_lines(
    alloc: Global,
    bytes: &[u8],
    tab: TabSize,
    events: &[Event],
) -> Result<Vec<u8>, AllocError>
    ensures { IfOk result (λ text. text.items ≡ code_lines bytes.now tab events.now) }
{
    let mut text = block_lines(alloc, bytes, tab, Name::CodeFlowChunk, events)?;
    if has_last_line(events) {
        text.push(b'\n')?;
    }
    Ok(text)
}
