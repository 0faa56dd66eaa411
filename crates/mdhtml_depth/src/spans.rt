//! Events without the enters and exits of spans that are too deep.

ghost use Rattle.std.specs.Prelude.{◌≡◌, ◌+◌, ◌^◌, ◌++◌, ◌<◌, ◌≤◌, IfOk, IsOk, OnOk, true};
ghost use Rattle.mdhtml_depth.specs.Depth.{behind, has_depth, is_deep, kept, nests, within};

use markdown_base::event::{Event, Kind, Name};
use std::alloc::{AllocError, Global};

/// Whether spans of this name make an element that others may be in, and may be in one another.
fn nests(name: Name) -> bool
    ensures { result ≡ nests name }
{
    name == Name::BlockQuote
        || name == Name::ListOrdered
        || name == Name::ListUnordered
        || name == Name::Emphasis
        || name == Name::Strong
        || name == Name::GfmStrikethrough
        || name == Name::Link
}

/// Whether an event enters or exits a span that is too deep, by how many are open in front of the event.
fn is_deep(limit: usize, opened: usize, event: &Event) -> bool
    ensures { result ≡ is_deep limit opened event.now }
{
    let around = if event.kind == Kind::Enter {
        opened
    } else {
        opened.saturating_sub(1)
    };
    nests(event.name) && limit <= around
}

/// How many are open behind an event.
fn behind(opened: usize, event: &Event) -> usize
    requires { opened + 1 < 2 ^ 64 }
    ensures count { result ≡ behind opened event.now }
    ensures few { result ≤ opened + 1 }
{
    if !nests(event.name) {
        opened
    } else if event.kind == Kind::Enter {
        opened + 1
    } else {
        opened.saturating_sub(1)
    }
}

/// Whether no span is too deep.
fn has_depth(events: &[Event], limit: usize) -> bool
    ensures { result ≡ has_depth limit 0 events.now }
{
    let mut opened = 0usize;
    let mut next = 0;
    while next < events.len() {
        let event = &events[next];
        if is_deep(limit, opened, event) {
            return false;
        }
        opened = behind(opened, event);
        next += 1;
    }
    true
}

/// Adds an event, unless its span is too deep.
fn push_kept(
    out: &mut Vec<Event>,
    limit: usize,
    opened: usize,
    event: &Event,
) -> Result<(), AllocError>
    ensures { OnOk result (out.new.items ≡ out.old.items ++ kept limit opened event.now) }
{
    if is_deep(limit, opened, event) {
        return Ok(());
    }
    out.push(*event)?;
    Ok(())
}

/// The events without the enters and exits of spans that are too deep.
fn kept_of(alloc: Global, events: &[Event], limit: usize) -> Result<Vec<Event>, AllocError>
    ensures { IfOk result (λ all. all.items ≡ within limit 0 events.now) }
{
    let mut out = Vec::new(alloc);
    let mut opened = 0usize;
    let mut next = 0;
    while next < events.len() {
        let event = &events[next];
        push_kept(&mut out, limit, opened, event)?;
        opened = behind(opened, event);
        next += 1;
    }
    Ok(out)
}

/// The events without the enters and exits of block quotes, lists, emphasis, strikethrough and links around which there are this many such spans. What
/// is in these stays. It fails only if it runs out of memory.
///
/// If no span is so deep, the events are returned as they are, and not copied.
pub fn within(alloc: Global, events: Vec<Event>, limit: usize) -> Result<Vec<Event>, AllocError>
    ensures events { IfOk result (λ all. all.items ≡ within limit 0 events.items) }
    ensures shallow { has_depth limit 0 events.items ≡ true → IsOk result }
{
    if has_depth(events.as_slice(), limit) {
        return Ok(events);
    }
    kept_of(alloc, events.as_slice(), limit)
}
