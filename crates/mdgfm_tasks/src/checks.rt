//! The check at the front of events, if one is there.

ghost use Rattle.std.specs.Prelude.{ℕ, ◌≡◌, ◌+◌, ◌≤◌, IfSome, drop, length};
ghost use Rattle.std.specs.List.{prefix_len};
ghost use Rattle.mdblock_lines.specs.Lines.{is_in_line};
ghost use Rattle.mdgfm_tasks.specs.declared.awaited.Awaited.TheVariants.{Nothing};
ghost use Rattle.mdgfm_tasks.specs.Checks.{check_in, check_of, data_over, has_check, is_data, line_from, linked, text_over};

use crate::awaited::{Awaited, awaited_behind, enters, exits};
use markdown_base::event::{Event, Name, Point};
use mdblock_tables::tasks::{Check, check_at};
use mdconstructs_loop_counts::Turns;
use mdgfm_events::spans::span_of;
use std::sync::ledger::Ledger;

/// What is at the front of events, over the bytes of a check.
#[derive(Clone, Copy, PartialEq, Eq, Debug)]
pub struct Covered {
    /// How many events it has.
    pub size: usize,
    /// Where it ends.
    pub end: Point,
}

/// A check at the front of events.
#[derive(Clone, Copy, PartialEq, Eq, Debug)]
pub struct Found {
    /// The check.
    pub check: Check,
    /// What has its bytes.
    pub text: Covered,
}

/// Whether a byte is in a line, and ends none.
fn is_in_line(byte: u8) -> bool
    ensures { result ≡ is_in_line byte }
{
    byte != b'\n' && byte != b'\r'
}

/// How many bytes come before a line ending, or all.
fn line_size(text: &[u8]) -> usize
    ensures size { result ≡ prefix_len is_in_line text.now }
    ensures within { result ≤ length text.now }
{
    let mut next = 0;
    while next < text.len() {
        if !is_in_line(text[next]) {
            return next;
        }
        next += 1;
    }
    next
}

/// The bytes from an index on, as far as there are any.
fn behind(bytes: &[u8], at: usize) -> &[u8]
    ensures { result.now ≡ drop at bytes.now }
{
    if at < bytes.len() { &bytes[at..] } else { &[] }
}

/// The line of an index from there on, without its line ending.
fn line_from(bytes: &[u8], at: usize) -> &[u8]
    ensures { result.now ≡ line_from bytes.now at }
{
    let rest = behind(bytes, at);
    &rest[..line_size(rest)]
}

/// Whether two events are a span of data.
fn is_data(event: &Event, next: &Event) -> bool
    ensures { result ≡ is_data event.now next.now }
{
    enters(event, Name::Data) && exits(next, Name::Data)
}

/// Data at the front of events, over so many bytes from an index on.
fn data_over(at: usize, many: usize, events: &[Event]) -> Option<Covered>
    ensures value { result ≡ data_over at many events.now }
    ensures within { IfSome result (λ c. (1 ≤ c.size) × (c.size ≤ length events.now)) }
{
    let mut next = 0;
    while events.len() - next >= 2 {
        if !is_data(&events[next], &events[next + 1]) {
            return None;
        }
        let end = events[next + 1].point;
        next += 2;
        if end.index.saturating_sub(at) >= many {
            return Some(Covered { size: next, end });
        }
    }
    None
}

/// A link at the front of events, if it has as many bytes from an index on, by its enter and the events behind that.
fn linked(at: usize, many: usize, event: &Event, behind: &[Event]) -> Option<Covered>
    ensures value { result ≡ linked at many event.now behind.now }
    ensures within { IfSome result (λ c. (1 ≤ c.size) × (c.size ≤ length behind.now + 1)) }
{
    let span = span_of(event.point, behind);
    if span.end.index.saturating_sub(at) == many {
        Some(Covered {
            size: span.size + 1,
            end: span.end,
        })
    } else {
        None
    }
}

/// Data or a link at the front of events, over so many bytes from an index on.
fn text_over(at: usize, many: usize, events: &[Event]) -> Option<Covered>
    ensures value { result ≡ text_over at many events.now }
    ensures within { IfSome result (λ c. (1 ≤ c.size) × (c.size ≤ length events.now)) }
{
    match events {
        [first, rest @ ..] => {
            if enters(first, Name::Link) {
                linked(at, many, first, rest)
            } else {
                data_over(at, many, events)
            }
        }
        [] => None,
    }
}

/// The check at the front of events, if text with a check comes first.
fn check_in<L: Ledger>(bytes: &[u8], events: &[Event], turns: &mut Turns<L>) -> Option<Found>
    ensures value { result ≡ check_in bytes.now events.now }
    ensures within { IfSome result (λ f. (1 ≤ f.text.size) × (f.text.size ≤ length events.now)) }
{
    match events {
        [first, ..] => {
            let at = first.point.index;
            let check = check_at(line_from(bytes, at), turns)?;
            let text = text_over(at, check.columns + 3, events)?;
            Some(Found { check, text })
        }
        [] => None,
    }
}

/// The check at the front of events, by what is awaited there.
pub(crate) fn check_of<L: Ledger>(
    bytes: &[u8],
    awaited: Awaited,
    events: &[Event],
    turns: &mut Turns<L>,
) -> Option<Found>
    ensures value { result ≡ check_of bytes.now awaited events.now }
    ensures within { IfSome result (λ f. (1 ≤ f.text.size) × (f.text.size ≤ length events.now)) }
{
    match awaited {
        Awaited::Text => check_in(bytes, events, turns),
        Awaited::Nothing => None,
        Awaited::Block => None,
        Awaited::DefinitionEnd => None,
    }
}

/// Whether there is a check.
pub(crate) fn has_check<L: Ledger>(bytes: &[u8], events: &[Event], turns: &mut Turns<L>) -> bool
    ensures { result ≡ has_check bytes.now Nothing events.now }
{
    let mut awaited = Awaited::Nothing;
    let mut at = 0;
    while at < events.len() {
        match check_of(bytes, awaited, &events[at..], turns) {
            Some(_) => return true,
            None => {
                awaited = awaited_behind(awaited, &events[at]);
                at += 1;
            }
        }
    }
    false
}
