//! The delimiter runs of a text: its attention sequences, each with the characters beside it.

ghost use Rattle.std.specs.Prelude.{◌≡◌, ◌+◌, ◌-◌, ◌<◌, ◌≤◌, ◌^◌, length, map, slice_get, IfOk};
ghost use Rattle.mdinline_emphasis.specs.Runs.{is_punctuation, is_other, is_left_flanking, is_right_flanking, can_open, can_close, class_beside, marker_from, may_mark, run_at, is_sequence, index_of_event, depth_after, runs_in};
ghost use Rattle.mdinline_emphasis.specs.Searches.{as_run};

use crate::classes::{class_after, class_before};
use crate::pairs::{Delimiters, Marker, is_tilde};
use markdown_base::event::{Event, Kind, Name};
use markdown_base::util::char::Kind as Class;
use mdconstructs_loop_counts::Turns;
use std::alloc::{AllocError, Global};
use std::marker::Brand;
use std::sync::ledger::{Blank, Ledger};

/// Whether a class is punctuation.
fn is_punctuation(class: &Class) -> bool
    ensures { result ≡ is_punctuation class.now }
{
    matches!(class, Class::Punctuation)
}

/// Whether a class is neither white space nor punctuation.
fn is_other(class: &Class) -> bool
    ensures { result ≡ is_other class.now }
{
    matches!(class, Class::Other)
}

/// Whether a run between characters of these classes is left-flanking.
fn is_left_flanking(before: &Class, after: &Class) -> bool
    ensures { result ≡ is_left_flanking before.now after.now }
{
    is_other(after) || is_punctuation(after) && !is_other(before)
}

/// Whether a run between characters of these classes is right-flanking.
fn is_right_flanking(before: &Class, after: &Class) -> bool
    ensures { result ≡ is_right_flanking before.now after.now }
{
    is_other(before) || is_punctuation(before) && !is_other(after)
}

/// Whether a run can open pairs, by its marker and what is beside it.
fn can_open(marker: Marker, before: &Class, after: &Class) -> bool
    ensures { result ≡ can_open marker before.now after.now }
{
    is_left_flanking(before, after)
        && (marker != Marker::Underscore
            || !is_right_flanking(before, after)
            || is_punctuation(before))
}

/// Whether a run can close pairs, by its marker and what is beside it.
fn can_close(marker: Marker, before: &Class, after: &Class) -> bool
    ensures { result ≡ can_close marker before.now after.now }
{
    is_right_flanking(before, after)
        && (marker != Marker::Underscore
            || !is_left_flanking(before, after)
            || is_punctuation(after))
}

/// The marker at an index: an asterisk, a tilde, or else an underscore.
fn marker_at(bytes: &[u8], index: usize) -> Marker
    ensures { result ≡ marker_from (slice_get bytes.now index) }
{
    match bytes.get(index) {
        Some(b'*') => Marker::Asterisk,
        Some(b'~') => Marker::Tilde,
        _ => Marker::Underscore,
    }
}

/// Whether a run of so many markers may be in a pair: one of tildes has two at most, and two at least if one does not count.
fn may_mark(one_tilde: bool, marker: Marker, length: usize) -> bool
    ensures { result ≡ may_mark one_tilde marker length }
{
    !is_tilde(marker) || length <= 2 && (one_tilde || 2 <= length)
}

/// The class of the character at an end of a run: that of the document there, if the event beside the run stands at the same index.
fn class_beside(beside: Option<usize>, index: usize, class: Class) -> Class
    ensures { result ≡ class_beside beside index class }
{
    match beside {
        Some(other) if other == index => class,
        _ => Class::Whitespace,
    }
}

/// At which index an event of a list stands, if the list has it.
fn index_of_event(events: &[Event], index: usize) -> Option<usize>
    ensures { result ≡ index_of_event (slice_get events.now index) }
{
    match events.get(index) {
        None => None,
        Some(event) => Some(event.point.index),
    }
}

/// Whether two events are an attention sequence.
fn is_sequence(enter: &Event, exit: &Event) -> bool
    ensures { result ≡ is_sequence enter.now exit.now }
{
    enter.kind == Kind::Enter
        && enter.name == Name::AttentionSequence
        && exit.kind == Kind::Exit
        && exit.name == Name::AttentionSequence
}

/// How many spans are open after an event.
fn depth_after(kind: Kind, depth: usize) -> usize
    requires fits { depth < 2 ^ 64 - 1 }
    ensures { result ≡ depth_after kind depth }
{
    match kind {
        Kind::Enter => depth + 1,
        Kind::Exit => depth.saturating_sub(1),
    }
}

/// The run of an attention sequence, by the index of its enter in the list, and where the events beside it stand.
fn run_at(
    alloc: Global,
    bytes: &[u8],
    one_tilde: bool,
    index: usize,
    enter: &Event,
    exit: &Event,
    before: Option<usize>,
    behind: Option<usize>,
) -> Delimiters
    ensures { as_run result ≡ run_at one_tilde bytes.now index enter.now exit.now before behind }
{
    let start = enter.point.index;
    let end = exit.point.index;
    let before_it = class_beside(before, start, class_before(bytes, start));
    let after_it = class_beside(behind, end, class_after(bytes, end));
    let marker = marker_at(bytes, start);
    let left = end.saturating_sub(start);
    let marks = may_mark(one_tilde, marker, left);
    Delimiters {
        index,
        start: enter.point,
        marker,
        rest: left % 3,
        opens: marks && can_open(marker, &before_it, &after_it),
        closes: marks && can_close(marker, &before_it, &after_it),
        closed: Vec::new(alloc),
        left,
        opened: Vec::new(alloc),
    }
}

/// The delimiter runs of a list of events: its attention sequences that are in no other span.
///
/// A turn is a look at an event. Of each run the characters at its ends are looked up in tables besides.
pub fn runs_of_counted<L: Ledger>(
    alloc: Global,
    bytes: &[u8],
    one_tilde: bool,
    events: &[Event],
    turns: &mut Turns<L>,
) -> Result<Vec<Delimiters>, AllocError>
    ensures runs { IfOk result (λ runs. map as_run runs.items ≡ runs_in one_tilde bytes.now events.now) }
    ensures turns { turns.new ≤ turns.old + length events.now }
{
    let mut runs = Vec::new(alloc);
    let mut index = 0;
    let mut depth = 0;
    let mut before = None;
    while index + 1 < events.len() {
        turns.add_one();
        let enter = &events[index];
        let exit = &events[index + 1];
        if depth == 0 && is_sequence(enter, exit) {
            let behind = index_of_event(events, index + 2);
            runs.push(run_at(alloc, bytes, one_tilde, index, enter, exit, before, behind))?;
            before = Some(exit.point.index);
            index += 2;
        } else {
            depth = depth_after(enter.kind, depth);
            before = Some(enter.point.index);
            index += 1;
        }
    }
    Ok(runs)
}

/// The delimiter runs of a list of events, counted from nothing.
fn runs_uncounted<L: Ledger>(
    alloc: Global,
    bytes: &[u8],
    one_tilde: bool,
    events: &[Event],
    blank: Blank,
) -> Result<Vec<Delimiters>, AllocError>
    requires name { blank.name ≡ L.name }
    requires parts { blank.parts ≡ L.parts }
    requires some { 0 < blank.parts }
    ensures { IfOk result (λ runs. map as_run runs.items ≡ runs_in one_tilde bytes.now events.now) }
{
    let mut turns = Turns::<L>::new(blank);
    runs_of_counted(alloc, bytes, one_tilde, events, &mut turns)
}

/// The delimiter runs of a list of events, as `runs_of_counted` finds them.
pub fn runs_of(
    alloc: Global,
    bytes: &[u8],
    one_tilde: bool,
    events: &[Event],
) -> Result<Vec<Delimiters>, AllocError>
    ensures { IfOk result (λ runs. map as_run runs.items ≡ runs_in one_tilde bytes.now events.now) }
{
    runs_uncounted::<Brand>(alloc, bytes, one_tilde, events, Blank::new(1))
}
