//! Brackets of links and images, and ends of labels (CommonMark, "Links" and "Images").
//!
//! The brackets that wait are kept in `label_starts`, the last one last: what each may begin, where its events are, and whether a link is
//! behind it, as far as the brackets behind it that wait are not asked.

ghost use Rattle.std.specs.Prelude.{◌≡◌, IfOk, OnOk, reverse};
ghost use Rattle.markdown_tokenizer.specs.Calls.{with_local};
ghost use Rattle.markdown_tokenizer.specs.Configuration.{at_configuration};
ghost use Rattle.markdown_tokenizer.specs.Sight.{sight_of};
ghost use Rattle.mdconstructs_tables.specs.RowInvariant.{DoesAll, IsCallable, step_in};
ghost use Rattle.mdinline_text_machine.specs.TextBytes.{text_byte};
ghost use Rattle.mdinline_labels.specs.Defined.{defines};
ghost use Rattle.mdinline_full_references.specs.FullReferenceRows.{label_end, label_is_there};
ghost use Rattle.mdinline_machine.specs.BracketRows.{bracket_events, bracket_is_next, close_is_next, collapsed_open, collapsed_start, end_after, end_begins, end_is_awaited, end_may_make, end_nok, end_ok, end_start, image_begins, image_open, image_start, is_image, label_is_wanted, link_begins, link_start, mark_begins, may_make, not_full, not_resource, one_waits, reference_end, waits_less, waits_more, without_last};

use crate::attention::run_begins;
use crate::labels::{label_is_wanted, own_label_is_defined};
use crate::names;
use markdown_base::owned::Items;
use markdown_tokenizer::event;
use markdown_tokenizer::state::{MachineTypes, Name, State};
use markdown_tokenizer::tokenizer::{LabelKind, LabelStart, Tokenizer};
use mdconstructs_tables::marker;
use mdinline_full_references::full_reference;
use mdinline_labels::labels::Labels;
use std::alloc::{AllocError, Global};
use std::mem::replace;

/// Whether a bracket is of an image.
fn is_image(kind: LabelKind) -> bool
    ensures { result ≡ is_image kind }
{
    kind == LabelKind::Image
}

/// How many events a bracket has.
fn bracket_events(kind: LabelKind) -> usize
    ensures { result ≡ bracket_events kind }
{
    if is_image(kind) { 6 } else { 4 }
}

/// A bracket more waits, which was just read.
fn wait_more<'a, M: MachineTypes>(
    t: &mut Tokenizer<'a, M>,
    kind: LabelKind,
) -> Result<(), AllocError>
    ensures { OnOk result (t.new ≡ at_configuration t.old (with_local t.old.configuration (waits_more kind t.old.configuration))) }
{
    let count = t.events().len();
    let enter = count.saturating_sub(bracket_events(kind));
    t.tokenize_state.label_starts.push(LabelStart {
        kind,
        start: (enter, count.saturating_sub(1)),
        inactive: false,
    })
}

/// The last of these brackets is taken away. If a link is behind it, or is made of it, one is behind the bracket before it.
fn take_last(starts: &mut Vec<LabelStart>, made: bool)
    ensures { starts.new.items ≡ without_last made starts.old.items }
{
    let Some(last) = starts.pop() else {
        return;
    };
    let count = starts.len();
    if count > 0 && (last.inactive || made && !is_image(last.kind)) {
        starts[count - 1].inactive = true;
    }
}

/// The last bracket that waits is taken away.
fn wait_less<'a, M: MachineTypes>(alloc: Global, t: &mut Tokenizer<'a, M>, made: bool)
    ensures { t.new ≡ at_configuration t.old (with_local t.old.configuration (waits_less made t.old.configuration)) }
{
    let none = Items::new(alloc);
    let mut starts = replace(&mut t.tokenize_state.label_starts, none).into_vec();
    take_last(&mut starts, made);
    t.tokenize_state.label_starts = Items::from_vec(starts);
}

/// Whether a bracket is among these.
fn one_waits(starts: &[LabelStart]) -> bool
    ensures { result ≡ one_waits (reverse starts.now) }
{
    !starts.is_empty()
}

/// Whether the last of these brackets may make something.
fn last_may_make(starts: &[LabelStart]) -> bool
    ensures { result ≡ may_make (reverse starts.now) }
{
    match starts.last() {
        None => false,
        Some(last) => is_image(last.kind) || !last.inactive,
    }
}

/// Whether a bracket of a link waits to be read: `[`, and those are on.
pub(crate) fn link_begins<'a, M: MachineTypes>(t: &Tokenizer<'a, M>) -> bool
    ensures { result ≡ link_begins t.now.given (sight_of t.now) t.now.configuration }
{
    t.parse_state().options.constructs.label_start_link && t.current() == Some(b'[')
}

/// Whether a bracket of an image may wait to be read: `!`, and those are on.
pub(crate) fn image_begins<'a, M: MachineTypes>(t: &Tokenizer<'a, M>) -> bool
    ensures { result ≡ image_begins t.now.given (sight_of t.now) t.now.configuration }
{
    t.parse_state().options.constructs.label_start_image && t.current() == Some(b'!')
}

/// Whether `[` waits to be read.
fn bracket_is_next<'a, M: MachineTypes>(t: &Tokenizer<'a, M>) -> bool
    ensures { result ≡ bracket_is_next t.now.given (sight_of t.now) t.now.configuration }
{
    t.current() == Some(b'[')
}

/// Whether `]` waits to be read.
fn close_is_next<'a, M: MachineTypes>(t: &Tokenizer<'a, M>) -> bool
    ensures { result ≡ close_is_next t.now.given (sight_of t.now) t.now.configuration }
{
    t.current() == Some(b']')
}

/// Whether it was noted that a label is there, of a full reference that is none.
fn label_is_there<'a, M: MachineTypes>(t: &Tokenizer<'a, M>) -> bool
    ensures { result ≡ label_is_there t.now.given (sight_of t.now) t.now.configuration }
{
    t.tokenize_state.marker_b == 1
}

/// Whether an end waits to be read: `]`, and those are on.
fn end_begins<'a, M: MachineTypes>(t: &Tokenizer<'a, M>) -> bool
    ensures { result ≡ end_begins t.now.given (sight_of t.now) t.now.configuration }
{
    t.parse_state().options.constructs.label_end && t.current() == Some(b']')
}

/// Whether an end waits to be read, and a bracket waits for it.
pub(crate) fn end_is_awaited<'a, M: MachineTypes>(t: &Tokenizer<'a, M>) -> bool
    ensures { result ≡ end_is_awaited t.now.given (sight_of t.now) t.now.configuration }
{
    end_begins(t) && one_waits(t.tokenize_state.label_starts.as_slice())
}

/// Whether an end waits to be read, and a bracket waits for it that may make something.
pub(crate) fn end_may_make<'a, M: MachineTypes>(t: &Tokenizer<'a, M>) -> bool
    ensures { result ≡ end_may_make t.now.given (sight_of t.now) t.now.configuration }
{
    end_begins(t) && last_may_make(t.tokenize_state.label_starts.as_slice())
}

/// Whether a run begins, or a bracket or an end may.
pub(crate) fn mark_begins<'a, M: MachineTypes>(t: &Tokenizer<'a, M>) -> bool
    ensures { result ≡ mark_begins t.now.given (sight_of t.now) t.now.configuration }
{
    run_begins(t) || link_begins(t) || image_begins(t) || end_begins(t)
}

/// At `[`: a bracket of a link.
pub(crate) fn link_start<'a, M: MachineTypes>(t: &mut Tokenizer<'a, M>) -> Result<State, AllocError>
    requires { IsCallable text_byte link_start t.old }
    ensures { IfOk result (DoesAll (step_in text_byte link_start t.old) t.old t.new) }
{
    t.enter(event::Name::LabelLink)?;
    marker(t, event::Name::LabelMarker)?;
    t.exit(event::Name::LabelLink)?;
    wait_more(t, LabelKind::Link)?;
    Ok(State::Next(Name::TextBefore))
}

/// At `!`: a bracket of an image is tried.
pub(crate) fn image_start<'a, M: MachineTypes>(
    t: &mut Tokenizer<'a, M>,
) -> Result<State, AllocError>
    requires { IsCallable text_byte image_start t.old }
    ensures { IfOk result (DoesAll (step_in text_byte image_start t.old) t.old t.new) }
{
    t.enter(event::Name::LabelImage)?;
    marker(t, event::Name::LabelImageMarker)?;
    Ok(State::Next(Name::LabelStartImageOpen))
}

/// Behind `!`: `[` may be next.
pub(crate) fn image_open<'a, M: MachineTypes>(t: &mut Tokenizer<'a, M>) -> Result<State, AllocError>
    requires { IsCallable text_byte image_open t.old }
    ensures { IfOk result (DoesAll (step_in text_byte image_open t.old) t.old t.new) }
{
    match t.current() {
        None => Ok(State::Nok),
        Some(_) => {
            if !bracket_is_next(t) {
                return Ok(State::Nok);
            }
            marker(t, event::Name::LabelMarker)?;
            t.exit(event::Name::LabelImage)?;
            wait_more(t, LabelKind::Image)?;
            Ok(State::Ok)
        }
    }
}

/// At `]` that may make something: a tail may follow.
pub(crate) fn end_start<'a, M: MachineTypes>(t: &mut Tokenizer<'a, M>) -> Result<State, AllocError>
    requires { IsCallable text_byte end_start t.old }
    ensures { IfOk result (DoesAll (step_in text_byte end_start t.old) t.old t.new) }
{
    t.enter(event::Name::LabelEnd)?;
    marker(t, event::Name::LabelMarker)?;
    t.exit(event::Name::LabelEnd)?;
    Ok(State::Next(Name::LabelEndResourceStart))
}

/// At `]` with no resource behind it: a full reference is tried.
pub(crate) fn not_resource<'a, M: MachineTypes>(
    t: &mut Tokenizer<'a, M>,
) -> Result<State, AllocError>
    requires { IsCallable text_byte not_resource t.old }
    ensures { IfOk result (DoesAll (step_in text_byte not_resource t.old) t.old t.new) }
{
    t.attempt_next(Name::LabelEndOk, Name::LabelEndReferenceNotFull)?;
    Ok(State::Retry(names::LabelEndReferenceStart))
}

/// At `]`: a full reference may follow.
pub(crate) fn reference_end<'a, M: MachineTypes>(
    t: &mut Tokenizer<'a, M>,
) -> Result<State, AllocError>
    requires { IsCallable text_byte reference_end t.old }
    ensures { IfOk result (DoesAll (step_in text_byte reference_end t.old) t.old t.new) }
{
    t.enter(event::Name::LabelEnd)?;
    marker(t, event::Name::LabelMarker)?;
    t.exit(event::Name::LabelEnd)?;
    Ok(State::Next(Name::LabelEndReferenceFull))
}

/// At the `]` of a label behind `]`: it is wanted if it is defined.
pub(crate) fn wanted_label_end<'a, M: MachineTypes>(
    alloc: Global,
    t: &mut Tokenizer<'a, M>,
    labels: &Labels,
) -> Result<State, AllocError>
    requires { IsCallable text_byte (label_end (label_is_wanted (defines labels.now))) t.old }
    ensures { IfOk result (DoesAll (step_in text_byte (label_end (label_is_wanted (defines labels.now))) t.old) t.old t.new) }
{
    match t.current() {
        None => full_reference::label_end(t, false),
        Some(_) => {
            let wanted = label_is_wanted(alloc, t, labels)?;
            full_reference::label_end(t, wanted)
        }
    }
}

/// At `]` with no full reference behind it: something is made if no label is there, and the bracket's own label is defined.
pub(crate) fn not_full<'a, M: MachineTypes>(
    alloc: Global,
    t: &mut Tokenizer<'a, M>,
    labels: &Labels,
) -> Result<State, AllocError>
    requires { IsCallable text_byte (not_full (defines labels.now)) t.old }
    ensures { IfOk result (DoesAll (step_in text_byte (not_full (defines labels.now)) t.old) t.old t.new) }
{
    if label_is_there(t) {
        return Ok(State::Retry(Name::LabelEndNok));
    }
    if !own_label_is_defined(alloc, t, labels)? {
        return Ok(State::Retry(Name::LabelEndNok));
    }
    t.enter(event::Name::LabelEnd)?;
    marker(t, event::Name::LabelMarker)?;
    t.exit(event::Name::LabelEnd)?;
    Ok(State::Next(Name::LabelEndAfter))
}

/// Behind `]` that makes something by the bracket's own label: `[]` may follow.
pub(crate) fn end_after<'a, M: MachineTypes>(t: &mut Tokenizer<'a, M>) -> Result<State, AllocError>
    requires { IsCallable text_byte end_after t.old }
    ensures { IfOk result (DoesAll (step_in text_byte end_after t.old) t.old t.new) }
{
    match t.current() {
        None => Ok(State::Retry(Name::LabelEndOk)),
        Some(_) => {
            if !bracket_is_next(t) {
                return Ok(State::Retry(Name::LabelEndOk));
            }
            t.attempt_next(Name::LabelEndOk, Name::LabelEndOk)?;
            Ok(State::Retry(Name::LabelEndReferenceCollapsed))
        }
    }
}

/// At the `[` of `[]`.
pub(crate) fn collapsed_start<'a, M: MachineTypes>(
    t: &mut Tokenizer<'a, M>,
) -> Result<State, AllocError>
    requires { IsCallable text_byte collapsed_start t.old }
    ensures { IfOk result (DoesAll (step_in text_byte collapsed_start t.old) t.old t.new) }
{
    match t.current() {
        None => Ok(State::Nok),
        Some(_) => {
            t.enter(event::Name::Reference)?;
            marker(t, event::Name::ReferenceMarker)?;
            Ok(State::Next(Name::LabelEndReferenceCollapsedOpen))
        }
    }
}

/// Behind it: `]` may be next.
pub(crate) fn collapsed_open<'a, M: MachineTypes>(
    t: &mut Tokenizer<'a, M>,
) -> Result<State, AllocError>
    requires { IsCallable text_byte collapsed_open t.old }
    ensures { IfOk result (DoesAll (step_in text_byte collapsed_open t.old) t.old t.new) }
{
    match t.current() {
        None => Ok(State::Nok),
        Some(_) => {
            if !close_is_next(t) {
                return Ok(State::Nok);
            }
            marker(t, event::Name::ReferenceMarker)?;
            t.exit(event::Name::Reference)?;
            Ok(State::Ok)
        }
    }
}

/// Behind the tail of a link or an image: its bracket waits no more.
pub(crate) fn end_ok<'a, M: MachineTypes>(
    alloc: Global,
    t: &mut Tokenizer<'a, M>,
) -> Result<State, AllocError>
    requires { IsCallable text_byte end_ok t.old }
    ensures { IfOk result (DoesAll (step_in text_byte end_ok t.old) t.old t.new) }
{
    wait_less(alloc, t, true);
    Ok(State::Retry(Name::TextBefore))
}

/// At `]` that makes nothing: the last bracket waits no more.
pub(crate) fn end_nok<'a, M: MachineTypes>(
    alloc: Global,
    t: &mut Tokenizer<'a, M>,
) -> Result<State, AllocError>
    requires { IsCallable text_byte end_nok t.old }
    ensures { IfOk result (DoesAll (step_in text_byte end_nok t.old) t.old t.new) }
{
    marker(t, event::Name::LabelMarker)?;
    wait_less(alloc, t, false);
    Ok(State::Next(Name::TextBefore))
}
