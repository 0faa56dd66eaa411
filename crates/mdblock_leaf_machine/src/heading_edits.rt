//! The edits by which a paragraph becomes a setext heading, once its underline was read.
//!
//! `end` is the index of the paragraph's enter, and `start` that of its exit, where an underline follows.

ghost use Rattle.std.specs.Prelude.{◌≡◌, ◌+◌, ◌<◌, ◌^◌, ◌∷◌, [], length, OnOk};
ghost use Rattle.markdown_edits.specs.Edits.{removal_at};
ghost use Rattle.markdown_tokenizer.specs.Calls.{with_local};
ghost use Rattle.markdown_tokenizer.specs.Configuration.{at_configuration};
ghost use Rattle.mdblock_leaf_rows.specs.HeadingEdits.{under, renamed, paragraph_begins, paragraph_ends, heading_ends, CanEndHeading};

use markdown_tokenizer::event::{self, Event};
use markdown_tokenizer::state::MachineTypes;
use markdown_tokenizer::tokenizer::Tokenizer;
use mdconstructs_tables::chunks::last_event;
use std::alloc::{AllocError, Global};

/// Notes the last event as the enter of the paragraph.
pub(crate) fn begin_paragraph<'a, M: MachineTypes>(t: &mut Tokenizer<'a, M>)
    ensures { t.new ≡ at_configuration t.old (with_local t.old.configuration (paragraph_begins t.old.configuration)) }
{
    t.tokenize_state.end = last_event(t);
}

/// Notes the last event as the exit of the paragraph.
pub(crate) fn end_paragraph<'a, M: MachineTypes>(t: &mut Tokenizer<'a, M>)
    ensures { t.new ≡ at_configuration t.old (with_local t.old.configuration (paragraph_ends t.old.configuration)) }
{
    t.tokenize_state.start = last_event(t);
}

/// The paragraph before the underline becomes a heading: its enter begins the heading and its text, its exit ends the text, and the
/// heading ends with the underline, whose exit is the last event.
pub(crate) fn end_heading<'a, M: MachineTypes>(
    alloc: Global,
    t: &mut Tokenizer<'a, M>,
) -> Result<(), AllocError>
    requires { CanEndHeading t.old.configuration }
    ensures { OnOk result (t.new ≡ at_configuration t.old (with_local t.old.configuration (heading_ends t.old.configuration))) }
{
    let first = t.tokenize_state.end;
    let second = t.tokenize_state.start;
    let third = last_event(t);
    rename_to_two(
        alloc,
        t,
        first,
        event::Name::HeadingSetext,
        event::Name::HeadingSetextText,
    )?;
    rename(alloc, t, second, event::Name::HeadingSetextText)?;
    rename_to_two(
        alloc,
        t,
        third,
        event::Name::HeadingSetextUnderline,
        event::Name::HeadingSetext,
    )
}

/// Adds the edit that puts the event at an index under another name in its place.
fn rename<'a, M: MachineTypes>(
    alloc: Global,
    t: &mut Tokenizer<'a, M>,
    index: usize,
    name: event::Name,
) -> Result<(), AllocError>
    requires there { index < length t.old.configuration.events }
    requires sum_fits { removal_at t.old.configuration.local.map index + 1 < 2 ^ 64 }
    ensures { OnOk result (t.new ≡ at_configuration t.old (with_local t.old.configuration (renamed index (name ∷ []) t.old.configuration))) }
{
    let event = under(&t.events()[index], name);
    t.map.add(index, 1, vec![in alloc; event]?)
}

/// Adds the edit that puts the event at an index under two names in its place, one after the other.
fn rename_to_two<'a, M: MachineTypes>(
    alloc: Global,
    t: &mut Tokenizer<'a, M>,
    index: usize,
    name: event::Name,
    second: event::Name,
) -> Result<(), AllocError>
    requires there { index < length t.old.configuration.events }
    requires sum_fits { removal_at t.old.configuration.local.map index + 1 < 2 ^ 64 }
    ensures { OnOk result (t.new ≡ at_configuration t.old (with_local t.old.configuration (renamed index (name ∷ second ∷ []) t.old.configuration))) }
{
    let event = under(&t.events()[index], name);
    let other = under(&t.events()[index], second);
    t.map.add(index, 1, vec![in alloc; event, other]?)
}

/// The event with another name, and no link.
fn under(event: &Event, name: event::Name) -> Event
    ensures { result ≡ under event.now name }
{
    Event {
        kind: event.kind,
        name,
        point: event.point,
        link: None,
    }
}
