//! The events of a document with the checks of its task list items.

ghost use Rattle.std.specs.Prelude.{ℕ, ◌≡◌, ◌+◌, ◌++◌, ◌<◌, ◌≤◌, IfOk, IsOk, OnOk, false};
ghost use Rattle.mdblock_tables.specs.Tasks.{value_name};
ghost use Rattle.mdgfm_tasks.specs.declared.awaited.Awaited.TheVariants.{Nothing};
ghost use Rattle.mdgfm_tasks.specs.Checks.{has_check};
ghost use Rattle.mdgfm_tasks.specs.TaskEvents.{check_events, events_with, task_events};

use crate::awaited::{Awaited, awaited_behind};
use crate::checks::{Found, check_of, has_check};
use markdown_base::configuration::ParseOptions;
use markdown_base::event::{Event, Kind, Name, Point};
use mdconstructs_loop_counts::Turns;
use mdgfm_events::places::{event, place_at, push_leaf};
use std::alloc::{AllocError, Global};
use std::marker::Brand;
use std::sync::ledger::{Blank, Ledger};

/// The name of what is between the brackets of a check.
fn value_name(is_checked: bool) -> Name
    ensures { result ≡ value_name is_checked }
{
    if is_checked {
        Name::GfmTaskListItemValueChecked
    } else {
        Name::GfmTaskListItemValueUnchecked
    }
}

/// Adds a check at a place, and what is left of its text behind it.
fn push_check(
    out: &mut Vec<Event>,
    bytes: &[u8],
    tab: usize,
    at: Point,
    found: Found,
) -> Result<(), AllocError>
    requires tab { 0 < tab }
    requires room { at.index + found.check.columns + 3 ≤ found.text.end.index }
    ensures { OnOk result (out.new.items ≡ out.old.items ++ check_events tab bytes.now at found) }
{
    let start = place_at(bytes, tab, at, at.index + found.check.columns);
    let value = place_at(bytes, tab, start, start.index + 1);
    let closing = place_at(bytes, tab, value, value.index + 1);
    let end = place_at(bytes, tab, closing, closing.index + 1);
    push_leaf(out, Name::SpaceOrTab, at, start)?;
    out.push(event(Kind::Enter, Name::GfmTaskListItemCheck, start))?;
    push_leaf(out, Name::GfmTaskListItemMarker, start, value)?;
    push_leaf(out, value_name(found.check.is_checked), value, closing)?;
    push_leaf(out, Name::GfmTaskListItemMarker, closing, end)?;
    out.push(event(Kind::Exit, Name::GfmTaskListItemCheck, end))?;
    push_leaf(out, Name::Data, end, found.text.end)?;
    Ok(())
}

/// The events with their checks. It fails only if it runs out of memory.
fn events_with<L: Ledger>(
    alloc: Global,
    bytes: &[u8],
    tab: usize,
    events: &[Event],
    turns: &mut Turns<L>,
) -> Result<Vec<Event>, AllocError>
    requires { 0 < tab }
    ensures { IfOk result (λ all. all.items ≡ events_with tab bytes.now 0 Nothing events.now) }
{
    let mut out = Vec::new(alloc);
    let mut awaited = Awaited::Nothing;
    let mut at = 0;
    while at < events.len() {
        match check_of(bytes, awaited, &events[at..], turns) {
            Some(found) => {
                push_check(&mut out, bytes, tab, events[at].point, found)?;
                awaited = Awaited::Nothing;
                at += found.text.size;
            }
            None => {
                out.push(events[at])?;
                awaited = awaited_behind(awaited, &events[at]);
                at += 1;
            }
        }
    }
    Ok(out)
}

/// The events with their checks, if there are any, counted from nothing.
fn with_tasks_uncounted<L: Ledger>(
    alloc: Global,
    bytes: &[u8],
    tab: usize,
    events: Vec<Event>,
    blank: Blank,
) -> Result<Vec<Event>, AllocError>
    requires tab { 0 < tab }
    requires name { blank.name ≡ L.name }
    requires parts { blank.parts ≡ L.parts }
    requires some { 0 < blank.parts }
    ensures events { IfOk result (λ all. all.items ≡ events_with tab bytes.now 0 Nothing events.items) }
    ensures none { has_check bytes.now Nothing events.items ≡ false → IsOk result }
{
    let mut turns = Turns::<L>::new(blank);
    if !has_check(bytes, events.as_slice(), &mut turns) {
        return Ok(events);
    }
    events_with(alloc, bytes, tab, events.as_slice(), &mut turns)
}

/// The events of a document with the checks of its task list items in place of the text that they cover, if the option is on. It fails only if it runs
/// out of memory.
///
/// Without the option, or if there is no check, they are returned as they are, and not copied.
pub fn with_tasks(
    alloc: Global,
    bytes: &[u8],
    options: &ParseOptions,
    events: Vec<Event>,
) -> Result<Vec<Event>, AllocError>
    ensures events { IfOk result (λ all. all.items ≡ task_events options.now bytes.now events.items) }
    ensures off { options.now.constructs.gfm_task_list_item ≡ false → IsOk result }
    ensures none { has_check bytes.now Nothing events.items ≡ false → IsOk result }
{
    if !options.constructs.gfm_task_list_item {
        return Ok(events);
    }
    let tab = options.tab_size.get();
    with_tasks_uncounted::<Brand>(alloc, bytes, tab, events, Blank::new(1))
}
