//! Edits of small lists, with expected lists worked by hand.

ghost use Rattle.markdown.specs.Edits.{AreDisjoint};
ghost use Rattle.markdown.specs.Events.{EndsBelow};
ghost use Rattle.std.specs.Prelude.{◌≡◌, ◌*◌, ◌^◌, ◌<◌, ◌≤◌, length, All, None, IfOk, IfSome};

use crate::shown::assert_shown;
use markdown::event::{Content, Event, Kind, Link, Name};
use markdown::util::edit_map::EditMap;
use mdtests_base::shown::{at, shown};
use std::alloc::{AllocError, Global};

/// An event without a link. Its column identifies it.
fn event(column: usize) -> Event
    ensures { result.link ≡ None }
{
    Event {
        kind: Kind::Enter,
        name: Name::Data,
        point: at(1, column, 0, 0),
        link: None,
    }
}

/// An event with a link.
fn linked(previous: Option<usize>, next: Option<usize>) -> Event
    ensures { IfSome result.link (λ l. (l.previous ≡ previous) × (l.next ≡ next)) }
{
    let content = Content::Text;
    let link = Some(Link {
        previous,
        next,
        content,
    });
    Event { link, ..event(1) }
}

/// Makes the edits of a map, and returns the columns of the events then, which identify them.
fn edited(alloc: Global, events: &mut Vec<Event>, map: &mut EditMap) -> Result<String, AllocError>
    requires disjoint { AreDisjoint 0 map.old (length events.old.items) }
    requires ends { All (EndsBelow (length events.old.items)) events.old.items }
{
    map.consume(events)?;
    let mut text = String::new(alloc);
    for event in events.iter() {
        write!(text, "{} ", event.point.column)?;
    }
    Ok(text)
}

/// Edits of six events: three at index 2, one that is none, an addition in front of twenty-four that are there, and one at the end.
fn small_edits(alloc: Global) -> Result<EditMap, AllocError>
    ensures { IfOk result (λ map. AreDisjoint 0 map 6) }
{
    let mut map = EditMap::new(alloc);
    map.add(2, 2, vec![in alloc; event(91)]?)?;
    map.add(2, 0, vec![in alloc; event(92)]?)?;
    map.add_before(2, 0, vec![in alloc; event(93)]?)?;
    map.add(0, 0, Vec::new(alloc))?;
    map.add(5, 0, Vec::from_array(alloc, [event(9); 24])?)?;
    map.add_before(5, 0, vec![in alloc; event(8)]?)?;
    map.add(6, 0, vec![in alloc; event(94)]?)?;
    Ok(map)
}

/// Six events, with these edits.
fn six_edited(alloc: Global) -> Result<String, AllocError> {
    let mut map = small_edits(alloc)?;
    let events = [event(1), event(2), event(3), event(4), event(5), event(6)];
    let mut events = Vec::from_array(alloc, events)?;
    edited(alloc, &mut events, &mut map)
}

#[test]
fn small_edits_are_made(rt: HostRuntime) {
    let want = "1 2 93 91 92 5 8 9 9 9 9 9 9 9 9 9 9 9 9 9 9 9 9 9 9 9 9 9 9 9 9 6 94 ";
    assert_shown(&rt, six_edited(rt.alloc()), want);
}

/// The enter of the span that is `apart` spans before span k.
fn enter_before(k: usize, apart: usize) -> Option<usize>
    requires { 2 * k < 2 ^ 64 }
    ensures { IfSome result (λ p. p ≤ 2 * k) }
{
    if k >= apart {
        Some(2 * (k - apart))
    } else {
        None
    }
}

/// The enter of the span that is `apart` spans after span k, of `count` spans.
fn enter_behind(k: usize, apart: usize, count: usize) -> Option<usize>
    requires fits { 2 * count < 2 ^ 64 }
    requires inside { k < count }
    ensures { IfSome result (λ n. n < 2 * count) }
{
    if apart < count - k {
        Some(2 * (k + apart))
    } else {
        None
    }
}

/// Spans, one after the other, in as many chains as they are apart: event 2 k enters span k, and is linked to the enters of its
/// neighbours. The event after it is at column 2 k + 2.
fn chains(alloc: Global, count: usize, apart: usize) -> Result<Vec<Event>, AllocError>
    requires { 2 * count < 2 ^ 64 }
    ensures len { IfOk result (λ v. length v.items ≡ 2 * count) }
    ensures ends { IfOk result (λ v. All (EndsBelow (2 * count)) v.items) }
{
    let mut events = Vec::new(alloc);
    for k in 0..count {
        events.push(linked(enter_before(k, apart), enter_behind(k, apart, count)))?;
        events.push(event(2 * k + 2))?;
    }
    Ok(events)
}

/// Two chains of spans, one within the stretch of the other, with two events added in front of most, and without the fourth span.
fn chains_edited(alloc: Global) -> Result<String, AllocError> {
    let mut events = chains(alloc, 5, 2)?;
    let mut map = EditMap::new(alloc);
    map.add(6, 2, Vec::new(alloc))?;
    map.add(1, 0, vec![in alloc; event(91), event(92)]?)?;
    map.consume(&mut events)?;
    shown(alloc, events.as_slice())
}

/// Chains are moved, though they interleave; an end that is removed is none.
#[test]
fn ends_of_links_are_moved_or_removed(rt: HostRuntime) {
    let want =
        "enter Data 1:1 (0+0) Text None Some(6); enter Data 1:91 (0+0); enter Data 1:92 (0+0); \
        enter Data 1:2 (0+0); enter Data 1:1 (0+0) Text None None; enter Data 1:4 (0+0); \
        enter Data 1:1 (0+0) Text Some(0) Some(8); enter Data 1:6 (0+0); enter Data 1:1 (0+0) Text Some(6) None; \
        enter Data 1:10 (0+0)";
    assert_shown(&rt, chains_edited(rt.alloc()), want);
}

/// Two events are added in front of each span of a chain of a hundred, the last span first.
fn chain_edited(alloc: Global) -> Result<Vec<Event>, AllocError> {
    let mut events = chains(alloc, 100, 1)?;
    let mut map = EditMap::new(alloc);
    for step in 0..100 {
        let k = 99 - step;
        map.add(2 * k, 0, vec![in alloc; event(91), event(92)]?)?;
    }
    map.consume(&mut events)?;
    Ok(events)
}

/// Whether these are the events of such a chain: of four, the third one is linked to the third ones before and after it.
fn are_edited(events: &[Event]) -> bool {
    for (index, event) in events.iter().enumerate() {
        let previous = index.checked_sub(4);
        let next = index.checked_add(4).filter(|next| *next < 400);
        let link = if index % 4 == 2 {
            linked(previous, next).link
        } else {
            None
        };
        if event.point.column != [91, 92, 1, index / 2 + 1][index % 4] || event.link != link {
            return false;
        }
    }
    events.len() == 400
}

#[test]
fn edits_from_the_last_to_the_first_are_made(rt: HostRuntime) {
    let events = chain_edited(rt.alloc()).expect(&rt, "memory");
    assert!(rt; are_edited(events.as_slice()));
}
