//! Prefixes of a line: those of containers that go on with it, and those of containers that begin in it.

ghost use Rattle.std.specs.Prelude.{◌≡◌, ◌≤◌, ◌++◌, ℕ, List, IfOk, length, map, ◌+◌, ◌*◌};
ghost use Rattle.markdown_base.specs.Virtual.{Seat};
ghost use Rattle.mdblock_leaf_blocks.specs.LeafBlocks.{bytes_of};
ghost use Rattle.mdblock_lines.specs.Lines.{place_after};
ghost use Rattle.mdblock_lines.specs.Views.{container_of};
ghost use Rattle.mdblock_containers.specs.PlaceEvents.{HasColumns};
ghost use Rattle.mdblock_containers.specs.Prefixes.{going_on, columns_of};
ghost use Rattle.mdblock_containers.specs.SeatPlaces.{AreSeatsAt, AreInside, enters_at, events_of};
ghost use Rattle.mdblock_containers.specs.Skeleton.{begun_all, prefixes_marks};
ghost use Rattle.mdblock_containers.specs.Views.{begun_of, open_of};
ghost use Rattle.mdblock_containers.specs.Costs.{HaveSizes};

use crate::frames::list_name;
use crate::going::{Open, goes_on_open};
use crate::writing::{begun_prefix, enter, going_prefix};
use markdown_base::configuration::TabSize;
use markdown_base::event::{Event, Name, Point};
use mdblock_lines::bytes::{behind, front, indent};
use mdblock_lines::containers::{Container, ContainerKind, Prefix, first_from};
use mdconstructs_loop_counts::Turns;
use std::alloc::AllocError;
use std::sync::ledger::Ledger;

/// A place in a line, and how many columns of the line are before it.
#[derive(Clone, Copy)]
pub struct At {
    /// The place.
    pub place: Point,
    /// The columns before it.
    pub columns: usize,
}

/// The prefixes with which containers go on with a line, from the outermost on, by the line's virtual bytes. Returns the place behind them.
pub(crate) fn going_prefixes<L: Ledger>(
    events: &mut Vec<Event>,
    bytes: &[u8],
    tab: TabSize,
    start: Point,
    stack: &[Open],
    number: usize,
    t: &[u8],
    turns: &mut Turns<L>,
) -> Result<At, AllocError>
    requires columns { HasColumns tab bytes.now start (length t.now) }
    requires sizes { HaveSizes (map open_of stack.now) }
    ensures marks { IfOk result (λ _. (seats : List Seat) → AreSeatsAt tab bytes.now start seats → t.now ≡ bytes_of seats → events.new.items ≡ events.old.items ++ events_of (prefixes_marks bytes.now (going_on (map open_of stack.now) number t.now) seats)) }
    ensures columns { IfOk result (λ at. at.columns ≡ columns_of (going_on (map open_of stack.now) number t.now)) }
    ensures within { IfOk result (λ at. at.columns ≤ length t.now) }
    ensures place { IfOk result (λ at. at.place ≡ place_after tab bytes.now start at.columns) }
    ensures turns { turns.new ≤ turns.old + 4 * length t.now + 2 }
{
    let mut place = start;
    let mut at = 0;
    let mut first = indent(t, turns);
    let whole = t.len();
    for entry in stack {
        turns.add_one();
        if at == whole {
            return Ok(At { place, columns: at });
        }
        let rest = behind(t, at);
        let Some(size) = goes_on_open(entry, number, rest, first - at) else {
            return Ok(At { place, columns: at });
        };
        let part = front(rest, size);
        place = going_prefix(events, bytes, tab, place, &entry.container, part, turns)?;
        first = first_from(t, at, at + size, first, turns);
        at += size;
    }
    Ok(At { place, columns: at })
}

/// A container begins at a place, and its list with it, if a line with this number begins both.
fn enter_container(
    events: &mut Vec<Event>,
    c: &Container,
    list: usize,
    place: Point,
) -> Result<(), AllocError>
    ensures { IfOk result (λ _. events.new.items ≡ events.old.items ++ enters_at (container_of list c.now) place) }
{
    match c.kind {
        ContainerKind::Quote => enter(events, Name::BlockQuote, place),
        ContainerKind::Item => {
            if list == c.line {
                enter(events, list_name(c), place)?;
            }
            enter(events, Name::ListItem, place)
        }
        ContainerKind::Footnote => enter(events, Name::GfmFootnoteDefinition, place),
    }
}

/// Containers begin in a line, each with its prefix: the first in this list, the others in lists that begin with them. `t` are the virtual bytes
/// from the place on where they begin. Returns the place behind the prefixes.
pub(crate) fn begun_prefixes<L: Ledger>(
    events: &mut Vec<Event>,
    bytes: &[u8],
    tab: TabSize,
    start: Point,
    list: usize,
    number: usize,
    begun: &[Prefix],
    t: &[u8],
    turns: &mut Turns<L>,
) -> Result<Point, AllocError>
    requires columns { HasColumns tab bytes.now start (length t.now) }
    requires inside { AreInside begun.now t.now }
    ensures marks { IfOk result (λ _. (seats : List Seat) → AreSeatsAt tab bytes.now start seats → t.now ≡ bytes_of seats → events.new.items ≡ events.old.items ++ events_of (begun_all bytes.now (begun_of list number begun.now) seats)) }
    ensures place { IfOk result (λ p. p ≡ place_after tab bytes.now start (columns_of (begun_of list number begun.now))) }
    ensures turns { turns.new ≤ turns.old + 3 * length t.now }
{
    let mut place = start;
    let mut at = 0;
    let mut of_list = list;
    for prefix in begun {
        turns.add_one();
        enter_container(events, &prefix.container, of_list, place)?;
        let text = front(behind(t, at), prefix.size);
        place = begun_prefix(events, bytes, tab, place, &prefix.container, text, turns)?;
        at += prefix.size;
        of_list = number;
    }
    Ok(place)
}
