//! Spans of containers that are open.

ghost use Rattle.std.specs.Prelude.{◌≡◌, ◌≤◌, ◌++◌, ◌==◌, ◌&&◌, [], ◌∷◌, IfOk, length, take, drop, map, ◌+◌, min};
ghost use Rattle.std.specs.List.{flat_map};
ghost use Rattle.markdown_base.specs.Events.{same_name};
ghost use Rattle.mdblock_containers.specs.Frames.{exits_at, frame_of, frames_in, list_name_of};
ghost use Rattle.mdblock_containers.specs.Rest.{exits_to};
ghost use Rattle.mdblock_containers.specs.SeatPlaces.{events_of};
ghost use Rattle.mdblock_containers.specs.Stood.{IsStood};
ghost use Rattle.mdblock_containers.specs.Skeleton.{frames_of, shared};
ghost use Rattle.mdblock_containers.specs.Views.{open_of};

use crate::going::Open;
use crate::writing::exit;
use markdown_base::event::{Event, Name, Point};
use mdblock_lines::containers::{Container, ContainerKind};
use mdconstructs_loop_counts::Turns;
use std::alloc::AllocError;
use std::sync::ledger::Ledger;

/// A span that is open: a quote, a list, an item or a footnote definition.
#[derive(Clone, Copy)]
pub struct Frame {
    /// Its name.
    pub name: Name,
    /// The number of its first line.
    pub line: usize,
}

/// The name of the list in which an item stands.
pub fn list_name(c: &Container) -> Name
    ensures { result ≡ list_name_of c.now.digits }
{
    if c.digits >= 1 {
        Name::ListOrdered
    } else {
        Name::ListUnordered
    }
}

/// Exits spans until so many are open, the innermost first.
pub fn exit_frames<L: Ledger>(
    events: &mut Vec<Event>,
    frames: &mut Vec<Frame>,
    many: usize,
    place: Point,
    turns: &mut Turns<L>,
) -> Result<(), AllocError>
    requires { many ≤ length frames.old.items }
    ensures events { IfOk result (λ _. events.new.items ≡ events.old.items ++ exits_at place (drop many frames.old.items)) }
    ensures frames { IfOk result (λ _. frames.new.items ≡ take many frames.old.items) }
    ensures turns { turns.new + many ≤ turns.old + length frames.old.items }
{
    while frames.len() > many {
        turns.add_one();
        let Some(frame) = frames.pop() else {
            return Ok(());
        };
        exit(events, frame.name, place)?;
    }
    Ok(())
}

/// Exits spans, the last one first.
fn exit_all<L: Ledger>(
    events: &mut Vec<Event>,
    frames: &[Frame],
    place: Point,
    turns: &mut Turns<L>,
) -> Result<(), AllocError>
    ensures events { IfOk result (λ _. events.new.items ≡ events.old.items ++ exits_at place frames.now) }
    ensures turns { turns.new ≤ turns.old + length frames.now }
{
    let mut left = frames.len();
    while left > 0 {
        turns.add_one();
        left -= 1;
        exit(events, frames[left].name, place)?;
    }
    Ok(())
}

/// Exits the spans that the next part is not in. The first `opened` ones are open. It stands in the first `kept` of them,
/// and in those behind all.
pub(crate) fn exit_others<L: Ledger>(
    events: &mut Vec<Event>,
    frames: &[Frame],
    kept: usize,
    opened: usize,
    place: Point,
    turns: &mut Turns<L>,
) -> Result<(), AllocError>
    requires kept { kept ≤ opened }
    requires opened { opened ≤ length frames.now }
    ensures events { let all = map frame_of (take opened frames.now) in IfOk result (λ _. events.new.items ≡ events.old.items ++ events_of (exits_to (drop (kept + shared (drop kept all) (map frame_of (drop opened frames.now))) all) place)) }
    ensures turns { turns.new + kept ≤ turns.old + opened }
{
    let all = first_frames(frames, opened);
    let more = shared(
        behind_frames(all, kept),
        behind_frames(frames, opened),
        turns,
    );
    exit_all(events, behind_frames(all, kept + more), place, turns)?;
    Ok(())
}

/// Drops spans from one on up to another: those behind them move to the front.
pub(crate) fn drop_frames(frames: &mut Vec<Frame>, from: usize, to: usize)
    requires order { from ≤ to }
    requires within { to ≤ length frames.old.items }
    ensures { frames.new.items ≡ take from frames.old.items ++ drop to frames.old.items }
{
    let all = frames.len();
    frames.copy_within(to..all, from);
    frames.truncate(from + (all - to));
}

/// The spans of a container: a quote, an item in its list, or a footnote definition.
fn push_frames_of(frames: &mut Vec<Frame>, entry: &Open) -> Result<(), AllocError>
    ensures { IfOk result (λ _. map frame_of frames.new.items ≡ map frame_of frames.old.items ++ frames_of (open_of entry.now)) }
{
    let c = &entry.container;
    match c.kind {
        ContainerKind::Quote => push_frame(frames, Name::BlockQuote, c.line),
        ContainerKind::Item => {
            push_frame(frames, list_name(c), entry.list)?;
            push_frame(frames, Name::ListItem, c.line)
        }
        ContainerKind::Footnote => push_frame(frames, Name::GfmFootnoteDefinition, c.line),
    }
}

fn push_frame(frames: &mut Vec<Frame>, name: Name, line: usize) -> Result<(), AllocError>
    ensures { IfOk result (λ _. frames.new.items ≡ frames.old.items ++ record { name = name; line = line } ∷ []) }
{
    frames.push(Frame { name, line })?;
    Ok(())
}

/// The spans of containers, from the outermost on.
pub(crate) fn push_frames<L: Ledger>(
    frames: &mut Vec<Frame>,
    stack: &[Open],
    turns: &mut Turns<L>,
) -> Result<(), AllocError>
    ensures value { IfOk result (λ _. map frame_of frames.new.items ≡ map frame_of frames.old.items ++ flat_map frames_of (map open_of stack.now)) }
    ensures turns { turns.new ≤ turns.old + length stack.now }
{
    for entry in stack {
        turns.add_one();
        push_frames_of(frames, entry)?;
    }
    Ok(())
}

/// The span of a list that goes on behind others, if there is one.
pub(crate) fn push_list(frames: &mut Vec<Frame>, list: Option<Frame>) -> Result<(), AllocError>
    ensures { IfOk result (λ _. map frame_of frames.new.items ≡ map frame_of frames.old.items ++ frames_in list) }
{
    if let Some(frame) = list {
        frames.push(frame)?;
    }
    Ok(())
}

/// The first spans.
fn first_frames(frames: &[Frame], many: usize) -> &[Frame]
    requires { many ≤ length frames.now }
    ensures { result.now ≡ take many frames.now }
{
    &frames[..many]
}

/// Spans behind the first.
pub(crate) fn behind_frames(frames: &[Frame], many: usize) -> &[Frame]
    requires { many ≤ length frames.now }
    ensures { result.now ≡ drop many frames.now }
{
    &frames[many..]
}

/// Of a part: in how many of the open containers it stands, and how many spans these have.
#[derive(Clone, Copy)]
pub struct Stood {
    /// The number of containers.
    pub containers: usize,
    /// The number of their spans.
    pub spans: usize,
}

/// How many spans a container has: an item has its list.
fn spans_of(entry: &Open) -> usize
    ensures { result ≡ length (frames_of (open_of entry.now)) }
{
    match entry.container.kind {
        ContainerKind::Quote | ContainerKind::Footnote => 1,
        ContainerKind::Item => 2,
    }
}

/// The same of fewer containers: of so many at most.
pub fn stood_in<L: Ledger>(stood: Stood, stack: &[Open], many: usize, turns: &mut Turns<L>) -> Stood
    requires { IsStood stood (map open_of stack.now) }
    ensures stood { IsStood result (map open_of stack.now) }
    ensures few { result.containers ≤ many }
    ensures fewer { result.containers ≤ stood.containers }
    ensures least { min stood.containers many ≤ result.containers }
    ensures turns { turns.new + result.containers ≤ turns.old + stood.containers }
{
    let mut containers = stood.containers;
    let mut spans = stood.spans;
    while containers > many {
        turns.add_one();
        containers -= 1;
        spans -= spans_of(&stack[containers]);
    }
    Stood { containers, spans }
}

/// Two spans are the same: they have one name, and begin in one line.
fn is_same(f: Frame, g: Frame) -> bool
    ensures { result ≡ (same_name f.name g.name && (f.line == g.line)) }
{
    f.name == g.name && f.line == g.line
}

/// How many spans two lines share, from the outermost on.
pub(crate) fn shared<L: Ledger>(fs: &[Frame], gs: &[Frame], turns: &mut Turns<L>) -> usize
    ensures value { result ≡ shared (map frame_of fs.now) (map frame_of gs.now) }
    ensures few { result ≤ length fs.now }
    ensures fewer { result ≤ length gs.now }
    ensures turns { turns.new ≤ turns.old + result }
{
    let mut n = 0;
    while n < fs.len() && n < gs.len() && is_same(fs[n], gs[n]) {
        turns.add_one();
        n += 1;
    }
    n
}
