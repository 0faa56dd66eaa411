//! Walks over small lists of events, links in them and the enters of exits, with expected results worked by hand.

ghost use Rattle.std.specs.Prelude.{◌≡◌, [], ◌∷◌, take, Any};
ghost use Rattle.markdown.specs.Events.{IsBalanced};
ghost use Rattle.markdown.specs.declared.event.Name.TheVariants.{SpaceOrTab};
ghost use Rattle.markdown.specs.SpanWalks.{HasWanted};

use crate::shown::assert_shown;
use markdown::event::{Content, Event, Kind, Link, Name, Point};
use markdown::subtokenize::{link, link_to};
use markdown::util::skip::{opt, opt_back, to, to_back};
use markdown::util::slice::Position;
use mdtests_base::shown::{at, shown};

fn event(kind: Kind, name: Name) -> Event
    ensures is { result.kind ≡ kind }
    ensures named { result.name ≡ name }
{
    Event {
        kind,
        name,
        point: Point::START,
        link: None,
    }
}

/// White space, and then data.
pub(crate) fn white_space_and_data() -> [Event; 4]
    ensures balanced { IsBalanced result }
    ensures white_space { Any (HasWanted (SpaceOrTab ∷ [])) (take 4 result) }
{
    [
        event(Kind::Enter, Name::SpaceOrTab),
        event(Kind::Exit, Name::SpaceOrTab),
        event(Kind::Enter, Name::Data),
        event(Kind::Exit, Name::Data),
    ]
}

/// A single line ending.
fn line_ending() -> [Event; 2]
    ensures { IsBalanced result }
{
    [
        event(Kind::Enter, Name::LineEnding),
        event(Kind::Exit, Name::LineEnding),
    ]
}

/// Whether spans are skipped, forward and back, and found.
fn spans_are_found() -> bool {
    let events = white_space_and_data();
    opt(&events, 0, &[Name::SpaceOrTab]) == 2
        && opt_back(&events, 3, &[Name::Data]) == 1
        && opt_back(&events, 3, &[Name::SpaceOrTab, Name::Data]) == 0
        && opt_back(&line_ending(), 1, &[Name::LineEnding]) == 0
        && to(&events, 0, &[Name::Data]) == 2
        && to_back(&events, 3, &[Name::SpaceOrTab]) == 1
        && to(&line_ending(), 0, &[Name::Data]) == 2
}

const ENTER: Event = Event {
    kind: Kind::Enter,
    name: Name::Data,
    point: Point::START,
    link: Some(Link {
        previous: None,
        next: None,
        content: Content::Text,
    }),
};

const EXIT: Event = Event {
    kind: Kind::Exit,
    link: None,
    ..ENTER
};

/// Whether an exit has the enter before it.
fn exit_has_its_enter() -> bool {
    let end = Event {
        point: at(1, 3, 2, 0),
        ..EXIT
    };
    Position::from_exit_event(&[ENTER, end], 1).to_indices() == (0, 2)
}

#[test]
fn spans_are_walked_over(rt: HostRuntime) {
    assert!(rt; spans_are_found());
    assert!(rt; exit_has_its_enter());
}

#[test]
fn chunks_are_linked(rt: HostRuntime) {
    let want =
        "Data 1:1 (0+0) Text None Some(2) to 1:1 (0+0); Data 1:1 (0+0) Text Some(0) None to 1:1 (0+0)";
    let mut events = [ENTER, EXIT, ENTER, EXIT];
    link_to(&mut events, 0, 2);
    assert_shown(&rt, shown(rt.alloc(), &events), want);
    let mut events = [ENTER, EXIT, ENTER, EXIT];
    link(&mut events, 2);
    assert_shown(&rt, shown(rt.alloc(), &events), want);
}
