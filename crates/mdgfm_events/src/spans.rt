//! Spans among events, by the events behind their enters.

ghost use Rattle.std.specs.Prelude.{ℕ, ◌≡◌, ◌≤◌, length};
ghost use Rattle.mdgfm_events.specs.Spans.{span_end, span_size};

use markdown_base::event::{Event, Kind, Point};

/// A span, by the events behind its enter.
#[derive(Clone, Copy, PartialEq, Eq, Debug)]
pub struct Span {
    /// How many of them it has, with its exit.
    pub size: usize,
    /// The place of its exit.
    pub end: Point,
}

/// A span that is entered at a place, by the events behind its enter.
pub fn span_of(enter: Point, behind: &[Event]) -> Span
    ensures size { result.size ≡ span_size 0 behind.now }
    ensures end { result.end ≡ span_end enter 0 behind.now }
    ensures within { result.size ≤ length behind.now }
{
    let mut opened = 0usize;
    let mut next = 0;
    while next < behind.len() {
        match behind[next].kind {
            Kind::Enter => opened += 1,
            Kind::Exit => {
                if opened == 0 {
                    return Span {
                        size: next + 1,
                        end: behind[next].point,
                    };
                }
                opened -= 1;
            }
        }
        next += 1;
    }
    Span {
        size: next,
        end: enter,
    }
}
