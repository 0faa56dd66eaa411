//! Ranges of a document from outside: whether they can be pushed one after another.

ghost use Rattle.std.specs.Prelude.{◌≡◌, ◌↔◌, ◌∷◌, true, IfSome, IsNone, IsTrue};
ghost use Rattle.markdown_base.specs.Places.{denotes_same, is_upto};
ghost use Rattle.markdown_base.specs.Virtual.{IsWithinLimit};
ghost use Rattle.markdown_tokenizer.specs.Ranges.{FollowOn, IsGapFrom, LeadsFrom, after_any};

use crate::cursor::{is_before, pass, seat_at};
use crate::places::point_at;
use markdown_base::configuration::TabSize;
use markdown_base::event::Point;

/// A range of a document, and the point at which a gap before it ends, if there is one. The range is two places, each a
/// byte index and a number in a tab.
pub type AfterGap = (Option<Point>, (usize, usize), (usize, usize));

/// Whether these ranges can be pushed, one after another, onto a text that ends at `end`: exactly then it returns true.
/// Each gap is passed first (`define_skip`).
///
/// A gap is empty, or goes from the beginning of a line to a later place of that line. A range begins where the text then ends,
/// and does not run backwards. There is a tab stop at every `tab_size` columns.
pub fn follow_on(bytes: &[u8], tab_size: TabSize, end: Point, ranges: &[AfterGap]) -> bool
    requires limit { IsWithinLimit tab_size bytes.now }
    ensures { IsTrue result ↔ FollowOn tab_size bytes.now end ranges.now }
{
    let mut place = end;
    for range in ranges {
        match end_after(bytes, tab_size, place, *range) {
            Some(to) => place = to,
            None => return false,
        }
    }
    true
}

/// Where a text that ended at `end` ends after a range, whose gap is passed first. Returns `None` if the range cannot be pushed there.
fn end_after(bytes: &[u8], tab: TabSize, end: Point, range: AfterGap) -> Option<Point>
    requires limit { IsWithinLimit tab bytes.now }
    ensures some { IfSome result (λ to. (rest : _) → FollowOn tab bytes.now end (range ∷ rest) ↔ FollowOn tab bytes.now to rest) }
    ensures none { IsNone result → (rest : _) → ¬ FollowOn tab bytes.now end (range ∷ rest) }
{
    let Some(start) = start_after(bytes, tab, end, range.0) else {
        return None;
    };
    let Some(from) = point_at(bytes, tab, range.1) else {
        return None;
    };
    let Some(to) = point_at(bytes, tab, range.2) else {
        return None;
    };
    if !denote_same(bytes, tab, from, start) {
        return None;
    }
    if !is_up_to(bytes, tab, from, to) {
        return None;
    }
    Some(to)
}

/// Where a text that ended at `end` ends after the gap, if there is one. Returns `None` if the gap does not begin there.
fn start_after(bytes: &[u8], tab: TabSize, end: Point, gap: Option<Point>) -> Option<Point>
    requires limit { IsWithinLimit tab bytes.now }
    ensures leads { IfSome result (λ _. LeadsFrom tab bytes.now end gap) }
    ensures start { IfSome result (λ start. denotes_same tab bytes.now start (after_any tab bytes.now end gap) ≡ true) }
    ensures none { IsNone result → ¬ LeadsFrom tab bytes.now end gap }
{
    match gap {
        None => Some(end),
        Some(place) => {
            if is_gap_from(bytes, tab, end, place) {
                Some(place)
            } else {
                None
            }
        }
    }
}

/// Whether there can be a gap from one place to another: it is empty, or the first place begins a line and the second is a
/// later place of it.
fn is_gap_from(bytes: &[u8], tab: TabSize, beginning: Point, place: Point) -> bool
    requires limit { IsWithinLimit tab bytes.now }
    ensures { IsTrue result ↔ IsGapFrom tab bytes.now beginning place }
{
    point_at(bytes, tab, (place.index, place.vs)) == Some(place)
        && (denote_same(bytes, tab, place, beginning)
            || (beginning.column == 1
                && place.line == beginning.line
                && is_before(beginning, (place.index, place.vs))))
}

/// Whether a place is not after another one. The CR and the LF of a CR LF count as one place.
fn is_up_to(bytes: &[u8], tab: TabSize, from: Point, to: Point) -> bool
    requires limit { IsWithinLimit tab bytes.now }
    ensures { result ≡ is_upto tab bytes.now from to }
{
    !is_before(to, (from.index, from.vs)) || denote_same(bytes, tab, from, to)
}

/// Whether two places are before the same bytes of the text: they are one place, or the CR and the LF of a CR LF.
fn denote_same(bytes: &[u8], tab: TabSize, first: Point, second: Point) -> bool
    requires limit { IsWithinLimit tab bytes.now }
    ensures { result ≡ denotes_same tab bytes.now first second }
{
    let t = tab.get();
    let mut after_previous = Point::START;
    while let Some((byte, seat)) = seat_at(bytes, after_previous) {
        let is_before_first = is_before(seat, (first.index, first.vs));
        if is_before_first != is_before(seat, (second.index, second.vs)) {
            return false;
        }
        pass(bytes, &t, &mut after_previous, byte);
    }
    true
}
