//! The virtual bytes of a document from a place up to another.

ghost use Rattle.std.specs.Prelude.{◌≡◌, ◌≢◌, ◌==◌, ◌&&◌, ◌||◌, ◌+◌, ◌%◌, ◌^◌, ◌<◌, ◌≤◌, ◌++◌, ◌∷◌, [], ℕ, length, nat_lt, true, IfOk, OnOk};
ghost use Rattle.markdown_base.specs.Places;
ghost use Rattle.markdown_base.specs.Places.{IsPointOf, stands_before};
ghost use Rattle.markdown_base.specs.Virtual.{IsWithinLimit, Seat};
ghost use Rattle.markdown_tokenizer.specs.Cursor.{begins_pair, goes_on, IsNextSeat, IsPlace, IsSeatAt};
ghost use Rattle.mdinline_link_strings.specs.Laid.{IsRange, IsRangeOf};
ghost use Rattle.mdinline_link_strings.specs.Reached.{ArePlainBetween};
ghost use Rattle.mdinline_link_strings.specs.Strings.{seats_between};

use crate::data::{behind, data_ahead};
use crate::items::is_special;
use markdown_base::configuration::TabSize;
use markdown_base::event::Point;
use mdconstructs_loop_counts::Turns;
use std::alloc::{AllocError, Global};
use std::sync::ledger::Ledger;

/// Virtual bytes of a document that stand one behind another.
#[derive(Drop)]
pub struct Range {
    /// The virtual bytes.
    pub bytes: Vec<u8>,
    /// Where the first one begins, and where each ends.
    pub places: Vec<Point>,
}

impl Range {
    /// No virtual bytes, at a place.
    fn new(alloc: Global, place: Point) -> Result<Range, AllocError>
        ensures bytes { IfOk result (λ r. r.bytes.items ≡ []) }
        ensures places { IfOk result (λ r. r.places.items ≡ place ∷ []) }
    {
        let mut places = Vec::new(alloc);
        places.push(place)?;
        Ok(Range {
            bytes: Vec::new(alloc),
            places,
        })
    }

    /// One virtual byte more, which ends at a place.
    fn push(&mut self, byte: u8, end: Point) -> Result<(), AllocError>
        ensures bytes { OnOk result (self.new.bytes.items ≡ self.old.bytes.items ++ byte ∷ []) }
        ensures places { OnOk result (self.new.places.items ≡ self.old.places.items ++ end ∷ []) }
    {
        self.bytes.push(byte)?;
        self.places.push(end)?;
        Ok(())
    }
}

/// Whether a CR LF begins at an index.
fn is_pair(bytes: &[u8], index: usize) -> bool
    requires index { index + 1 < 2 ^ 64 }
    ensures { result ≡ begins_pair bytes.now index }
{
    index + 1 < bytes.len() && bytes[index] == b'\r' && bytes[index + 1] == b'\n'
}

/// The next virtual byte from a place on, and its seat. The seat of a CR LF is its LF. Returns `None` at the document's end.
fn seat_at(bytes: &[u8], point: Point) -> Option<(u8, Point)>
    requires within { 0 < point.vs → point.index < length bytes.now }
    ensures { (t : ℕ) → 0 < t → IsNextSeat t bytes.now point result }
{
    if point.vs > 0 {
        return Some((b' ', point));
    }
    if point.index >= bytes.len() {
        return None;
    }
    let byte = bytes[point.index];
    if byte != b'\r' {
        return Some((byte, point));
    }
    if is_pair(bytes, point.index) {
        return Some((
            b'\n',
            Point {
                index: point.index + 1,
                ..point
            },
        ));
    }
    Some((b'\n', point))
}

/// Whether `byte`, the next virtual byte from a place on, is in a tab that goes on after it.
fn goes_on(t: usize, point: &Point, byte: u8) -> bool
    requires some { 0 < t }
    ensures { result ≡ goes_on t byte point.now }
{
    (byte == b'\t' || point.vs > 0) && point.column % t != 0
}

/// Moves a place over `byte`, the next virtual byte: for a CR LF over both bytes.
fn pass(bytes: &[u8], t: usize, point: &mut Point, byte: u8)
    requires some { 0 < t }
    requires limit { IsWithinLimit t bytes.now }
    requires place { IsPlace t bytes.now point.old }
    requires next { (seat : Seat) × IsSeatAt t bytes.now point.old seat × (seat.byte ≡ byte) }
    ensures { (seat : Seat) → IsSeatAt t bytes.now point.old seat → point.new ≡ seat.end }
{
    if point.vs == 0 && byte == b'\n' {
        point.line += 1;
        point.column = 1;
        point.vs = 0;
        if is_pair(bytes, point.index) {
            point.index += 2;
        } else {
            point.index += 1;
        }
    } else if goes_on(t, point, byte) {
        point.column += 1;
        point.vs += 1;
    } else {
        point.column += 1;
        point.index += 1;
        point.vs = 0;
    }
}

/// Where a place is shown: at itself, except that the LF of a CR LF is shown at its CR.
fn shown(bytes: &[u8], point: Point) -> Point
    ensures { result ≡ Places.shown bytes.now point }
{
    if point.index > 0 && is_pair(bytes, point.index - 1) {
        return Point {
            index: point.index - 1,
            ..point
        };
    }
    point
}

/// Whether a place is before another: by index, then by number in the tab.
fn is_before(place: &Point, other: &Point) -> bool
    ensures { result ≡ stands_before place.now other.now }
{
    place.index < other.index || place.index == other.index && place.vs < other.vs
}

/// The virtual bytes of a document from a place up to another.
pub(crate) fn range_between<L: Ledger>(
    alloc: Global,
    bytes: &[u8],
    tab: TabSize,
    from: &Point,
    to: &Point,
    turns: &mut Turns<L>,
) -> Result<Range, AllocError>
    requires limit { IsWithinLimit tab bytes.now }
    requires place { IsPointOf tab bytes.now from.now }
    ensures range { IfOk result (λ r. IsRangeOf bytes.now (seats_between tab bytes.now from.now to.now) r) }
    ensures many { IfOk result IsRange }
    ensures turns { OnOk result (turns.new ≤ turns.old + length (seats_between tab bytes.now from.now to.now)) }
{
    let t = tab.get();
    let mut range = Range::new(alloc, shown(bytes, *from))?;
    let mut place = *from;
    while let Some((byte, seat)) = seat_at(bytes, place) {
        if !is_before(&seat, to) {
            return Ok(range);
        }
        turns.add_one();
        pass(bytes, t, &mut place, byte);
        range.push(byte, place)?;
    }
    Ok(range)
}

/// Whether a place to which bytes were passed is the one up to which they are passed, and another than the one from which they are; and both are
/// shown where they are.
fn are_ends(bytes: &[u8], from: &Point, to: &Point, place: &Point) -> bool
    ensures passed { result ≡ true → place.now ≡ to.now }
    ensures some { result ≡ true → from.now ≢ to.now }
    ensures shown { result ≡ true → (Places.shown bytes.now from.now ≡ from.now) × (Places.shown bytes.now to.now ≡ to.now) }
{
    place == to && from != to && shown(bytes, *from) == *from && shown(bytes, *to) == *to
}

/// Whether a place that is so many bytes behind another is behind one at least, and is the one up to which bytes are passed.
fn is_behind(ahead: usize, place: &Point, to: &Point) -> bool
    ensures some { result ≡ true → 0 < ahead }
    ensures passed { result ≡ true → place.now ≡ to.now }
{
    ahead > 0 && place == to
}

/// Whether the virtual bytes of a document from a place up to another are plain data: there is one, none is a line feed, a backslash or `&`, and both
/// places are shown where they are. May return false where they are.
pub(crate) fn are_plain_between<L: Ledger>(
    bytes: &[u8],
    tab: TabSize,
    from: &Point,
    to: &Point,
    turns: &mut Turns<L>,
) -> bool
    requires limit { IsWithinLimit tab bytes.now }
    requires place { IsPointOf tab bytes.now from.now }
    ensures plain { result ≡ true → ArePlainBetween tab bytes.now from.now to.now }
    ensures turns { turns.new ≤ turns.old + length (seats_between tab bytes.now from.now to.now) }
{
    let t = tab.get();
    let ahead = data_ahead(bytes, from, to.index, turns);
    let mut place = behind(from, ahead);
    if is_behind(ahead, &place, to) {
        return true;
    }
    while let Some((byte, seat)) = seat_at(bytes, place) {
        if !is_before(&seat, to) {
            return are_ends(bytes, from, to, &place);
        }
        turns.add_one();
        if is_special(byte) {
            return false;
        }
        pass(bytes, t, &mut place, byte);
    }
    are_ends(bytes, from, to, &place)
}
