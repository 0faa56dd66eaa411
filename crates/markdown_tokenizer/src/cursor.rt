//! The cursor: the place of a reader in the virtual text of a document.

ghost use Rattle.markdown_tokenizer.specs.Cursor.{goes_on, begins_pair, IsPlace, IsSeatAt, IsNextSeat, IsNextByte, is_before_pair, is_after_pair, moved, moved_over, IsQuick, CanMove};
ghost use Rattle.markdown_tokenizer.specs.Gaps.{skip_of, resumed, IsPlainUntil, HasMoved};
ghost use Rattle.markdown_base.specs.Places;
ghost use Rattle.markdown_base.specs.Virtual.{IsWithinLimit, Seat};
ghost use Rattle.markdown_tokenizer.specs.View.{standing};
ghost use Rattle.std.specs.Bool.{OnTrue};
ghost use Rattle.std.specs.Prelude.{◌≡◌, ◌==◌, ◌&&◌, ◌||◌, nat_lt, ◌+◌, ◌%◌, ◌^◌, ◌<◌, ℕ, length, not, unwrap_or, IfSome, ◌≤◌, ◌≢◌, None};

use crate::skips::Skips;
use crate::waiting::Waits;
use markdown_base::event::Point;

/// How a place moves over the byte that waits.
#[derive(Clone, Copy)]
pub(crate) enum Moves {
    /// By one index and one column, not in a tab.
    Plain,
    /// By one column, in a tab that goes on after the byte.
    Tab,
    /// By one index and one column: the byte is the last one of a tab.
    Last,
    /// By one index, to the beginning of the next line.
    Line,
    /// It is not known: the bytes of the document tell it.
    Other,
}

/// Whether a CR LF begins at an index.
pub(crate) fn is_pair(bytes: &[u8], index: usize) -> bool
    requires index { index + 1 < 2 ^ 64 }
    ensures { result ≡ begins_pair bytes.now index }
{
    index + 1 < bytes.len() && bytes[index] == b'\r' && bytes[index + 1] == b'\n'
}

/// The next virtual byte from a place on, and its seat. The seat of a CR LF is its LF. Returns `None` at the document's
/// end. The tab size does not matter.
pub(crate) fn seat_at(bytes: &[u8], point: Point) -> Option<(u8, Point)>
    requires within { 0 < point.vs → point.index < length bytes.now }
    ensures { (t : ℕ) → 0 < t → IsNextSeat t bytes.now point result }
{
    if point.vs > 0 {
        return Some((b' ', point));
    }
    if point.index >= bytes.len() {
        return None;
    }
    let byte = bytes[point.index];
    if byte != b'\r' {
        return Some((byte, point));
    }
    if is_pair(bytes, point.index) {
        // The LF is the seat of the pair. As in the Rust crate, the CR is passed over, and the byte waits at the LF: a text that ends
        // between the two ends before the line ending, which is read with what follows.
        return Some((
            b'\n',
            Point {
                index: point.index + 1,
                ..point
            },
        ));
    }
    Some((b'\n', point))
}

/// The next virtual byte from a place on. Returns `None` if it is not before the end of the text.
fn next_byte(bytes: &[u8], point: Point, end: (usize, usize)) -> Option<u8>
    requires within { 0 < point.vs → point.index < length bytes.now }
    ensures { (t : ℕ) → 0 < t → IsNextByte t bytes.now point end result }
{
    match seat_at(bytes, point) {
        None => None,
        Some((byte, seat)) => {
            if is_before(seat, end) {
                Some(byte)
            } else {
                None
            }
        }
    }
}

/// Where the next byte is looked for: at the place itself, or, at the beginning of a line, after its gap.
#[inline(always)]
pub(crate) fn resumed<'a>(skips: &'a Skips, place: &'a Point) -> &'a Point
    ensures { result.now ≡ resumed skips.now place.now }
{
    if !skips.is_empty() && place.column == 1 {
        skips.after(place)
    } else {
        place
    }
}

/// As `next_byte`, from where the next byte is looked for: at the place, or, at the beginning of a line, after its gap.
#[inline(always)]
pub(crate) fn next_byte_from(
    bytes: &[u8],
    skips: &Skips,
    place: &Point,
    end: (usize, usize),
) -> Option<u8>
    requires within { let at = resumed skips.now place.now in 0 < at.vs → at.index < length bytes.now }
    ensures { (t : ℕ) → 0 < t → IsNextByte t bytes.now (resumed skips.now place.now) end result }
{
    next_byte(bytes, *resumed(skips, place), end)
}

/// Whether the next byte is looked for at a place itself: it is in mid-line, or there are no gaps.
#[inline(always)]
pub(crate) fn is_where_more_is(skips: &Skips, place: &Point) -> bool
    ensures { OnTrue result (resumed skips.now place.now ≡ place.now) }
{
    skips.is_empty() || place.column != 1
}

/// The place of an enter: after the previous byte. At the beginning of a line, while something waits, it is after the
/// line's gap.
pub(crate) fn standing(skips: &Skips, after_previous: Point, waits: Waits) -> Point
    ensures { result ≡ standing skips.now after_previous waits }
{
    match waits {
        Waits::Nothing => after_previous,
        Waits::Byte | Waits::End => *resumed(skips, &after_previous),
    }
}

/// Moves a place at the beginning of a line to after the line's gap.
///
/// It is a cold function of its own. Nearly every byte is in mid-line, or in a document without gaps; for these the loop over bytes
/// has only the test in `resume`, and not the search for a gap.
#[cold]
#[inline(never)]
fn pass_skip(skips: &Skips, place: &mut Point)
    ensures { place.new ≡ unwrap_or (skip_of skips.now place.old.line) place.old }
{
    *place = *skips.after(&*place);
}

/// Moves a place to where the next byte is looked for.
#[inline(always)]
pub(crate) fn resume(skips: &Skips, place: &mut Point)
    ensures { place.new ≡ resumed skips.now place.old }
{
    if !skips.is_empty() && place.column == 1 {
        pass_skip(skips, place);
    }
}

/// Whether `byte`, the next virtual byte from a place on, is in a tab that goes on after it. There is a tab stop at
/// every `t` columns. If `t` is 4, as nearly always, no division is needed. `t` is read only for a tab.
#[inline(always)]
fn goes_on(t: &usize, point: &Point, byte: u8) -> bool
    requires some { 0 < t.now }
    ensures { result ≡ goes_on t.now byte point.now }
{
    if point.vs == 0 && byte != b'\t' {
        return false;
    }
    if *t == 4 {
        point.column % 4 != 0
    } else {
        goes_on_by(*t, point.column)
    }
}

/// Whether there is no tab stop after a column, with a tab stop at every `t` columns. It is a function of its own so
/// that the code for tabs of 4 columns, which never come here, stays small.
#[cold]
#[inline(never)]
fn goes_on_by(t: usize, column: usize) -> bool
    requires some { 0 < t }
    ensures { result ≡ not (column % t == 0) }
{
    column % t != 0
}

/// Up to which index bytes are known to be before the end of the text, at `end`: up to there, if the place is in no tab and no gap
/// begins at it. Else 0.
#[inline(always)]
pub(crate) fn plain_until(skips: &Skips, place: &Point, end: usize) -> usize
    ensures { IsPlainUntil skips.now place.now end result }
{
    if place.vs == 0 && is_where_more_is(skips, place) {
        end
    } else {
        0
    }
}

/// The next virtual byte from a place on, and how the place moves over it, if the byte at its index is enough to tell them.
///
/// It is `None` for a CR, at the end of the text, for a byte that is partly after it, and for a control character.
#[inline(always)]
pub(crate) fn quick_byte(
    bytes: &[u8],
    t: &usize,
    point: &Point,
    plain_until: usize,
    end: usize,
) -> Option<(u8, Moves)>
    requires some { 0 < t.now }
    requires place { IsPlace t.now bytes.now point.now }
    requires before { plain_until ≤ end }
    requires inside { end ≤ length bytes.now }
    requires plain { point.now.index < plain_until → point.now.vs ≡ 0 }
    ensures { IfSome result (λ r. IsQuick t.now bytes.now point.now plain_until end r.0 r.1) }
{
    if point.index < plain_until {
        let byte = bytes[point.index];
        if byte > b'\r' {
            return Some((byte, Moves::Plain));
        }
        if byte == b'\n' {
            return Some((byte, Moves::Line));
        }
        if byte != b'\t' {
            return None;
        }
        if goes_on(t, point, byte) {
            return Some((byte, Moves::Tab));
        }
        return Some((byte, Moves::Last));
    }
    if point.vs > 0 && point.index < end {
        if goes_on(t, point, b' ') {
            return Some((b' ', Moves::Tab));
        }
        return Some((b' ', Moves::Last));
    }
    None
}

/// Moves a place over a byte that is no line ending and in no tab.
#[inline(always)]
pub(crate) fn pass_plain(point: &mut Point)
    requires index { point.old.index + 1 < 2 ^ 64 }
    requires column { point.old.column + 1 < 2 ^ 64 }
    requires flat { point.old.vs ≡ 0 }
    ensures { point.new ≡ moved Moves.Plain point.old }
{
    point.index += 1;
    point.column += 1;
}

/// Moves a place over so many bytes that are no line endings and in no tab.
#[inline(always)]
pub(crate) fn pass_over(point: &mut Point, n: usize)
    requires index { point.old.index + n < 2 ^ 64 }
    requires column { point.old.column + n < 2 ^ 64 }
    requires flat { point.old.vs ≡ 0 }
    ensures { point.new ≡ moved_over n point.old }
{
    point.index += n;
    point.column += n;
}

/// Moves a place as `moves` says, if it says how. Returns up to which index bytes are then known to be before the end of the text, at
/// `end`. Returns `None`, and moves nothing, if it is not known how the place moves.
#[inline(always)]
pub(crate) fn step(moves: Moves, skips: &Skips, end: &usize, point: &mut Point) -> Option<usize>
    requires fits { moves ≢ Moves.Other → CanMove point.old }
    ensures moved { IfSome result (λ plain_until. HasMoved skips.now moves point.old point.new end.now plain_until) }
    ensures same { result ≡ None → point.new ≡ point.old }
{
    match moves {
        Moves::Tab => {
            point.column += 1;
            point.vs += 1;
            Some(0)
        }
        Moves::Plain | Moves::Last => {
            point.column += 1;
            point.index += 1;
            point.vs = 0;
            Some(*end)
        }
        Moves::Line => {
            point.line += 1;
            point.column = 1;
            point.index += 1;
            point.vs = 0;
            Some(if skips.is_empty() { *end } else { 0 })
        }
        Moves::Other => None,
    }
}

/// Moves a place over `byte`, the next virtual byte: for a CR LF over both bytes. There is a tab stop at every `t`
/// columns.
#[inline(always)]
pub(crate) fn pass(bytes: &[u8], t: &usize, point: &mut Point, byte: u8)
    requires some { 0 < t.now }
    requires limit { IsWithinLimit t.now bytes.now }
    requires place { IsPlace t.now bytes.now point.old }
    requires next { (seat : Seat) × IsSeatAt t.now bytes.now point.old seat × (seat.byte ≡ byte) }
    ensures { (seat : Seat) → IsSeatAt t.now bytes.now point.old seat → point.new ≡ seat.end }
{
    if point.vs == 0 && byte == b'\n' {
        point.line += 1;
        point.column = 1;
        point.vs = 0;
        if is_pair(bytes, point.index) {
            point.index += 2;
        } else {
            point.index += 1;
        }
    } else if goes_on(t, point, byte) {
        point.column += 1;
        point.vs += 1;
    } else {
        point.column += 1;
        point.index += 1;
        point.vs = 0;
    }
}

/// Where a place is shown: at itself, except that the LF of a CR LF is shown at its CR.
#[inline(always)]
pub(crate) fn shown(bytes: &[u8], point: Point) -> Point
    ensures { result ≡ Places.shown bytes.now point }
{
    if point.index > 0 && is_pair(bytes, point.index - 1) {
        return Point {
            index: point.index - 1,
            ..point
        };
    }
    point
}

/// As `shown`, if it is known whether a byte was read before the place: a place after a byte is shown at itself.
///
/// So an event after a byte needs no look at the bytes of the document.
#[inline(always)]
pub(crate) fn shown_after(bytes: &[u8], read: bool, point: &Point) -> Point
    requires after { OnTrue read (Places.shown bytes.now point.now ≡ point.now) }
    ensures { result ≡ Places.shown bytes.now point.now }
{
    if read { *point } else { shown(bytes, *point) }
}

/// Whether a place, given by its point, is before another, given by byte index and number in a tab.
#[inline(always)]
pub(crate) fn is_before(point: Point, place: (usize, usize)) -> bool
    ensures { result ≡ is_before_pair point place }
{
    point.index < place.0 || is_before_in_byte(point, place)
}

/// As `is_before`, if the byte indices do not decide. It is a function of its own because they nearly always do.
#[cold]
#[inline(never)]
fn is_before_in_byte(point: Point, place: (usize, usize)) -> bool
    ensures { result ≡ ((point.index == place.0) && nat_lt point.vs place.1) }
{
    point.index == place.0 && point.vs < place.1
}

/// Whether a place, given by its point, is after another, given by byte index and number in a tab.
pub(crate) fn is_after(point: Point, place: (usize, usize)) -> bool
    ensures { result ≡ is_after_pair point place }
{
    place.0 < point.index || place.0 == point.index && place.1 < point.vs
}
