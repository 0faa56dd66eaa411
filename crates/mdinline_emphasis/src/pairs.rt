//! Pairs of delimiter runs, in linear time, and the events in place of a run.

ghost use Rattle.std.specs.Prelude.{ℕ, slice_index, nat_lt, slice_get, Ok, true, false, cond, IfOk, ◌≡◌, ◌+◌, ◌-◌, ◌*◌, ◌<◌, ◌≤◌, ◌^◌, length, map, None, All, IfSome, OnOk, ◌++◌};
ghost use Rattle.mdinline_emphasis.specs.Emphasis.{all_markers, are_both, is_tilde, lengths_fit, marker_byte, paired, rule_of_three, same, may_pair, have_two, style_by, style_of, markers_of, closes_yet, opens_yet};
ghost use Rattle.mdinline_emphasis.specs.InTurn.{opening, closing};
ghost use Rattle.mdinline_emphasis.specs.Searches.{as_run, last_of, with_pair, left_of, marker_number, third, kind, AreBottoms, AreInOrder, NoneFitsBefore, IsNext, HasClosed, ClosesNothing, IsTaken};
ghost use Rattle.mdinline_emphasis.specs.Costs.{kinds_of_runs, pairs_a_run, markers_left, looks, to_pay};

use markdown_base::event::Point;
use mdconstructs_loop_counts::Turns;
use std::alloc::{AllocError, Global};
use std::marker::Brand;
use std::sync::ledger::{Blank, Ledger};

/// The byte of which a delimiter run is made.
#[derive(Clone, Copy, PartialEq, Eq)]
pub enum Marker {
    /// `*`.
    Asterisk,
    /// `_`.
    Underscore,
    /// `~`.
    Tilde,
}

/// How many kinds of closers there are: of each marker, those that open too and those that do not, of each length modulo 3.
const KINDS: usize = 18;

/// What a pair makes of the text between its runs.
#[derive(Clone, Copy, PartialEq, Eq)]
pub enum Style {
    /// Emphasis, with one marker at each end.
    Emphasis,
    /// Strong emphasis, with two.
    Strong,
    /// Strikethrough, with one tilde at each end.
    Struck,
    /// Strikethrough, with two.
    StruckTwice,
}

/// A delimiter run.
#[derive(Drop)]
pub struct Delimiters {
    /// Index of its enter among the events.
    pub index: usize,
    /// Where it begins.
    pub start: Point,
    /// Its marker.
    pub marker: Marker,
    /// How many markers it has, modulo 3.
    pub rest: usize,
    /// It can open pairs.
    pub opens: bool,
    /// It can close pairs.
    pub closes: bool,
    /// The pairs that it closes, the inner ones first, by their styles.
    pub closed: Vec<Style>,
    /// How many markers are in no pair yet.
    pub left: usize,
    /// The pairs that it opens, the inner ones first, by their styles.
    pub opened: Vec<Style>,
}

/// The rule of three, for two lengths modulo 3.
fn rule_of_three(a: usize, b: usize) -> bool
    ensures { result ≡ rule_of_three a b }
{
    !(a == 1 && b == 2 || a == 2 && b == 1)
}

/// The byte of a marker.
fn marker_byte(marker: Marker) -> u8
    ensures { result ≡ marker_byte marker }
{
    match marker {
        Marker::Asterisk => b'*',
        Marker::Underscore => b'_',
        Marker::Tilde => b'~',
    }
}

/// Whether two markers are the same.
fn same(a: Marker, b: Marker) -> bool
    ensures { result ≡ same a b }
{
    marker_byte(a) == marker_byte(b)
}

/// Whether a marker is a tilde.
pub(crate) fn is_tilde(marker: Marker) -> bool
    ensures { result ≡ is_tilde marker }
{
    matches!(marker, Marker::Tilde)
}

/// Whether two lengths are both one, or both two.
fn are_both(a: usize, b: usize) -> bool
    ensures { result ≡ are_both a b }
{
    a == 1 && b == 1 || a == 2 && b == 2
}

/// Whether the lengths of two runs of a marker fit, modulo 3: tildes have as many, and of the others the rule of three is asked, if one of
/// the two can both open and close.
fn lengths_fit(marker: Marker, one_does_both: bool, a: usize, b: usize) -> bool
    ensures { result ≡ lengths_fit marker one_does_both a b }
{
    if is_tilde(marker) {
        are_both(a, b)
    } else {
        !one_does_both || rule_of_three(a, b)
    }
}

/// Whether an opener and a closer may be a pair: the same marker, and lengths that fit.
fn may_pair(opener: &Delimiters, closer: &Delimiters) -> bool
    ensures { result ≡ may_pair (as_run opener.now) (as_run closer.now) }
{
    same(opener.marker, closer.marker)
        && lengths_fit(
            closer.marker,
            opener.closes || closer.opens,
            opener.rest,
            closer.rest,
        )
}

/// What is asked of a length modulo 3: whether it is 1 or 2.
fn third(rest: usize) -> usize
    ensures third { result ≡ third rest }
    ensures below { result < 3 }
{
    if rest == 1 {
        1
    } else if rest == 2 {
        2
    } else {
        0
    }
}

/// The number of a marker, from 0 on.
fn marker_number(marker: Marker) -> usize
    ensures number { result ≡ marker_number marker }
    ensures below { result < length all_markers }
{
    match marker {
        Marker::Underscore => 0,
        Marker::Asterisk => 1,
        Marker::Tilde => 2,
    }
}

/// The kind of a closer: which openers fit depends on it alone.
fn kind_of(closer: &Delimiters) -> usize
    ensures kind { result ≡ kind (as_run closer.now) }
    ensures below { result < kinds_of_runs }
{
    let opens = if closer.opens { 3 } else { 0 };
    6 * marker_number(closer.marker) + opens + third(closer.rest)
}

/// The last opener that fits. None that stands before the bottom does.
fn opener_for<L: Ledger>(
    runs: &[Delimiters],
    openers: &[usize],
    bottom: usize,
    closer: &Delimiters,
    turns: &mut Turns<L>,
) -> Option<usize>
    requires inside { All (λ i. i < length runs.now) openers.now }
    requires order { AreInOrder openers.now }
    requires nothing { NoneFitsBefore bottom (map as_run runs.now) openers.now (as_run closer.now) }
    ensures found { result ≡ last_of (map as_run runs.now) openers.now (as_run closer.now) (length openers.now) }
    ensures turns { turns.new ≤ turns.old + looks openers.now bottom result }
{
    let mut at = openers.len();
    while at > 0 && openers[at - 1] >= bottom {
        turns.add_one();
        at -= 1;
        if may_pair(&runs[openers[at]], closer) {
            return Some(at);
        }
    }
    None
}

/// The run opens a pair.
fn open(run: &mut Delimiters, style: Style) -> Result<(), AllocError>
    ensures { OnOk result (as_run run.new ≡ opening style (as_run run.old)) }
{
    run.opened.push(style)?;
    run.left = run.left.saturating_sub(markers_of(style));
    Ok(())
}

/// The run closes a pair.
fn close(run: &mut Delimiters, style: Style) -> Result<(), AllocError>
    ensures { OnOk result (as_run run.new ≡ closing style (as_run run.old)) }
{
    run.closed.push(style)?;
    run.left = run.left.saturating_sub(markers_of(style));
    Ok(())
}

/// Whether two runs have two markers each.
fn have_two(opener: &Delimiters, closer: &Delimiters) -> bool
    ensures { result ≡ have_two (as_run opener.now) (as_run closer.now) }
{
    opener.left >= 2 && closer.left >= 2
}

/// The style of a pair of a marker, by whether both runs have two.
fn style_by(marker: Marker, two: bool) -> Style
    ensures { result ≡ style_by marker two }
{
    if is_tilde(marker) {
        if two {
            Style::StruckTwice
        } else {
            Style::Struck
        }
    } else if two {
        Style::Strong
    } else {
        Style::Emphasis
    }
}

/// The style of a pair of two runs.
fn style_of(opener: &Delimiters, closer: &Delimiters) -> Style
    ensures { result ≡ style_of (as_run opener.now) (as_run closer.now) }
{
    style_by(closer.marker, have_two(opener, closer))
}

/// How many markers a pair has at each end.
pub(crate) fn markers_of(style: Style) -> usize
    ensures { result ≡ markers_of style }
{
    match style {
        Style::Emphasis | Style::Struck => 1,
        Style::Strong | Style::StruckTwice => 2,
    }
}

/// Makes a pair of two runs. Returns whether the opener has markers left.
fn join(runs: &mut [Delimiters], opener: usize, closer: usize) -> Result<bool, AllocError>
    requires before { opener < closer }
    requires inside { closer < length runs.old }
    ensures pair { OnOk result (map as_run runs.new ≡ with_pair (map as_run runs.old) opener closer) }
    ensures waits { IfOk result (λ waits. waits ≡ nat_lt 0 (left_of (slice_get (map as_run runs.new) opener))) }
{
    let style = style_of(&runs[opener], &runs[closer]);
    open(&mut runs[opener], style)?;
    close(&mut runs[closer], style)?;
    Ok(runs[opener].left > 0)
}

/// Whether a run can close a pair more, if it finds an opener.
fn closes_yet(run: &Delimiters) -> bool
    ensures { result ≡ closes_yet (as_run run.now) }
{
    run.closes && run.left > 0
}

/// Whether a run can open a pair more.
fn opens_yet(run: &Delimiters) -> bool
    ensures { result ≡ opens_yet (as_run run.now) }
{
    run.opens && run.left > 0
}

/// Makes one pair more with the run that is next, if it can close one. Returns whether it did.
fn closes_more<L: Ledger>(
    runs: &mut [Delimiters],
    openers: &mut Vec<usize>,
    bottoms: &mut [usize],
    closer: usize,
    turns: &mut Turns<L>,
) -> Result<bool, AllocError>
    requires next { IsNext (map as_run runs.old) openers.old.items closer }
    requires kinds { length bottoms.old ≡ kinds_of_runs }
    requires bottoms { AreBottoms (map as_run runs.old) openers.old.items closer bottoms.old }
    ensures kinds { length bottoms.new ≡ kinds_of_runs }
    ensures bottoms { OnOk result (AreBottoms (map as_run runs.new) openers.new.items closer bottoms.new) }
    ensures pair { result ≡ Ok true → HasClosed (map as_run runs.old) openers.old.items closer (map as_run runs.new) openers.new.items }
    ensures same { result ≡ Ok false → (map as_run runs.new ≡ map as_run runs.old) × (openers.new.items ≡ openers.old.items) }
    ensures end { result ≡ Ok false → ClosesNothing (map as_run runs.old) openers.old.items closer }
    ensures paid { IfOk result (λ more. turns.new + to_pay (map as_run runs.new) openers.new.items bottoms.new ≤ turns.old + to_pay (map as_run runs.old) openers.old.items bottoms.old + cond more 0 1) }
    ensures turns { turns.new ≤ turns.old + to_pay (map as_run runs.old) openers.old.items bottoms.old + 1 }
{
    turns.add_one();
    if !closes_yet(&runs[closer]) {
        return Ok(false);
    }
    let kind = kind_of(&runs[closer]);
    let all = &runs[..];
    let Some(at) = opener_for(all, openers.as_slice(), bottoms[kind], &all[closer], turns) else {
        bottoms[kind] = closer;
        return Ok(false);
    };
    let opener = openers[at];
    let waits = join(runs, opener, closer)?;
    let height = if waits { at + 1 } else { at };
    openers.truncate(height);
    Ok(true)
}

/// The run that is next closes what it can, and then waits if it can open.
fn take_up<L: Ledger>(
    runs: &mut [Delimiters],
    openers: &mut Vec<usize>,
    bottoms: &mut [usize],
    closer: usize,
    turns: &mut Turns<L>,
) -> Result<(), AllocError>
    requires next { IsNext (map as_run runs.old) openers.old.items closer }
    requires kinds { length bottoms.old ≡ kinds_of_runs }
    requires bottoms { AreBottoms (map as_run runs.old) openers.old.items closer bottoms.old }
    ensures kinds { length bottoms.new ≡ kinds_of_runs }
    ensures bottoms { OnOk result (AreBottoms (map as_run runs.new) openers.new.items closer bottoms.new) }
    ensures taken { OnOk result (IsTaken (map as_run runs.old) openers.old.items closer (map as_run runs.new) openers.new.items) }
    ensures paid { OnOk result (turns.new + to_pay (map as_run runs.new) openers.new.items bottoms.new ≤ turns.old + to_pay (map as_run runs.old) openers.old.items bottoms.old + pairs_a_run) }
    ensures turns { turns.new ≤ turns.old + to_pay (map as_run runs.old) openers.old.items bottoms.old + 1 }
{
    'closing: while closes_more(runs, openers, bottoms, closer, turns)? {}
    if opens_yet(&runs[closer]) {
        openers.push(closer)?;
    }
    Ok(())
}

/// Makes the pairs of all delimiter runs of a text, in linear time.
///
/// A turn is a look at a run that waits, or a try to make one more pair. There are at most `pairs_a_run` for each run, and two for each
/// marker. If it runs out of memory, some pairs were made. Each run waits once and stops waiting once. A search that finds nothing looks
/// at no run that an earlier one of its kind has seen in vain.
pub fn pair_counted<L: Ledger>(
    alloc: Global,
    runs: &mut [Delimiters],
    turns: &mut Turns<L>,
) -> Result<(), AllocError>
    ensures pairs { OnOk result (map as_run runs.new ≡ paired (map as_run runs.old)) }
    ensures linear { turns.new ≤ turns.old + pairs_a_run * length runs.old + 2 * markers_left (map as_run runs.old) }
{
    let mut openers = Vec::new(alloc);
    let mut bottoms = [0usize; KINDS];
    let mut closer = 0;
    while closer < runs.len() {
        take_up(runs, &mut openers, &mut bottoms, closer, turns)?;
        closer += 1;
    }
    Ok(())
}

/// Makes the pairs of all delimiter runs, and counts from nothing.
fn pair_uncounted<L: Ledger>(
    alloc: Global,
    runs: &mut [Delimiters],
    blank: Blank,
) -> Result<(), AllocError>
    requires name { blank.name ≡ L.name }
    requires parts { blank.parts ≡ L.parts }
    requires some { 0 < blank.parts }
    ensures { OnOk result (map as_run runs.new ≡ paired (map as_run runs.old)) }
{
    let mut turns = Turns::<L>::new(blank);
    pair_counted(alloc, runs, &mut turns)
}

/// Makes the pairs of all delimiter runs of a text, as `pair_counted` does.
///
/// If it runs out of memory, some pairs were made.
pub fn pair_all(alloc: Global, runs: &mut [Delimiters]) -> Result<(), AllocError>
    ensures { OnOk result (map as_run runs.new ≡ paired (map as_run runs.old)) }
{
    pair_uncounted::<Brand>(alloc, runs, Blank::new(1))
}
