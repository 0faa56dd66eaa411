//! The brackets of a text: which of them make links and images; and the pairs of its delimiter runs.
//!
//! Brackets pair by a stack: a `]` that makes a link or an image makes it of the last bracket that waits, and any other `]` takes that
//! bracket away. The runs behind a bracket that makes one pair among themselves, when it ends; all others at last. So the runs that are
//! in no pair yet are a stack too, and those of a link are its top.

ghost use Rattle.std.specs.Prelude.{◌≡◌, ◌+◌, ◌-◌, ◌*◌, ◌<◌, ◌≤◌, ◌++◌, ◌∷◌, [], cond, nat_lt, drop, length, map, reverse, take, IfOk, OnOk};
ghost use Rattle.std.specs.List.{AllByRecursion};
ghost use Rattle.mdinline_emphasis.specs.Costs.{markers_left, pairs_a_run};
ghost use Rattle.mdinline_emphasis.specs.Emphasis.{paired};
ghost use Rattle.mdinline_emphasis.specs.Places.{ArePlacesInside};
ghost use Rattle.mdinline_emphasis.specs.Runs.{runs_in};
ghost use Rattle.mdinline_emphasis.specs.Searches.{as_run};
ghost use Rattle.mdinline_links.specs.Costs.{pay, to_pay, to_write};
ghost use Rattle.mdinline_links.specs.Laid.{GoesOn, IsEnded, IsMade, IsRead, IsRunRead, piece_at, placed_at, with_fate};
ghost use Rattle.mdinline_links.specs.declared.pieces.Fate.TheVariants.{Waits};
ghost use Rattle.mdinline_links.specs.Linked.{with_links};
ghost use Rattle.mdinline_links.specs.Pieces.{Fits, written_from};

use crate::pieces::{Fate, Piece, is_bracket, is_named, is_run, is_tail, span_end, written};
use markdown_base::event::{Event, Name};
use mdconstructs_loop_counts::Turns;
use mdinline_emphasis::pairs::{Delimiters, pair_counted};
use mdinline_emphasis::runs::runs_of_counted;
use std::alloc::{AllocError, Global};
use std::sync::ledger::Ledger;

/// A bracket that waits.
#[derive(Clone, Copy)]
pub struct Bracket {
    /// Index of its piece.
    pub piece: usize,
    /// How many runs were in no pair before it.
    pub runs: usize,
    /// It would make an image, not a link.
    pub image: bool,
}

/// What was made of the spans so far.
#[derive(Drop)]
pub struct Pieces {
    /// The spans, each with what becomes of it.
    pub pieces: Vec<Piece>,
    /// The brackets that wait, the last one last.
    pub brackets: Vec<Bracket>,
    /// The runs that are in no pair yet.
    pub runs: Vec<Delimiters>,
    /// The index of the piece of each of these runs.
    pub owners: Vec<usize>,
}

/// Another fate of a piece, if the index has one.
fn set_fate(pieces: &mut Vec<Piece>, index: usize, fate: Fate)
    ensures { pieces.new.items ≡ with_fate index fate pieces.old.items }
{
    if index < pieces.len() {
        pieces[index].fate = fate;
    }
}

/// Makes the pairs of the runs from an index on.
fn pair_behind<L: Ledger>(
    alloc: Global,
    runs: &mut Vec<Delimiters>,
    from: usize,
    turns: &mut Turns<L>,
) -> Result<(), AllocError>
    ensures pairs { OnOk result (map as_run runs.new.items ≡ take from (map as_run runs.old.items) ++ paired (drop from (map as_run runs.old.items))) }
    ensures linear { turns.new ≤ turns.old + (pairs_a_run * length (drop from runs.old.items) + 2 * markers_left (map as_run (drop from runs.old.items))) }
{
    if runs.len() <= from {
        return Ok(());
    }
    pair_counted(alloc, &mut runs.as_mut_slice()[from..], turns)
}

/// Runs, the last one first.
fn turned(mut runs: Vec<Delimiters>) -> Vec<Delimiters>
    ensures { result.items ≡ reverse runs.items }
{
    runs.as_mut_slice().reverse();
    runs
}

impl Pieces {
    /// Nothing yet, with room for so many pieces.
    fn with_room(alloc: Global, pieces: usize) -> Result<Pieces, AllocError>
        ensures pieces { IfOk result (λ all. all.pieces.items ≡ []) }
        ensures brackets { IfOk result (λ all. all.brackets.items ≡ []) }
        ensures runs { IfOk result (λ all. all.runs.items ≡ []) }
        ensures owners { IfOk result (λ all. all.owners.items ≡ []) }
    {
        Ok(Pieces {
            pieces: Vec::with_capacity(alloc, pieces)?,
            brackets: Vec::new(alloc),
            runs: Vec::new(alloc),
            owners: Vec::new(alloc),
        })
    }

    /// The runs from an index on, whose pairs are made, are put into their pieces.
    fn place_runs<L: Ledger>(&mut self, from: usize, turns: &mut Turns<L>)
        requires many { length self.old.owners.items ≡ length self.old.runs.items }
        ensures pieces { self.new.pieces.items ≡ placed_at self.old.pieces.items (drop from self.old.owners.items) (drop from self.old.runs.items) }
        ensures runs { self.new.runs.items ≡ take from self.old.runs.items }
        ensures owners { self.new.owners.items ≡ take from self.old.owners.items }
        ensures brackets { self.new.brackets.items ≡ self.old.brackets.items }
        ensures turns { turns.new + length self.new.runs.items ≡ turns.old + length self.old.runs.items }
    {
        while self.runs.len() > from {
            turns.add_one();
            let Some(run) = self.runs.pop() else {
                return;
            };
            let Some(owner) = self.owners.pop() else {
                return;
            };
            set_fate(&mut self.pieces, owner, Fate::Paired(run));
        }
    }

    /// One piece more.
    fn push(&mut self, start: usize, end: usize, fate: Fate) -> Result<(), AllocError>
        ensures pieces { OnOk result (self.new.pieces.items ≡ self.old.pieces.items ++ piece_at start end fate ∷ []) }
        ensures runs { self.new.runs.items ≡ self.old.runs.items }
        ensures owners { self.new.owners.items ≡ self.old.owners.items }
        ensures brackets { self.new.brackets.items ≡ self.old.brackets.items }
    {
        self.pieces.push(Piece { start, end, fate })?;
        Ok(())
    }

    /// One piece more, if it has events.
    fn push_some(&mut self, start: usize, end: usize, fate: Fate) -> Result<(), AllocError>
        ensures pieces { OnOk result (self.new.pieces.items ≡ self.old.pieces.items ++ cond (nat_lt start end) (piece_at start end fate ∷ []) []) }
        ensures runs { self.new.runs.items ≡ self.old.runs.items }
        ensures owners { self.new.owners.items ≡ self.old.owners.items }
        ensures brackets { self.new.brackets.items ≡ self.old.brackets.items }
    {
        if start < end {
            self.push(start, end, fate)?;
        }
        Ok(())
    }

    /// A bracket makes a link or an image, which ends with a span and a tail. The runs behind it pair among themselves.
    fn make<L: Ledger>(
        &mut self,
        alloc: Global,
        bracket: Bracket,
        start: usize,
        end: usize,
        tail: usize,
        turns: &mut Turns<L>,
    ) -> Result<(), AllocError>
        requires many { length self.old.owners.items ≡ length self.old.runs.items }
        ensures made { OnOk result (IsMade self.old self.new bracket start end tail) }
        ensures paid { OnOk result (turns.new + to_pay self.new [] ≤ turns.old + to_pay self.old [] + (1 + (tail - end))) }
    {
        let image = bracket.image;
        let filled = self.pieces.len().saturating_sub(bracket.piece) > 1;
        pair_behind(alloc, &mut self.runs, bracket.runs, turns)?;
        self.place_runs(bracket.runs, turns);
        set_fate(&mut self.pieces, bracket.piece, Fate::Opens(image, filled));
        self.push(start, end, Fate::Ends(image, filled, end == tail))?;
        self.push_some(end, tail, Fate::Tail(image))
    }

    /// The end of a link's or an image's label is read, with its tail.
    fn end<L: Ledger>(
        &mut self,
        alloc: Global,
        start: usize,
        end: usize,
        tail: usize,
        turns: &mut Turns<L>,
    ) -> Result<(), AllocError>
        requires many { length self.old.owners.items ≡ length self.old.runs.items }
        requires order { start < end }
        requires tail { end ≤ tail }
        ensures ended { OnOk result (IsEnded self.old self.new start end tail) }
        ensures paid { OnOk result (turns.new + to_pay self.new [] ≤ turns.old + to_pay self.old [] + (1 + (tail - end))) }
    {
        match self.brackets.pop() {
            None => {
                self.push(start, end, Fate::Same)?;
                self.push_some(end, tail, Fate::Same)
            }
            Some(bracket) => self.make(alloc, bracket, start, end, tail, turns),
        }
    }

    /// A run more is in no pair yet.
    fn wait(&mut self, start: usize, end: usize, run: Delimiters) -> Result<(), AllocError>
        ensures { OnOk result ((self.new.pieces.items ≡ self.old.pieces.items ++ piece_at start end Waits ∷ []) × (self.new.runs.items ≡ self.old.runs.items ++ run ∷ []) × (self.new.owners.items ≡ self.old.owners.items ++ length self.old.pieces.items ∷ []) × (self.new.brackets.items ≡ self.old.brackets.items)) }
    {
        self.owners.push(self.pieces.len())?;
        self.runs.push(run)?;
        self.pieces.push(Piece {
            start,
            end,
            fate: Fate::Waits,
        })?;
        Ok(())
    }

    /// An attention sequence is read: it is the next of the runs that are left, if there is one.
    fn read_run(
        &mut self,
        start: usize,
        end: usize,
        left: &mut Vec<Delimiters>,
    ) -> Result<(), AllocError>
        ensures read { OnOk result (IsRunRead self.old self.new left.old.items left.new.items start end) }
        ensures paid { OnOk result (to_pay self.new left.new.items ≤ to_pay self.old left.old.items + 1) }
    {
        match left.pop() {
            None => self.push(start, end, Fate::Same),
            Some(run) => self.wait(start, end, run),
        }
    }

    /// A span that is no end is read.
    fn read(
        &mut self,
        events: &[Event],
        start: usize,
        end: usize,
        left: &mut Vec<Delimiters>,
    ) -> Result<(), AllocError>
        requires order { start < end }
        requires inside { end ≤ length events.now }
        ensures read { OnOk result (IsRead events.now self.old self.new left.old.items left.new.items start end) }
        ensures paid { OnOk result (to_pay self.new left.new.items ≤ to_pay self.old left.old.items + 1) }
    {
        let span = &events[start..end];
        if is_bracket(span) {
            self.brackets.push(Bracket {
                piece: self.pieces.len(),
                runs: self.runs.len(),
                image: is_named(Name::LabelImage, span),
            })?;
            return self.push(start, end, Fate::AsData);
        }
        if is_named(Name::LabelMarker, span) {
            let _ = self.brackets.pop();
            return self.push(start, end, Fate::AsData);
        }
        if is_run(span) {
            return self.read_run(start, end, left);
        }
        self.push_some(start, end, Fate::Same)
    }

    /// The span that begins at an index is read, with the tail behind it if it ends a label. Returns the index behind it.
    fn step<L: Ledger>(
        &mut self,
        alloc: Global,
        events: &[Event],
        start: usize,
        left: &mut Vec<Delimiters>,
        turns: &mut Turns<L>,
    ) -> Result<usize, AllocError>
        requires many { length self.old.owners.items ≡ length self.old.runs.items }
        requires inside { start < length events.now }
        ensures order { IfOk result (λ next. (start < next) × (next ≤ length events.now)) }
        ensures paid { IfOk result (λ next. turns.new + to_pay self.new left.new.items ≤ turns.old + to_pay self.old left.old.items + 2 * (next - start)) }
        ensures stands { IfOk result (λ next. GoesOn events.now self.old self.new left.old.items left.new.items start next) }
    {
        let end = span_end(events, start, turns);
        if !is_named(Name::LabelEnd, &events[start..end]) {
            self.read(events, start, end, left)?;
            return Ok(end);
        }
        if !is_tail(&events[end..]) {
            self.end(alloc, start, end, end, turns)?;
            return Ok(end);
        }
        let tail = span_end(events, end, turns);
        self.end(alloc, start, end, tail, turns)?;
        Ok(tail)
    }
}

/// The outermost spans of a text, each with what becomes of it.
fn pieces_of<L: Ledger>(
    alloc: Global,
    bytes: &[u8],
    one_tilde: bool,
    events: &[Event],
    turns: &mut Turns<L>,
) -> Result<Vec<Piece>, AllocError>
    requires room { ArePlacesInside bytes.now events.now }
    ensures links { IfOk result (λ pieces. written_from events.now [] pieces.items ≡ with_links one_tilde bytes.now events.now) }
    ensures fit { IfOk result (λ pieces. AllByRecursion (Fits (length events.now)) pieces.items) }
    ensures paid { IfOk result (λ pieces. turns.new + to_write pieces.items ≤ turns.old + pay (runs_in one_tilde bytes.now events.now) + 3 * length events.now) }
{
    let mut left = turned(runs_of_counted(alloc, bytes, one_tilde, events, turns)?);
    // (a span has two events or more)
    let mut all = Pieces::with_room(alloc, events.len() / 2)?;
    let mut next = 0;
    while next < events.len() {
        next = all.step(alloc, events, next, &mut left, turns)?;
    }
    pair_behind(alloc, &mut all.runs, 0, turns)?;
    all.place_runs(0, turns);
    Ok(all.pieces)
}

/// The events of a text with links, images and emphasis in place of its brackets and delimiter runs.
pub(crate) fn linked<L: Ledger>(
    alloc: Global,
    bytes: &[u8],
    one_tilde: bool,
    events: &[Event],
    turns: &mut Turns<L>,
) -> Result<Vec<Event>, AllocError>
    requires room { ArePlacesInside bytes.now events.now }
    ensures links { IfOk result (λ out. out.items ≡ with_links one_tilde bytes.now events.now) }
    ensures linear { OnOk result (turns.new ≤ turns.old + pay (runs_in one_tilde bytes.now events.now) + 3 * length events.now) }
{
    let pieces = pieces_of(alloc, bytes, one_tilde, events, turns)?;
    written(alloc, events, pieces.as_slice(), turns)
}
