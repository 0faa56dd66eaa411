//! Where a line's rest is a thematic break: at each column, by one walk from the line's end.

ghost use Rattle.std.specs.Prelude.{◌≡◌, ◌≤◌, ◌<◌, ◌+◌, ◌^◌, ◌&&◌, ℕ, length, drop};
ghost use Rattle.mdblock_leaf_blocks.specs.LineKinds.{indent, is_thematic_break, unindented};
ghost use Rattle.mdblock_lines.specs.Breaks.{has_break, is_break_mark, walked, with_byte};

use crate::bytes::is_white;
use markdown_base::configuration::Constructs;
use mdconstructs_loop_counts::Turns;
use std::sync::ledger::Ledger;

/// The columns at which thematic breaks begin in a line, of those that are no white space.
#[derive(Clone, Copy)]
pub struct Breaks {
    /// From here on the line has one mark and white space alone.
    pub from: usize,
    /// Up to here three marks or more follow.
    pub to: usize,
}

impl Breaks {
    /// A thematic break begins at this column, which is no white space.
    pub fn has(self, at: usize) -> bool
        ensures { result ≡ has_break self at }
    {
        self.from <= at && at < self.to
    }
}

/// What a walk over the end of a line found: one mark and white space.
#[derive(Clone, Copy)]
struct Walk {
    /// The mark, if there is one.
    mark: u8,
    /// How many of it.
    marks: usize,
    /// How many bytes it went over.
    reach: usize,
    /// How many bytes the shortest end has in which there are three marks, or zero.
    least: usize,
}

fn is_break_mark(byte: u8) -> bool
    ensures { result ≡ is_break_mark byte }
{
    byte == b'*' || byte == b'-' || byte == b'_'
}

/// The walk goes over one byte more, before the others, if that is white space or the mark.
fn with_byte(w: Walk, byte: u8) -> Option<Walk>
    requires room { w.reach + 1 < 2 ^ 64 }
    requires marks { w.marks ≤ w.reach }
    ensures { result ≡ with_byte w byte }
{
    let reach = w.reach + 1;
    if is_white(byte) {
        return Some(Walk {
            mark: w.mark,
            marks: w.marks,
            reach,
            least: w.least,
        });
    }
    if is_break_mark(byte) && (w.marks == 0 || byte == w.mark) {
        let least = if w.marks == 2 { reach } else { w.least };
        return Some(Walk {
            mark: byte,
            marks: w.marks + 1,
            reach,
            least,
        });
    }
    None
}

/// A walk from a line's end on, as far as it goes.
fn walk_over<L: Ledger>(t: &[u8], turns: &mut Turns<L>) -> Walk
    ensures value { result ≡ walked t.now }
    ensures turns { turns.new ≤ turns.old + length t.now }
{
    let mut w = Walk {
        mark: 0,
        marks: 0,
        reach: 0,
        least: 0,
    };
    for n in 0..t.len() {
        turns.add_one();
        match with_byte(w, t[t.len() - 1 - n]) {
            Some(longer) => w = longer,
            None => return w,
        }
    }
    w
}

/// Where the rest of a line is a thematic break, if these are on.
pub fn breaks_in<L: Ledger>(on: &Constructs, t: &[u8], turns: &mut Turns<L>) -> Breaks
    ensures value { (at : ℕ) → at ≤ length t.now → has_break result (at + indent (drop at t.now)) ≡ on.now.thematic_break && is_thematic_break (unindented (drop at t.now)) }
    ensures turns { turns.new ≤ turns.old + length t.now }
{
    if !on.thematic_break {
        return Breaks { from: 0, to: 0 };
    }
    let w = walk_over(t, turns);
    let from = t.len() - w.reach;
    if w.least == 0 {
        return Breaks { from, to: 0 };
    }
    Breaks {
        from,
        to: t.len() - w.least + 1,
    }
}
