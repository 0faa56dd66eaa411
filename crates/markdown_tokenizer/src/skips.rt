//! Gaps: the places up to which beginnings of lines are passed.

ghost use Rattle.markdown_tokenizer.specs.Gaps.{skip_of};
ghost use Rattle.std.specs.List.{AllByRecursion};
ghost use Rattle.std.specs.Prelude.{◌≡◌, ◌++◌, ◌<◌, ◌↔◌, [], ◌∷◌, IfOk, IsTrue, OnErr, OnOk, unwrap_or};

use markdown_base::event::Point;
use std::alloc::{AllocError, Global};
use std::marker::Model;

/// The places up to which beginnings of lines are passed, one for each such line, sorted by line.
#[derive(Drop)]
pub(crate) struct Skips {
    places: Vec<Point>,
}

impl Model for Skips {
    ghost use Rattle.std.specs.Prelude.{List};
    ghost use Rattle.markdown_base.specs.declared.event.Point.{Point};

    ghost Value = { List Point };

    ghost use Rattle.markdown_tokenizer.specs.Gaps.{AreSorted};

    ghost view = { λ m. m.places.items };

    ghost invariant = { λ m. AreSorted m.places.items };
}

impl Skips {
    /// No line is passed. Takes no memory.
    pub(crate) fn new(alloc: Global) -> Self
        ensures { result ≡ [] }
    {
        Skips {
            places: Vec::new(alloc),
        }
    }

    /// No line is passed. Keeps the memory.
    pub(crate) fn clear(&mut self)
        ensures { self.new ≡ [] }
    {
        self.places.clear();
    }

    /// The same places, in memory of their own.
    pub(crate) fn try_clone(&self, alloc: Global) -> Result<Self, AllocError>
        ensures { IfOk result (λ copy. copy ≡ self.now) }
    {
        Ok(Skips {
            places: Vec::from_slice(alloc, &self.places)?,
        })
    }

    /// Whether no line is passed.
    #[inline(always)]
    pub(crate) fn is_empty(&self) -> bool
        ensures { IsTrue result ↔ (self.now ≡ []) }
    {
        self.places.is_empty()
    }

    /// Adds a place, in a later line than all others. If it runs out of memory, nothing changes.
    pub(crate) fn push(&mut self, place: Point) -> Result<(), AllocError>
        requires { AllByRecursion (λ (p : Point). p.line < place.line) self.old }
        ensures ok { OnOk result (self.new ≡ self.old ++ place ∷ []) }
        ensures err { OnErr result (self.new ≡ self.old) }
    {
        self.places.push(place)?;
        Ok(())
    }

    /// Where the next byte is looked for at the beginning of a line: after the line's gap, if it has one.
    ///
    /// The line is found by binary search. It is cold: most documents have no gaps, and most bytes are in mid-line.
    #[cold]
    #[inline(never)]
    pub(crate) fn after<'a>(&'a self, place: &'a Point) -> &'a Point
        ensures { result.now ≡ unwrap_or (skip_of self.now place.now.line) place.now }
    {
        let line = place.line;
        let at = self.places.partition_point(|skip| skip.line < line);
        match self.places.get(at) {
            None => place,
            Some(skip) => { if skip.line == line { skip } else { place } }
        }
    }
}
