//! A place that is noted, where a span may end or begin later.

ghost use Rattle.std.specs.Prelude.{◌≡◌};
ghost use Rattle.markdown_tokenizer.specs.Calls.{noting, place_of};
ghost use Rattle.markdown_tokenizer.specs.Configuration.{at_configuration};
ghost use Rattle.markdown_tokenizer.specs.Sight.{sight_of};

use super::Tokenizer;
use crate::cursor::{is_where_more_is, shown, standing};
use crate::state::MachineTypes;
use markdown_base::event::Point;

/// The place of a byte: where a span before it would end, and where a span that begins with it would begin. The two differ over a gap.
#[derive(Clone, Copy, Debug, PartialEq, Eq)]
pub struct Noted {
    /// Where a span before it would end.
    pub exit: Point,
    /// Where a span that begins with it would begin.
    pub enter: Point,
}

impl Noted {
    /// The start of a document.
    pub const START: Noted = Noted {
        exit: Point::START,
        enter: Point::START,
    };
}

impl<'a, M: MachineTypes> Tokenizer<'a, M> {
    /// Notes the place here, of the byte that waits if one does, and forgets the one noted before. A span may end or begin there later
    /// (`exit_at`, `enter_at`). A choice that goes back leaves what is noted. Takes no memory.
    #[inline(always)]
    pub fn note(&mut self)
        ensures { self.new ≡ at_configuration self.old (noting (place_of (sight_of self.old)) self.old.configuration) }
    {
        let exit = self.exit_place();
        let enter = self.enter_place(exit);
        self.noted = Noted { exit, enter };
    }

    /// The place that was noted last; the start of a document if none was.
    #[inline(always)]
    pub fn noted(&self) -> Noted
        ensures { result ≡ self.now.configuration.local.noted }
    {
        self.noted
    }

    /// Where an enter would be, if this is where an exit would be.
    #[inline(always)]
    fn enter_place(&self, exit: Point) -> Point
        requires { exit ≡ (sight_of self.now).exit_place }
        ensures { result ≡ (sight_of self.now).enter_place }
    {
        if is_where_more_is(&self.skips, &self.after_previous) {
            return exit;
        }
        let place = standing(&self.skips, self.after_previous, self.waits);
        shown(self.parse_state.bytes, place)
    }
}
