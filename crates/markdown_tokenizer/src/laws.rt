//! Laws about texts, choices and readings.
//!
//! Each is a function that does nothing, whose contract is the law.

ghost use Rattle.std.specs.Prelude.{List};
ghost use Rattle.markdown_base.specs.declared.event.Event.{Event};
ghost use Rattle.markdown_tokenizer.specs.Noted.{BytesHavePlaces, EventsKeepNoted, NoteOnceRead, StayNoted};
ghost use Rattle.markdown_tokenizer.specs.Alike.{CallsAreAlike, GoesOnElsewhere, ReadingGoesOn};
ghost use Rattle.markdown_tokenizer.specs.Engine.{HasOneEnd};
ghost use Rattle.markdown_tokenizer.specs.LawStatements.{CutsLeaveNoTrace, PushesAreOne, ChoicesPutBack, PushesInOneWay};
ghost use Rattle.markdown_tokenizer.specs.Promises.{MayPromiseLess, MayPromiseWellFormed};
ghost use Rattle.markdown_tokenizer.specs.Renames.{NamesMayChange, RenamingKeeps};
ghost use Rattle.markdown_tokenizer.specs.Reserves.{ReservesAreEnough};
ghost use Rattle.markdown_tokenizer.specs.Stays.{StayBeforeChoices, WhatWasReadStays};
ghost use Rattle.markdown_tokenizer.specs.Text.{Given, Text};
ghost use Rattle.markdown_tokenizer.specs.Turns.{TurnsAreKept};

use crate::state::Machine;

/// A range that is pushed in two parts makes the same text as the range pushed at once. The first part may end at the
/// CR of a CR LF and the second begin at its LF.
pub fn cuts_leave_no_trace()
    ensures { CutsLeaveNoTrace }
{}

/// What a push leaves, and what it returns, is a function of what it found.
pub fn pushes_in_one_way<M: Machine>()
    ensures { PushesInOneWay M.rules }
{}

/// Pushing a range in two parts is allowed only if pushing it at once is, and then it leaves the same tokenizer, and returns the
/// same state.
pub fn pushes_are_one<M: Machine>()
    ensures { PushesAreOne M.rules }
{}

/// After a choice goes back, reading goes on from where the choice was made, whatever was read meanwhile. The same spans are
/// open, and the events are the same up to the ends of their links. The state that machine states share is not put back.
pub fn choices_put_back<R, D>()
    ensures { ChoicesPutBack R D }
{}

/// A lawful machine reads each text in one way, within its cost.
pub fn reads_in_one_way<M: Machine>()
    ensures { (m : _) (g : _) → HasOneEnd g (M.rules m g) }
{}

/// A machine may state a cost for each state, and a reserve for each choice that waits: what may still be called when it ends. If
/// these pay, then the cost of the state and the reserves of all choices that wait is a cost as the law `cost_pays` wants it.
pub fn reserves_are_enough<M: Machine>()
    ensures { ReservesAreEnough M.rules }
{}

/// What was read turn by turn need not be read again on a longer text, also of another document, on which calls are alike.
pub fn turns_are_kept<R, D>()
    ensures { TurnsAreKept R D }
{}

/// If a machine looks no further than the byte that waits, its calls at the bytes of a text are the same in a document that begins
/// alike.
pub fn calls_are_alike<M: Machine>()
    ensures { (m : _) → CallsAreAlike (M.rules m) }
{}

/// The events before the outermost waiting choice are final before resolvers, up to the ends of their links: whatever is read on, the
/// result of the reading begins with them. If no choice waits, these are all events.
pub fn what_was_read_stays<M: Machine>()
    ensures before_choices { (m : _) (g : _) → StayBeforeChoices g (M.rules m g) }
    ensures no_choice { (m : _) (g : _) → WhatWasReadStays g (M.rules m g) }
{}

/// What was read of a document up to a cut between two bytes need not be read again in another document that is alike up to there.
pub fn reading_goes_on<M: Machine>()
    ensures { ReadingGoesOn M.rules }
{}

/// A machine whose states register no resolver, make no edit and link nothing promises, for nothing, that its final events are well
/// formed: balanced, with each void span empty, each event at a place of the document, and in order of place.
pub fn well_formed_may_be_promised<M: Machine>()
    ensures { MayPromiseWellFormed M.rules }
{}

/// A statement on the final events of a text.
pub trait Promise {
    /// The statement, on a document.
    ghost ends: { Given → Text → List Event → Type 0 };
}

/// A machine may promise less: with any statement that follows from its promise it is lawful as well. So a machine that is lawful
/// with a promise is lawful without one.
pub fn less_may_be_promised<M: Machine, P: Promise>()
    ensures { MayPromiseLess M.rules P.ends }
{}

/// A resolver may give events other names (`Tokenizer::events_mut`). If both ends of each span get one name, and a void name goes only to
/// spans that hold no event, then the events stay well formed, and in shape. So it is if one function of names gives the new ones, and
/// makes none void.
pub fn renaming_keeps()
    ensures kept { RenamingKeeps }
    ensures by_names { NamesMayChange }
{}

/// A tokenizer that has read a document up to a cut goes on in another document, if that is alike up to there and the machine looks no
/// further than the byte that waits: moved there (`moved_to`, which ensures that its events stand at places of the other document), it is
/// what the same push of the other document leaves. Pushing the rest of the other document, and flushing, is a run of it.
pub fn goes_on_elsewhere<M: Machine>()
    ensures { GoesOnElsewhere M.rules }
{}

/// A place that was noted stays noted when a byte is consumed. So a machine may note it where white space begins, and end a span there
/// once it knows what follows.
pub fn noted_places_stay<M, R, D>()
    ensures { StayNoted M R D }
{}

/// The place of each byte of a text may be noted: where a span before it would end and where one that begins with it would begin are
/// places of the document, as they are shown, in this order, and before the end of the byte.
pub fn bytes_have_places()
    ensures { BytesHavePlaces }
{}

/// A place that is noted where a byte waits, while no event is after it, is one where spans can end and begin once the byte is consumed.
/// It stays so after spans have ended there; after one has begun there, others can still begin there.
pub fn places_are_noted<M, R, D>()
    ensures once_read { NoteOnceRead M R D }
    ensures events { EventsKeepNoted M R D }
{}
