//! The machine of words: each word is data, and each run of blanks white space. A word after a number sign is a tag.

ghost use Rattle.std.specs.Prelude.{◌≡◌, ◌==◌, [], IfOk, OnOk};
ghost use Rattle.markdown_tokenizer.specs.Calls.{with_local};
ghost use Rattle.markdown_tokenizer.specs.Configuration.{at_configuration};
ghost use Rattle.mdconstructs_tables.specs.RowInvariant.{DoesAll, IsCallable, step_in};
ghost use Rattle.mdconstructs_machines.specs.Words.{word_byte, text_start, blanks, word_start, tag, word, first_dropped, one_blank, one_blank_more, refusal_of};

use crate::begin::begin;
use crate::message::boxed;
use markdown_tokenizer::event;
use markdown_tokenizer::message::Message;
use markdown_tokenizer::owned::OwnedText;
use markdown_tokenizer::state::{Machine, MachineTypes, Name, State};
use markdown_tokenizer::subtokenize::Subresult;
use markdown_tokenizer::tokenizer::{Fault, Tokenizer};
use mdconstructs_tables::answers::{enter_over, exit_to};
use mdconstructs_tables::marker;
use std::alloc::{AllocError, Global};

/// Why a document is refused: there are too many blanks.
const THIRD_BLANK: &str = "a third blank in a row";

/// Why a document is refused: no word follows a sign.
const NO_WORD: &str = "a tag without a word";

/// Reads each word as data, and each run of blanks as white space. A word after a number sign is a tag, whose sign is a span
/// of its own. A document with a third blank in a row, or with a sign without a word, is refused. Blanks before the first
/// word are dropped when edits are made.
///
/// It takes at most 2 n + 1 calls for n virtual bytes.
#[derive(Drop)]
pub struct Words {}

impl MachineTypes for Words {
    type Resolver = ();

    type Document = ();
}

impl Machine for Words {
    ghost use Rattle.mdconstructs_tables.proofs.Tables.Lawful.{knowing-lawful};
    ghost use Rattle.mdconstructs_machines.specs.Words.{words, knows_edits, words_rules};
    ghost use Rattle.mdconstructs_machines.specs.Laws.Words.{words-fit, words-known};

    ghost rules = { λ _. words_rules };

    /// Counts the call, and runs the state of this name.
    #[tactic(auto, using(crate::proofs::RowSteps::words_called))]
    fn call<'a>(
        &self,
        alloc: Global,
        t: &mut Tokenizer<'a, Self>,
        name: Name,
    ) -> Result<State, AllocError> {
        begin(t);
        match name {
            Name::TextStart => text_start(alloc, t),
            Name::SpaceOrTabInside => blanks(alloc, t),
            Name::DataStart => word_start(t),
            Name::DataAtBreak => tag(alloc, t),
            Name::DataInside => word(t),
            _ => unreachable!(),
        }
    }

    /// Never called, as it registers no resolver.
    fn resolve<'a>(
        &self,
        alloc: Global,
        t: &mut Tokenizer<'a, Self>,
        name: (),
    ) -> Result<Option<Subresult>, Fault> {
        Ok(None)
    }

    ghost lawful = { λ _ g. knowing-lawful words knows_edits g words-fit words-known };
}

/// Before the text: blanks here will be dropped.
fn text_start<'a>(alloc: Global, t: &mut Tokenizer<'a, Words>) -> Result<State, AllocError>
    requires called { IsCallable word_byte text_start t.old }
    requires no_edits { t.old.configuration.local.map ≡ [] }
    ensures { IfOk result (DoesAll (step_in word_byte text_start t.old) t.old t.new) }
{
    match t.current() {
        None => Ok(State::Ok),
        Some(b' ') => {
            drop_first(alloc, t)?;
            t.enter(event::Name::SpaceOrTab)?;
            count_one(t);
            t.consume();
            Ok(State::Next(Name::SpaceOrTabInside))
        }
        Some(_) => Ok(State::Retry(Name::DataStart)),
    }
}

/// In blanks: at most two in a row.
fn blanks<'a>(alloc: Global, t: &mut Tokenizer<'a, Words>) -> Result<State, AllocError>
    requires { IsCallable word_byte blanks t.old }
    ensures { IfOk result (DoesAll (step_in word_byte blanks t.old) t.old t.new) }
{
    match t.current() {
        None => exit_to(t, event::Name::SpaceOrTab, State::Ok),
        Some(b' ') => {
            if are_two(t) {
                return Ok(State::Error(refusal(alloc, THIRD_BLANK)?));
            }
            count_one_more(t);
            t.consume();
            Ok(State::Next(Name::SpaceOrTabInside))
        }
        Some(_) => exit_to(t, event::Name::SpaceOrTab, State::Retry(Name::DataStart)),
    }
}

/// Before a word: its first byte waits.
fn word_start<'a>(t: &mut Tokenizer<'a, Words>) -> Result<State, AllocError>
    requires { IsCallable word_byte word_start t.old }
    ensures { IfOk result (DoesAll (step_in word_byte word_start t.old) t.old t.new) }
{
    match t.current() {
        Some(b'#') => {
            marker(t, event::Name::HeadingAtxSequence)?;
            t.enter(event::Name::Data)?;
            Ok(State::Next(Name::DataAtBreak))
        }
        _ => enter_over(t, event::Name::Data, State::Next(Name::DataInside)),
    }
}

/// After a sign: the word of a tag begins.
fn tag<'a>(alloc: Global, t: &mut Tokenizer<'a, Words>) -> Result<State, AllocError>
    requires { IsCallable word_byte tag t.old }
    ensures { IfOk result (DoesAll (step_in word_byte tag t.old) t.old t.new) }
{
    match t.current() {
        None => Ok(State::Error(refusal(alloc, NO_WORD)?)),
        Some(b' ') => Ok(State::Error(refusal(alloc, NO_WORD)?)),
        Some(_) => {
            t.consume();
            Ok(State::Next(Name::DataInside))
        }
    }
}

/// In a word.
fn word<'a>(t: &mut Tokenizer<'a, Words>) -> Result<State, AllocError>
    requires { IsCallable word_byte word t.old }
    ensures { IfOk result (DoesAll (step_in word_byte word t.old) t.old t.new) }
{
    match t.current() {
        None => exit_to(t, event::Name::Data, State::Ok),
        Some(b' ') => {
            t.exit(event::Name::Data)?;
            t.enter(event::Name::SpaceOrTab)?;
            count_one(t);
            t.consume();
            Ok(State::Next(Name::SpaceOrTabInside))
        }
        Some(_) => {
            t.consume();
            Ok(State::Next(Name::DataInside))
        }
    }
}

/// Adds the edit that removes the first span.
fn drop_first<'a>(alloc: Global, t: &mut Tokenizer<'a, Words>) -> Result<(), AllocError>
    requires { t.old.configuration.local.map ≡ [] }
    ensures { OnOk result (t.new ≡ at_configuration t.old (with_local t.old.configuration (first_dropped t.old.configuration))) }
{
    t.map.add(0, 2, Vec::new(alloc))
}

/// Sets the count of blanks to one.
fn count_one<'a>(t: &mut Tokenizer<'a, Words>)
    ensures { t.new ≡ at_configuration t.old (with_local t.old.configuration (one_blank t.old.configuration)) }
{
    t.tokenize_state.size_b = 1;
}

/// Adds one to the count of blanks.
fn count_one_more<'a>(t: &mut Tokenizer<'a, Words>)
    ensures { t.new ≡ at_configuration t.old (with_local t.old.configuration (one_blank_more t.old.configuration)) }
{
    t.tokenize_state.size_b = t.tokenize_state.size_b.saturating_add(1);
}

/// Whether there are two blanks.
fn are_two<'a>(t: &Tokenizer<'a, Words>) -> bool
    ensures { result ≡ (t.now.configuration.local.tokenize_state.size_b == 2) }
{
    t.tokenize_state.size_b == 2
}

/// The message of a document that is refused for a reason.
fn refusal(alloc: Global, reason: &str) -> Result<Message, AllocError>
    ensures { IfOk result (λ message. message ≡ refusal_of reason.now) }
{
    let reason = OwnedText::from_string(String::from_str(alloc, reason)?);
    let rule_id = boxed(alloc, "words")?;
    let source = boxed(alloc, "limecove")?;
    Ok(Message {
        place: None,
        reason,
        rule_id,
        source,
    })
}
