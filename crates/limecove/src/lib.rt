//! What programs in C and in Rust call: functions over bytes, numbers and records, in a static library.
//!
//! Nothing checks what such a caller does, so no function here requires anything. What the types do not say is tested, and a code
//! is returned for it. The caller owns all memory that is passed. A call frees what it allocates before it returns.
#![tactic(auto)]

// numbers: the version, the codes, and the law of numbers; what is called stands in this file
pub mod code;
pub mod laws;
#[cfg(test)]
mod tests;

// choices: options as numbers, and what they choose; options as records, for callers that compare layouts
mod choose;
mod echo;

// HTML: a document as HTML
pub mod html;

// records: events as records; the numbers of names; the loop that writes records
mod record;

// readings: what a caller keeps; a list as its pointer, proved by hand
pub mod kept;
mod loose;
mod reading;

// documents: documents that a caller edits
pub mod document;
pub mod editing;
pub mod edits;
pub mod held;
mod keeping;

// bytes and labels: bytes of documents that a caller edits; labels, and where they are defined; references that nothing defines
pub mod bytes;
pub mod labels;
pub mod undefined;

ghost use Rattle.std.specs.Prelude.{◌≡◌, ◌≢◌, ◌<◌, ◌≤◌, ◌-◌, ◌↔◌, ◌⊎◌, Err, IfErr, IfOk, IsOkAnd, drop, length, min};
ghost use Rattle.markdown.specs.Virtual.{IsWithinLimit};
ghost use Rattle.mdconstructs.specs.ByteRanges.{AreRanges};
ghost use Rattle.mdconstructs.specs.Choices.{CanCut};
ghost use Rattle.limecove.specs.Choices.{choice_of, has_rewritten, parse_options_of, text_choice_of};
ghost use Rattle.limecove.specs.Readings.{IsClosed, events_in};
ghost use Rattle.limecove.specs.Records.{AreEventsBy, AreRead, AreReadAsText, AreReadInRanges, HoldsEventsOf, HoldsTextIn, HoldsTextOf, echoed, echoed_html, echoed_range, echoed_text, filled, numbered};

use crate::choose::{
    HtmlOptions, Options, TextOptions, choose, choose_text, constructs_of, has_rewritten,
    parse_options_of,
};
use crate::code::{LINKS_NO_TEXT, NO_SUCH_RANGES, OUT_OF_MEMORY, READ, TOO_LONG, VERSION};
use crate::echo::{echo_of, echo_of_html, echo_of_range, echo_of_text, numbered};
use crate::kept::Reading;
use crate::reading::copy_from;
use crate::record::{Record, write_records};
use markdown::event::Event;
use mdconstructs::choice::Choice;
use mdconstructs::ranges::{ByteRange, are_ranges, text_events_in};
use mdconstructs::{events_of, limit_of, options_with, text_events_of};
use mdgfm_documents::documents::read_gfm_document;
use std::alloc::{AllocError, Global};

/// How a call ended, and how many events there are.
#[repr(C)]
#[derive(Clone, Copy, Debug, PartialEq, Eq)]
pub struct Answer {
    /// [`READ`], or why the document was not read.
    pub code: u32,
    /// [`VERSION`].
    pub version: u32,
    /// How many events the document has. If there are more than records, the first events were written, as many as fit. It is 0 if
    /// the document was not read.
    pub count: usize,
}

/// The version of the library. A caller asks for it before its first call of the other functions, as these write to memory whose
/// layout the version says.
#[unsafe(no_mangle)]
pub extern "C" fn limecove_version() -> u32
    ensures { result ≡ VERSION }
{
    VERSION
}

/// Reads a whole document as text, and writes its events over the first records, as many as fit.
#[unsafe(no_mangle)]
pub extern "C" fn limecove_read_text(
    alloc: Global,
    bytes: &[u8],
    options: &TextOptions,
    records: &mut [Record],
) -> Answer
    ensures read { result.code ≡ READ → HoldsTextOf options.now bytes.now result.count records.old records.new }
    ensures kept { result.code ≢ READ → records.new ≡ records.old }
    ensures none { result.code ≢ READ → result.count ≡ 0 }
    ensures options { IfErr (text_choice_of options.now) (λ code. result.code ≡ code) }
    ensures chosen { IfOk (text_choice_of options.now) (λ _. result.code ≤ TOO_LONG) }
    ensures too_long { (result.code ≡ TOO_LONG) ↔ IsOkAnd (text_choice_of options.now) (λ tab. ¬ IsWithinLimit tab bytes.now) }
    ensures codes { result.code ≤ LINKS_NO_TEXT }
    ensures version { result.version ≡ VERSION }
{
    match text_events(alloc, bytes, options) {
        Ok(texts) => ended(READ, write_records(records, texts.as_slice())),
        Err(code) => ended(code, 0),
    }
}

/// Reads a whole document as the options say, and writes its events over the first records, as many as fit. Tables, autolink literals and checks of
/// task list items stand among them, if these are on: only by the machine of documents, with `deep`.
#[unsafe(no_mangle)]
pub extern "C" fn limecove_read(
    alloc: Global,
    bytes: &[u8],
    options: &Options,
    records: &mut [Record],
) -> Answer
    ensures read { result.code ≡ READ → HoldsEventsOf options.now bytes.now result.count records.old records.new }
    ensures kept { result.code ≢ READ → records.new ≡ records.old }
    ensures none { result.code ≢ READ → result.count ≡ 0 }
    ensures options { IfErr (choice_of options.now) (λ code. result.code ≡ code) }
    ensures chosen { IfOk (choice_of options.now) (λ _. result.code ≤ TOO_LONG) }
    ensures too_long { (result.code ≡ TOO_LONG) ↔ IsOkAnd (choice_of options.now) (λ choice. ¬ IsWithinLimit choice.tab bytes.now) }
    ensures codes { result.code ≤ LINKS_NO_TEXT }
    ensures version { result.version ≡ VERSION }
{
    match events(alloc, bytes, options) {
        Ok(list) => ended(READ, write_records(records, list.as_slice())),
        Err(code) => ended(code, 0),
    }
}

/// Reads a whole document as text. The reading keeps its events, for [`limecove_copy`], until [`limecove_close`].
#[unsafe(no_mangle)]
pub extern "C" fn limecove_open_text(
    alloc: Global,
    bytes: &[u8],
    options: &TextOptions,
    reading: &mut Reading,
) -> Answer
    ensures read { result.code ≡ READ → AreReadAsText options.now bytes.now result.count (events_in reading.new) }
    ensures closed { result.code ≢ READ → IsClosed reading.new }
    ensures none { result.code ≢ READ → result.count ≡ 0 }
    ensures options { IfErr (text_choice_of options.now) (λ code. result.code ≡ code) }
    ensures chosen { IfOk (text_choice_of options.now) (λ _. result.code ≤ TOO_LONG) }
    ensures too_long { (result.code ≡ TOO_LONG) ↔ IsOkAnd (text_choice_of options.now) (λ tab. ¬ IsWithinLimit tab bytes.now) }
    ensures codes { result.code ≤ LINKS_NO_TEXT }
    ensures version { result.version ≡ VERSION }
{
    match text_events(alloc, bytes, options) {
        Ok(texts) => keep(alloc, texts, reading),
        Err(code) => {
            *reading = Reading::closed();
            ended(code, 0)
        }
    }
}

/// Reads a whole document as the options say. The reading keeps its events, for [`limecove_copy`], until [`limecove_close`].
#[unsafe(no_mangle)]
pub extern "C" fn limecove_open(
    alloc: Global,
    bytes: &[u8],
    options: &Options,
    reading: &mut Reading,
) -> Answer
    ensures read { result.code ≡ READ → AreRead options.now bytes.now result.count (events_in reading.new) }
    ensures closed { result.code ≢ READ → IsClosed reading.new }
    ensures none { result.code ≢ READ → result.count ≡ 0 }
    ensures options { IfErr (choice_of options.now) (λ code. result.code ≡ code) }
    ensures chosen { IfOk (choice_of options.now) (λ _. result.code ≤ TOO_LONG) }
    ensures too_long { (result.code ≡ TOO_LONG) ↔ IsOkAnd (choice_of options.now) (λ choice. ¬ IsWithinLimit choice.tab bytes.now) }
    ensures codes { result.code ≤ LINKS_NO_TEXT }
    ensures version { result.version ≡ VERSION }
{
    match events(alloc, bytes, options) {
        Ok(list) => keep(alloc, list, reading),
        Err(code) => {
            *reading = Reading::closed();
            ended(code, 0)
        }
    }
}

/// Reads ranges of a document as one text, and writes its events over the first records, as many as fit. Their places are those in the
/// whole document.
#[unsafe(no_mangle)]
pub extern "C" fn limecove_read_text_in(
    alloc: Global,
    bytes: &[u8],
    ranges: &[ByteRange],
    options: &TextOptions,
    records: &mut [Record],
) -> Answer
    ensures read { result.code ≡ READ → HoldsTextIn options.now bytes.now ranges.now result.count records.old records.new }
    ensures kept { result.code ≢ READ → records.new ≡ records.old }
    ensures none { result.code ≢ READ → result.count ≡ 0 }
    ensures options { IfErr (text_choice_of options.now) (λ code. result.code ≡ code) }
    ensures chosen { IfOk (text_choice_of options.now) (λ _. (result.code ≤ TOO_LONG) ⊎ (result.code ≡ NO_SUCH_RANGES)) }
    ensures too_long { (result.code ≡ TOO_LONG) ↔ IsOkAnd (text_choice_of options.now) (λ tab. ¬ IsWithinLimit tab bytes.now) }
    ensures ranges { (result.code ≡ NO_SUCH_RANGES) ↔ IsOkAnd (text_choice_of options.now) (λ tab. IsWithinLimit tab bytes.now × ¬ AreRanges bytes.now ranges.now) }
    ensures codes { result.code ≤ NO_SUCH_RANGES }
    ensures version { result.version ≡ VERSION }
{
    match text_events_in_ranges(alloc, bytes, ranges, options) {
        Ok(found) => ended(READ, write_records(records, found.as_slice())),
        Err(code) => ended(code, 0),
    }
}

/// Reads ranges of a document as one text, as [`limecove_read_text_in`] does. The reading keeps its events, for [`limecove_copy`], until
/// [`limecove_close`].
#[unsafe(no_mangle)]
pub extern "C" fn limecove_open_text_in(
    alloc: Global,
    bytes: &[u8],
    ranges: &[ByteRange],
    options: &TextOptions,
    reading: &mut Reading,
) -> Answer
    ensures read { result.code ≡ READ → AreReadInRanges options.now bytes.now ranges.now result.count (events_in reading.new) }
    ensures closed { result.code ≢ READ → IsClosed reading.new }
    ensures none { result.code ≢ READ → result.count ≡ 0 }
    ensures options { IfErr (text_choice_of options.now) (λ code. result.code ≡ code) }
    ensures chosen { IfOk (text_choice_of options.now) (λ _. (result.code ≤ TOO_LONG) ⊎ (result.code ≡ NO_SUCH_RANGES)) }
    ensures too_long { (result.code ≡ TOO_LONG) ↔ IsOkAnd (text_choice_of options.now) (λ tab. ¬ IsWithinLimit tab bytes.now) }
    ensures ranges { (result.code ≡ NO_SUCH_RANGES) ↔ IsOkAnd (text_choice_of options.now) (λ tab. IsWithinLimit tab bytes.now × ¬ AreRanges bytes.now ranges.now) }
    ensures codes { result.code ≤ NO_SUCH_RANGES }
    ensures version { result.version ≡ VERSION }
{
    match text_events_in_ranges(alloc, bytes, ranges, options) {
        Ok(found) => keep(alloc, found, reading),
        Err(code) => {
            *reading = Reading::closed();
            ended(code, 0)
        }
    }
}

/// Writes the events of a reading from this one on over the first records, as many as fit. Returns how many were written. A reading
/// that is not open has no events.
#[unsafe(no_mangle)]
pub extern "C" fn limecove_copy(
    alloc: Global,
    reading: &mut Reading,
    from: usize,
    records: &mut [Record],
) -> usize
    ensures copied { records.new ≡ filled records.old (drop from (events_in reading.old)) }
    ensures count { result ≡ min (length records.old) (length (events_in reading.old) - from) }
    ensures kept { events_in reading.new ≡ events_in reading.old }
{
    let Some(list) = reading.take(alloc) else {
        return 0;
    };
    let written = copy_from(list.as_slice(), from, records);
    *reading = Reading::of(list);
    written
}

/// Gives back the memory of a reading. If it is not open, nothing changes.
#[unsafe(no_mangle)]
pub extern "C" fn limecove_close(alloc: Global, reading: &mut Reading)
    ensures { IsClosed reading.new }
{
    drop(reading.take(alloc));
}

/// Writes back what it sees, so that a caller can compare its layout with the library's, field by field. `numbers` gets 1 to 9, a
/// number for each field in order. The other two records get the numbers of the options: the machine as the name, the size as the line,
/// the tab size as the column, the cut as the index, `deep` as `vs`, the constructs as `previous`, and 0 in all other fields. The answer
/// has the code 1 and the count 3. Nothing is read.
#[unsafe(no_mangle)]
pub extern "C" fn limecove_echo(
    options: &Options,
    text: &TextOptions,
    numbers: &mut Record,
    of_options: &mut Record,
    of_text: &mut Record,
) -> Answer
    ensures numbers { numbers.new ≡ numbered }
    ensures of_options { of_options.new ≡ echoed options.now }
    ensures of_text { of_text.new ≡ echoed_text text.now }
    ensures answer { result ≡ record { code = 1; version = VERSION; count = 3 } }
{
    *numbers = numbered();
    *of_options = echo_of(options);
    *of_text = echo_of_text(text);
    ended(1, 3)
}

/// Writes back a range as [`limecove_echo`] does options: where it begins as the line, where it ends as the column, and 0 in all other
/// fields.
#[unsafe(no_mangle)]
pub extern "C" fn limecove_echo_range(range: &ByteRange, of_range: &mut Record)
    ensures { of_range.new ≡ echoed_range range.now }
{
    *of_range = echo_of_range(range);
}

/// Writes back options of HTML as [`limecove_echo`] does options: the size as the line, the tab size as the column, the constructs as
/// `previous`, what they let through as `next`, and 0 in all other fields.
#[unsafe(no_mangle)]
pub extern "C" fn limecove_echo_html(options: &HtmlOptions, of_options: &mut Record)
    ensures { of_options.new ≡ echoed_html options.now }
{
    *of_options = echo_of_html(options);
}

/// The events of a document that is read as text. If there are none, the code that says why.
fn text_events(alloc: Global, bytes: &[u8], options: &TextOptions) -> Result<Vec<Event>, u32>
    ensures read { IfOk result (λ list. AreReadAsText options.now bytes.now (length list.items) list.items) }
    ensures options { IfErr (text_choice_of options.now) (λ code. result ≡ Err code) }
    ensures chosen { IfOk (text_choice_of options.now) (λ _. IfErr result (λ code. code ≤ TOO_LONG)) }
    ensures too_long { (result ≡ Err TOO_LONG) ↔ IsOkAnd (text_choice_of options.now) (λ tab. ¬ IsWithinLimit tab bytes.now) }
    ensures codes { IfErr result (λ code. (READ < code) × (code ≤ LINKS_NO_TEXT)) }
{
    let tab = choose_text(options)?;
    if bytes.len() > limit_of(tab) {
        return Err(TOO_LONG);
    }
    let options = options_with(constructs_of(options.constructs), tab);
    match text_events_of(alloc, bytes, &options) {
        Ok(events) => Ok(events),
        Err(_) => Err(OUT_OF_MEMORY),
    }
}

/// The events of ranges of a document that are read as one text. If there are none, the code that says why.
fn text_events_in_ranges(
    alloc: Global,
    bytes: &[u8],
    ranges: &[ByteRange],
    options: &TextOptions,
) -> Result<Vec<Event>, u32>
    ensures read { IfOk result (λ list. AreReadInRanges options.now bytes.now ranges.now (length list.items) list.items) }
    ensures options { IfErr (text_choice_of options.now) (λ code. result ≡ Err code) }
    ensures chosen { IfOk (text_choice_of options.now) (λ _. IfErr result (λ code. (code ≤ TOO_LONG) ⊎ (code ≡ NO_SUCH_RANGES))) }
    ensures too_long { (result ≡ Err TOO_LONG) ↔ IsOkAnd (text_choice_of options.now) (λ tab. ¬ IsWithinLimit tab bytes.now) }
    ensures ranges { (result ≡ Err NO_SUCH_RANGES) ↔ IsOkAnd (text_choice_of options.now) (λ tab. IsWithinLimit tab bytes.now × ¬ AreRanges bytes.now ranges.now) }
    ensures codes { IfErr result (λ code. (READ < code) × (code ≤ NO_SUCH_RANGES)) }
{
    let tab = choose_text(options)?;
    let limit = limit_of(tab);
    if bytes.len() > limit {
        return Err(TOO_LONG);
    }
    if !are_ranges(bytes, ranges) {
        return Err(NO_SUCH_RANGES);
    }
    let chosen = options_with(constructs_of(options.constructs), tab);
    match text_events_in(alloc, bytes, &chosen, ranges) {
        Ok(events) => Ok(events),
        Err(_) => Err(OUT_OF_MEMORY),
    }
}

/// The events of a document that is read as the options say. If there are none, the code that says why.
fn events(alloc: Global, bytes: &[u8], options: &Options) -> Result<Vec<Event>, u32>
    ensures read { IfOk result (λ list. AreRead options.now bytes.now (length list.items) list.items) }
    ensures options { IfErr (choice_of options.now) (λ code. result ≡ Err code) }
    ensures chosen { IfOk (choice_of options.now) (λ _. IfErr result (λ code. code ≤ TOO_LONG)) }
    ensures too_long { (result ≡ Err TOO_LONG) ↔ IsOkAnd (choice_of options.now) (λ choice. ¬ IsWithinLimit choice.tab bytes.now) }
    ensures codes { IfErr result (λ code. (READ < code) × (code ≤ LINKS_NO_TEXT)) }
{
    let choice = choose(options)?;
    if bytes.len() > limit_of(choice.tab) {
        return Err(TOO_LONG);
    }
    match events_by(alloc, bytes, options.constructs, &choice) {
        Ok(events) => Ok(events),
        Err(_) => Err(OUT_OF_MEMORY),
    }
}

/// The events of a document that is read by a choice and these bits. With those of tables, literals, checks or footnotes, or without one tilde, the whole document is read.
fn events_by(
    alloc: Global,
    bytes: &[u8],
    bits: u64,
    choice: &Choice,
) -> Result<Vec<Event>, AllocError>
    requires limit { IsWithinLimit choice.now.tab bytes.now }
    requires cut { CanCut choice.now }
    ensures { IfOk result (λ list. AreEventsBy (has_rewritten bits) choice.now (parse_options_of bits choice.now.tab) bytes.now list.items) }
{
    if has_rewritten(bits) {
        read_gfm_document(alloc, bytes, &parse_options_of(bits, choice.tab))
    } else {
        events_of(alloc, bytes, constructs_of(bits), choice)
    }
}

/// Keeps the events in the reading, if there is memory for that. Else the reading is closed.
fn keep(alloc: Global, events: Vec<Event>, reading: &mut Reading) -> Answer
    ensures kept { result.code ≡ READ → (events_in reading.new ≡ events.items) × (result.count ≡ length events.items) }
    ensures closed { result.code ≢ READ → IsClosed reading.new × (result.count ≡ 0) }
    ensures codes { result.code ≤ OUT_OF_MEMORY }
    ensures version { result.version ≡ VERSION }
{
    let count = events.len();
    match Box::new(alloc, events) {
        Ok(list) => {
            *reading = Reading::of(list);
            ended(READ, count)
        }
        Err(_) => {
            *reading = Reading::closed();
            ended(OUT_OF_MEMORY, 0)
        }
    }
}

/// The result of a call that ended with this code and this many events.
fn ended(code: u32, count: usize) -> Answer
    ensures { result ≡ record { code = code; version = VERSION; count = count } }
{
    Answer {
        code,
        version: VERSION,
        count,
    }
}
