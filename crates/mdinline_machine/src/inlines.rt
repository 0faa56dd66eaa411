//! The machine of inline text.

ghost use Rattle.std.specs.Prelude.{◌≡◌, IfOk, Some};
ghost use Rattle.markdown_tokenizer.specs.declared.waiting.Waits.TheVariants.{Byte};
ghost use Rattle.markdown_tokenizer.specs.Sight.{sight_of};
ghost use Rattle.mdconstructs_tables.specs.Over.{unchanged};
ghost use Rattle.mdconstructs_tables.specs.RowInvariant.{CanHoldNoted, DoesAll, IsCallable, begun, step_in};
ghost use Rattle.mdinline_text_machine.specs.TextBytes.{text_byte};
ghost use Rattle.mdinline_machine.specs.BracketRows.{bracket_rows};
ghost use Rattle.mdinline_machine.specs.InlineTable.{inline_start, line_start, line_white, inline_before, before_hard_break_escape, before_email, before_html, before_tag, inline_data, text_space, text_spaces, text_white, data_space, data_spaces, data_white, space_waits, CanEndData, data_goes_on, data_over, notes_white, reads_white, step_by, white_is_data, white_over};
ghost use Rattle.mdinline_machine.specs.StringTable.{string_start};

use crate::attention::{attention_inside, attention_start, run_begins};
use crate::over::{in_code, in_data, in_marks, in_quotes, in_string, in_uri, spaces};
use crate::strings::{string_before, string_before_data, string_data};
use crate::{brackets, names};
use markdown_tokenizer::event;
use markdown_tokenizer::state::{ByteSet, Machine, MachineTypes, Name, State};
use markdown_tokenizer::subtokenize::Subresult;
use markdown_tokenizer::tokenizer::{Fault, Tokenizer};
use mdconstructs_tables::marker;
use mdinline_constructs::email::{email_atext, email_label, email_start, email_value};
use mdinline_constructs::hard_break::{
    break_escape_after, break_escape_start, break_escapes_are_on, trailing_breaks_are_on,
};
use mdinline_constructs::html_marked::{
    cdata_open, comment_open, declaration_open, mark_close, mark_inside, mark_line, mark_open,
    mark_start, mark_white,
};
use mdinline_constructs::html_tag::{
    html_text_attribute_name, html_text_attribute_name_after, html_text_end, html_text_open,
    html_text_start, html_text_tag_close, html_text_tag_close_between, html_text_tag_close_start,
    html_text_tag_open, html_text_tag_open_between, html_text_value_before, html_text_value_quoted,
    html_text_value_quoted_after, html_text_value_unquoted,
};
use mdinline_constructs::html_text::{
    html_is_on, html_line_ending_after, html_line_ending_after_prefix,
};
use mdinline_constructs::names as construct_names;
use mdinline_constructs::reference::{
    reference_numeric, reference_open, reference_start, reference_value, references_are_on,
};
use mdinline_constructs::remembered_code::{
    code_line, code_white, remembered_between, remembered_chunk, remembered_open,
};
use mdinline_full_references::{full_reference, names as reference_names};
use mdinline_labels::labels::Labels;
use mdinline_link_tails::{names as resource_names, resource};
use mdinline_links::link_edits::link_events;
use mdinline_text_machine::autolink::{
    autolink_open, autolink_scheme, autolink_start, autolink_url, autolinks_are_on,
};
use mdinline_text_machine::code_span::{
    code_spans_are_on, raw_text_after, raw_text_backticks_inside, raw_text_data,
    raw_text_sequence_close, raw_text_start,
};
use mdinline_text_machine::escape::{escape_inside, escape_start, escapes_are_on};
use mdinline_text_machine::names as text_names;
use mdinline_text_machine::text::{data_at_break, text_before_data};
use std::alloc::{AllocError, Global};

/// Reads a text, from `TextStart`: code spans, autolinks, backslash escapes, hard breaks, character references, links and images with
/// resources or by labels that are defined (full, collapsed and shortcut references), and emphasis, if they are on, line endings and the white space
/// beside them, and all else as data. Links, images and emphasis are made once all was read: until then brackets are labels' starts and ends, and
/// delimiter runs are attention sequences. It reads a string, from `StringStart`: backslash escapes and character references, if they are on, line
/// endings, and all else as data.
///
/// On n virtual bytes a run from `TextStart` takes at most 374 n + 4 calls, and one from `StringStart` 87 n + 2, whatever they are: what was looked for
/// in vain is remembered (`inline_text_is_linear`, `strings_are_linear`). The cost that the machine states is a square (`cost_at_the_start`).
#[derive(Drop)]
pub struct Inlines {
    /// The labels that are defined.
    pub labels: Labels,
}

impl MachineTypes for Inlines {
    type Resolver = ();

    type Document = ();
}

impl Machine for Inlines {
    ghost use Rattle.mdinline_labels.specs.Defined.{defines};
    ghost use Rattle.mdinline_machine.specs.InlineRules.{inlines_rules};
    ghost use Rattle.mdinline_machine.specs.Laws.Inlines.{inlines-lawful};

    ghost rules = { λ m. inlines_rules (defines m.labels) };

    /// Data reads over all bytes but those that may end it; and so do URIs of autolinks, raw HTML between marks, and values in quotes.
    #[inline(always)]
    fn reads_over(&self, name: Name) -> Option<&'static ByteSet> {
        match name {
            Name::DataInside => Some(in_data()),
            Name::DataStart => Some(in_string()),
            Name::RawTextData => Some(in_code()),
            Name::AutolinkUrlInside => Some(in_uri()),
            construct_names::HtmlTextMarkInside => Some(in_marks()),
            Name::HtmlTextTagOpenAttributeValueQuoted => Some(in_quotes()),
            _ => None,
        }
    }

    /// Data notes a space and reads over it, if it goes on behind it.
    #[inline(always)]
    fn notes_over(&self, name: Name) -> Option<(&'static ByteSet, &'static ByteSet)> {
        match name {
            Name::DataInside => Some((spaces(), in_data())),
            _ => None,
        }
    }

    /// Calls the state of this name. Where the Rust crate has no name for a state, `names` has it, here and in the crates whose state it is.
    fn call<'a>(
        &self,
        alloc: Global,
        t: &mut Tokenizer<'a, Self>,
        name: Name,
    ) -> Result<State, AllocError> {
        begin(t);
        match name {
            Name::StringStart => string_start(t),
            Name::StringBefore => string_before(t),
            Name::StringBeforeData => string_before_data(t),
            Name::DataStart => string_data(t),
            Name::TextStart => inline_start(t),
            names::TextLineStart => line_start(t),
            names::TextLineWhite => line_white(t),
            Name::TextBefore => inline_before(t),
            Name::TextBeforeHardBreakEscape => before_hard_break_escape(t),
            names::TextBeforeEmail => before_email(t),
            Name::TextBeforeHtml => before_html(t),
            names::TextBeforeTag => before_tag(t),
            Name::TextBeforeData => text_before_data(t),
            Name::DataAtBreak => data_at_break(t),
            Name::DataInside => inline_data(t),
            names::TextSpace => text_space(t),
            names::TextSpaces => text_spaces(t),
            names::TextWhite => text_white(t),
            names::DataSpace => data_space(t),
            names::DataSpaces => data_spaces(t),
            names::DataWhite => data_white(t),
            Name::AttentionStart => attention_start(t),
            Name::AttentionInside => attention_inside(t),
            Name::LabelStartLinkStart => brackets::link_start(t),
            Name::LabelStartImageStart => brackets::image_start(t),
            Name::LabelStartImageOpen => brackets::image_open(t),
            Name::LabelEndStart => brackets::end_start(t),
            names::LabelEndNotResource => brackets::not_resource(t),
            names::LabelEndReferenceStart => brackets::reference_end(t),
            Name::LabelEndReferenceFull => full_reference::reference_start(t),
            Name::LabelStart => full_reference::label_start(t),
            Name::LabelInside => full_reference::label_inside(t),
            Name::LabelEscape => full_reference::label_escape(t),
            Name::LabelEolAfter => full_reference::label_line(t),
            reference_names::LabelLineWhite => full_reference::label_white(t),
            reference_names::LabelEndReferenceFullEnd => {
                brackets::wanted_label_end(alloc, t, &self.labels)
            }
            Name::LabelEndReferenceNotFull => brackets::not_full(alloc, t, &self.labels),
            Name::LabelEndAfter => brackets::end_after(t),
            Name::LabelEndReferenceCollapsed => brackets::collapsed_start(t),
            Name::LabelEndReferenceCollapsedOpen => brackets::collapsed_open(t),
            Name::LabelEndOk => brackets::end_ok(alloc, t),
            Name::LabelEndNok => brackets::end_nok(alloc, t),
            Name::RawTextStart => raw_text_start(t),
            Name::RawTextSequenceOpen => remembered_open(t),
            Name::RawTextBetween => remembered_between(t),
            construct_names::RawTextLineStart => code_line(t),
            construct_names::RawTextLineWhite => code_white(t),
            Name::RawTextData => raw_text_data(t),
            Name::RawTextSequenceClose => raw_text_sequence_close(t),
            text_names::RawTextAfter => raw_text_after(t),
            text_names::RawTextBackticksStart => remembered_chunk(alloc, t),
            text_names::RawTextBackticksInside => raw_text_backticks_inside(t),
            Name::AutolinkStart => autolink_start(t),
            Name::AutolinkOpen => autolink_open(t),
            Name::AutolinkSchemeInsideOrEmailAtext => autolink_scheme(t),
            Name::AutolinkUrlInside => autolink_url(t),
            Name::AutolinkEmailAtSignOrDot => email_start(t),
            Name::AutolinkEmailAtext => email_atext(t),
            Name::AutolinkEmailLabel => email_label(t),
            Name::AutolinkEmailValue => email_value(t),
            construct_names::HtmlTextMarkStart => mark_start(t),
            construct_names::HtmlTextMarkOpen => mark_open(t),
            Name::HtmlTextDeclarationOpen => declaration_open(t),
            Name::HtmlTextCommentOpenInside => comment_open(t),
            Name::HtmlTextCdataOpenInside => cdata_open(t),
            construct_names::HtmlTextMarkInside => mark_inside(t),
            construct_names::HtmlTextMarkClose => mark_close(t),
            construct_names::HtmlTextMarkLine => mark_line(t),
            construct_names::HtmlTextMarkWhite => mark_white(t),
            Name::HtmlTextStart => html_text_start(t),
            Name::HtmlTextOpen => html_text_open(t),
            Name::HtmlTextTagCloseStart => html_text_tag_close_start(t),
            Name::HtmlTextTagClose => html_text_tag_close(t),
            Name::HtmlTextTagCloseBetween => html_text_tag_close_between(t),
            Name::HtmlTextTagOpen => html_text_tag_open(t),
            Name::HtmlTextTagOpenBetween => html_text_tag_open_between(t),
            Name::HtmlTextTagOpenAttributeName => html_text_attribute_name(t),
            Name::HtmlTextTagOpenAttributeNameAfter => html_text_attribute_name_after(t),
            Name::HtmlTextTagOpenAttributeValueBefore => html_text_value_before(t),
            Name::HtmlTextTagOpenAttributeValueQuoted => html_text_value_quoted(t),
            Name::HtmlTextTagOpenAttributeValueQuotedAfter => html_text_value_quoted_after(t),
            Name::HtmlTextTagOpenAttributeValueUnquoted => html_text_value_unquoted(t),
            Name::HtmlTextEnd => html_text_end(t),
            Name::HtmlTextLineEndingAfter => html_line_ending_after(t),
            Name::HtmlTextLineEndingAfterPrefix => html_line_ending_after_prefix(t),
            Name::CharacterEscapeStart => escape_start(t),
            Name::CharacterEscapeInside => escape_inside(t),
            Name::CharacterReferenceStart => reference_start(t),
            Name::CharacterReferenceOpen => reference_open(t),
            Name::CharacterReferenceNumeric => reference_numeric(t),
            Name::CharacterReferenceValue => reference_value(t),
            Name::HardBreakEscapeStart => break_escape_start(t),
            Name::HardBreakEscapeAfter => break_escape_after(t),
            Name::LabelEndResourceStart => resource::resource_start(t),
            Name::LabelEndResourceBefore => resource::resource_before(t),
            resource_names::ResourceGapWhite => resource::gap_white(t),
            resource_names::ResourceGapLine => resource::gap_line(t),
            resource_names::ResourceGapLineWhite => resource::gap_line_white(t),
            Name::LabelEndResourceOpen => resource::resource_open(t),
            Name::DestinationEnclosedBefore => resource::enclosed_before(t),
            Name::DestinationEnclosed => resource::enclosed(t),
            Name::DestinationEnclosedEscape => resource::enclosed_escape(t),
            resource_names::ResourceDestinationEnd => resource::destination_end(t),
            Name::DestinationRaw => resource::raw(t),
            Name::DestinationRawEscape => resource::raw_escape(t),
            Name::LabelEndResourceDestinationAfter => resource::destination_after(t),
            Name::TitleStart => resource::title_start(t),
            Name::TitleBegin => resource::title_begin(t),
            Name::TitleInside => resource::title_inside(t),
            Name::TitleEscape => resource::title_escape(t),
            Name::TitleAfterEol => resource::title_line(t),
            resource_names::ResourceTitleWhite => resource::title_white(t),
            resource_names::ResourceTitleEnd => resource::title_end(t),
            Name::LabelEndResourceEnd => resource::resource_end(t),
            _ => unreachable!(),
        }
    }

    /// Puts links, images and emphasis in place of brackets and delimiter runs.
    fn resolve<'a>(
        &self,
        alloc: Global,
        t: &mut Tokenizer<'a, Self>,
        name: (),
    ) -> Result<Option<Subresult>, Fault> {
        let state = t.parse_state();
        let one_tilde = state.options.gfm_strikethrough_single_tilde;
        link_events(alloc, state.bytes, one_tilde, t.events_mut())?;
        Ok(None)
    }

    ghost lawful = { λ m g. inlines-lawful (defines m.labels) g };
}

/// Begins a call: counts it, and does nothing else.
#[inline(always)]
fn begin<'a>(t: &mut Tokenizer<'a, Inlines>)
    ensures { t.new ≡ begun unchanged t.old }
{
    t.tick();
}

/// Before a text: registers the resolver.
fn inline_start<'a>(t: &mut Tokenizer<'a, Inlines>) -> Result<State, AllocError>
    requires { IsCallable text_byte inline_start t.old }
    ensures { IfOk result (DoesAll (step_in text_byte inline_start t.old) t.old t.new) }
{
    t.register_resolver(())?;
    Ok(State::Retry(names::TextLineStart))
}

/// Before a string: registers the resolver, which changes nothing, as a string has no delimiter run.
fn string_start<'a>(t: &mut Tokenizer<'a, Inlines>) -> Result<State, AllocError>
    requires { IsCallable text_byte string_start t.old }
    ensures { IfOk result (DoesAll (step_in text_byte string_start t.old) t.old t.new) }
{
    let resolver = ();
    t.register_resolver(resolver)?;
    Ok(State::Retry(Name::StringBefore))
}

/// At the beginning of a line.
fn line_start<'a>(t: &mut Tokenizer<'a, Inlines>) -> Result<State, AllocError>
    requires { IsCallable text_byte line_start t.old }
    ensures { IfOk result (DoesAll (step_in text_byte line_start t.old) t.old t.new) }
{
    match t.current() {
        Some(b' ' | b'\t') => {
            t.enter(event::Name::SpaceOrTab)?;
            t.consume();
            Ok(State::Next(names::TextLineWhite))
        }
        _ => Ok(State::Retry(Name::TextBefore)),
    }
}

/// In white space at the beginning of a line.
fn line_white<'a>(t: &mut Tokenizer<'a, Inlines>) -> Result<State, AllocError>
    requires { IsCallable text_byte line_white t.old }
    ensures { IfOk result (DoesAll (step_in text_byte line_white t.old) t.old t.new) }
{
    match t.current() {
        Some(b' ' | b'\t') => {
            t.consume();
            Ok(State::Next(names::TextLineWhite))
        }
        _ => {
            t.exit(event::Name::SpaceOrTab)?;
            Ok(State::Retry(Name::TextBefore))
        }
    }
}

/// Between constructs: a line ending is read, a run begins, another construct is tried if it is on, or data is read.
fn inline_before<'a>(t: &mut Tokenizer<'a, Inlines>) -> Result<State, AllocError>
    requires { IsCallable text_byte inline_before t.old }
    ensures { IfOk result (DoesAll (step_in text_byte inline_before t.old) t.old t.new) }
{
    match t.current() {
        None => Ok(State::Ok),
        Some(b'\n') => {
            marker(t, event::Name::LineEnding)?;
            Ok(State::Next(names::TextLineStart))
        }
        Some(b'`') => {
            if !code_spans_are_on(t) {
                return Ok(State::Retry(Name::TextBeforeData));
            }
            t.attempt_next(Name::TextBefore, Name::TextBeforeData)?;
            Ok(State::Retry(Name::RawTextStart))
        }
        Some(b'<') => {
            if autolinks_are_on(t) {
                t.attempt_next(Name::TextBefore, names::TextBeforeEmail)?;
                return Ok(State::Retry(Name::AutolinkStart));
            }
            if !html_is_on(t) {
                return Ok(State::Retry(Name::TextBeforeData));
            }
            t.attempt_next(Name::TextBefore, names::TextBeforeTag)?;
            Ok(State::Retry(construct_names::HtmlTextMarkStart))
        }
        Some(b'\\') => {
            if escapes_are_on(t) {
                t.attempt_next(Name::TextBefore, Name::TextBeforeHardBreakEscape)?;
                return Ok(State::Retry(Name::CharacterEscapeStart));
            }
            if !break_escapes_are_on(t) {
                return Ok(State::Retry(Name::TextBeforeData));
            }
            t.attempt_next(Name::TextBefore, Name::TextBeforeData)?;
            Ok(State::Retry(Name::HardBreakEscapeStart))
        }
        Some(b'&') => {
            if !references_are_on(t) {
                return Ok(State::Retry(Name::TextBeforeData));
            }
            t.attempt_next(Name::TextBefore, Name::TextBeforeData)?;
            Ok(State::Retry(Name::CharacterReferenceStart))
        }
        Some(b' ' | b'\t') => note_white(t, names::TextSpace, names::TextWhite),
        Some(b'*' | b'_' | b'~') => {
            if run_begins(t) {
                return Ok(State::Retry(Name::AttentionStart));
            }
            Ok(State::Retry(Name::TextBeforeData))
        }
        Some(b'[' | b'!' | b']') => bracket(t),
        Some(_) => Ok(State::Retry(Name::TextBeforeData)),
    }
}

/// Where a bracket or an end may begin: it is read or tried, or data is read.
fn bracket<'a>(t: &mut Tokenizer<'a, Inlines>) -> Result<State, AllocError>
    ensures { IfOk result (DoesAll (step_by bracket_rows t.old) t.old t.new) }
{
    if brackets::link_begins(t) {
        return Ok(State::Retry(Name::LabelStartLinkStart));
    }
    if brackets::image_begins(t) {
        t.attempt_next(Name::TextBefore, Name::TextBeforeData)?;
        return Ok(State::Retry(Name::LabelStartImageStart));
    }
    if brackets::end_may_make(t) {
        t.attempt_next(Name::LabelEndOk, names::LabelEndNotResource)?;
        return Ok(State::Retry(Name::LabelEndStart));
    }
    if brackets::end_is_awaited(t) {
        return Ok(State::Retry(Name::LabelEndNok));
    }
    Ok(State::Retry(Name::TextBeforeData))
}

/// At a backslash that escapes nothing: a hard break is tried if it is on, or data is read.
fn before_hard_break_escape<'a>(t: &mut Tokenizer<'a, Inlines>) -> Result<State, AllocError>
    requires { IsCallable text_byte before_hard_break_escape t.old }
    ensures { IfOk result (DoesAll (step_in text_byte before_hard_break_escape t.old) t.old t.new) }
{
    if !break_escapes_are_on(t) {
        return Ok(State::Retry(Name::TextBeforeData));
    }
    t.attempt_next(Name::TextBefore, Name::TextBeforeData)?;
    Ok(State::Retry(Name::HardBreakEscapeStart))
}

/// At `<` that begins no autolink: an email autolink is tried if autolinks are on, or raw HTML if that is, or data is read.
fn before_email<'a>(t: &mut Tokenizer<'a, Inlines>) -> Result<State, AllocError>
    requires { IsCallable text_byte before_email t.old }
    ensures { IfOk result (DoesAll (step_in text_byte before_email t.old) t.old t.new) }
{
    if autolinks_are_on(t) {
        t.attempt_next(Name::TextBefore, Name::TextBeforeHtml)?;
        return Ok(State::Retry(Name::AutolinkEmailAtSignOrDot));
    }
    if !html_is_on(t) {
        return Ok(State::Retry(Name::TextBeforeData));
    }
    t.attempt_next(Name::TextBefore, names::TextBeforeTag)?;
    Ok(State::Retry(construct_names::HtmlTextMarkStart))
}

/// At `<` that begins no email autolink: raw HTML between marks is tried if raw HTML is on, or data is read.
fn before_html<'a>(t: &mut Tokenizer<'a, Inlines>) -> Result<State, AllocError>
    requires { IsCallable text_byte before_html t.old }
    ensures { IfOk result (DoesAll (step_in text_byte before_html t.old) t.old t.new) }
{
    if !html_is_on(t) {
        return Ok(State::Retry(Name::TextBeforeData));
    }
    t.attempt_next(Name::TextBefore, names::TextBeforeTag)?;
    Ok(State::Retry(construct_names::HtmlTextMarkStart))
}

/// At `<` that begins no raw HTML between marks: a tag is tried if raw HTML is on, or data is read.
fn before_tag<'a>(t: &mut Tokenizer<'a, Inlines>) -> Result<State, AllocError>
    requires { IsCallable text_byte before_tag t.old }
    ensures { IfOk result (DoesAll (step_in text_byte before_tag t.old) t.old t.new) }
{
    if !html_is_on(t) {
        return Ok(State::Retry(Name::TextBeforeData));
    }
    t.attempt_next(Name::TextBefore, Name::TextBeforeData)?;
    Ok(State::Retry(Name::HtmlTextStart))
}

/// In data. White space may be the end of its line, which shows behind it: the place before it is noted.
fn inline_data<'a>(t: &mut Tokenizer<'a, Inlines>) -> Result<State, AllocError>
    requires { IsCallable text_byte inline_data t.old }
    ensures { IfOk result (DoesAll (step_in text_byte inline_data t.old) t.old t.new) }
{
    match t.current() {
        None | Some(b'\n' | b'`' | b'<' | b'\\' | b'&') => {
            t.exit(event::Name::Data)?;
            Ok(State::Retry(Name::TextBefore))
        }
        Some(b' ' | b'\t') => note_white(t, names::DataSpace, names::DataWhite),
        Some(b'*' | b'_' | b'~' | b'[' | b'!' | b']') => {
            if brackets::mark_begins(t) {
                t.exit(event::Name::Data)?;
                return Ok(State::Retry(Name::TextBefore));
            }
            t.consume();
            Ok(State::Next(Name::DataInside))
        }
        Some(_) => {
            t.consume();
            Ok(State::Next(Name::DataInside))
        }
    }
}

/// In data, behind one space.
fn data_space<'a>(t: &mut Tokenizer<'a, Inlines>) -> Result<State, AllocError>
    requires { IsCallable text_byte data_space t.old }
    ensures { IfOk result (DoesAll (step_in text_byte data_space t.old) t.old t.new) }
{
    match t.current() {
        None | Some(b'\n') => end_data(t, event::Name::SpaceOrTab),
        Some(b' ' | b'\t') => read_white(t, names::DataSpaces, names::DataWhite),
        Some(byte) => data_goes_on(t, byte),
    }
}

/// In data, behind two spaces or more.
fn data_spaces<'a>(t: &mut Tokenizer<'a, Inlines>) -> Result<State, AllocError>
    requires { IsCallable text_byte data_spaces t.old }
    ensures { IfOk result (DoesAll (step_in text_byte data_spaces t.old) t.old t.new) }
{
    match t.current() {
        None => end_data(t, event::Name::SpaceOrTab),
        Some(b'\n') => {
            if trailing_breaks_are_on(t) {
                return end_data(t, event::Name::HardBreakTrailing);
            }
            end_data(t, event::Name::SpaceOrTab)
        }
        Some(b' ' | b'\t') => read_white(t, names::DataSpaces, names::DataWhite),
        Some(byte) => data_goes_on(t, byte),
    }
}

/// In data, behind white space with a tab.
fn data_white<'a>(t: &mut Tokenizer<'a, Inlines>) -> Result<State, AllocError>
    requires { IsCallable text_byte data_white t.old }
    ensures { IfOk result (DoesAll (step_in text_byte data_white t.old) t.old t.new) }
{
    match t.current() {
        None | Some(b'\n') => end_data(t, event::Name::SpaceOrTab),
        Some(b' ' | b'\t') => {
            t.consume();
            Ok(State::Next(names::DataWhite))
        }
        Some(byte) => data_goes_on(t, byte),
    }
}

/// Data ends where white space begins that is the end of its line; and that is a span under this name.
fn end_data<'a>(t: &mut Tokenizer<'a, Inlines>, white: event::Name) -> Result<State, AllocError>
    requires { CanEndData t.old }
    ensures { IfOk result (DoesAll (step_by (data_over white) t.old) t.old t.new) }
{
    let place = t.noted();
    t.exit_at(event::Name::Data, place.exit)?;
    begin_white(t, white)
}

/// White space that is the end of its line is a span under this name, from where it begins.
fn begin_white<'a>(t: &mut Tokenizer<'a, Inlines>, white: event::Name) -> Result<State, AllocError>
    requires { CanHoldNoted t.old }
    ensures { IfOk result (DoesAll (step_by (white_over white) t.old) t.old t.new) }
{
    let place = t.noted();
    t.enter_at(white, place.enter)?;
    t.exit(white)?;
    Ok(State::Retry(Name::TextBefore))
}

/// Behind one space, with no data before it.
fn text_space<'a>(t: &mut Tokenizer<'a, Inlines>) -> Result<State, AllocError>
    requires { IsCallable text_byte text_space t.old }
    ensures { IfOk result (DoesAll (step_in text_byte text_space t.old) t.old t.new) }
{
    match t.current() {
        None | Some(b'\n') => begin_white(t, event::Name::SpaceOrTab),
        Some(b' ' | b'\t') => read_white(t, names::TextSpaces, names::TextWhite),
        Some(_) => data_at_noted(t),
    }
}

/// Behind two spaces or more, with no data before them.
fn text_spaces<'a>(t: &mut Tokenizer<'a, Inlines>) -> Result<State, AllocError>
    requires { IsCallable text_byte text_spaces t.old }
    ensures { IfOk result (DoesAll (step_in text_byte text_spaces t.old) t.old t.new) }
{
    match t.current() {
        None => begin_white(t, event::Name::SpaceOrTab),
        Some(b'\n') => {
            if trailing_breaks_are_on(t) {
                return begin_white(t, event::Name::HardBreakTrailing);
            }
            begin_white(t, event::Name::SpaceOrTab)
        }
        Some(b' ' | b'\t') => read_white(t, names::TextSpaces, names::TextWhite),
        Some(_) => data_at_noted(t),
    }
}

/// Behind white space with a tab, with no data before it.
fn text_white<'a>(t: &mut Tokenizer<'a, Inlines>) -> Result<State, AllocError>
    requires { IsCallable text_byte text_white t.old }
    ensures { IfOk result (DoesAll (step_in text_byte text_white t.old) t.old t.new) }
{
    match t.current() {
        None | Some(b'\n') => begin_white(t, event::Name::SpaceOrTab),
        Some(b' ' | b'\t') => {
            t.consume();
            Ok(State::Next(names::TextWhite))
        }
        Some(_) => data_at_noted(t),
    }
}

/// Data begins with white space that is not the end of its line, where that begins.
fn data_at_noted<'a>(t: &mut Tokenizer<'a, Inlines>) -> Result<State, AllocError>
    requires { CanHoldNoted t.old }
    ensures { IfOk result (DoesAll (step_by white_is_data t.old) t.old t.new) }
{
    let place = t.noted();
    t.enter_at(event::Name::Data, place.enter)?;
    Ok(State::Retry(Name::DataInside))
}

/// At white space: its place is noted, and it is read, to a state behind a space or to one behind a tab.
#[inline(always)]
fn note_white<'a>(
    t: &mut Tokenizer<'a, Inlines>,
    space: Name,
    tabbed: Name,
) -> Result<State, AllocError>
    requires { t.old.configuration.waiting ≡ Byte }
    ensures { IfOk result (DoesAll (step_by (notes_white space tabbed) t.old) t.old t.new) }
{
    let is_space = space_waits(t);
    t.note();
    t.consume();
    if is_space {
        return Ok(State::Next(space));
    }
    Ok(State::Next(tabbed))
}

/// At white space behind other: it is read, to a state behind spaces or to one behind a tab.
#[inline(always)]
fn read_white<'a>(
    t: &mut Tokenizer<'a, Inlines>,
    spaces: Name,
    tabbed: Name,
) -> Result<State, AllocError>
    requires { t.old.configuration.waiting ≡ Byte }
    ensures { IfOk result (DoesAll (step_by (reads_white spaces tabbed) t.old) t.old t.new) }
{
    let is_space = space_waits(t);
    t.consume();
    if is_space {
        return Ok(State::Next(spaces));
    }
    Ok(State::Next(tabbed))
}

/// In data behind white space, at a byte that goes on in its line: it is data, or something else may begin there.
#[inline(always)]
fn data_goes_on<'a>(t: &mut Tokenizer<'a, Inlines>, byte: u8) -> Result<State, AllocError>
    requires waits { t.old.configuration.waiting ≡ Byte }
    requires byte { (sight_of t.old).current ≡ Some byte }
    ensures { IfOk result (DoesAll (step_by (data_goes_on (text_byte byte)) t.old) t.old t.new) }
{
    match byte {
        b'`' | b'<' | b'\\' | b'&' => Ok(State::Retry(Name::DataInside)),
        b'*' | b'_' | b'~' | b'[' | b'!' | b']' => {
            if brackets::mark_begins(t) {
                return Ok(State::Retry(Name::DataInside));
            }
            t.consume();
            Ok(State::Next(Name::DataInside))
        }
        _ => {
            t.consume();
            Ok(State::Next(Name::DataInside))
        }
    }
}

/// Whether a space waits, and no tab.
fn space_waits<'a>(t: &Tokenizer<'a, Inlines>) -> bool
    ensures { result ≡ space_waits t.now.given (sight_of t.now) t.now.configuration }
{
    t.current() == Some(b' ')
}
