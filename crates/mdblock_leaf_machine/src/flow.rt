//! The machine of leaf blocks: blank lines, thematic breaks, ATX and setext headings, indented and fenced code, HTML, and paragraphs. Each
//! has a file of its own.
//!
//! It looks first, and then reads: before a line a check, which makes no event, says what kind of line it is. So no choice ever
//! holds an event.

ghost use Rattle.std.specs.Prelude.{◌≡◌};
ghost use Rattle.mdconstructs_tables.specs.RowInvariant.{begun};
ghost use Rattle.mdblock_leaf_rows.specs.FlowTable.{unchanged};

use crate::blank_line::blank_line_start;
use crate::code_fenced::{
    raw_flow_after, raw_flow_after_sequence_close, raw_flow_at_non_lazy_break,
    raw_flow_before_content_chunk, raw_flow_before_sequence_close, raw_flow_close_before,
    raw_flow_close_between, raw_flow_close_blank, raw_flow_close_sequence, raw_flow_close_start,
    raw_flow_content_before, raw_flow_content_chunk, raw_flow_content_start,
    raw_flow_sequence_close,
};
use crate::code_indented::{
    code_indented_after, code_indented_at_break, code_indented_further_after,
    code_indented_further_begin, code_indented_further_start, code_indented_inside,
    code_indented_line_after, code_indented_start,
};
use crate::fence::{
    flow_before_raw, raw_flow_before_sequence_open, raw_flow_info, raw_flow_info_after,
    raw_flow_info_before, raw_flow_look_info, raw_flow_meta, raw_flow_meta_before,
    raw_flow_sequence_open, raw_flow_start,
};
use crate::heading_atx::{
    flow_before_heading_atx, heading_atx_at_break, heading_atx_before, heading_atx_data,
    heading_atx_look_after, heading_atx_look_blank, heading_atx_look_signs, heading_atx_look_start,
    heading_atx_look_text, heading_atx_sequence_open, heading_atx_start,
};
use crate::heading_setext::{
    flow_before_heading_setext, heading_setext_after, heading_setext_before, heading_setext_inside,
    heading_setext_look_after, heading_setext_start, heading_setext_text_after,
};
use crate::lines::{content_definition_before, flow_after, flow_blank_line_after, flow_start};
use crate::look::{flow_blank_line_before, paragraph_look_start};
use crate::over::{are_in_line, in_html, in_info, in_line, in_word};
use crate::paragraph::{
    flow_before_content, paragraph_inside, paragraph_line_after, paragraph_line_start,
    paragraph_start,
};
use crate::thematic_break::{
    flow_before_thematic_break, thematic_break_at_break, thematic_break_before,
    thematic_break_sequence,
};
use crate::{html_flow, html_tags};
use markdown_tokenizer::state::{ByteSet, Machine, MachineTypes, Name, State};
use markdown_tokenizer::subtokenize::Subresult;
use markdown_tokenizer::tokenizer::{Fault, Tokenizer};
use mdblock_leaf_rows::names;
use std::alloc::{AllocError, Global};

/// Reads the leaf blocks of CommonMark. The options say which constructs are on. Paragraphs
/// and headings hold chunks of text, and fences chunks of strings.
///
/// It starts with `FlowStart`, for a document, or with `ContentDefinitionBefore`, for a chain of content: what is read is the same.
/// It takes at most 9 n + 10 calls for n virtual bytes.
#[derive(Drop)]
pub struct Flow {}

impl MachineTypes for Flow {
    type Resolver = ();

    type Document = ();
}

impl Machine for Flow {
    ghost use Rattle.mdblock_leaf_rows.specs.FlowKnows.{flow_rules};
    ghost use Rattle.mdblock_leaf_rows.specs.Laws.Lawful.{flow-lawful};

    ghost rules = { λ _. flow_rules };

    /// States that read lines of text or code, info strings and HTML read over all bytes but those that may end what they read.
    #[inline(always)]
    fn reads_over(&self, name: Name) -> Option<&'static ByteSet> {
        match name {
            Name::ParagraphInside => Some(in_line()),
            Name::RawFlowContentChunk => Some(in_line()),
            Name::CodeIndentedInside => Some(in_line()),
            Name::HtmlFlowContinuation => Some(in_html()),
            Name::HtmlFlowContinuationClose => Some(in_line()),
            Name::RawFlowInfo => Some(in_word()),
            Name::RawFlowMeta => Some(in_line()),
            names::RawFlowLookInfo => Some(in_info()),
            _ => None,
        }
    }

    /// States that read lines of text or code read over all bytes above CR.
    #[inline(always)]
    fn reads_over_all(&self, name: Name, block: &[u8]) -> bool {
        match name {
            Name::ParagraphInside => are_in_line(block),
            Name::RawFlowContentChunk => are_in_line(block),
            _ => false,
        }
    }

    /// Counts the call, and runs the state of this name.
    fn call<'a>(
        &self,
        alloc: Global,
        t: &mut Tokenizer<'a, Self>,
        name: Name,
    ) -> Result<State, AllocError> {
        begin(t);
        // The names are the Rust crate's, but for those of `names`.
        match name {
            Name::FlowStart => flow_start(t),
            Name::ContentDefinitionBefore => content_definition_before(t),
            Name::FlowBlankLineAfter => flow_blank_line_after(t),
            Name::FlowAfter => flow_after(t),
            names::ParagraphLookStart => paragraph_look_start(t),
            Name::FlowBlankLineBefore => flow_blank_line_before(t),
            Name::BlankLineStart => blank_line_start(t),
            Name::FlowBeforeThematicBreak => flow_before_thematic_break(t),
            Name::ThematicBreakBefore => thematic_break_before(t),
            Name::ThematicBreakAtBreak => thematic_break_at_break(t),
            Name::ThematicBreakSequence => thematic_break_sequence(t),
            Name::FlowBeforeHeadingAtx => flow_before_heading_atx(t),
            names::HeadingAtxLookStart => heading_atx_look_start(t),
            names::HeadingAtxLookText => heading_atx_look_text(t),
            names::HeadingAtxLookBlank => heading_atx_look_blank(t),
            names::HeadingAtxLookSigns => heading_atx_look_signs(t),
            names::HeadingAtxLookAfter => heading_atx_look_after(t),
            Name::HeadingAtxStart => heading_atx_start(t),
            Name::HeadingAtxSequenceOpen => heading_atx_sequence_open(t),
            Name::HeadingAtxAtBreak => heading_atx_at_break(t),
            Name::HeadingAtxBefore => heading_atx_before(t),
            Name::HeadingAtxData => heading_atx_data(t),
            Name::FlowBeforeHeadingSetext => flow_before_heading_setext(t),
            names::HeadingSetextLookAfter => heading_setext_look_after(t),
            names::HeadingSetextTextAfter => heading_setext_text_after(t),
            Name::HeadingSetextStart => heading_setext_start(t),
            Name::HeadingSetextBefore => heading_setext_before(t),
            Name::HeadingSetextInside => heading_setext_inside(t),
            Name::HeadingSetextAfter => heading_setext_after(alloc, t),
            Name::CodeIndentedStart => code_indented_start(t),
            Name::CodeIndentedAtBreak => code_indented_at_break(t),
            Name::CodeIndentedFurtherAfter => code_indented_further_after(t),
            Name::CodeIndentedInside => code_indented_inside(t),
            names::CodeIndentedLineAfter => code_indented_line_after(t),
            Name::CodeIndentedAfter => code_indented_after(t),
            Name::CodeIndentedFurtherBegin => code_indented_further_begin(t),
            Name::CodeIndentedFurtherStart => code_indented_further_start(t),
            Name::FlowBeforeRaw => flow_before_raw(t),
            names::RawFlowLookInfo => raw_flow_look_info(t),
            Name::RawFlowStart => raw_flow_start(t),
            Name::RawFlowSequenceOpen => raw_flow_sequence_open(t),
            Name::RawFlowInfoBefore => raw_flow_info_before(t),
            Name::RawFlowBeforeSequenceOpen => raw_flow_before_sequence_open(t),
            Name::RawFlowInfo => raw_flow_info(t),
            names::RawFlowInfoAfter => raw_flow_info_after(t),
            Name::RawFlowMetaBefore => raw_flow_meta_before(t),
            Name::RawFlowMeta => raw_flow_meta(t),
            Name::RawFlowAtNonLazyBreak => raw_flow_at_non_lazy_break(t),
            Name::RawFlowCloseStart => raw_flow_close_start(t),
            Name::RawFlowBeforeSequenceClose => raw_flow_before_sequence_close(t),
            Name::RawFlowSequenceClose => raw_flow_sequence_close(t),
            Name::RawFlowAfterSequenceClose => raw_flow_after_sequence_close(t),
            Name::RawFlowContentBefore => raw_flow_content_before(t),
            Name::RawFlowContentStart => raw_flow_content_start(t),
            Name::RawFlowBeforeContentChunk => raw_flow_before_content_chunk(t),
            Name::RawFlowContentChunk => raw_flow_content_chunk(t),
            Name::RawFlowAfter => raw_flow_after(t),
            names::RawFlowCloseBefore => raw_flow_close_before(t),
            names::RawFlowCloseBlank => raw_flow_close_blank(t),
            names::RawFlowCloseSequence => raw_flow_close_sequence(t),
            names::RawFlowCloseBetween => raw_flow_close_between(t),
            Name::HtmlFlowOpen => html_tags::tag_open(t),
            Name::HtmlFlowDeclarationOpen => html_tags::declaration_open(t),
            Name::HtmlFlowCommentOpenInside => html_tags::comment_open_inside(t),
            Name::HtmlFlowCdataOpenInside => html_tags::cdata_open_inside(t),
            Name::HtmlFlowTagCloseStart => html_tags::tag_close_start(t),
            Name::HtmlFlowTagName => html_tags::tag_name(t),
            Name::HtmlFlowBasicSelfClosing => html_tags::basic_self_closing(t),
            Name::HtmlFlowCompleteClosingTagAfter => html_tags::closing_tag_after(t),
            Name::HtmlFlowCompleteEnd => html_tags::end(t),
            Name::HtmlFlowCompleteAttributeNameBefore => html_tags::attribute_name_before(t),
            Name::HtmlFlowCompleteAttributeName => html_tags::attribute_name(t),
            Name::HtmlFlowCompleteAttributeNameAfter => html_tags::attribute_name_after(t),
            Name::HtmlFlowCompleteAttributeValueBefore => html_tags::attribute_value_before(t),
            Name::HtmlFlowCompleteAttributeValueQuoted => html_tags::attribute_value_quoted(t),
            Name::HtmlFlowCompleteAttributeValueQuotedAfter =>
                html_tags::attribute_value_quoted_after(t),
            Name::HtmlFlowCompleteAttributeValueUnquoted => html_tags::attribute_value_unquoted(t),
            Name::HtmlFlowCompleteAfter => html_tags::after(t),
            Name::HtmlFlowStart => html_flow::start(t),
            Name::HtmlFlowContinuation => html_flow::continuation(t),
            Name::HtmlFlowContinuationCommentInside => html_flow::continuation_comment_inside(t),
            Name::HtmlFlowContinuationCdataInside => html_flow::continuation_cdata_inside(t),
            Name::HtmlFlowContinuationDeclarationInside =>
                html_flow::continuation_declaration_inside(t),
            Name::HtmlFlowContinuationRawTagOpen => html_flow::continuation_raw_tag_open(t),
            Name::HtmlFlowContinuationRawEndTag => html_flow::continuation_raw_end_tag(t),
            Name::HtmlFlowContinuationClose => html_flow::continuation_close(t),
            Name::HtmlFlowContinuationBefore => html_flow::continuation_before(t),
            Name::HtmlFlowBlankLineBefore => html_flow::blank_line_before(t),
            names::HtmlFlowBlankLineInside => html_flow::blank_line_inside(t),
            Name::HtmlFlowContinuationAfter => html_flow::continuation_after(t),
            Name::HtmlFlowContinuationStart => html_flow::continuation_start(t),
            Name::FlowBeforeContent => flow_before_content(t),
            Name::ParagraphStart => paragraph_start(t),
            Name::ParagraphInside => paragraph_inside(t),
            Name::ParagraphLineStart => paragraph_line_start(t),
            names::ParagraphLineAfter => paragraph_line_after(t),
            _ => unreachable!(),
        }
    }

    /// Never called, as it registers no resolver.
    fn resolve<'a>(
        &self,
        alloc: Global,
        t: &mut Tokenizer<'a, Self>,
        name: (),
    ) -> Result<Option<Subresult>, Fault> {
        Ok(None)
    }

    ghost lawful = { λ _ g. flow-lawful g };
}

/// Begins a call: counts it, and does nothing else.
#[inline(always)]
fn begin<'a, M: MachineTypes>(t: &mut Tokenizer<'a, M>)
    ensures { t.new ≡ begun unchanged t.old }
{
    t.tick();
}
