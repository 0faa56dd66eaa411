//! States: their names, and what the call of a state returns.
//!
//! A state is named by the construct that it reads and by the position in that construct. A machine's `call` runs the
//! state of a name and returns a [`State`].

ghost use Rattle.std.specs.Prelude.{◌≡◌, ◌≢◌, ◌↔◌, IfOk, IsOk};
ghost use Rattle.markdown_base.specs.States.{IsOkOrError};

use crate::message::Message;
use std::alloc::{AllocError, Global};

/// The name of a state.
///
/// An enum can't have this many variants, so each name is a constant. It is used in expressions and patterns as a
/// variant would be. The number is one machine word wide, so that a [`State`] that holds a name is moved by words.
///
/// A machine names states of its own in the same way, by constants with numbers from 1,000 on:
/// `const TagTried: Name = Name { number: 1_000 };`. Two machines may use one number, since a name is only ever called on the machine
/// that gave it.
#[derive(Clone, Copy, Debug, PartialEq, Eq)]
pub struct Name {
    /// Which name it is. Numbers below 1,000 are those of the constants here.
    pub number: u64,
}

#[allow(non_upper_case_globals)]
impl Name {
    /// Attention: start.
    pub const AttentionStart: Name = Name { number: 0 };
    /// Attention: inside.
    pub const AttentionInside: Name = Name { number: 1 };
    /// Autolink: start.
    pub const AutolinkStart: Name = Name { number: 2 };
    /// Autolink: after `<`.
    pub const AutolinkOpen: Name = Name { number: 3 };
    /// Autolink: scheme or email address.
    pub const AutolinkSchemeOrEmailAtext: Name = Name { number: 4 };
    /// Autolink: inside the scheme or an email address.
    pub const AutolinkSchemeInsideOrEmailAtext: Name = Name { number: 5 };
    /// Autolink: inside the URL.
    pub const AutolinkUrlInside: Name = Name { number: 6 };
    /// Autolink: after the at sign or a dot of an email address.
    pub const AutolinkEmailAtSignOrDot: Name = Name { number: 7 };
    /// Autolink: before the at sign of an email address.
    pub const AutolinkEmailAtext: Name = Name { number: 8 };
    /// Autolink: inside the domain of an email address.
    pub const AutolinkEmailValue: Name = Name { number: 9 };
    /// Autolink: inside a label of the domain of an email address.
    pub const AutolinkEmailLabel: Name = Name { number: 10 };
    /// Blank line: start.
    pub const BlankLineStart: Name = Name { number: 11 };
    /// Blank line: after it.
    pub const BlankLineAfter: Name = Name { number: 12 };
    /// Block quote: start.
    pub const BlockQuoteStart: Name = Name { number: 13 };
    /// Block quote: start on a further line.
    pub const BlockQuoteContStart: Name = Name { number: 14 };
    /// Block quote: before the marker on a further line.
    pub const BlockQuoteContBefore: Name = Name { number: 15 };
    /// Block quote: after the marker on a further line.
    pub const BlockQuoteContAfter: Name = Name { number: 16 };
    /// Byte order mark: start.
    pub const BomStart: Name = Name { number: 17 };
    /// Byte order mark: inside.
    pub const BomInside: Name = Name { number: 18 };
    /// Character escape: start.
    pub const CharacterEscapeStart: Name = Name { number: 19 };
    /// Character escape: inside.
    pub const CharacterEscapeInside: Name = Name { number: 20 };
    /// Character reference: start.
    pub const CharacterReferenceStart: Name = Name { number: 21 };
    /// Character reference: after `&`.
    pub const CharacterReferenceOpen: Name = Name { number: 22 };
    /// Character reference: after `#`.
    pub const CharacterReferenceNumeric: Name = Name { number: 23 };
    /// Character reference: its value.
    pub const CharacterReferenceValue: Name = Name { number: 24 };
    /// Indented code: start.
    pub const CodeIndentedStart: Name = Name { number: 25 };
    /// Indented code: at a break.
    pub const CodeIndentedAtBreak: Name = Name { number: 26 };
    /// Indented code: after it.
    pub const CodeIndentedAfter: Name = Name { number: 27 };
    /// Indented code: start of a further line.
    pub const CodeIndentedFurtherStart: Name = Name { number: 28 };
    /// Indented code: inside.
    pub const CodeIndentedInside: Name = Name { number: 29 };
    /// Indented code: before the text of a further line.
    pub const CodeIndentedFurtherBegin: Name = Name { number: 30 };
    /// Indented code: after a further line.
    pub const CodeIndentedFurtherAfter: Name = Name { number: 31 };
    /// Content: start of a chunk.
    pub const ContentChunkStart: Name = Name { number: 32 };
    /// Content: inside a chunk.
    pub const ContentChunkInside: Name = Name { number: 33 };
    /// Content: before a definition.
    pub const ContentDefinitionBefore: Name = Name { number: 34 };
    /// Content: after a definition.
    pub const ContentDefinitionAfter: Name = Name { number: 35 };
    /// Data: start.
    pub const DataStart: Name = Name { number: 36 };
    /// Data: inside.
    pub const DataInside: Name = Name { number: 37 };
    /// Data: at a break.
    pub const DataAtBreak: Name = Name { number: 38 };
    /// Definition: start.
    pub const DefinitionStart: Name = Name { number: 39 };
    /// Definition: before it.
    pub const DefinitionBefore: Name = Name { number: 40 };
    /// Definition: after the label.
    pub const DefinitionLabelAfter: Name = Name { number: 41 };
    /// Definition: no label.
    pub const DefinitionLabelNok: Name = Name { number: 42 };
    /// Definition: after the marker.
    pub const DefinitionMarkerAfter: Name = Name { number: 43 };
    /// Definition: before the destination.
    pub const DefinitionDestinationBefore: Name = Name { number: 44 };
    /// Definition: after the destination.
    pub const DefinitionDestinationAfter: Name = Name { number: 45 };
    /// Definition: the destination is missing.
    pub const DefinitionDestinationMissing: Name = Name { number: 46 };
    /// Definition: before the title.
    pub const DefinitionTitleBefore: Name = Name { number: 47 };
    /// Definition: after it.
    pub const DefinitionAfter: Name = Name { number: 48 };
    /// Definition: after whitespace at its end.
    pub const DefinitionAfterWhitespace: Name = Name { number: 49 };
    /// Definition: before the marker of a title.
    pub const DefinitionTitleBeforeMarker: Name = Name { number: 50 };
    /// Definition: after the title.
    pub const DefinitionTitleAfter: Name = Name { number: 51 };
    /// Definition: after the title and whitespace.
    pub const DefinitionTitleAfterOptionalWhitespace: Name = Name { number: 52 };
    /// Destination: start.
    pub const DestinationStart: Name = Name { number: 53 };
    /// Destination: after `<`.
    pub const DestinationEnclosedBefore: Name = Name { number: 54 };
    /// Destination: between `<` and `>`.
    pub const DestinationEnclosed: Name = Name { number: 55 };
    /// Destination: after a backslash between `<` and `>`.
    pub const DestinationEnclosedEscape: Name = Name { number: 56 };
    /// Destination: with no `<` and `>`.
    pub const DestinationRaw: Name = Name { number: 57 };
    /// Destination: after a backslash, with no `<` and `>`.
    pub const DestinationRawEscape: Name = Name { number: 58 };
    /// Document: start.
    pub const DocumentStart: Name = Name { number: 59 };
    /// Document: before frontmatter.
    pub const DocumentBeforeFrontmatter: Name = Name { number: 60 };
    /// Document: before an open container.
    pub const DocumentContainerExistingBefore: Name = Name { number: 61 };
    /// Document: after an open container.
    pub const DocumentContainerExistingAfter: Name = Name { number: 62 };
    /// Document: before a new container.
    pub const DocumentContainerNewBefore: Name = Name { number: 63 };
    /// Document: before a new container that is no block quote.
    pub const DocumentContainerNewBeforeNotBlockQuote: Name = Name { number: 64 };
    /// Document: before a new container that is no block quote or list item.
    pub const DocumentContainerNewBeforeNotList: Name = Name { number: 65 };
    /// Document: before a new container that is of no kind.
    pub const DocumentContainerNewBeforeNotGfmFootnoteDefinition: Name = Name { number: 66 };
    /// Document: after a new container.
    pub const DocumentContainerNewAfter: Name = Name { number: 67 };
    /// Document: after all containers of a line.
    pub const DocumentContainersAfter: Name = Name { number: 68 };
    /// Document: inside the flow of a line.
    pub const DocumentFlowInside: Name = Name { number: 69 };
    /// Document: end of the flow of a line.
    pub const DocumentFlowEnd: Name = Name { number: 70 };
    /// Flow: start.
    pub const FlowStart: Name = Name { number: 71 };
    /// Flow: before a GFM table.
    pub const FlowBeforeGfmTable: Name = Name { number: 72 };
    /// Flow: before indented code.
    pub const FlowBeforeCodeIndented: Name = Name { number: 73 };
    /// Flow: before fenced code or a block of math.
    pub const FlowBeforeRaw: Name = Name { number: 74 };
    /// Flow: before a block of HTML.
    pub const FlowBeforeHtml: Name = Name { number: 75 };
    /// Flow: before an ATX heading.
    pub const FlowBeforeHeadingAtx: Name = Name { number: 76 };
    /// Flow: before a setext heading.
    pub const FlowBeforeHeadingSetext: Name = Name { number: 77 };
    /// Flow: before a thematic break.
    pub const FlowBeforeThematicBreak: Name = Name { number: 78 };
    /// Flow: after a construct.
    pub const FlowAfter: Name = Name { number: 79 };
    /// Flow: before a blank line.
    pub const FlowBlankLineBefore: Name = Name { number: 80 };
    /// Flow: after a blank line.
    pub const FlowBlankLineAfter: Name = Name { number: 81 };
    /// Flow: before content.
    pub const FlowBeforeContent: Name = Name { number: 82 };
    /// Frontmatter: start.
    pub const FrontmatterStart: Name = Name { number: 83 };
    /// Frontmatter: inside the opening fence.
    pub const FrontmatterOpenSequence: Name = Name { number: 84 };
    /// Frontmatter: after the opening fence.
    pub const FrontmatterOpenAfter: Name = Name { number: 85 };
    /// Frontmatter: after it.
    pub const FrontmatterAfter: Name = Name { number: 86 };
    /// Frontmatter: start of a line.
    pub const FrontmatterContentStart: Name = Name { number: 87 };
    /// Frontmatter: inside a line.
    pub const FrontmatterContentInside: Name = Name { number: 88 };
    /// Frontmatter: end of a line.
    pub const FrontmatterContentEnd: Name = Name { number: 89 };
    /// Frontmatter: start of the closing fence.
    pub const FrontmatterCloseStart: Name = Name { number: 90 };
    /// Frontmatter: inside the closing fence.
    pub const FrontmatterCloseSequence: Name = Name { number: 91 };
    /// Frontmatter: after the closing fence.
    pub const FrontmatterCloseAfter: Name = Name { number: 92 };
    /// GFM autolink literal: start of the protocol.
    pub const GfmAutolinkLiteralProtocolStart: Name = Name { number: 93 };
    /// GFM autolink literal: after the protocol.
    pub const GfmAutolinkLiteralProtocolAfter: Name = Name { number: 94 };
    /// GFM autolink literal: inside the protocol prefix.
    pub const GfmAutolinkLiteralProtocolPrefixInside: Name = Name { number: 95 };
    /// GFM autolink literal: inside the protocol slashes.
    pub const GfmAutolinkLiteralProtocolSlashesInside: Name = Name { number: 96 };
    /// GFM autolink literal: start of the `www`.
    pub const GfmAutolinkLiteralWwwStart: Name = Name { number: 97 };
    /// GFM autolink literal: after the `www`.
    pub const GfmAutolinkLiteralWwwAfter: Name = Name { number: 98 };
    /// GFM autolink literal: inside the `www` prefix.
    pub const GfmAutolinkLiteralWwwPrefixInside: Name = Name { number: 99 };
    /// GFM autolink literal: after the `www` prefix.
    pub const GfmAutolinkLiteralWwwPrefixAfter: Name = Name { number: 100 };
    /// GFM autolink literal: inside the domain.
    pub const GfmAutolinkLiteralDomainInside: Name = Name { number: 101 };
    /// GFM autolink literal: at punctuation in the domain.
    pub const GfmAutolinkLiteralDomainAtPunctuation: Name = Name { number: 102 };
    /// GFM autolink literal: after the domain.
    pub const GfmAutolinkLiteralDomainAfter: Name = Name { number: 103 };
    /// GFM autolink literal: inside the path.
    pub const GfmAutolinkLiteralPathInside: Name = Name { number: 104 };
    /// GFM autolink literal: at punctuation in the path.
    pub const GfmAutolinkLiteralPathAtPunctuation: Name = Name { number: 105 };
    /// GFM autolink literal: after the path.
    pub const GfmAutolinkLiteralPathAfter: Name = Name { number: 106 };
    /// GFM autolink literal: inside the trail.
    pub const GfmAutolinkLiteralTrail: Name = Name { number: 107 };
    /// GFM autolink literal: inside a character reference in the trail.
    pub const GfmAutolinkLiteralTrailCharRefInside: Name = Name { number: 108 };
    /// GFM autolink literal: start of a character reference in the trail.
    pub const GfmAutolinkLiteralTrailCharRefStart: Name = Name { number: 109 };
    /// GFM autolink literal: after a bracket in the trail.
    pub const GfmAutolinkLiteralTrailBracketAfter: Name = Name { number: 110 };
    /// GFM footnote definition: start.
    pub const GfmFootnoteDefinitionStart: Name = Name { number: 111 };
    /// GFM footnote definition: before the label.
    pub const GfmFootnoteDefinitionLabelBefore: Name = Name { number: 112 };
    /// GFM footnote definition: at the marker of the label.
    pub const GfmFootnoteDefinitionLabelAtMarker: Name = Name { number: 113 };
    /// GFM footnote definition: inside the label.
    pub const GfmFootnoteDefinitionLabelInside: Name = Name { number: 114 };
    /// GFM footnote definition: after a backslash in the label.
    pub const GfmFootnoteDefinitionLabelEscape: Name = Name { number: 115 };
    /// GFM footnote definition: after the label.
    pub const GfmFootnoteDefinitionLabelAfter: Name = Name { number: 116 };
    /// GFM footnote definition: after the whitespace.
    pub const GfmFootnoteDefinitionWhitespaceAfter: Name = Name { number: 117 };
    /// GFM footnote definition: start on a further line.
    pub const GfmFootnoteDefinitionContStart: Name = Name { number: 118 };
    /// GFM footnote definition: at a further line that is blank.
    pub const GfmFootnoteDefinitionContBlank: Name = Name { number: 119 };
    /// GFM footnote definition: at a further line that is not blank.
    pub const GfmFootnoteDefinitionContFilled: Name = Name { number: 120 };
    /// GFM start of a footnote label: start.
    pub const GfmLabelStartFootnoteStart: Name = Name { number: 121 };
    /// GFM start of a footnote label: after `[`.
    pub const GfmLabelStartFootnoteOpen: Name = Name { number: 122 };
    /// GFM check of a task list item: start.
    pub const GfmTaskListItemCheckStart: Name = Name { number: 123 };
    /// GFM check of a task list item: after `[`.
    pub const GfmTaskListItemCheckInside: Name = Name { number: 124 };
    /// GFM check of a task list item: at `]`.
    pub const GfmTaskListItemCheckClose: Name = Name { number: 125 };
    /// GFM check of a task list item: after it.
    pub const GfmTaskListItemCheckAfter: Name = Name { number: 126 };
    /// GFM check of a task list item: after the whitespace behind it.
    pub const GfmTaskListItemCheckAfterSpaceOrTab: Name = Name { number: 127 };
    /// GFM table: start.
    pub const GfmTableStart: Name = Name { number: 128 };
    /// GFM table: before the head row.
    pub const GfmTableHeadRowBefore: Name = Name { number: 129 };
    /// GFM table: start of the head row.
    pub const GfmTableHeadRowStart: Name = Name { number: 130 };
    /// GFM table: at a break in the head row.
    pub const GfmTableHeadRowBreak: Name = Name { number: 131 };
    /// GFM table: inside a cell of the head row.
    pub const GfmTableHeadRowData: Name = Name { number: 132 };
    /// GFM table: after a backslash in the head row.
    pub const GfmTableHeadRowEscape: Name = Name { number: 133 };
    /// GFM table: start of the delimiter row.
    pub const GfmTableHeadDelimiterStart: Name = Name { number: 134 };
    /// GFM table: before the delimiter row.
    pub const GfmTableHeadDelimiterBefore: Name = Name { number: 135 };
    /// GFM table: before a delimiter cell.
    pub const GfmTableHeadDelimiterCellBefore: Name = Name { number: 136 };
    /// GFM table: before the value of a delimiter cell.
    pub const GfmTableHeadDelimiterValueBefore: Name = Name { number: 137 };
    /// GFM table: after the first `:` of a delimiter cell.
    pub const GfmTableHeadDelimiterLeftAlignmentAfter: Name = Name { number: 138 };
    /// GFM table: inside the `-` of a delimiter cell.
    pub const GfmTableHeadDelimiterFiller: Name = Name { number: 139 };
    /// GFM table: after the last `:` of a delimiter cell.
    pub const GfmTableHeadDelimiterRightAlignmentAfter: Name = Name { number: 140 };
    /// GFM table: after a delimiter cell.
    pub const GfmTableHeadDelimiterCellAfter: Name = Name { number: 141 };
    /// GFM table: no delimiter row.
    pub const GfmTableHeadDelimiterNok: Name = Name { number: 142 };
    /// GFM table: start of a body row.
    pub const GfmTableBodyRowStart: Name = Name { number: 143 };
    /// GFM table: at a break in a body row.
    pub const GfmTableBodyRowBreak: Name = Name { number: 144 };
    /// GFM table: inside a cell of a body row.
    pub const GfmTableBodyRowData: Name = Name { number: 145 };
    /// GFM table: after a backslash in a body row.
    pub const GfmTableBodyRowEscape: Name = Name { number: 146 };
    /// Hard break by a backslash: start.
    pub const HardBreakEscapeStart: Name = Name { number: 147 };
    /// Hard break by a backslash: after it.
    pub const HardBreakEscapeAfter: Name = Name { number: 148 };
    /// ATX heading: start.
    pub const HeadingAtxStart: Name = Name { number: 149 };
    /// ATX heading: before `#`.
    pub const HeadingAtxBefore: Name = Name { number: 150 };
    /// ATX heading: inside the opening `#`.
    pub const HeadingAtxSequenceOpen: Name = Name { number: 151 };
    /// ATX heading: at a break.
    pub const HeadingAtxAtBreak: Name = Name { number: 152 };
    /// ATX heading: inside further `#`.
    pub const HeadingAtxSequenceFurther: Name = Name { number: 153 };
    /// ATX heading: inside the text.
    pub const HeadingAtxData: Name = Name { number: 154 };
    /// Setext heading: start.
    pub const HeadingSetextStart: Name = Name { number: 155 };
    /// Setext heading: before the underline.
    pub const HeadingSetextBefore: Name = Name { number: 156 };
    /// Setext heading: inside the underline.
    pub const HeadingSetextInside: Name = Name { number: 157 };
    /// Setext heading: after the underline.
    pub const HeadingSetextAfter: Name = Name { number: 158 };
    /// Block of HTML: start.
    pub const HtmlFlowStart: Name = Name { number: 159 };
    /// Block of HTML: before it.
    pub const HtmlFlowBefore: Name = Name { number: 160 };
    /// Block of HTML: after `<`.
    pub const HtmlFlowOpen: Name = Name { number: 161 };
    /// Block of HTML: after `<!`.
    pub const HtmlFlowDeclarationOpen: Name = Name { number: 162 };
    /// Block of HTML: after `<!-`.
    pub const HtmlFlowCommentOpenInside: Name = Name { number: 163 };
    /// Block of HTML: after `<![`.
    pub const HtmlFlowCdataOpenInside: Name = Name { number: 164 };
    /// Block of HTML: after `</`.
    pub const HtmlFlowTagCloseStart: Name = Name { number: 165 };
    /// Block of HTML: inside a tag's name.
    pub const HtmlFlowTagName: Name = Name { number: 166 };
    /// Block of HTML: after `/` in a basic tag.
    pub const HtmlFlowBasicSelfClosing: Name = Name { number: 167 };
    /// Block of HTML: after a complete closing tag.
    pub const HtmlFlowCompleteClosingTagAfter: Name = Name { number: 168 };
    /// Block of HTML: at the `>` of a complete tag.
    pub const HtmlFlowCompleteEnd: Name = Name { number: 169 };
    /// Block of HTML: before an attribute of a complete tag.
    pub const HtmlFlowCompleteAttributeNameBefore: Name = Name { number: 170 };
    /// Block of HTML: inside an attribute's name.
    pub const HtmlFlowCompleteAttributeName: Name = Name { number: 171 };
    /// Block of HTML: after an attribute's name.
    pub const HtmlFlowCompleteAttributeNameAfter: Name = Name { number: 172 };
    /// Block of HTML: before an attribute's value.
    pub const HtmlFlowCompleteAttributeValueBefore: Name = Name { number: 173 };
    /// Block of HTML: inside a quoted value.
    pub const HtmlFlowCompleteAttributeValueQuoted: Name = Name { number: 174 };
    /// Block of HTML: after a quoted value.
    pub const HtmlFlowCompleteAttributeValueQuotedAfter: Name = Name { number: 175 };
    /// Block of HTML: inside a value with no quotes.
    pub const HtmlFlowCompleteAttributeValueUnquoted: Name = Name { number: 176 };
    /// Block of HTML: after a complete tag.
    pub const HtmlFlowCompleteAfter: Name = Name { number: 177 };
    /// Block of HTML: before a blank line.
    pub const HtmlFlowBlankLineBefore: Name = Name { number: 178 };
    /// Block of HTML: inside the content.
    pub const HtmlFlowContinuation: Name = Name { number: 179 };
    /// Block of HTML: at the end of a declaration or an instruction.
    pub const HtmlFlowContinuationDeclarationInside: Name = Name { number: 180 };
    /// Block of HTML: after the content.
    pub const HtmlFlowContinuationAfter: Name = Name { number: 181 };
    /// Block of HTML: start of a further line.
    pub const HtmlFlowContinuationStart: Name = Name { number: 182 };
    /// Block of HTML: before the content of a further line.
    pub const HtmlFlowContinuationBefore: Name = Name { number: 183 };
    /// Block of HTML: after `-` in a comment.
    pub const HtmlFlowContinuationCommentInside: Name = Name { number: 184 };
    /// Block of HTML: after `<` in raw content.
    pub const HtmlFlowContinuationRawTagOpen: Name = Name { number: 185 };
    /// Block of HTML: inside the name of a closing tag in raw content.
    pub const HtmlFlowContinuationRawEndTag: Name = Name { number: 186 };
    /// Block of HTML: at the rest of the last line.
    pub const HtmlFlowContinuationClose: Name = Name { number: 187 };
    /// Block of HTML: after `]` in CDATA.
    pub const HtmlFlowContinuationCdataInside: Name = Name { number: 188 };
    /// Block of HTML: start of a further line that is not lazy.
    pub const HtmlFlowContinuationStartNonLazy: Name = Name { number: 189 };
    /// HTML within text: start.
    pub const HtmlTextStart: Name = Name { number: 190 };
    /// HTML within text: after `<`.
    pub const HtmlTextOpen: Name = Name { number: 191 };
    /// HTML within text: after `<!`.
    pub const HtmlTextDeclarationOpen: Name = Name { number: 192 };
    /// HTML within text: after `</`.
    pub const HtmlTextTagCloseStart: Name = Name { number: 193 };
    /// HTML within text: inside the name of a closing tag.
    pub const HtmlTextTagClose: Name = Name { number: 194 };
    /// HTML within text: after the name of a closing tag.
    pub const HtmlTextTagCloseBetween: Name = Name { number: 195 };
    /// HTML within text: inside the name of an opening tag.
    pub const HtmlTextTagOpen: Name = Name { number: 196 };
    /// HTML within text: between attributes of an opening tag.
    pub const HtmlTextTagOpenBetween: Name = Name { number: 197 };
    /// HTML within text: inside an attribute's name.
    pub const HtmlTextTagOpenAttributeName: Name = Name { number: 198 };
    /// HTML within text: after an attribute's name.
    pub const HtmlTextTagOpenAttributeNameAfter: Name = Name { number: 199 };
    /// HTML within text: before an attribute's value.
    pub const HtmlTextTagOpenAttributeValueBefore: Name = Name { number: 200 };
    /// HTML within text: inside a quoted value.
    pub const HtmlTextTagOpenAttributeValueQuoted: Name = Name { number: 201 };
    /// HTML within text: after a quoted value.
    pub const HtmlTextTagOpenAttributeValueQuotedAfter: Name = Name { number: 202 };
    /// HTML within text: inside a value with no quotes.
    pub const HtmlTextTagOpenAttributeValueUnquoted: Name = Name { number: 203 };
    /// HTML within text: inside CDATA.
    pub const HtmlTextCdata: Name = Name { number: 204 };
    /// HTML within text: after `<![`.
    pub const HtmlTextCdataOpenInside: Name = Name { number: 205 };
    /// HTML within text: after `]` in CDATA.
    pub const HtmlTextCdataClose: Name = Name { number: 206 };
    /// HTML within text: after `]]` in CDATA.
    pub const HtmlTextCdataEnd: Name = Name { number: 207 };
    /// HTML within text: after `<!-`.
    pub const HtmlTextCommentOpenInside: Name = Name { number: 208 };
    /// HTML within text: inside a comment.
    pub const HtmlTextComment: Name = Name { number: 209 };
    /// HTML within text: after `-` in a comment.
    pub const HtmlTextCommentClose: Name = Name { number: 210 };
    /// HTML within text: after `--` in a comment.
    pub const HtmlTextCommentEnd: Name = Name { number: 211 };
    /// HTML within text: inside a declaration.
    pub const HtmlTextDeclaration: Name = Name { number: 212 };
    /// HTML within text: at `>`.
    pub const HtmlTextEnd: Name = Name { number: 213 };
    /// HTML within text: inside an instruction.
    pub const HtmlTextInstruction: Name = Name { number: 214 };
    /// HTML within text: after `?` in an instruction.
    pub const HtmlTextInstructionClose: Name = Name { number: 215 };
    /// HTML within text: before a line ending.
    pub const HtmlTextLineEndingBefore: Name = Name { number: 216 };
    /// HTML within text: after a line ending.
    pub const HtmlTextLineEndingAfter: Name = Name { number: 217 };
    /// HTML within text: after a line ending and whitespace.
    pub const HtmlTextLineEndingAfterPrefix: Name = Name { number: 218 };
    /// Label: start.
    pub const LabelStart: Name = Name { number: 219 };
    /// Label: at a break.
    pub const LabelAtBreak: Name = Name { number: 220 };
    /// Label: after a line ending.
    pub const LabelEolAfter: Name = Name { number: 221 };
    /// Label: after a backslash.
    pub const LabelEscape: Name = Name { number: 222 };
    /// Label: inside.
    pub const LabelInside: Name = Name { number: 223 };
    /// Label: no label.
    pub const LabelNok: Name = Name { number: 224 };
    /// End of a label: start.
    pub const LabelEndStart: Name = Name { number: 225 };
    /// End of a label: after it.
    pub const LabelEndAfter: Name = Name { number: 226 };
    /// End of a label: start of a resource.
    pub const LabelEndResourceStart: Name = Name { number: 227 };
    /// End of a label: before the destination of a resource.
    pub const LabelEndResourceBefore: Name = Name { number: 228 };
    /// End of a label: after `(` and whitespace.
    pub const LabelEndResourceOpen: Name = Name { number: 229 };
    /// End of a label: after the destination of a resource.
    pub const LabelEndResourceDestinationAfter: Name = Name { number: 230 };
    /// End of a label: a resource with no destination.
    pub const LabelEndResourceDestinationMissing: Name = Name { number: 231 };
    /// End of a label: between destination and title.
    pub const LabelEndResourceBetween: Name = Name { number: 232 };
    /// End of a label: after the title of a resource.
    pub const LabelEndResourceTitleAfter: Name = Name { number: 233 };
    /// End of a label: at the `)` of a resource.
    pub const LabelEndResourceEnd: Name = Name { number: 234 };
    /// End of a label: it ends a label.
    pub const LabelEndOk: Name = Name { number: 235 };
    /// End of a label: it ends no label.
    pub const LabelEndNok: Name = Name { number: 236 };
    /// End of a label: start of a full reference.
    pub const LabelEndReferenceFull: Name = Name { number: 237 };
    /// End of a label: after a full reference.
    pub const LabelEndReferenceFullAfter: Name = Name { number: 238 };
    /// End of a label: no label in a full reference.
    pub const LabelEndReferenceFullMissing: Name = Name { number: 239 };
    /// End of a label: no full reference.
    pub const LabelEndReferenceNotFull: Name = Name { number: 240 };
    /// End of a label: start of a collapsed reference.
    pub const LabelEndReferenceCollapsed: Name = Name { number: 241 };
    /// End of a label: after the `[` of a collapsed reference.
    pub const LabelEndReferenceCollapsedOpen: Name = Name { number: 242 };
    /// Start of an image label: start.
    pub const LabelStartImageStart: Name = Name { number: 243 };
    /// Start of an image label: after `!`.
    pub const LabelStartImageOpen: Name = Name { number: 244 };
    /// Start of an image label: after it.
    pub const LabelStartImageAfter: Name = Name { number: 245 };
    /// Start of a link label: start.
    pub const LabelStartLinkStart: Name = Name { number: 246 };
    /// List item: start.
    pub const ListItemStart: Name = Name { number: 247 };
    /// List item: before it.
    pub const ListItemBefore: Name = Name { number: 248 };
    /// List item: before a numbered item.
    pub const ListItemBeforeOrdered: Name = Name { number: 249 };
    /// List item: before an item with no number.
    pub const ListItemBeforeUnordered: Name = Name { number: 250 };
    /// List item: inside the number.
    pub const ListItemValue: Name = Name { number: 251 };
    /// List item: at the marker.
    pub const ListItemMarker: Name = Name { number: 252 };
    /// List item: after the marker.
    pub const ListItemMarkerAfter: Name = Name { number: 253 };
    /// List item: after it.
    pub const ListItemAfter: Name = Name { number: 254 };
    /// List item: after the marker, on a line that is not blank.
    pub const ListItemMarkerAfterFilled: Name = Name { number: 255 };
    /// List item: whitespace after the marker.
    pub const ListItemWhitespace: Name = Name { number: 256 };
    /// List item: at other whitespace after the marker.
    pub const ListItemPrefixOther: Name = Name { number: 257 };
    /// List item: after the whitespace.
    pub const ListItemWhitespaceAfter: Name = Name { number: 258 };
    /// List item: start on a further line.
    pub const ListItemContStart: Name = Name { number: 259 };
    /// List item: at a further line that is blank.
    pub const ListItemContBlank: Name = Name { number: 260 };
    /// List item: at a further line that is not blank.
    pub const ListItemContFilled: Name = Name { number: 261 };
    /// Continuation that is not lazy: start.
    pub const NonLazyContinuationStart: Name = Name { number: 262 };
    /// Continuation that is not lazy: after it.
    pub const NonLazyContinuationAfter: Name = Name { number: 263 };
    /// Paragraph: start.
    pub const ParagraphStart: Name = Name { number: 264 };
    /// Paragraph: start of a line.
    pub const ParagraphLineStart: Name = Name { number: 265 };
    /// Paragraph: inside.
    pub const ParagraphInside: Name = Name { number: 266 };
    /// Fenced code or block of math: start.
    pub const RawFlowStart: Name = Name { number: 267 };
    /// Fenced code or block of math: before the opening markers.
    pub const RawFlowBeforeSequenceOpen: Name = Name { number: 268 };
    /// Fenced code or block of math: inside the opening markers.
    pub const RawFlowSequenceOpen: Name = Name { number: 269 };
    /// Fenced code or block of math: before the info.
    pub const RawFlowInfoBefore: Name = Name { number: 270 };
    /// Fenced code or block of math: inside the info.
    pub const RawFlowInfo: Name = Name { number: 271 };
    /// Fenced code or block of math: before the meta.
    pub const RawFlowMetaBefore: Name = Name { number: 272 };
    /// Fenced code or block of math: inside the meta.
    pub const RawFlowMeta: Name = Name { number: 273 };
    /// Fenced code or block of math: at a break whose next line is not lazy.
    pub const RawFlowAtNonLazyBreak: Name = Name { number: 274 };
    /// Fenced code or block of math: start of the closing fence.
    pub const RawFlowCloseStart: Name = Name { number: 275 };
    /// Fenced code or block of math: before the closing markers.
    pub const RawFlowBeforeSequenceClose: Name = Name { number: 276 };
    /// Fenced code or block of math: inside the closing markers.
    pub const RawFlowSequenceClose: Name = Name { number: 277 };
    /// Fenced code or block of math: after the closing markers.
    pub const RawFlowAfterSequenceClose: Name = Name { number: 278 };
    /// Fenced code or block of math: before a line of content.
    pub const RawFlowContentBefore: Name = Name { number: 279 };
    /// Fenced code or block of math: start of a line of content.
    pub const RawFlowContentStart: Name = Name { number: 280 };
    /// Fenced code or block of math: before a chunk of content.
    pub const RawFlowBeforeContentChunk: Name = Name { number: 281 };
    /// Fenced code or block of math: inside a chunk of content.
    pub const RawFlowContentChunk: Name = Name { number: 282 };
    /// Fenced code or block of math: after it.
    pub const RawFlowAfter: Name = Name { number: 283 };
    /// Code span or math within text: start.
    pub const RawTextStart: Name = Name { number: 284 };
    /// Code span or math within text: inside the opening markers.
    pub const RawTextSequenceOpen: Name = Name { number: 285 };
    /// Code span or math within text: between the markers.
    pub const RawTextBetween: Name = Name { number: 286 };
    /// Code span or math within text: inside the text.
    pub const RawTextData: Name = Name { number: 287 };
    /// Code span or math within text: inside the closing markers.
    pub const RawTextSequenceClose: Name = Name { number: 288 };
    /// Spaces and tabs: start.
    pub const SpaceOrTabStart: Name = Name { number: 289 };
    /// Spaces and tabs: inside.
    pub const SpaceOrTabInside: Name = Name { number: 290 };
    /// Spaces and tabs: after it.
    pub const SpaceOrTabAfter: Name = Name { number: 291 };
    /// Spaces and tabs around a line ending: start.
    pub const SpaceOrTabEolStart: Name = Name { number: 292 };
    /// Spaces and tabs around a line ending: after the first whitespace.
    pub const SpaceOrTabEolAfterFirst: Name = Name { number: 293 };
    /// Spaces and tabs around a line ending: after the line ending.
    pub const SpaceOrTabEolAfterEol: Name = Name { number: 294 };
    /// Spaces and tabs around a line ending: at the line ending.
    pub const SpaceOrTabEolAtEol: Name = Name { number: 295 };
    /// Spaces and tabs around a line ending: after the whitespace behind the line ending.
    pub const SpaceOrTabEolAfterMore: Name = Name { number: 296 };
    /// String: start.
    pub const StringStart: Name = Name { number: 297 };
    /// String: before a construct.
    pub const StringBefore: Name = Name { number: 298 };
    /// String: before data.
    pub const StringBeforeData: Name = Name { number: 299 };
    /// Text: start.
    pub const TextStart: Name = Name { number: 300 };
    /// Text: before a construct.
    pub const TextBefore: Name = Name { number: 301 };
    /// Text: before HTML.
    pub const TextBeforeHtml: Name = Name { number: 302 };
    /// Text: before a hard break by a backslash.
    pub const TextBeforeHardBreakEscape: Name = Name { number: 303 };
    /// Text: before the start of a link label.
    pub const TextBeforeLabelStartLink: Name = Name { number: 304 };
    /// Text: before data.
    pub const TextBeforeData: Name = Name { number: 305 };
    /// Thematic break: start.
    pub const ThematicBreakStart: Name = Name { number: 306 };
    /// Thematic break: before the first marker.
    pub const ThematicBreakBefore: Name = Name { number: 307 };
    /// Thematic break: inside a run of markers.
    pub const ThematicBreakSequence: Name = Name { number: 308 };
    /// Thematic break: between runs of markers.
    pub const ThematicBreakAtBreak: Name = Name { number: 309 };
    /// Title: start.
    pub const TitleStart: Name = Name { number: 310 };
    /// Title: after the opening marker.
    pub const TitleBegin: Name = Name { number: 311 };
    /// Title: after a line ending.
    pub const TitleAfterEol: Name = Name { number: 312 };
    /// Title: at a break.
    pub const TitleAtBreak: Name = Name { number: 313 };
    /// Title: after a backslash.
    pub const TitleEscape: Name = Name { number: 314 };
    /// Title: inside.
    pub const TitleInside: Name = Name { number: 315 };
    /// Title: no title.
    pub const TitleNok: Name = Name { number: 316 };
}

/// What a state returns.
#[derive(Debug, PartialEq, Eq, Drop)]
pub enum State {
    /// The document is refused, with this message.
    Error(Message),
    /// The next byte, or the end, goes to this state.
    Next(Name),
    /// What waits goes to this state too.
    Retry(Name),
    /// The construct is there.
    Ok,
    /// The construct is not there.
    Nok,
}

impl State {
    /// Nothing for `Ok`, the message for `Error`. Takes no memory.
    ///
    /// The state must be `Ok` or `Error`.
    pub fn to_result(self) -> Result<(), Message>
        requires { IsOkOrError self }
        ensures ok { (result ≡ Ok tt) ↔ (self ≡ State.Ok) }
        ensures err { (m : _) → (result ≡ Err m) ↔ (self ≡ State.Error m) }
    {
        match self {
            State::Ok => Ok(()),
            State::Error(message) => Err(message),
            State::Next(_) | State::Retry(_) | State::Nok => unreachable!(),
        }
    }

    /// The same state, in memory of its own. Only an `Error` takes memory, for its message.
    pub fn try_clone(&self, alloc: Global) -> Result<State, AllocError>
        ensures equal { IfOk result (λ copy. copy ≡ self.now) }
        ensures succeeds { ((m : _) → self.now ≢ State.Error m) → IsOk result }
    {
        match self {
            State::Error(message) => Ok(State::Error(message.try_clone(alloc)?)),
            State::Next(name) => Ok(State::Next(*name)),
            State::Retry(name) => Ok(State::Retry(*name)),
            State::Ok => Ok(State::Ok),
            State::Nok => Ok(State::Nok),
        }
    }
}
