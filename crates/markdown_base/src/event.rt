//! Events: what a tokenizer makes of a document.
//!
//! A document becomes a flat list of events. Each span is an enter and, further on, an exit of one name,
//! and spans nest. Events of one kind of content are joined by links, so that a later pass reads them as
//! one text.

ghost use Rattle.std.specs.Prelude.{◌≡◌, ◌<◌, ◌≤◌, length, Some};
ghost use Rattle.markdown_base.specs.EventNames.{text_of};
ghost use Rattle.markdown_base.specs.Events.{is_void};
ghost use Rattle.markdown_base.specs.Lines.{HasNoLineEnding};
ghost use Rattle.markdown_base.specs.Places.{IsPointOf, point_at};
ghost use Rattle.markdown_base.specs.Virtual.{IsWithinLimit};

use crate::configuration::TabSize;
use crate::unist;
use crate::util::place::tab_width;

/// What a span is.
///
/// A span with a *void* name holds no other events: its enter is directly followed by its exit. [`VOID_EVENTS`] lists
/// these.
#[derive(Clone, Copy, Debug, PartialEq, Eq, Hash)]
pub enum Name {
    /// Run of `*`, `_` or `~` that may open or close emphasis, strong emphasis or strikethrough (void).
    AttentionSequence,
    /// Autolink, with its `<` and `>`.
    Autolink,
    /// Email address in an autolink (void).
    AutolinkEmail,
    /// The `<` or `>` of an autolink (void).
    AutolinkMarker,
    /// URL in an autolink, from its scheme on (void).
    AutolinkProtocol,
    /// Line ending of a blank line (void).
    BlankLineEnding,
    /// Block quote, with all its lines.
    BlockQuote,
    /// The `>` of a block quote (void).
    BlockQuoteMarker,
    /// The `>` of a block quote and the space or tab after it.
    BlockQuotePrefix,
    /// Byte order mark at the start of a document (void).
    ByteOrderMark,
    /// Character escape: a backslash and what it escapes.
    CharacterEscape,
    /// The backslash of a character escape (void).
    CharacterEscapeMarker,
    /// The character that is escaped (void).
    CharacterEscapeValue,
    /// Character reference, from `&` to `;`.
    CharacterReference,
    /// The `&` of a character reference (void).
    CharacterReferenceMarker,
    /// The `x` or `X` of a hexadecimal character reference (void).
    CharacterReferenceMarkerHexadecimal,
    /// The `#` of a numeric character reference (void).
    CharacterReferenceMarkerNumeric,
    /// The `;` of a character reference (void).
    CharacterReferenceMarkerSemi,
    /// The name or the digits of a character reference (void).
    CharacterReferenceValue,
    /// Fenced code, with its fences.
    CodeFenced,
    /// A whole fence of fenced code, with its info and meta.
    CodeFencedFence,
    /// First word after the opening fence of fenced code.
    CodeFencedFenceInfo,
    /// What follows the info of an opening fence of fenced code.
    CodeFencedFenceMeta,
    /// The markers of a fence of fenced code (void).
    CodeFencedFenceSequence,
    /// A line of fenced or indented code (void).
    CodeFlowChunk,
    /// Indented code.
    CodeIndented,
    /// Code span, with its markers.
    CodeText,
    /// Text of a code span (void).
    CodeTextData,
    /// The run of backticks that opens or closes a code span (void).
    CodeTextSequence,
    /// Lines that hold definitions, a setext heading or a paragraph.
    Content,
    /// Plain text (void).
    Data,
    /// Link reference definition.
    Definition,
    /// Destination of a definition.
    DefinitionDestination,
    /// Destination of a definition between `<` and `>`.
    DefinitionDestinationLiteral,
    /// The `<` or `>` of a definition's destination (void).
    DefinitionDestinationLiteralMarker,
    /// Destination of a definition with no `<` and `>`.
    DefinitionDestinationRaw,
    /// Text of a definition's destination.
    DefinitionDestinationString,
    /// Label of a definition, with its brackets.
    DefinitionLabel,
    /// The `[` or `]` of a definition's label (void).
    DefinitionLabelMarker,
    /// Text of a definition's label.
    DefinitionLabelString,
    /// The `:` of a definition (void).
    DefinitionMarker,
    /// Title of a definition, with its markers.
    DefinitionTitle,
    /// What opens or closes a definition's title: a quote or a parenthesis (void).
    DefinitionTitleMarker,
    /// Text of a definition's title.
    DefinitionTitleString,
    /// Emphasis, with its markers.
    Emphasis,
    /// The marker that opens or closes emphasis (void).
    EmphasisSequence,
    /// What is emphasized.
    EmphasisText,
    /// Frontmatter, with its fences.
    Frontmatter,
    /// A line of frontmatter (void).
    FrontmatterChunk,
    /// A whole fence of frontmatter.
    FrontmatterFence,
    /// The markers of a fence of frontmatter (void).
    FrontmatterSequence,
    /// Email address that is a link by itself, in GFM (void).
    GfmAutolinkLiteralEmail,
    /// Link by itself that begins with `mailto:`, in GFM.
    GfmAutolinkLiteralMailto,
    /// Link by itself that begins with a protocol, in GFM (void).
    GfmAutolinkLiteralProtocol,
    /// Link by itself that begins with `www.`, in GFM (void).
    GfmAutolinkLiteralWww,
    /// Link by itself that begins with `xmpp:`, in GFM.
    GfmAutolinkLiteralXmpp,
    /// Call of a footnote, in GFM.
    GfmFootnoteCall,
    /// Start of a footnote call's label, `[^`.
    GfmFootnoteCallLabel,
    /// The `^` of a footnote call (void).
    GfmFootnoteCallMarker,
    /// Footnote definition, with all its lines, in GFM.
    GfmFootnoteDefinition,
    /// What comes before the content of a footnote definition: its label, `:` and whitespace.
    GfmFootnoteDefinitionPrefix,
    /// Label of a footnote definition, with its brackets.
    GfmFootnoteDefinitionLabel,
    /// The `[` or `]` of a footnote definition's label (void).
    GfmFootnoteDefinitionLabelMarker,
    /// Text of a footnote definition's label.
    GfmFootnoteDefinitionLabelString,
    /// The `^` of a footnote definition (void).
    GfmFootnoteDefinitionMarker,
    /// Strikethrough, with its markers, in GFM.
    GfmStrikethrough,
    /// The markers that open or close strikethrough (void).
    GfmStrikethroughSequence,
    /// What is struck through.
    GfmStrikethroughText,
    /// Table, in GFM.
    GfmTable,
    /// The rows of a table below its delimiter row.
    GfmTableBody,
    /// A cell of a table, with the markers and the whitespace around its text.
    GfmTableCell,
    /// Text of a table's cell.
    GfmTableCellText,
    /// The `|` between cells of a table (void).
    GfmTableCellDivider,
    /// The row of a table that gives the alignment of its columns.
    GfmTableDelimiterRow,
    /// The `:` of a delimiter cell (void).
    GfmTableDelimiterMarker,
    /// A cell of the delimiter row, with the markers and the whitespace around it.
    GfmTableDelimiterCell,
    /// The `-` and `:` of a delimiter cell.
    GfmTableDelimiterCellValue,
    /// The run of `-` of a delimiter cell (void).
    GfmTableDelimiterFiller,
    /// The head of a table: its first row and its delimiter row.
    GfmTableHead,
    /// A row of a table.
    GfmTableRow,
    /// The check of a task list item, with its brackets, in GFM.
    GfmTaskListItemCheck,
    /// The `[` or `]` of a check (void).
    GfmTaskListItemMarker,
    /// The `x` or `X` of a check that is set (void).
    GfmTaskListItemValueChecked,
    /// The whitespace of a check that is not set (void).
    GfmTaskListItemValueUnchecked,
    /// The backslash of a hard break (void).
    HardBreakEscape,
    /// The trailing spaces of a hard break (void).
    HardBreakTrailing,
    /// Heading that begins with `#`.
    HeadingAtx,
    /// The run of `#` that opens or closes a heading (void).
    HeadingAtxSequence,
    /// Text of a heading that begins with `#`.
    HeadingAtxText,
    /// Heading that is underlined.
    HeadingSetext,
    /// Text of a heading that is underlined.
    HeadingSetextText,
    /// The line under a heading.
    HeadingSetextUnderline,
    /// The run of `=` or `-` under a heading (void).
    HeadingSetextUnderlineSequence,
    /// Block of HTML.
    HtmlFlow,
    /// A line of a block of HTML (void).
    HtmlFlowData,
    /// HTML within text.
    HtmlText,
    /// A line of HTML within text (void).
    HtmlTextData,
    /// Image, with its label and what it refers to.
    Image,
    /// Label of a link, an image or a footnote, with its brackets.
    Label,
    /// End of a label, `]`.
    LabelEnd,
    /// Start of an image's label, `![`.
    LabelImage,
    /// The `!` of an image's label (void).
    LabelImageMarker,
    /// Start of a link's label, `[`.
    LabelLink,
    /// The `[` or `]` of a label (void).
    LabelMarker,
    /// Text of a label.
    LabelText,
    /// Line ending (void).
    LineEnding,
    /// Link, with its label and what it refers to.
    Link,
    /// List item, with all its lines.
    ListItem,
    /// What marks a list item: `*`, `+`, `-`, or the `.` or `)` after a number (void).
    ListItemMarker,
    /// The marker of a list item, its number and the whitespace after them.
    ListItemPrefix,
    /// The number of a list item (void).
    ListItemValue,
    /// List of numbered items.
    ListOrdered,
    /// List of items with no numbers.
    ListUnordered,
    /// Block of math, with its fences.
    MathFlow,
    /// A whole fence of a block of math, with its meta.
    MathFlowFence,
    /// What follows the opening fence of a block of math.
    MathFlowFenceMeta,
    /// The markers of a fence of a block of math (void).
    MathFlowFenceSequence,
    /// A line of a block of math (void).
    MathFlowChunk,
    /// Math within text, with its markers.
    MathText,
    /// Text of math within text (void).
    MathTextData,
    /// The run of `$` that opens or closes math within text (void).
    MathTextSequence,
    /// Paragraph, with all its lines.
    Paragraph,
    /// Reference to a definition, `[]` with or without a label, after the label of a link or an image.
    Reference,
    /// The `[` or `]` of a reference (void).
    ReferenceMarker,
    /// Label in a reference.
    ReferenceString,
    /// Resource, with its parentheses, after the label of a link or an image.
    Resource,
    /// Destination of a resource.
    ResourceDestination,
    /// Destination of a resource between `<` and `>`.
    ResourceDestinationLiteral,
    /// The `<` or `>` of a resource's destination.
    ResourceDestinationLiteralMarker,
    /// Destination of a resource with no `<` and `>`.
    ResourceDestinationRaw,
    /// Text of a resource's destination.
    ResourceDestinationString,
    /// The `(` or `)` of a resource (void).
    ResourceMarker,
    /// Title of a resource, with its markers.
    ResourceTitle,
    /// What opens or closes a resource's title: a quote or a parenthesis (void).
    ResourceTitleMarker,
    /// Text of a resource's title.
    ResourceTitleString,
    /// Spaces and tabs (void).
    SpaceOrTab,
    /// Strong emphasis, with its markers.
    Strong,
    /// The markers that open or close strong emphasis (void).
    StrongSequence,
    /// What is strongly emphasized.
    StrongText,
    /// Thematic break, with its markers and whitespace.
    ThematicBreak,
    /// A run of markers of a thematic break (void).
    ThematicBreakSequence,
    /// Whitespace at the start of a line.
    LinePrefix,
}

/// The names of void events, whose enter is directly followed by their exit.
pub const VOID_EVENTS: [Name; 60] = [
    Name::AttentionSequence,
    Name::AutolinkEmail,
    Name::AutolinkMarker,
    Name::AutolinkProtocol,
    Name::BlankLineEnding,
    Name::BlockQuoteMarker,
    Name::ByteOrderMark,
    Name::CharacterEscapeMarker,
    Name::CharacterEscapeValue,
    Name::CharacterReferenceMarker,
    Name::CharacterReferenceMarkerHexadecimal,
    Name::CharacterReferenceMarkerNumeric,
    Name::CharacterReferenceMarkerSemi,
    Name::CharacterReferenceValue,
    Name::CodeFencedFenceSequence,
    Name::CodeFlowChunk,
    Name::CodeTextData,
    Name::CodeTextSequence,
    Name::Data,
    Name::DefinitionDestinationLiteralMarker,
    Name::DefinitionLabelMarker,
    Name::DefinitionMarker,
    Name::DefinitionTitleMarker,
    Name::EmphasisSequence,
    Name::FrontmatterChunk,
    Name::GfmAutolinkLiteralEmail,
    Name::GfmAutolinkLiteralProtocol,
    Name::GfmAutolinkLiteralWww,
    Name::GfmFootnoteCallMarker,
    Name::GfmFootnoteDefinitionLabelMarker,
    Name::GfmFootnoteDefinitionMarker,
    Name::GfmStrikethroughSequence,
    Name::GfmTableCellDivider,
    Name::GfmTableDelimiterMarker,
    Name::GfmTableDelimiterFiller,
    Name::GfmTaskListItemMarker,
    Name::GfmTaskListItemValueChecked,
    Name::GfmTaskListItemValueUnchecked,
    Name::FrontmatterSequence,
    Name::HardBreakEscape,
    Name::HardBreakTrailing,
    Name::HeadingAtxSequence,
    Name::HeadingSetextUnderlineSequence,
    Name::HtmlFlowData,
    Name::HtmlTextData,
    Name::LabelImageMarker,
    Name::LabelMarker,
    Name::LineEnding,
    Name::ListItemMarker,
    Name::ListItemValue,
    Name::MathFlowFenceSequence,
    Name::MathFlowChunk,
    Name::MathTextData,
    Name::MathTextSequence,
    Name::ReferenceMarker,
    Name::ResourceMarker,
    Name::ResourceTitleMarker,
    Name::SpaceOrTab,
    Name::StrongSequence,
    Name::ThematicBreakSequence,
];

/// The texts of the names, in the order of the enum.
static NAME_TEXTS: [&str; 142] = [
    "AttentionSequence",
    "Autolink",
    "AutolinkEmail",
    "AutolinkMarker",
    "AutolinkProtocol",
    "BlankLineEnding",
    "BlockQuote",
    "BlockQuoteMarker",
    "BlockQuotePrefix",
    "ByteOrderMark",
    "CharacterEscape",
    "CharacterEscapeMarker",
    "CharacterEscapeValue",
    "CharacterReference",
    "CharacterReferenceMarker",
    "CharacterReferenceMarkerHexadecimal",
    "CharacterReferenceMarkerNumeric",
    "CharacterReferenceMarkerSemi",
    "CharacterReferenceValue",
    "CodeFenced",
    "CodeFencedFence",
    "CodeFencedFenceInfo",
    "CodeFencedFenceMeta",
    "CodeFencedFenceSequence",
    "CodeFlowChunk",
    "CodeIndented",
    "CodeText",
    "CodeTextData",
    "CodeTextSequence",
    "Content",
    "Data",
    "Definition",
    "DefinitionDestination",
    "DefinitionDestinationLiteral",
    "DefinitionDestinationLiteralMarker",
    "DefinitionDestinationRaw",
    "DefinitionDestinationString",
    "DefinitionLabel",
    "DefinitionLabelMarker",
    "DefinitionLabelString",
    "DefinitionMarker",
    "DefinitionTitle",
    "DefinitionTitleMarker",
    "DefinitionTitleString",
    "Emphasis",
    "EmphasisSequence",
    "EmphasisText",
    "Frontmatter",
    "FrontmatterChunk",
    "FrontmatterFence",
    "FrontmatterSequence",
    "GfmAutolinkLiteralEmail",
    "GfmAutolinkLiteralMailto",
    "GfmAutolinkLiteralProtocol",
    "GfmAutolinkLiteralWww",
    "GfmAutolinkLiteralXmpp",
    "GfmFootnoteCall",
    "GfmFootnoteCallLabel",
    "GfmFootnoteCallMarker",
    "GfmFootnoteDefinition",
    "GfmFootnoteDefinitionPrefix",
    "GfmFootnoteDefinitionLabel",
    "GfmFootnoteDefinitionLabelMarker",
    "GfmFootnoteDefinitionLabelString",
    "GfmFootnoteDefinitionMarker",
    "GfmStrikethrough",
    "GfmStrikethroughSequence",
    "GfmStrikethroughText",
    "GfmTable",
    "GfmTableBody",
    "GfmTableCell",
    "GfmTableCellText",
    "GfmTableCellDivider",
    "GfmTableDelimiterRow",
    "GfmTableDelimiterMarker",
    "GfmTableDelimiterCell",
    "GfmTableDelimiterCellValue",
    "GfmTableDelimiterFiller",
    "GfmTableHead",
    "GfmTableRow",
    "GfmTaskListItemCheck",
    "GfmTaskListItemMarker",
    "GfmTaskListItemValueChecked",
    "GfmTaskListItemValueUnchecked",
    "HardBreakEscape",
    "HardBreakTrailing",
    "HeadingAtx",
    "HeadingAtxSequence",
    "HeadingAtxText",
    "HeadingSetext",
    "HeadingSetextText",
    "HeadingSetextUnderline",
    "HeadingSetextUnderlineSequence",
    "HtmlFlow",
    "HtmlFlowData",
    "HtmlText",
    "HtmlTextData",
    "Image",
    "Label",
    "LabelEnd",
    "LabelImage",
    "LabelImageMarker",
    "LabelLink",
    "LabelMarker",
    "LabelText",
    "LineEnding",
    "Link",
    "ListItem",
    "ListItemMarker",
    "ListItemPrefix",
    "ListItemValue",
    "ListOrdered",
    "ListUnordered",
    "MathFlow",
    "MathFlowFence",
    "MathFlowFenceMeta",
    "MathFlowFenceSequence",
    "MathFlowChunk",
    "MathText",
    "MathTextData",
    "MathTextSequence",
    "Paragraph",
    "Reference",
    "ReferenceMarker",
    "ReferenceString",
    "Resource",
    "ResourceDestination",
    "ResourceDestinationLiteral",
    "ResourceDestinationLiteralMarker",
    "ResourceDestinationRaw",
    "ResourceDestinationString",
    "ResourceMarker",
    "ResourceTitle",
    "ResourceTitleMarker",
    "ResourceTitleString",
    "SpaceOrTab",
    "Strong",
    "StrongSequence",
    "StrongText",
    "ThematicBreak",
    "ThematicBreakSequence",
    "LinePrefix",
];

impl Name {
    /// Whether this is a void name: its span holds no other events. Takes no memory.
    ///
    /// These are the names in [`VOID_EVENTS`].
    pub fn is_void(self) -> bool
        ensures { result ≡ is_void self }
    {
        match self {
            Name::AttentionSequence
            | Name::AutolinkEmail
            | Name::AutolinkMarker
            | Name::AutolinkProtocol
            | Name::BlankLineEnding
            | Name::BlockQuoteMarker
            | Name::ByteOrderMark
            | Name::CharacterEscapeMarker
            | Name::CharacterEscapeValue
            | Name::CharacterReferenceMarker
            | Name::CharacterReferenceMarkerHexadecimal
            | Name::CharacterReferenceMarkerNumeric
            | Name::CharacterReferenceMarkerSemi
            | Name::CharacterReferenceValue
            | Name::CodeFencedFenceSequence
            | Name::CodeFlowChunk
            | Name::CodeTextData
            | Name::CodeTextSequence
            | Name::Data
            | Name::DefinitionDestinationLiteralMarker
            | Name::DefinitionLabelMarker
            | Name::DefinitionMarker
            | Name::DefinitionTitleMarker
            | Name::EmphasisSequence
            | Name::FrontmatterChunk
            | Name::GfmAutolinkLiteralEmail
            | Name::GfmAutolinkLiteralProtocol
            | Name::GfmAutolinkLiteralWww
            | Name::GfmFootnoteCallMarker
            | Name::GfmFootnoteDefinitionLabelMarker
            | Name::GfmFootnoteDefinitionMarker
            | Name::GfmStrikethroughSequence
            | Name::GfmTableCellDivider
            | Name::GfmTableDelimiterMarker
            | Name::GfmTableDelimiterFiller
            | Name::GfmTaskListItemMarker
            | Name::GfmTaskListItemValueChecked
            | Name::GfmTaskListItemValueUnchecked
            | Name::FrontmatterSequence
            | Name::HardBreakEscape
            | Name::HardBreakTrailing
            | Name::HeadingAtxSequence
            | Name::HeadingSetextUnderlineSequence
            | Name::HtmlFlowData
            | Name::HtmlTextData
            | Name::LabelImageMarker
            | Name::LabelMarker
            | Name::LineEnding
            | Name::ListItemMarker
            | Name::ListItemValue
            | Name::MathFlowFenceSequence
            | Name::MathFlowChunk
            | Name::MathTextData
            | Name::MathTextSequence
            | Name::ReferenceMarker
            | Name::ResourceMarker
            | Name::ResourceTitleMarker
            | Name::SpaceOrTab
            | Name::StrongSequence
            | Name::ThematicBreakSequence => true,
            _ => false,
        }
    }

    /// The name as it is written in this enum.
    pub fn as_str(&self) -> &'static str
        ensures { result.now ≡ text_of self.now }
    {
        NAME_TEXTS[*self as usize]
    }
}

/// What the text of a chain of linked events is read as: the content type of the Rust crate.
#[derive(Clone, Copy, Debug, PartialEq, Eq)]
pub enum Content {
    /// Block constructs (headings, lists, paragraphs).
    Flow,
    /// Definitions, and what is left of a paragraph.
    Content,
    /// Text with character escapes and references.
    String,
    /// Text with all inline constructs.
    Text,
}

/// Whether an event begins or ends a span.
#[derive(Clone, Copy, Debug, PartialEq, Eq)]
pub enum Kind {
    /// The span begins here.
    Enter,
    /// The span ends here.
    Exit,
}

/// An event's neighbours in its chain. The enters of one chain are linked in both directions.
#[derive(Clone, Copy, Debug, PartialEq, Eq)]
pub struct Link {
    /// The previous enter of the chain, as an index into the events. `None` at the chain's first.
    pub previous: Option<usize>,
    /// The next enter of the chain, as an index into the events. `None` at the chain's last.
    pub next: Option<usize>,
    /// What the chain's text is read as.
    pub content: Content,
}

/// A place in a document, with its line and its virtual column.
///
/// A tab is as many virtual bytes as it takes to reach the next tab stop; `vs` is the number of one of them.
#[derive(Clone, Copy, Debug, PartialEq, Eq)]
pub struct Point {
    /// Line, from 1.
    pub line: usize,
    /// Virtual column in the line, from 1.
    pub column: usize,
    /// Byte index into the document, from 0.
    pub index: usize,
    /// Number of the virtual byte of a tab, from 0; 0 elsewhere.
    pub vs: usize,
}

impl Point {
    /// Where a document starts: at line 1, column 1 and byte index 0.
    pub const START: Point = Point {
        line: 1,
        column: 1,
        index: 0,
        vs: 0,
    };

    /// This point as a unist point, without `vs`: the byte index is its offset.
    pub fn to_unist(&self) -> unist::Point
        ensures point { result ≡ record { line = self.now.line; column = self.now.column; offset = self.now.index } }
    {
        unist::Point::new(self.line, self.column, self.index)
    }

    /// The point at a higher byte index of the same line, with tab stops at every `tab_size` columns. The index may be
    /// the document's length.
    pub fn shift_to(&self, bytes: &[u8], tab_size: TabSize, index: usize) -> Point
        requires fits { IsWithinLimit tab_size bytes.now }
        requires place { IsPointOf tab_size bytes.now self.now }
        requires whole { self.now.vs ≡ 0 }
        requires forward { self.now.index < index }
        requires inside { index ≤ length bytes.now }
        requires in_line { HasNoLineEnding bytes.now self.now.index index }
        ensures point { point_at tab_size bytes.now (index, 0) ≡ Some result }
        ensures line { result.line ≡ self.now.line }
    {
        let t = tab_size.get();
        let mut column = self.column;
        for byte in &bytes[self.index..index] {
            column += if *byte == b'\t' {
                tab_width(t, column)
            } else {
                1
            };
        }
        Point {
            line: self.line,
            column,
            index,
            vs: 0,
        }
    }
}

/// The start or the end of a span.
#[derive(Clone, Copy, Debug, PartialEq, Eq)]
pub struct Event {
    /// Whether the span begins or ends.
    pub kind: Kind,
    /// What the span is.
    pub name: Name,
    /// Where the span begins or ends.
    pub point: Point,
    /// Its neighbours in a chain, if it is in one.
    pub link: Option<Link>,
}
