//! What spans are written as, by their names.

ghost use Rattle.std.specs.Prelude.{◌≡◌};
ghost use Rattle.mdhtml_document.specs.Names.{block_of, inline_of};
ghost use Rattle.mdhtml_document.specs.Values.{reading_of};

use markdown_base::event::Name;
use mddocument_link_targets::strings::Reading;

/// A block, or a part of one.
#[derive(Clone, Copy, Debug, PartialEq, Eq)]
pub enum Block {
    /// A paragraph.
    Paragraph,
    /// A heading that begins with `#`.
    HeadingAtx,
    /// A heading that is underlined.
    HeadingSetext,
    /// The text of a heading, or of a cell of a table.
    HeadingText,
    /// A block quote.
    Quote,
    /// A list with bullets.
    Bullets,
    /// A list with numbers.
    Numbers,
    /// An item of a list.
    Item,
    /// Fenced code.
    Fenced,
    /// Indented code.
    Indented,
    /// HTML.
    Html,
    /// A thematic break.
    Rule,
    /// A table.
    Table,
    /// The head of a table.
    TableHead,
    /// The rows of a table behind its head.
    TableBody,
    /// A row of a table.
    TableRow,
    /// A cell of a table.
    TableCell,
    /// Anything else.
    Other,
}

/// A span of inline text.
#[derive(Clone, Copy, Debug, PartialEq, Eq)]
pub enum Inline {
    /// A line ending.
    Ending,
    /// A hard break.
    Break,
    /// Emphasis.
    Emphasis,
    /// Strong emphasis.
    Strong,
    /// Text that is struck through.
    Struck,
    /// A code span.
    Code,
    /// HTML.
    Html,
    /// An autolink.
    Autolink,
    /// A literal that begins with `www.`.
    Www,
    /// A literal that is an address of email.
    Email,
    /// A literal that begins with its scheme.
    Address,
    /// A link.
    Link,
    /// An image.
    Image,
    /// A check of a task.
    Check,
    /// The call of a footnote.
    Call,
    /// What is behind the label of a link or an image.
    Tail,
    /// Anything else: what it says itself, and what is in it.
    Other,
}

/// The block that a span is.
pub(crate) fn block_of(name: Name) -> Block
    ensures { result ≡ block_of name }
{
    match name {
        Name::Paragraph => Block::Paragraph,
        Name::HeadingAtx => Block::HeadingAtx,
        Name::HeadingSetext => Block::HeadingSetext,
        Name::HeadingAtxText | Name::HeadingSetextText | Name::GfmTableCellText => {
            Block::HeadingText
        }
        Name::BlockQuote => Block::Quote,
        Name::ListUnordered => Block::Bullets,
        Name::ListOrdered => Block::Numbers,
        Name::ListItem => Block::Item,
        Name::CodeFenced => Block::Fenced,
        Name::CodeIndented => Block::Indented,
        Name::HtmlFlow => Block::Html,
        Name::ThematicBreak => Block::Rule,
        Name::GfmTable => Block::Table,
        Name::GfmTableHead => Block::TableHead,
        Name::GfmTableBody => Block::TableBody,
        Name::GfmTableRow => Block::TableRow,
        Name::GfmTableCell => Block::TableCell,
        _ => Block::Other,
    }
}

/// What a span of inline text is.
pub(crate) fn inline_of(name: Name) -> Inline
    ensures { result ≡ inline_of name }
{
    match name {
        Name::LineEnding => Inline::Ending,
        Name::HardBreakEscape | Name::HardBreakTrailing => Inline::Break,
        Name::Emphasis => Inline::Emphasis,
        Name::Strong => Inline::Strong,
        Name::GfmStrikethrough => Inline::Struck,
        Name::CodeText => Inline::Code,
        Name::HtmlText => Inline::Html,
        Name::Autolink => Inline::Autolink,
        Name::GfmAutolinkLiteralWww => Inline::Www,
        Name::GfmAutolinkLiteralEmail => Inline::Email,
        Name::GfmAutolinkLiteralProtocol
        | Name::GfmAutolinkLiteralMailto
        | Name::GfmAutolinkLiteralXmpp => Inline::Address,
        Name::Link => Inline::Link,
        Name::Image => Inline::Image,
        Name::GfmTaskListItemCheck => Inline::Check,
        Name::GfmFootnoteCall => Inline::Call,
        Name::Resource | Name::Reference => Inline::Tail,
        _ => Inline::Other,
    }
}

/// How an innermost span of inline text is read: a literal as it is written.
pub(crate) fn reading_of(inline: Inline) -> Reading
    ensures { result ≡ reading_of inline }
{
    match inline {
        Inline::Www | Inline::Email | Inline::Address => Reading::AsWritten,
        _ => Reading::Decoded,
    }
}
