//! The elements of HTML that are written, and their attributes, by name.

ghost use Rattle.std.specs.Prelude.{◌≡◌};
ghost use Rattle.mdhtml_markup.specs.SafeHtml.{is_void, name_of, word_of};

/// An element.
#[derive(Clone, Copy, Debug, PartialEq, Eq)]
pub enum Element {
    /// A link: `a`.
    Anchor,
    /// A quotation: `blockquote`.
    BlockQuote,
    /// A line break: `br`.
    Break,
    /// The box of a task, which nobody can check: `input`.
    Checkbox,
    /// Code: `code`.
    Code,
    /// A cell of a table: `td`.
    DataCell,
    /// Text that is struck through: `del`.
    Deleted,
    /// Emphasis: `em`.
    Emphasis,
    /// A cell of the head of a table: `th`.
    HeaderCell,
    /// A heading of the first rank: `h1`.
    Heading1,
    /// A heading of the second rank: `h2`.
    Heading2,
    /// A heading of the third rank: `h3`.
    Heading3,
    /// A heading of the fourth rank: `h4`.
    Heading4,
    /// A heading of the fifth rank: `h5`.
    Heading5,
    /// A heading of the sixth rank: `h6`.
    Heading6,
    /// An image: `img`.
    Image,
    /// An item of a list: `li`.
    ListItem,
    /// A list with numbers: `ol`.
    OrderedList,
    /// A paragraph: `p`.
    Paragraph,
    /// Text whose lines and spaces stay: `pre`.
    Preformatted,
    /// The footnotes of a document: `section`.
    Section,
    /// Strong emphasis: `strong`.
    Strong,
    /// The call of a footnote: `sup`.
    Superscript,
    /// A table: `table`.
    Table,
    /// The rows of a table: `tbody`.
    TableBody,
    /// The head of a table: `thead`.
    TableHead,
    /// A row of a table: `tr`.
    TableRow,
    /// A line between blocks: `hr`.
    ThematicBreak,
    /// A list without numbers: `ul`.
    UnorderedList,
}

impl Element {
    /// The name in its tags.
    pub fn name(self) -> &'static [u8]
        ensures { result.now ≡ name_of self }
    {
        match self {
            Element::Anchor => b"a",
            Element::BlockQuote => b"blockquote",
            Element::Break => b"br",
            Element::Checkbox => b"input",
            Element::Code => b"code",
            Element::DataCell => b"td",
            Element::Deleted => b"del",
            Element::Emphasis => b"em",
            Element::HeaderCell => b"th",
            Element::Heading1 => b"h1",
            Element::Heading2 => b"h2",
            Element::Heading3 => b"h3",
            Element::Heading4 => b"h4",
            Element::Heading5 => b"h5",
            Element::Heading6 => b"h6",
            Element::Image => b"img",
            Element::ListItem => b"li",
            Element::OrderedList => b"ol",
            Element::Paragraph => b"p",
            Element::Preformatted => b"pre",
            Element::Section => b"section",
            Element::Strong => b"strong",
            Element::Superscript => b"sup",
            Element::Table => b"table",
            Element::TableBody => b"tbody",
            Element::TableHead => b"thead",
            Element::TableRow => b"tr",
            Element::ThematicBreak => b"hr",
            Element::UnorderedList => b"ul",
        }
    }

    /// Whether it holds nothing, and has no close tag.
    pub fn is_void(self) -> bool
        ensures { result ≡ is_void self }
    {
        matches!(
            self,
            Element::Break | Element::Checkbox | Element::Image | Element::ThematicBreak
        )
    }
}

/// An attribute, without its value.
#[derive(Clone, Copy, Debug, PartialEq, Eq)]
pub enum AttributeName {
    /// Where the text of a cell stands: `align`.
    Align,
    /// What stands in place of an image: `alt`.
    Alt,
    /// That a box is checked: `checked`.
    Checked,
    /// The language of code: `class`.
    Class,
    /// That nobody can change a box: `disabled`.
    Disabled,
    /// That a link leads back from a footnote to its call: `data-footnote-backref`.
    FootnoteBack,
    /// That a link is the call of a footnote: `data-footnote-ref`.
    FootnoteCall,
    /// What a part of footnotes is: `class`.
    FootnoteClass,
    /// That a section has footnotes: `data-footnotes`.
    Footnotes,
    /// Where a link leads: `href`.
    Href,
    /// What links can lead to: `id`.
    Id,
    /// What an `input` is: `type`.
    InputType,
    /// What is said in place of a link's text: `aria-label`.
    Label,
    /// Where an image is: `src`.
    Src,
    /// The number of the first item: `start`.
    Start,
    /// A title: `title`.
    Title,
}

/// Where the text of a cell of a table stands.
#[derive(Clone, Copy, Debug, PartialEq, Eq)]
pub enum Alignment {
    /// At the left.
    Left,
    /// In the middle.
    Center,
    /// At the right.
    Right,
}

impl Alignment {
    /// The word for it.
    pub fn word(self) -> &'static [u8]
        ensures { result.now ≡ word_of self }
    {
        match self {
            Alignment::Left => b"left",
            Alignment::Center => b"center",
            Alignment::Right => b"right",
        }
    }
}
