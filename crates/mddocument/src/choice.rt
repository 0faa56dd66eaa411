//! How a document is read: which machine reads, and how.

ghost use Rattle.std.specs.Prelude.{◌≡◌};
ghost use Rattle.mddocument.specs.Choices.{links_text};

use markdown_base::configuration::TabSize;

/// A machine that reads documents, by its name on the command line of the program.
#[derive(Clone, Copy, Debug, PartialEq, Eq)]
pub enum Which {
    /// `lines`: each line is a paragraph of data.
    Lines,
    /// `paragraphs`: adjacent lines are a paragraph. Each line is a chunk of text, linked to the chunk before.
    Paragraphs,
    /// `peek`: looks at the whole text first, and then reads each line as data.
    Peek,
    /// `deep`: tries something at each byte, which fails, and then reads each line as data.
    Deep,
    /// `back`: reads the first line as data, looks over the next line, goes back, and reads the rest as one more data.
    Back,
    /// `save`: passes the first line, tries something after it, which fails, and reads each line of the rest as data.
    Save,
    /// `text`: as `paragraphs`, but in the text of its chunks are code spans, autolinks and escapes.
    Text,
    /// `flow`: the leaf blocks of CommonMark. In paragraphs and headings is inline text, with links, images and emphasis; in info
    /// strings of fenced code are escapes and character references.
    Flow,
    /// `document`: block quotes and lists, and the leaf blocks and link reference definitions in them. Inline text is as in `flow`, with
    /// links and images by these definitions too.
    Document,
}

/// How a document is read.
#[derive(Clone, Copy, Debug, PartialEq, Eq)]
pub struct Choice {
    /// The document is cut after each this many virtual bytes, at least 1. `None`: it is not cut.
    pub cut: Option<usize>,
    /// Whether the chunks of text that the machine links are read too, and replaced by their events. Only the machines
    /// `paragraphs`, `text`, `flow` and `document` link any.
    pub deep: bool,
    /// The machine that reads.
    pub machine: Which,
    /// The distance from one tab stop to the next, in columns.
    pub tab: TabSize,
}

/// Whether a machine links chunks of text.
pub fn links_text(machine: Which) -> bool
    ensures { result ≡ links_text machine }
{
    match machine {
        Which::Paragraphs | Which::Text | Which::Flow | Which::Document => true,
        Which::Lines | Which::Peek | Which::Deep | Which::Back | Which::Save => false,
    }
}
