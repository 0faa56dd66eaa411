//! How the program reads a document: by a machine, and how.

ghost use Rattle.std.specs.Prelude.{◌≡◌, IfOk};
ghost use Rattle.markdown.specs.Virtual.{IsWithinLimit};
ghost use Rattle.mdevents_program.specs.Choices.{AreEventsBy, AreGfmEvents, CanCut, library_machine, links_text};

use markdown::configuration::{Constructs, TabSize};
use markdown::event::Event;
use mddocument::choice as library;
use mddocument::documents::{events_of, options_with};
use mdgfm_documents::documents::read_gfm_document;
use std::alloc::{AllocError, Global};

/// A machine that reads documents, by its name on the command line.
#[derive(Clone, Copy, Debug, PartialEq, Eq)]
pub enum Which {
    /// `lines`: each line is a paragraph of data.
    Lines,
    /// `paragraphs`: adjacent lines are a paragraph. Each line is a chunk of text, linked to the chunk before.
    Paragraphs,
    /// `peek`: looks at the whole text first, and then reads each line as data.
    Peek,
    /// `deep`: tries something at each byte, which fails, and then reads each line as data.
    Deep,
    /// `back`: reads the first line as data, looks over the next line, goes back, and reads the rest as one more data.
    Back,
    /// `save`: passes the first line, tries something after it, which fails, and reads each line of the rest as data.
    Save,
    /// `text`: as `paragraphs`, but in the text of its chunks are code spans, autolinks and escapes.
    Text,
    /// `flow`: the leaf blocks of CommonMark, and their inline text.
    Flow,
    /// `document`: block quotes and lists, the leaf blocks and link reference definitions in them, and their inline text.
    Document,
    /// `gfm`: as `document`, with the constructs of GFM: tables and footnote definitions, and with inline text also checks of tasks, strikethrough,
    /// calls of footnotes and autolink literals.
    Gfm,
}

/// How a document is read.
#[derive(Clone, Copy, Debug, PartialEq, Eq)]
pub struct Choice {
    /// The document is cut after each this many virtual bytes, at least 1. `None`: it is not cut.
    pub cut: Option<usize>,
    /// Whether the chunks of text that the machine links are read too, and replaced by their events. Only the machines
    /// `paragraphs`, `text`, `flow`, `document` and `gfm` link any.
    pub deep: bool,
    /// The machine that reads.
    pub machine: Which,
    /// The distance from one tab stop to the next, in columns.
    pub tab: TabSize,
}

/// The machine of the library that a name means. `None`: for `gfm` there is none of its own.
fn library_machine(machine: Which) -> Option<library::Which>
    ensures { result ≡ library_machine machine }
{
    match machine {
        Which::Lines => Some(library::Which::Lines),
        Which::Paragraphs => Some(library::Which::Paragraphs),
        Which::Peek => Some(library::Which::Peek),
        Which::Deep => Some(library::Which::Deep),
        Which::Back => Some(library::Which::Back),
        Which::Save => Some(library::Which::Save),
        Which::Text => Some(library::Which::Text),
        Which::Flow => Some(library::Which::Flow),
        Which::Document => Some(library::Which::Document),
        Which::Gfm => None,
    }
}

/// Whether a machine links chunks of text.
pub fn links_text(machine: Which) -> bool
    ensures { result ≡ links_text machine }
{
    match library_machine(machine) {
        Some(machine) => library::links_text(machine),
        None => true,
    }
}

/// The events of a document, read as a choice says. The cuts leave no trace in them.
///
/// A cut in the choice must be at least 1. It fails only if it runs out of memory.
pub fn events_by(alloc: Global, bytes: &[u8], choice: &Choice) -> Result<Vec<Event>, AllocError>
    requires limit { IsWithinLimit choice.now.tab bytes.now }
    requires cut { CanCut choice.now }
    ensures { IfOk result (λ events. AreEventsBy choice.now bytes.now events.items) }
{
    match library_machine(choice.machine) {
        Some(machine) => {
            let choice = library::Choice {
                cut: choice.cut,
                deep: choice.deep,
                machine,
                tab: choice.tab,
            };
            events_of(alloc, bytes, Constructs::default(), &choice)
        }
        None => gfm_events_by(alloc, bytes, choice.deep, choice.tab),
    }
}

/// The events of a document with the constructs of GFM: if `deep` is false, its blocks alone.
fn gfm_events_by(
    alloc: Global,
    bytes: &[u8],
    deep: bool,
    tab: TabSize,
) -> Result<Vec<Event>, AllocError>
    requires { IsWithinLimit tab bytes.now }
    ensures { IfOk result (λ events. AreGfmEvents deep tab bytes.now events.items) }
{
    if deep {
        return read_gfm_document(alloc, bytes, &options_with(Constructs::gfm(), tab));
    }
    let blocks = library::Choice {
        cut: None,
        deep: false,
        machine: library::Which::Document,
        tab,
    };
    events_of(alloc, bytes, Constructs::gfm(), &blocks)
}
