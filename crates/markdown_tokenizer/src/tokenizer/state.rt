//! What the states of a machine share, and what that is made of.

ghost use Rattle.std.specs.Prelude.{◌≡◌};
ghost use Rattle.markdown_tokenizer.specs.Configuration.{start_state};

use crate::state::State;
use markdown_base::event::{Content, Event, Name};
use markdown_base::owned::{Items, OwnedText, StaticBytes};
use std::alloc::Global;

/// The kind of a container.
#[derive(Clone, Copy, Debug, PartialEq, Eq)]
pub enum Container {
    /// Block quote.
    BlockQuote,
    /// List item.
    ListItem,
    /// GFM footnote definition.
    GfmFootnoteDefinition,
}

/// An open container.
#[derive(Clone, Copy, Debug)]
pub struct ContainerState {
    /// What it is.
    pub kind: Container,
    /// Whether its first line was blank.
    pub blank_initial: bool,
    /// How many virtual columns its prefix has.
    pub size: usize,
}

/// The kind of a label.
#[derive(Clone, Copy, Debug, PartialEq, Eq)]
pub enum LabelKind {
    /// Image.
    Image,
    /// Link.
    Link,
    /// GFM footnote call.
    GfmFootnote,
    /// GFM footnote call without a definition.
    GfmUndefinedFootnote,
}

/// The start of a label.
#[derive(Clone, Copy, Debug)]
pub struct LabelStart {
    /// What it may start.
    pub kind: LabelKind,
    /// The indices of its enter and its exit among the events.
    pub start: (usize, usize),
    /// Whether it can no longer start one.
    pub inactive: bool,
}

/// A label.
#[derive(Clone, Copy, Debug)]
pub struct Label {
    /// What it is.
    pub kind: LabelKind,
    /// The indices of the enter and the exit of its start.
    pub start: (usize, usize),
    /// The indices of the enter and the exit of its end.
    pub end: (usize, usize),
}

/// What states share. Each state may read and write it; a choice that goes back leaves it as it is.
#[derive(Drop)]
pub struct TokenizeState<D: Drop> {
    /// What the machine keeps about the document.
    pub document: Option<D>,
    /// The state at which the document's content goes on.
    pub document_child_state: Option<State>,
    /// The open containers.
    pub document_container_stack: Items<ContainerState>,
    /// How many containers go on in this line, from the outermost on.
    pub document_continued: usize,
    /// Index into the events of the enter of the last data.
    pub document_data_index: Option<usize>,
    /// Exits of containers, to be put among the events, by line.
    pub document_exits: Items<Option<Items<Event>>>,
    /// Whether a lazy line was allowed before.
    pub document_lazy_accepting_before: bool,
    /// Whether this is the first paragraph of a list item.
    pub document_at_first_paragraph_of_list_item: bool,
    /// What white space around a line ending is read as, once more.
    pub space_or_tab_eol_content: Option<Content>,
    /// Whether that white space is linked to what came before.
    pub space_or_tab_eol_connect: bool,
    /// Whether there was a line ending, or white space.
    pub space_or_tab_eol_ok: bool,
    /// Whether white space is linked to what came before.
    pub space_or_tab_connect: bool,
    /// What white space is read as, once more.
    pub space_or_tab_content: Option<Content>,
    /// White space must have at least this many virtual columns.
    pub space_or_tab_min: usize,
    /// White space may have at most this many virtual columns.
    pub space_or_tab_max: usize,
    /// How many virtual columns of white space there are.
    pub space_or_tab_size: usize,
    /// The name of white space.
    pub space_or_tab_token: Name,
    /// Starts of labels.
    pub label_starts: Items<LabelStart>,
    /// Starts of labels that found no end.
    pub label_starts_loose: Items<LabelStart>,
    /// Labels.
    pub labels: Items<Label>,
    /// Labels of definitions that were found.
    pub definitions: Items<OwnedText>,
    /// Labels of GFM footnote definitions that were found.
    pub gfm_footnote_definitions: Items<OwnedText>,
    /// Whether the next chunk is linked to the one before.
    pub connect: bool,
    /// A marker, as a byte, of the construct that is being read.
    pub marker: u8,
    /// Another marker of the construct.
    pub marker_b: u8,
    /// The markers that the construct may have.
    pub markers: StaticBytes,
    /// Whether the construct that is being read has what it needs.
    pub seen: bool,
    /// First slot for a size; a machine gives it its meaning and unit. The machines of tests count their calls here.
    pub size: usize,
    /// Second slot for a size.
    pub size_b: usize,
    /// Third slot for a size.
    pub size_c: usize,
    /// Where the construct starts: an index into the events or the bytes, as the machine decides.
    pub start: usize,
    /// Where the construct ends: an index into the events or the bytes, as the machine decides.
    pub end: usize,
    /// First slot for an event name; a machine gives it its meaning.
    pub token_1: Name,
    /// Second slot for an event name; a machine gives it its meaning.
    pub token_2: Name,
    /// Third slot for an event name; a machine gives it its meaning.
    pub token_3: Name,
    /// Fourth slot for an event name; a machine gives it its meaning.
    pub token_4: Name,
    /// Fifth slot for an event name; a machine gives it its meaning.
    pub token_5: Name,
    /// Sixth slot for an event name; a machine gives it its meaning.
    pub token_6: Name,
}

impl<D: Drop> TokenizeState<D> {
    /// What states share before any was called. Takes no memory.
    pub fn new(alloc: Global) -> Self
        ensures { result ≡ start_state }
    {
        TokenizeState {
            document: None,
            document_child_state: None,
            document_container_stack: Items::new(alloc),
            document_continued: 0,
            document_data_index: None,
            document_exits: Items::new(alloc),
            document_lazy_accepting_before: false,
            document_at_first_paragraph_of_list_item: false,
            space_or_tab_eol_content: None,
            space_or_tab_eol_connect: false,
            space_or_tab_eol_ok: false,
            space_or_tab_connect: false,
            space_or_tab_content: None,
            space_or_tab_min: 0,
            space_or_tab_max: 0,
            space_or_tab_size: 0,
            space_or_tab_token: Name::SpaceOrTab,
            label_starts: Items::new(alloc),
            label_starts_loose: Items::new(alloc),
            labels: Items::new(alloc),
            definitions: Items::new(alloc),
            gfm_footnote_definitions: Items::new(alloc),
            connect: false,
            marker: 0,
            marker_b: 0,
            markers: StaticBytes::new(b""),
            seen: false,
            size: 0,
            size_b: 0,
            size_c: 0,
            start: 0,
            end: 0,
            token_1: Name::Data,
            token_2: Name::Data,
            token_3: Name::Data,
            token_4: Name::Data,
            token_5: Name::Data,
            token_6: Name::Data,
        }
    }

    /// Becomes what [`TokenizeState::new`] gives, but keeps the memory of its lists. Takes no memory.
    pub fn reset(&mut self)
        ensures { self.new ≡ start_state }
    {
        self.document = None;
        self.document_child_state = None;
        self.document_container_stack.clear();
        self.document_continued = 0;
        self.document_data_index = None;
        self.document_exits.clear();
        self.document_lazy_accepting_before = false;
        self.document_at_first_paragraph_of_list_item = false;
        self.space_or_tab_eol_content = None;
        self.space_or_tab_eol_connect = false;
        self.space_or_tab_eol_ok = false;
        self.space_or_tab_connect = false;
        self.space_or_tab_content = None;
        self.space_or_tab_min = 0;
        self.space_or_tab_max = 0;
        self.space_or_tab_size = 0;
        self.space_or_tab_token = Name::SpaceOrTab;
        self.label_starts.clear();
        self.label_starts_loose.clear();
        self.labels.clear();
        self.definitions.clear();
        self.gfm_footnote_definitions.clear();
        self.connect = false;
        self.marker = 0;
        self.marker_b = 0;
        self.markers = StaticBytes::new(b"");
        self.seen = false;
        self.size = 0;
        self.size_b = 0;
        self.size_c = 0;
        self.start = 0;
        self.end = 0;
        self.token_1 = Name::Data;
        self.token_2 = Name::Data;
        self.token_3 = Name::Data;
        self.token_4 = Name::Data;
        self.token_5 = Name::Data;
        self.token_6 = Name::Data;
    }
}
