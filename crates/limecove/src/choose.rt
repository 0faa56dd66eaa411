//! Options as numbers, and what they choose.

ghost use Rattle.std.specs.Prelude.{◌≡◌, ◌<◌, ◌≤◌, ◌⊎◌, IfErr, IfOk};
ghost use Rattle.mdconstructs.specs.Choices.{CanCut};
ghost use Rattle.limecove.specs.Choices.{choice_of, constructs_of, document_choice_of, has_rewritten, have_constructs, html_choice_of, machine_of, parse_options_of, tab_by, tab_of, text_choice_of};

use crate::code::{
    LINKS_NO_TEXT, NO_SUCH_CONSTRUCT, NO_SUCH_MACHINE, NO_SUCH_PERMISSION, NO_SUCH_TAB_SIZE,
    OTHER_SIZE, TOO_LONG,
};
use markdown::configuration::{Constructs, ParseOptions, TabSize};
use mdconstructs::choice::{Choice, Which, links_text};
use mdconstructs::options_with;

/// The bit of code spans.
pub const CODE_TEXT: u64 = 1;
/// The bit of autolinks.
pub const AUTOLINK: u64 = 2;
/// The bit of backslash escapes.
pub const CHARACTER_ESCAPE: u64 = 4;
/// The bit of emphasis.
pub const ATTENTION: u64 = 8;
/// The bit of character references.
pub const CHARACTER_REFERENCE: u64 = 16;
/// The bit of hard breaks by a backslash.
pub const HARD_BREAK_ESCAPE: u64 = 32;
/// The bit of hard breaks by spaces.
pub const HARD_BREAK_TRAILING: u64 = 64;
/// The bit of raw HTML in texts.
pub const HTML_TEXT: u64 = 128;
/// The bit of fenced code.
pub const CODE_FENCED: u64 = 256;
/// The bit of indented code.
pub const CODE_INDENTED: u64 = 512;
/// The bit of ATX headings.
pub const HEADING_ATX: u64 = 1024;
/// The bit of setext headings.
pub const HEADING_SETEXT: u64 = 2048;
/// The bit of HTML blocks.
pub const HTML_FLOW: u64 = 4096;
/// The bit of thematic breaks.
pub const THEMATIC_BREAK: u64 = 8192;
/// The bit of block quotes.
pub const BLOCK_QUOTE: u64 = 16384;
/// The bit of list items.
pub const LIST_ITEM: u64 = 32768;
/// The bit of starts of link labels.
pub const LABEL_START_LINK: u64 = 65536;
/// The bit of starts of image labels.
pub const LABEL_START_IMAGE: u64 = 131072;
/// The bit of ends of labels, with what follows them: without it there are no links and no images.
pub const LABEL_END: u64 = 262144;
/// The bit of link reference definitions.
pub const DEFINITION: u64 = 524288;
/// The bits of CommonMark's constructs.
pub const COMMONMARK: u64 = 1048575;
/// The bit of strikethrough, which is GFM's.
pub const GFM_STRIKETHROUGH: u64 = 1048576;
/// The bits of all constructs that events have by each machine.
pub const ALL_CONSTRUCTS: u64 = 2097151;
/// The bit of autolink literals, which are GFM's: in HTML, and in whole documents with their texts.
pub const GFM_AUTOLINK_LITERAL: u64 = 2097152;
/// The bit of checks of task list items, which are GFM's: in HTML, and in whole documents with their texts.
pub const GFM_TASK_LIST_ITEM: u64 = 4194304;
/// The bit of tables, which are GFM's: in HTML, and in whole documents with their texts.
pub const GFM_TABLE: u64 = 8388608;
/// The bit of definitions of footnotes, as GitHub reads them: in HTML, and in whole documents with their texts.
pub const GFM_FOOTNOTE_DEFINITION: u64 = 16777216;
/// The bit of calls of footnotes, as GitHub reads them: in HTML, and in whole documents with their texts.
pub const GFM_LABEL_START_FOOTNOTE: u64 = 33554432;
/// The bits of all constructs that HTML has, and whole documents with their texts.
pub const HTML_CONSTRUCTS: u64 = 67108863;
/// The bit that leaves one tilde out: two alone strike through. In HTML, and in whole documents with their texts.
pub const GFM_STRIKETHROUGH_DOUBLE_TILDE: u64 = 67108864;
/// All bits that constructs of HTML may have.
const HTML_BITS: u64 = 134217727;

/// The bit of HTML in the document, which is kept as HTML. Without it, it is shown as text.
pub const ALLOW_DANGEROUS_HTML: u64 = 1;
/// The bit of addresses of any protocol, of links and images.
pub const ALLOW_DANGEROUS_PROTOCOL: u64 = 2;
/// The bit of addresses of any protocol, of images alone.
pub const ALLOW_ANY_IMG_SRC: u64 = 4;
/// The bits of all that HTML may let through.
pub const ALLOW_ALL: u64 = 7;
/// The bit of GFM's filter of tags, for HTML that is kept. It is no protection.
pub const GFM_TAGFILTER: u64 = 8;
/// All bits that stand beside what HTML may let through.
const ALLOW_BITS: u64 = 15;

/// How many bytes `TextOptions` has.
pub const TEXT_OPTIONS_SIZE: usize = 24;
/// How many bytes `Options` has.
pub const OPTIONS_SIZE: usize = 40;
/// How many bytes `HtmlOptions` has.
pub const HTML_OPTIONS_SIZE: usize = 32;

/// The number of the machine of documents.
const DOCUMENT: u32 = 8;

/// How text is read, or a document that is edited.
#[repr(C)]
#[derive(Clone, Copy, Debug, PartialEq, Eq)]
pub struct TextOptions {
    /// How many bytes these options have for the caller: [`TEXT_OPTIONS_SIZE`].
    pub size: usize,
    /// The distance from one tab stop to the next, from 1 to 16 columns. 0 is 4.
    pub tab_size: usize,
    /// The constructs that are on: the sum of their bits, of [`ALL_CONSTRUCTS`]; of a document that is edited as in [`HtmlOptions`].
    pub constructs: u64,
}

/// How a document is read.
#[repr(C)]
#[derive(Clone, Copy, Debug, PartialEq, Eq)]
pub struct Options {
    /// How many bytes these options have for the caller: [`OPTIONS_SIZE`].
    pub size: usize,
    /// The distance from one tab stop to the next, from 1 to 16 columns. 0 is 4.
    pub tab_size: usize,
    /// The constructs that are on: the sum of their bits, of [`ALL_CONSTRUCTS`]; of [`HTML_CONSTRUCTS`], perhaps with
    /// [`GFM_STRIKETHROUGH_DOUBLE_TILDE`], if the machine is document and `deep` is not 0.
    pub constructs: u64,
    /// After how many virtual bytes the document is cut each time. If it is 0, the document is not cut.
    pub cut: usize,
    /// The machine that reads: 1 for paragraphs, 6 for text, 7 for flow, 8 for document. Those of the other numbers are for tests of the
    /// engine: 0 for lines, 2 for peek, 3 for deep, 4 for back, 5 for save.
    pub machine: u32,
    /// If it is not 0, the chunks of text that the machine links are read too. Only paragraphs, text, flow and document
    /// link any.
    pub deep: u32,
}

/// How a document is read, and what its HTML may let through.
#[repr(C)]
#[derive(Clone, Copy, Debug, PartialEq, Eq)]
pub struct HtmlOptions {
    /// How many bytes these options have for the caller: [`HTML_OPTIONS_SIZE`].
    pub size: usize,
    /// The distance from one tab stop to the next, from 1 to 16 columns. 0 is 4.
    pub tab_size: usize,
    /// The constructs that are on: the sum of their bits, of [`HTML_CONSTRUCTS`], perhaps with [`GFM_STRIKETHROUGH_DOUBLE_TILDE`].
    pub constructs: u64,
    /// What the HTML may let through: the sum of the bits, perhaps with [`GFM_TAGFILTER`]. If no bit of [`ALLOW_ALL`] is there, the HTML is safe.
    pub allow: u64,
}

/// What options choose. If they choose nothing, it returns the code that says why.
pub(crate) fn choose(options: &Options) -> Result<Choice, u32>
    ensures chosen { result ≡ choice_of options.now }
    ensures cut { IfOk result CanCut }
    ensures codes { IfErr result (λ code. (TOO_LONG < code) × (code ≤ LINKS_NO_TEXT)) }
{
    if options.size != OPTIONS_SIZE {
        return Err(OTHER_SIZE);
    }
    let Some(tab) = tab_of(options.tab_size) else {
        return Err(NO_SUCH_TAB_SIZE);
    };
    if !have_constructs(options) {
        return Err(NO_SUCH_CONSTRUCT);
    }
    let Some(machine) = machine_of(options.machine) else {
        return Err(NO_SUCH_MACHINE);
    };
    let deep = options.deep != 0;
    if deep && !links_text(machine) {
        return Err(LINKS_NO_TEXT);
    }
    let cut = if options.cut == 0 {
        None
    } else {
        Some(options.cut)
    };
    Ok(Choice {
        cut,
        deep,
        machine,
        tab,
    })
}

/// Whether the constructs of options are some that there are.
fn have_constructs(options: &Options) -> bool
    ensures { result ≡ have_constructs options.now }
{
    let is_of_document = options.machine == DOCUMENT && options.deep != 0;
    options.constructs <= ALL_CONSTRUCTS || (is_of_document && options.constructs <= HTML_BITS)
}

/// Whether tables, literals, checks or footnotes are on, or one tilde is left out, by a sum of bits.
pub(crate) fn has_rewritten(bits: u64) -> bool
    ensures { result ≡ has_rewritten bits }
{
    bits > ALL_CONSTRUCTS
}

/// The tab size that options of text choose. If they choose nothing, it returns the code that says why.
pub(crate) fn choose_text(options: &TextOptions) -> Result<TabSize, u32>
    ensures chosen { result ≡ text_choice_of options.now }
    ensures codes { IfErr result (λ code. (TOO_LONG < code) × (code ≤ LINKS_NO_TEXT)) }
{
    tab_by(options.constructs <= ALL_CONSTRUCTS, options)
}

/// The tab size that options of an edited document choose. If they choose nothing, it returns the code that says why.
pub(crate) fn choose_document(options: &TextOptions) -> Result<TabSize, u32>
    ensures chosen { result ≡ document_choice_of options.now }
    ensures codes { IfErr result (λ code. (TOO_LONG < code) × (code ≤ LINKS_NO_TEXT)) }
{
    tab_by(options.constructs <= HTML_BITS, options)
}

/// The tab size of options of text, by whether their constructs are some that there are. If they choose nothing, it returns the code that says why.
fn tab_by(are_constructs: bool, options: &TextOptions) -> Result<TabSize, u32>
    ensures chosen { result ≡ tab_by are_constructs options.now }
    ensures codes { IfErr result (λ code. (TOO_LONG < code) × (code ≤ LINKS_NO_TEXT)) }
{
    if options.size != TEXT_OPTIONS_SIZE {
        return Err(OTHER_SIZE);
    }
    let Some(tab) = tab_of(options.tab_size) else {
        return Err(NO_SUCH_TAB_SIZE);
    };
    if !are_constructs {
        return Err(NO_SUCH_CONSTRUCT);
    }
    Ok(tab)
}

/// The tab size that options of HTML choose. If they choose nothing, it returns the code that says why.
pub(crate) fn choose_html(options: &HtmlOptions) -> Result<TabSize, u32>
    ensures chosen { result ≡ html_choice_of options.now }
    ensures codes { IfErr result (λ code. (TOO_LONG < code) × ((code ≤ NO_SUCH_CONSTRUCT) ⊎ (code ≡ NO_SUCH_PERMISSION))) }
{
    if options.size != HTML_OPTIONS_SIZE {
        return Err(OTHER_SIZE);
    }
    let Some(tab) = tab_of(options.tab_size) else {
        return Err(NO_SUCH_TAB_SIZE);
    };
    if options.constructs > HTML_BITS {
        return Err(NO_SUCH_CONSTRUCT);
    }
    if options.allow > ALLOW_BITS {
        return Err(NO_SUCH_PERMISSION);
    }
    Ok(tab)
}

/// The constructs that a sum of bits has on. Those that have no bit are none of CommonMark's, and off.
pub(crate) fn constructs_of(bits: u64) -> Constructs
    ensures { result ≡ constructs_of bits }
{
    Constructs {
        attention: bits & ATTENTION != 0,
        autolink: bits & AUTOLINK != 0,
        block_quote: bits & BLOCK_QUOTE != 0,
        character_escape: bits & CHARACTER_ESCAPE != 0,
        character_reference: bits & CHARACTER_REFERENCE != 0,
        code_fenced: bits & CODE_FENCED != 0,
        code_indented: bits & CODE_INDENTED != 0,
        code_text: bits & CODE_TEXT != 0,
        definition: bits & DEFINITION != 0,
        gfm_autolink_literal: bits & GFM_AUTOLINK_LITERAL != 0,
        gfm_footnote_definition: bits & GFM_FOOTNOTE_DEFINITION != 0,
        gfm_label_start_footnote: bits & GFM_LABEL_START_FOOTNOTE != 0,
        gfm_strikethrough: bits & GFM_STRIKETHROUGH != 0,
        gfm_table: bits & GFM_TABLE != 0,
        gfm_task_list_item: bits & GFM_TASK_LIST_ITEM != 0,
        hard_break_escape: bits & HARD_BREAK_ESCAPE != 0,
        hard_break_trailing: bits & HARD_BREAK_TRAILING != 0,
        heading_atx: bits & HEADING_ATX != 0,
        heading_setext: bits & HEADING_SETEXT != 0,
        html_flow: bits & HTML_FLOW != 0,
        html_text: bits & HTML_TEXT != 0,
        label_end: bits & LABEL_END != 0,
        label_start_image: bits & LABEL_START_IMAGE != 0,
        label_start_link: bits & LABEL_START_LINK != 0,
        list_item: bits & LIST_ITEM != 0,
        thematic_break: bits & THEMATIC_BREAK != 0,
        ..Constructs::default()
    }
}

/// How a document is read by a sum of bits, with this tab size.
pub(crate) fn parse_options_of(bits: u64, tab: TabSize) -> ParseOptions
    ensures { result ≡ parse_options_of bits tab }
{
    ParseOptions {
        gfm_strikethrough_single_tilde: bits < GFM_STRIKETHROUGH_DOUBLE_TILDE,
        ..options_with(constructs_of(bits), tab)
    }
}

/// The tab size of a number.
fn tab_of(number: usize) -> Option<TabSize>
    ensures { result ≡ tab_of number }
{
    if number == 0 {
        TabSize::new(4)
    } else {
        TabSize::new(number)
    }
}

/// The machine of a number.
fn machine_of(number: u32) -> Option<Which>
    ensures { result ≡ machine_of number }
{
    match number {
        0 => Some(Which::Lines),
        1 => Some(Which::Paragraphs),
        2 => Some(Which::Peek),
        3 => Some(Which::Deep),
        4 => Some(Which::Back),
        5 => Some(Which::Save),
        6 => Some(Which::Text),
        7 => Some(Which::Flow),
        8 => Some(Which::Document),
        _ => None,
    }
}
