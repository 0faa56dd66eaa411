//! Options: which constructs a document may use, how they are read, and how HTML is made of them.

ghost use Rattle.std.specs.Prelude.{◌≡◌, ◌<◌, ◌≤◌, IfOk, None, Some};
ghost use Rattle.markdown_base.specs.Presets.{gfm_constructs, mdx_constructs, gfm_parse_options, mdx_parse_options};
ghost use Rattle.markdown_base.specs.Presets.{gfm_compile_options, gfm_options};

use crate::owned::OwnedText;
use crate::util::constant::TAB_SIZE;
use crate::util::line_ending::LineEnding;
use std::alloc::{AllocError, Global};
use std::fmt;
use std::marker::Model;

/// The distance from one tab stop to the next, in columns: from 1 to 16.
#[derive(Clone, Copy, PartialEq, Eq)]
pub struct TabSize {
    columns: usize,
}

impl Model for TabSize {
    ghost use Rattle.std.specs.Prelude.{ℕ, ◌≤◌};

    ghost Value = { ℕ };

    ghost view = { λ t. t.columns };

    ghost invariant = { λ t. (1 ≤ t.columns) × (t.columns ≤ 16) };

    ghost inverse = { λ n. record { columns = n } };
}

impl TabSize {
    /// Tab stops at every `n` columns. Returns `None` if `n` is 0 or above 16.
    pub fn new(n: usize) -> Option<TabSize>
        ensures taken { 1 ≤ n → n ≤ 16 → result ≡ Some n }
        ensures zero { n ≡ 0 → result ≡ None }
        ensures above { 16 < n → result ≡ None }
    {
        if 1 <= n && n <= 16 {
            Some(TabSize { columns: n })
        } else {
            None
        }
    }

    /// The number of columns.
    #[inline(always)]
    pub const fn get(self) -> usize
        ensures columns { result ≡ self }
        ensures least { 1 ≤ result }
        ensures most { result ≤ 16 }
    {
        self.columns
    }
}

impl Default for TabSize {
    ghost use Rattle.std.specs.Prelude.{◌≡◌};

    ghost is_default = { λ t. t ≡ 4 };

    /// The tab stops of CommonMark: at every 4 columns.
    fn default() -> Self {
        TabSize { columns: TAB_SIZE }
    }
}

impl fmt::Debug for TabSize {
    ghost use Rattle.std.specs.Prelude.{Some};
    ghost use Rattle.std.specs.Fmt.{decimal};

    ghost debug_output = { λ t. Some (decimal t) };

    /// Writes the number of columns.
    fn fmt<W: fmt::Write>(&self, f: &mut fmt::Formatter<W>) -> fmt::Result {
        write!(f, "{}", self.get())
    }
}

/// Which constructs are on.
#[derive(Clone, Copy, Debug, PartialEq, Eq)]
pub struct Constructs {
    /// Emphasis and strong emphasis.
    pub attention: bool,
    /// Autolinks, `<https://example.com>`.
    pub autolink: bool,
    /// Block quotes, `> a`.
    pub block_quote: bool,
    /// Character escapes, `\*`.
    pub character_escape: bool,
    /// Character references, `&amp;`.
    pub character_reference: bool,
    /// Indented code.
    pub code_indented: bool,
    /// Fenced code.
    pub code_fenced: bool,
    /// Code spans.
    pub code_text: bool,
    /// Link reference definitions.
    pub definition: bool,
    /// Frontmatter at the start of a document; no part of CommonMark.
    pub frontmatter: bool,
    /// GFM: links with no markers, `https://example.com`.
    pub gfm_autolink_literal: bool,
    /// GFM: footnote definitions, `[^a]: b`.
    pub gfm_footnote_definition: bool,
    /// GFM: calls of footnotes, `[^a]`.
    pub gfm_label_start_footnote: bool,
    /// GFM: strikethrough, `~~a~~`.
    pub gfm_strikethrough: bool,
    /// GFM: tables.
    pub gfm_table: bool,
    /// GFM: checks of list items, `[x]`.
    pub gfm_task_list_item: bool,
    /// Hard breaks by a backslash.
    pub hard_break_escape: bool,
    /// Hard breaks by trailing spaces.
    pub hard_break_trailing: bool,
    /// Headings that begin with `#`.
    pub heading_atx: bool,
    /// Headings that are underlined.
    pub heading_setext: bool,
    /// Blocks of HTML.
    pub html_flow: bool,
    /// HTML within text.
    pub html_text: bool,
    /// Starts of image labels, `![`.
    pub label_start_image: bool,
    /// Starts of link labels, `[`.
    pub label_start_link: bool,
    /// Ends of labels, with what follows them.
    pub label_end: bool,
    /// List items.
    pub list_item: bool,
    /// Blocks of math; no part of CommonMark.
    pub math_flow: bool,
    /// Math within text; no part of CommonMark.
    pub math_text: bool,
    /// MDX: imports and exports.
    pub mdx_esm: bool,
    /// MDX: expressions as blocks.
    pub mdx_expression_flow: bool,
    /// MDX: expressions within text.
    pub mdx_expression_text: bool,
    /// MDX: JSX as blocks.
    pub mdx_jsx_flow: bool,
    /// MDX: JSX within text.
    pub mdx_jsx_text: bool,
    /// Thematic breaks, `***`.
    pub thematic_break: bool,
}

impl Default for Constructs {
    ghost use Rattle.std.specs.Prelude.{◌≡◌};
    ghost use Rattle.markdown_base.specs.Presets.{default_constructs};

    ghost is_default = { λ x. x ≡ default_constructs };

    /// The constructs of CommonMark.
    fn default() -> Self {
        Constructs {
            attention: true,
            autolink: true,
            block_quote: true,
            character_escape: true,
            character_reference: true,
            code_indented: true,
            code_fenced: true,
            code_text: true,
            definition: true,
            frontmatter: false,
            gfm_autolink_literal: false,
            gfm_footnote_definition: false,
            gfm_label_start_footnote: false,
            gfm_strikethrough: false,
            gfm_table: false,
            gfm_task_list_item: false,
            hard_break_escape: true,
            hard_break_trailing: true,
            heading_atx: true,
            heading_setext: true,
            html_flow: true,
            html_text: true,
            label_start_image: true,
            label_start_link: true,
            label_end: true,
            list_item: true,
            math_flow: false,
            math_text: false,
            mdx_esm: false,
            mdx_expression_flow: false,
            mdx_expression_text: false,
            mdx_jsx_flow: false,
            mdx_jsx_text: false,
            thematic_break: true,
        }
    }
}

impl Constructs {
    /// The constructs of GitHub flavored Markdown: CommonMark's, and the six that GFM adds.
    pub fn gfm() -> Self
        ensures { result ≡ gfm_constructs }
    {
        Constructs {
            gfm_autolink_literal: true,
            gfm_footnote_definition: true,
            gfm_label_start_footnote: true,
            gfm_strikethrough: true,
            gfm_table: true,
            gfm_task_list_item: true,
            ..Constructs::default()
        }
    }

    /// The constructs of MDX: CommonMark's without autolinks, indented code and HTML, and the five that MDX adds.
    pub fn mdx() -> Self
        ensures { result ≡ mdx_constructs }
    {
        Constructs {
            autolink: false,
            code_indented: false,
            html_flow: false,
            html_text: false,
            mdx_esm: true,
            mdx_expression_flow: true,
            mdx_expression_text: true,
            mdx_jsx_flow: true,
            mdx_jsx_text: true,
            ..Constructs::default()
        }
    }
}

/// How a document is read.
#[derive(Clone, Copy, Debug, PartialEq, Eq)]
pub struct ParseOptions {
    /// Which constructs are on.
    pub constructs: Constructs,
    /// Whether GFM strikethrough takes one tilde.
    pub gfm_strikethrough_single_tilde: bool,
    /// Whether text math takes one dollar.
    pub math_text_single_dollar: bool,
    /// The distance from one tab stop to the next.
    pub tab_size: TabSize,
}

impl Default for ParseOptions {
    ghost use Rattle.std.specs.Prelude.{◌≡◌};
    ghost use Rattle.markdown_base.specs.Presets.{default_parse_options};

    ghost is_default = { λ x. x ≡ default_parse_options };

    /// The options of CommonMark.
    fn default() -> Self {
        ParseOptions {
            constructs: Constructs::default(),
            gfm_strikethrough_single_tilde: true,
            math_text_single_dollar: true,
            tab_size: TabSize::default(),
        }
    }
}

impl ParseOptions {
    /// The options of GitHub flavored Markdown.
    pub fn gfm() -> Self
        ensures { result ≡ gfm_parse_options }
    {
        ParseOptions {
            constructs: Constructs::gfm(),
            ..ParseOptions::default()
        }
    }

    /// The options of MDX.
    pub fn mdx() -> Self
        ensures { result ≡ mdx_parse_options }
    {
        ParseOptions {
            constructs: Constructs::mdx(),
            ..ParseOptions::default()
        }
    }
}

/// How HTML is made of a document.
#[derive(Debug, Drop)]
pub struct CompileOptions {
    /// Whether images may have any address, whatever its protocol.
    pub allow_any_img_src: bool,
    /// Whether HTML in the document is kept as HTML. If it is not, it is shown as text.
    pub allow_dangerous_html: bool,
    /// Whether links and images may have addresses of any protocol.
    pub allow_dangerous_protocol: bool,
    /// The line ending to write if the document gives none.
    pub default_line_ending: LineEnding,
    /// What the link back from a footnote is called; `Back to content` if none is given.
    pub gfm_footnote_back_label: Option<OwnedText>,
    /// What is put before the `id` of a footnote; `user-content-` if none is given.
    pub gfm_footnote_clobber_prefix: Option<OwnedText>,
    /// The attributes of the heading of footnotes; `class="sr-only"` if none are given.
    pub gfm_footnote_label_attributes: Option<OwnedText>,
    /// The name of the element that is the heading of footnotes; `h2` if none is given.
    pub gfm_footnote_label_tag_name: Option<OwnedText>,
    /// The heading of footnotes; `Footnotes` if none is given.
    pub gfm_footnote_label: Option<OwnedText>,
    /// Whether a reader may tick the boxes of task list items.
    pub gfm_task_list_item_checkable: bool,
    /// Whether GFM's filter of tags is applied, if HTML is kept.
    pub gfm_tagfilter: bool,
}

impl Default for CompileOptions {
    ghost use Rattle.std.specs.Prelude.{◌≡◌};
    ghost use Rattle.markdown_base.specs.Presets.{default_compile_options};

    ghost is_default = { λ x. x ≡ default_compile_options };

    /// Safe HTML, with labels in English.
    fn default() -> Self {
        CompileOptions {
            allow_any_img_src: false,
            allow_dangerous_html: false,
            allow_dangerous_protocol: false,
            default_line_ending: LineEnding::default(),
            gfm_footnote_back_label: None,
            gfm_footnote_clobber_prefix: None,
            gfm_footnote_label_attributes: None,
            gfm_footnote_label_tag_name: None,
            gfm_footnote_label: None,
            gfm_task_list_item_checkable: false,
            gfm_tagfilter: false,
        }
    }
}

impl CompileOptions {
    /// The defaults, with GFM's filter of tags.
    pub fn gfm() -> Self
        ensures { result ≡ gfm_compile_options }
    {
        CompileOptions {
            gfm_tagfilter: true,
            ..CompileOptions::default()
        }
    }

    /// The same options, in memory of their own.
    pub fn try_clone(&self, alloc: Global) -> Result<CompileOptions, AllocError>
        ensures { IfOk result (λ copy. copy ≡ self.now) }
    {
        Ok(CompileOptions {
            allow_any_img_src: self.allow_any_img_src,
            allow_dangerous_html: self.allow_dangerous_html,
            allow_dangerous_protocol: self.allow_dangerous_protocol,
            default_line_ending: self.default_line_ending,
            gfm_footnote_back_label: given_text(&self.gfm_footnote_back_label, alloc)?,
            gfm_footnote_clobber_prefix: given_text(&self.gfm_footnote_clobber_prefix, alloc)?,
            gfm_footnote_label_attributes: given_text(&self.gfm_footnote_label_attributes, alloc)?,
            gfm_footnote_label_tag_name: given_text(&self.gfm_footnote_label_tag_name, alloc)?,
            gfm_footnote_label: given_text(&self.gfm_footnote_label, alloc)?,
            gfm_task_list_item_checkable: self.gfm_task_list_item_checkable,
            gfm_tagfilter: self.gfm_tagfilter,
        })
    }
}

/// A text, if it is given, in memory of its own.
fn given_text(text: &Option<OwnedText>, alloc: Global) -> Result<Option<OwnedText>, AllocError>
    ensures { IfOk result (λ copy. copy ≡ text.now) }
{
    match text {
        Some(text) => Ok(Some(text.try_clone(alloc)?)),
        None => Ok(None),
    }
}

/// How a document is read, and how HTML is made of it.
#[derive(Debug, Drop)]
pub struct Options {
    /// How the document is read.
    pub parse: ParseOptions,
    /// How HTML is made of it.
    pub compile: CompileOptions,
}

impl Default for Options {
    ghost use Rattle.std.specs.Prelude.{◌≡◌};
    ghost use Rattle.markdown_base.specs.Presets.{default_options};

    ghost is_default = { λ x. x ≡ default_options };

    /// CommonMark, made into safe HTML.
    fn default() -> Self {
        Options {
            parse: ParseOptions::default(),
            compile: CompileOptions::default(),
        }
    }
}

impl Options {
    /// GitHub flavored Markdown, made into safe HTML.
    pub fn gfm() -> Self
        ensures { result ≡ gfm_options }
    {
        Options {
            parse: ParseOptions::gfm(),
            compile: CompileOptions::gfm(),
        }
    }
}
