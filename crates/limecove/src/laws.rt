//! What holds of the numbers that a caller in C or Rust compares with its own.

ghost use Rattle.std.specs.Prelude.{◌≡◌};
ghost use Rattle.markdown.specs.Presets.{default_constructs};
ghost use Rattle.limecove.specs.Choices.{constructs_of, constructs_of_html, constructs_with_bits};
ghost use Rattle.limecove.specs.Records.{RewrittenAreDocuments};

use crate::choose::{
    ALL_CONSTRUCTS, ALLOW_ALL, ALLOW_ANY_IMG_SRC, ALLOW_DANGEROUS_HTML, ALLOW_DANGEROUS_PROTOCOL,
    ATTENTION, AUTOLINK, BLOCK_QUOTE, CHARACTER_ESCAPE, CHARACTER_REFERENCE, CODE_FENCED,
    CODE_INDENTED, CODE_TEXT, COMMONMARK, DEFINITION, GFM_AUTOLINK_LITERAL,
    GFM_FOOTNOTE_DEFINITION, GFM_LABEL_START_FOOTNOTE, GFM_STRIKETHROUGH,
    GFM_STRIKETHROUGH_DOUBLE_TILDE, GFM_TABLE, GFM_TAGFILTER, GFM_TASK_LIST_ITEM,
    HARD_BREAK_ESCAPE, HARD_BREAK_TRAILING, HEADING_ATX, HEADING_SETEXT, HTML_CONSTRUCTS,
    HTML_FLOW, HTML_OPTIONS_SIZE, HTML_TEXT, LABEL_END, LABEL_START_IMAGE, LABEL_START_LINK,
    LIST_ITEM, OPTIONS_SIZE, TEXT_OPTIONS_SIZE, THEMATIC_BREAK,
};
use crate::code::{
    LINKS_NO_TEXT, NO_SUCH_BYTES, NO_SUCH_CONSTRUCT, NO_SUCH_MACHINE, NO_SUCH_PERMISSION,
    NO_SUCH_RANGES, NO_SUCH_TAB_SIZE, NOT_OPEN, OTHER_SIZE, OUT_OF_MEMORY, READ, TOO_LONG, VERSION,
};

/// The value of each number; the bits of CommonMark's constructs have these on and no other, and all bits have
/// strikethrough on too, in HTML also tables, literals, checks and footnotes.
pub fn numbers_are_stated()
    ensures version { VERSION ≡ 5 }
    ensures read { READ ≡ 0 }
    ensures out_of_memory { OUT_OF_MEMORY ≡ 1 }
    ensures too_long { TOO_LONG ≡ 2 }
    ensures other_size { OTHER_SIZE ≡ 3 }
    ensures no_such_tab_size { NO_SUCH_TAB_SIZE ≡ 4 }
    ensures no_such_construct { NO_SUCH_CONSTRUCT ≡ 5 }
    ensures no_such_machine { NO_SUCH_MACHINE ≡ 6 }
    ensures links_no_text { LINKS_NO_TEXT ≡ 7 }
    ensures no_such_ranges { NO_SUCH_RANGES ≡ 8 }
    ensures no_such_bytes { NO_SUCH_BYTES ≡ 9 }
    ensures not_open { NOT_OPEN ≡ 10 }
    ensures no_such_permission { NO_SUCH_PERMISSION ≡ 11 }
    ensures text_constructs { (CODE_TEXT ≡ 1) × (AUTOLINK ≡ 2) × (CHARACTER_ESCAPE ≡ 4) × (ATTENTION ≡ 8) × (CHARACTER_REFERENCE ≡ 16) × (HARD_BREAK_ESCAPE ≡ 32) × (HARD_BREAK_TRAILING ≡ 64) × (HTML_TEXT ≡ 128) }
    ensures flow_constructs { (CODE_FENCED ≡ 256) × (CODE_INDENTED ≡ 512) × (HEADING_ATX ≡ 1024) × (HEADING_SETEXT ≡ 2048) × (HTML_FLOW ≡ 4096) × (THEMATIC_BREAK ≡ 8192) }
    ensures container_constructs { (BLOCK_QUOTE ≡ 16384) × (LIST_ITEM ≡ 32768) }
    ensures label_constructs { (LABEL_START_LINK ≡ 65536) × (LABEL_START_IMAGE ≡ 131072) × (LABEL_END ≡ 262144) × (DEFINITION ≡ 524288) }
    ensures gfm_constructs { (GFM_STRIKETHROUGH ≡ 1048576) × (GFM_AUTOLINK_LITERAL ≡ 2097152) × (GFM_TASK_LIST_ITEM ≡ 4194304) × (GFM_TABLE ≡ 8388608) }
    ensures footnote_constructs { (GFM_FOOTNOTE_DEFINITION ≡ 16777216) × (GFM_LABEL_START_FOOTNOTE ≡ 33554432) }
    ensures others { (GFM_STRIKETHROUGH_DOUBLE_TILDE ≡ 67108864) × (GFM_TAGFILTER ≡ 8) }
    ensures permissions { (ALLOW_DANGEROUS_HTML ≡ 1) × (ALLOW_DANGEROUS_PROTOCOL ≡ 2) × (ALLOW_ANY_IMG_SRC ≡ 4) × (ALLOW_ALL ≡ 7) }
    ensures sums { (COMMONMARK ≡ 1048575) × (ALL_CONSTRUCTS ≡ 2097151) × (HTML_CONSTRUCTS ≡ 67108863) }
    ensures commonmark { constructs_of COMMONMARK ≡ default_constructs }
    ensures all_constructs { constructs_of ALL_CONSTRUCTS ≡ constructs_with_bits }
    ensures html_constructs { constructs_of HTML_CONSTRUCTS ≡ constructs_of_html }
    ensures sizes { (TEXT_OPTIONS_SIZE ≡ 24) × (OPTIONS_SIZE ≡ 40) × (HTML_OPTIONS_SIZE ≡ 32) }
{}

/// Tables, literals, checks and footnotes, and that one tilde is left out, are accepted only for whole documents with their texts.
pub fn literals_are_of_documents()
    ensures { RewrittenAreDocuments }
{}
