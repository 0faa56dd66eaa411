//! What states of leaf blocks note and count, and what they test.
//!
//! The kind of a line is an event's name in `token_1`, the marker is `marker`. `size_b` counts markers, or the text of a heading;
//! `size_c` the white space before a line; `space_or_tab_size` what is being read.

ghost use Rattle.std.specs.Prelude.{◌≡◌};
ghost use Rattle.markdown_tokenizer.specs.Calls.{with_local};
ghost use Rattle.markdown_tokenizer.specs.Configuration.{at_configuration};
ghost use Rattle.markdown_tokenizer.specs.Sight.{sight_of};
ghost use Rattle.mdblock_leaf_rows.specs.FlowWrites.{kind_becomes, mark_becomes, size_becomes, size_grows, indent_becomes, indent_grows, count_becomes, count_grows, text_grows, signs_end, signs_were_text, kind_is, is_indented, headings_are_on, underlines_are_on, breaks_are_on, is_break, fences_are_on, has_room, has_three, at_mark, is_tilde_fence, has_text, is_in_text, counts_to_four, may_be_indented, is_as_long, is_stripped, counts_to_indent};

use markdown_tokenizer::event::{self, Content, Link};
use markdown_tokenizer::state::MachineTypes;
use markdown_tokenizer::tokenizer::Tokenizer;

/// The link of a chunk of text before its neighbours in the chain are known.
pub(crate) const TEXT: Link = Link {
    previous: None,
    next: None,
    content: Content::Text,
};

/// The link of a chunk of a string.
pub(crate) const STRING: Link = Link {
    previous: None,
    next: None,
    content: Content::String,
};

/// Notes what kind of line it is.
pub(crate) fn set_kind<'a, M: MachineTypes>(t: &mut Tokenizer<'a, M>, name: event::Name)
    ensures { t.new ≡ at_configuration t.old (with_local t.old.configuration (kind_becomes name t.old.configuration)) }
{
    t.tokenize_state.token_1 = name;
}

/// Notes the marker of a thematic break or a fence.
pub(crate) fn set_marker<'a, M: MachineTypes>(t: &mut Tokenizer<'a, M>, marker: u8)
    ensures { t.new ≡ at_configuration t.old (with_local t.old.configuration (mark_becomes marker t.old.configuration)) }
{
    t.tokenize_state.marker = marker;
}

/// Sets the number of markers, or the size of the text of a heading.
pub(crate) fn set_size<'a, M: MachineTypes>(t: &mut Tokenizer<'a, M>, size: usize)
    ensures { t.new ≡ at_configuration t.old (with_local t.old.configuration (size_becomes size t.old.configuration)) }
{
    t.tokenize_state.size_b = size;
}

/// Counts one marker more.
pub(crate) fn add_to_size<'a, M: MachineTypes>(t: &mut Tokenizer<'a, M>)
    ensures { t.new ≡ at_configuration t.old (with_local t.old.configuration (size_grows t.old.configuration)) }
{
    t.tokenize_state.size_b = t.tokenize_state.size_b.saturating_add(1);
}

/// Sets the width of the white space before a line.
pub(crate) fn set_indent<'a, M: MachineTypes>(t: &mut Tokenizer<'a, M>, size: usize)
    ensures { t.new ≡ at_configuration t.old (with_local t.old.configuration (indent_becomes size t.old.configuration)) }
{
    t.tokenize_state.size_c = size;
}

/// Counts one column more of the white space before a line.
pub(crate) fn add_to_indent<'a, M: MachineTypes>(t: &mut Tokenizer<'a, M>)
    ensures { t.new ≡ at_configuration t.old (with_local t.old.configuration (indent_grows t.old.configuration)) }
{
    t.tokenize_state.size_c = t.tokenize_state.size_c.saturating_add(1);
}

/// Sets the count of what is being read.
pub(crate) fn set_count<'a, M: MachineTypes>(t: &mut Tokenizer<'a, M>, size: usize)
    ensures { t.new ≡ at_configuration t.old (with_local t.old.configuration (count_becomes size t.old.configuration)) }
{
    t.tokenize_state.space_or_tab_size = size;
}

/// Counts one more.
pub(crate) fn add_to_count<'a, M: MachineTypes>(t: &mut Tokenizer<'a, M>)
    ensures { t.new ≡ at_configuration t.old (with_local t.old.configuration (count_grows t.old.configuration)) }
{
    t.tokenize_state.space_or_tab_size = t.tokenize_state.space_or_tab_size.saturating_add(1);
}

/// Counts one byte more, with which the text of a heading ends so far.
pub(crate) fn count_text<'a, M: MachineTypes>(t: &mut Tokenizer<'a, M>)
    ensures { t.new ≡ at_configuration t.old (with_local t.old.configuration (text_grows t.old.configuration)) }
{
    add_to_count(t);
    t.tokenize_state.size_b = t.tokenize_state.space_or_tab_size;
}

/// Notes where number signs end that may close a heading, and counts the white space behind them.
pub(crate) fn end_signs<'a, M: MachineTypes>(t: &mut Tokenizer<'a, M>)
    ensures { t.new ≡ at_configuration t.old (with_local t.old.configuration (signs_end t.old.configuration)) }
{
    t.tokenize_state.size_c = t.tokenize_state.space_or_tab_size;
    add_to_count(t);
}

/// Number signs that were thought to close a heading are its text, as others come behind them.
pub(crate) fn take_signs_as_text<'a, M: MachineTypes>(t: &mut Tokenizer<'a, M>)
    ensures { t.new ≡ at_configuration t.old (with_local t.old.configuration (signs_were_text t.old.configuration)) }
{
    t.tokenize_state.size_b = t.tokenize_state.size_c;
    add_to_count(t);
}

/// Whether the line is of this kind.
pub(crate) fn kind_is<'a, M: MachineTypes>(t: &Tokenizer<'a, M>, name: event::Name) -> bool
    ensures { result ≡ kind_is name t.now.given (sight_of t.now) t.now.configuration }
{
    t.tokenize_state.token_1 == name
}

/// Whether the line is indented code if it is no paragraph.
pub(crate) fn is_indented<'a, M: MachineTypes>(t: &Tokenizer<'a, M>) -> bool
    ensures { result ≡ is_indented t.now.given (sight_of t.now) t.now.configuration }
{
    t.parse_state().options.constructs.code_indented && t.tokenize_state.size_c >= 4
}

/// Whether ATX headings are on.
pub(crate) fn headings_are_on<'a, M: MachineTypes>(t: &Tokenizer<'a, M>) -> bool
    ensures { result ≡ headings_are_on t.now.given (sight_of t.now) t.now.configuration }
{
    t.parse_state().options.constructs.heading_atx
}

/// Whether setext headings are on.
pub(crate) fn underlines_are_on<'a, M: MachineTypes>(t: &Tokenizer<'a, M>) -> bool
    ensures { result ≡ underlines_are_on t.now.given (sight_of t.now) t.now.configuration }
{
    t.parse_state().options.constructs.heading_setext
}

/// Whether thematic breaks are on.
pub(crate) fn breaks_are_on<'a, M: MachineTypes>(t: &Tokenizer<'a, M>) -> bool
    ensures { result ≡ breaks_are_on t.now.given (sight_of t.now) t.now.configuration }
{
    t.parse_state().options.constructs.thematic_break
}

/// Whether fenced code is on.
pub(crate) fn fences_are_on<'a, M: MachineTypes>(t: &Tokenizer<'a, M>) -> bool
    ensures { result ≡ fences_are_on t.now.given (sight_of t.now) t.now.configuration }
{
    t.parse_state().options.constructs.code_fenced
}

/// Whether there are fewer than six number signs.
pub(crate) fn has_room<'a, M: MachineTypes>(t: &Tokenizer<'a, M>) -> bool
    ensures { result ≡ has_room t.now.given (sight_of t.now) t.now.configuration }
{
    t.tokenize_state.size_b < 6
}

/// Whether the line is a thematic break, also if it could be an underline.
pub(crate) fn is_break<'a, M: MachineTypes>(t: &Tokenizer<'a, M>) -> bool
    ensures { result ≡ is_break t.now.given (sight_of t.now) t.now.configuration }
{
    kind_is(t, event::Name::ThematicBreak)
        || (breaks_are_on(t)
            && (kind_is(t, event::Name::HeadingSetextUnderline)
                && (t.tokenize_state.marker == b'-' && has_three(t))))
}

/// Whether there are three markers.
pub(crate) fn has_three<'a, M: MachineTypes>(t: &Tokenizer<'a, M>) -> bool
    ensures { result ≡ has_three t.now.given (sight_of t.now) t.now.configuration }
{
    t.tokenize_state.size_b >= 3
}

/// Whether the marker waits.
pub(crate) fn at_mark<'a, M: MachineTypes>(t: &Tokenizer<'a, M>) -> bool
    ensures { result ≡ at_mark t.now.given (sight_of t.now) t.now.configuration }
{
    t.current() == Some(t.tokenize_state.marker)
}

/// Whether the marker is a tilde.
pub(crate) fn is_tilde_fence<'a, M: MachineTypes>(t: &Tokenizer<'a, M>) -> bool
    ensures { result ≡ is_tilde_fence t.now.given (sight_of t.now) t.now.configuration }
{
    t.tokenize_state.marker == b'~'
}

/// Whether the heading has a text that was not read.
pub(crate) fn has_text<'a, M: MachineTypes>(t: &Tokenizer<'a, M>) -> bool
    ensures { result ≡ has_text t.now.given (sight_of t.now) t.now.configuration }
{
    t.tokenize_state.size_b > 0
}

/// Whether the text of the heading goes on.
pub(crate) fn is_in_text<'a, M: MachineTypes>(t: &Tokenizer<'a, M>) -> bool
    ensures { result ≡ is_in_text t.now.given (sight_of t.now) t.now.configuration }
{
    t.tokenize_state.space_or_tab_size < t.tokenize_state.size_b
}

/// Whether there are fewer than four columns of white space.
pub(crate) fn counts_to_four<'a, M: MachineTypes>(t: &Tokenizer<'a, M>) -> bool
    ensures { result ≡ counts_to_four t.now.given (sight_of t.now) t.now.configuration }
{
    t.tokenize_state.space_or_tab_size < 4
}

/// Whether a closing fence may have one column more of white space before it.
pub(crate) fn may_be_indented<'a, M: MachineTypes>(t: &Tokenizer<'a, M>) -> bool
    ensures { result ≡ may_be_indented t.now.given (sight_of t.now) t.now.configuration }
{
    !t.parse_state().options.constructs.code_indented || t.tokenize_state.space_or_tab_size < 3
}

/// Whether a closing fence is as long as the opening one.
pub(crate) fn is_as_long<'a, M: MachineTypes>(t: &Tokenizer<'a, M>) -> bool
    ensures { result ≡ is_as_long t.now.given (sight_of t.now) t.now.configuration }
{
    t.tokenize_state.space_or_tab_size >= t.tokenize_state.size_b
}

/// Whether white space is stripped from lines of code.
pub(crate) fn is_stripped<'a, M: MachineTypes>(t: &Tokenizer<'a, M>) -> bool
    ensures { result ≡ is_stripped t.now.given (sight_of t.now) t.now.configuration }
{
    t.tokenize_state.size_c > 0
}

/// Whether more white space is stripped.
pub(crate) fn counts_to_indent<'a, M: MachineTypes>(t: &Tokenizer<'a, M>) -> bool
    ensures { result ≡ counts_to_indent t.now.given (sight_of t.now) t.now.configuration }
{
    t.tokenize_state.space_or_tab_size < t.tokenize_state.size_c
}
