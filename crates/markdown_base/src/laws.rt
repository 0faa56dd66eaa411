//! Laws about the constants, the names and the definitions of this crate.
//!
//! Each is a function that does nothing, whose contract is the law.

ghost use Rattle.std.specs.Prelude.{◌≡◌, ◌≢◌, ◌<◌, ◌≤◌, ◌+◌, ◌-◌, ◌%◌, ◌↔◌, ℕ, AllPairs, codes, map, true};
ghost use Rattle.std.specs.List.{range_with_len};
ghost use Rattle.markdown_base.specs.Classes.{IsClassOfOpt, IsFunction};
ghost use Rattle.markdown_base.specs.StateNames.{state_names};
ghost use Rattle.markdown_base.specs.Texts.{tagfilter_names, html_block_names, html_raw_names};
ghost use Rattle.markdown_base.specs.Texts.{safe_protocols_of_links, safe_protocols_of_images};
ghost use Rattle.markdown_base.specs.Virtual.{point, tab_width};
ghost use Rattle.markdown_base.specs.declared.event.TheConstants.Point.{START};
ghost use Rattle.markdown_base.specs.VoidNames.{void_names};

use crate::configuration::TabSize;
use crate::event::VOID_EVENTS;
use crate::message::{Message, Place};
use crate::util::constant::{
    AUTOLINK_DOMAIN_SIZE_MAX, AUTOLINK_SCHEME_SIZE_MAX, CHARACTER_REFERENCE_DECIMAL_SIZE_MAX,
    CHARACTER_REFERENCE_HEXADECIMAL_SIZE_MAX, CHARACTER_REFERENCE_NAMED_SIZE_MAX,
    CODE_FENCED_SEQUENCE_SIZE_MIN, FRONTMATTER_SEQUENCE_SIZE, GFM_HTML_TAGFILTER_NAMES,
    GFM_HTML_TAGFILTER_SIZE_MAX, HARD_BREAK_PREFIX_SIZE_MIN, HEADING_ATX_OPENING_FENCE_SIZE_MAX,
    HTML_BLOCK_NAMES, HTML_CDATA_PREFIX, HTML_RAW_NAMES, HTML_RAW_SIZE_MAX,
    LINK_REFERENCE_SIZE_MAX, LIST_ITEM_VALUE_SIZE_MAX, MATH_FLOW_SEQUENCE_SIZE_MIN,
    RESOURCE_DESTINATION_BALANCE_MAX, SAFE_PROTOCOL_HREF, SAFE_PROTOCOL_SRC, TAB_SIZE,
    THEMATIC_BREAK_MARKER_COUNT_MIN,
};
use crate::util::line_ending::LineEnding;
use crate::{event, state, unist};

/// [`VOID_EVENTS`] is the list of the void names, in its order.
pub fn void_events_are_stated()
    ensures { VOID_EVENTS ≡ void_names }
{}

/// A tab reaches the next tab stop, and is from one to `t` columns wide.
///
/// There is a tab stop at every `t` columns, from the first column on.
pub fn tabs_reach_stops()
    ensures stop { (t column : ℕ) → 0 < t → 1 ≤ column → (column + tab_width t column - 1) % t ≡ 0 }
    ensures some { (t column : ℕ) → 0 < t → 1 ≤ column → 1 ≤ tab_width t column }
    ensures most { (t column : ℕ) → 0 < t → 1 ≤ column → tab_width t column ≤ t }
{}

/// If a predicate of punctuation is a function, each character has one class. So has the end of a text.
///
/// So [`kind_after_index`](crate::util::char::kind_after_index) then returns the class that
/// [`classify_opt`](crate::util::char::classify_opt) returns for the character at the index. Both return a class by
/// `IsClassOfOpt`.
pub fn characters_have_one_class<P: Fn(char) -> bool>(punctuation: &P)
    ensures { let answers = P.post punctuation.now in
        IsFunction answers → (c : _) (one other : _) → IsClassOfOpt answers c one → IsClassOfOpt answers c other → one ≡ other }
{}

/// [`event::Point::START`] is the place of a document's first byte: line 1, column 1, byte index 0.
pub fn start_is_stated()
    ensures { START ≡ point 1 1 0 0 }
{}

/// The names of states are numbered from 0 on, by construct: no two are equal.
pub fn names_differ()
    ensures numbers { map (λ name. name.number) state_names ≡ range_with_len 0 317 }
    ensures differ { AllPairs (λ one other. one ≢ other) state_names }
{}

/// The value of each number.
pub fn numbers_are_stated()
    ensures autolink_scheme_size_max { AUTOLINK_SCHEME_SIZE_MAX ≡ 32 }
    ensures autolink_domain_size_max { AUTOLINK_DOMAIN_SIZE_MAX ≡ 63 }
    ensures character_reference_decimal_size_max { CHARACTER_REFERENCE_DECIMAL_SIZE_MAX ≡ 7 }
    ensures character_reference_hexadecimal_size_max { CHARACTER_REFERENCE_HEXADECIMAL_SIZE_MAX ≡ 6 }
    ensures character_reference_named_size_max { CHARACTER_REFERENCE_NAMED_SIZE_MAX ≡ 31 }
    ensures code_fenced_sequence_size_min { CODE_FENCED_SEQUENCE_SIZE_MIN ≡ 3 }
    ensures frontmatter_sequence_size { FRONTMATTER_SEQUENCE_SIZE ≡ 3 }
    ensures gfm_html_tagfilter_size_max { GFM_HTML_TAGFILTER_SIZE_MAX ≡ 9 }
    ensures hard_break_prefix_size_min { HARD_BREAK_PREFIX_SIZE_MIN ≡ 2 }
    ensures heading_atx_opening_fence_size_max { HEADING_ATX_OPENING_FENCE_SIZE_MAX ≡ 6 }
    ensures html_raw_size_max { HTML_RAW_SIZE_MAX ≡ 8 }
    ensures link_reference_size_max { LINK_REFERENCE_SIZE_MAX ≡ 999 }
    ensures list_item_value_size_max { LIST_ITEM_VALUE_SIZE_MAX ≡ 10 }
    ensures math_flow_sequence_size_min { MATH_FLOW_SEQUENCE_SIZE_MIN ≡ 2 }
    ensures resource_destination_balance_max { RESOURCE_DESTINATION_BALANCE_MAX ≡ 32 }
    ensures tab_size { TAB_SIZE ≡ 4 }
    ensures thematic_break_marker_count_min { THEMATIC_BREAK_MARKER_COUNT_MIN ≡ 3 }
{}

/// The texts of each list, in order.
pub fn lists_are_stated()
    ensures gfm_html_tagfilter_names { map (λ name. name.now) GFM_HTML_TAGFILTER_NAMES ≡ tagfilter_names }
    ensures html_block_names { map (λ name. name.now) HTML_BLOCK_NAMES ≡ html_block_names }
    ensures html_cdata_prefix { HTML_CDATA_PREFIX ≡ codes "CDATA[" }
    ensures html_raw_names { map (λ name. name.now) HTML_RAW_NAMES ≡ html_raw_names }
    ensures safe_protocol_href { map (λ name. name.now) SAFE_PROTOCOL_HREF ≡ safe_protocols_of_links }
    ensures safe_protocol_src { map (λ name. name.now) SAFE_PROTOCOL_SRC ≡ safe_protocols_of_images }
{}

/// For names of events and of states, contents and kinds of events, and line endings, `==` is equality.
pub fn equal_names_are_one()
    ensures event_names { (a : _) (b : _) → (⟦<event::Name as PartialEq>⟧.eq a b ≡ true) ↔ (a ≡ b) }
    ensures state_names { (a : _) (b : _) → (⟦<state::Name as PartialEq>⟧.eq a b ≡ true) ↔ (a ≡ b) }
    ensures contents { (a : _) (b : _) → (⟦<event::Content as PartialEq>⟧.eq a b ≡ true) ↔ (a ≡ b) }
    ensures kinds { (a : _) (b : _) → (⟦<event::Kind as PartialEq>⟧.eq a b ≡ true) ↔ (a ≡ b) }
    ensures line_endings { (a : _) (b : _) → (⟦<LineEnding as PartialEq>⟧.eq a b ≡ true) ↔ (a ≡ b) }
{}

/// For points of events, and for links, `==` is equality.
pub fn equal_points_and_links_are_one()
    ensures points { (a : _) (b : _) → (⟦<event::Point as PartialEq>⟧.eq a b ≡ true) ↔ (a ≡ b) }
    ensures links { (a : _) (b : _) → (⟦<event::Link as PartialEq>⟧.eq a b ≡ true) ↔ (a ≡ b) }
{}

/// For events, `==` is equality.
pub fn equal_events_are_one()
    ensures { (a : _) (b : _) → (⟦<event::Event as PartialEq>⟧.eq a b ≡ true) ↔ (a ≡ b) }
{}

/// For points and positions of unist, and for places, `==` is equality.
pub fn equal_places_are_one()
    ensures points { (a : _) (b : _) → (⟦<unist::Point as PartialEq>⟧.eq a b ≡ true) ↔ (a ≡ b) }
    ensures positions { (a : _) (b : _) → (⟦<unist::Position as PartialEq>⟧.eq a b ≡ true) ↔ (a ≡ b) }
    ensures places { (a : _) (b : _) → (⟦<Place as PartialEq>⟧.eq a b ≡ true) ↔ (a ≡ b) }
{}

/// For messages and states, `==` is equality.
pub fn equal_states_are_one()
    ensures messages { (a : _) (b : _) → (⟦<Message as PartialEq>⟧.eq a b ≡ true) ↔ (a ≡ b) }
    ensures states { (a : _) (b : _) → (⟦<state::State as PartialEq>⟧.eq a b ≡ true) ↔ (a ≡ b) }
{}

/// For tab sizes, `==` is equality.
pub fn equal_tab_sizes_are_one()
    ensures { (a : _) (b : _) → (⟦<TabSize as PartialEq>⟧.eq a b ≡ true) ↔ (a ≡ b) }
{}
