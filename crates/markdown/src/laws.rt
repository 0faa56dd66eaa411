//! The laws of all four parts. Each is a function that does nothing; its contract is the law.

pub use markdown_base::laws::{
    characters_have_one_class, equal_events_are_one, equal_names_are_one, equal_places_are_one,
    equal_points_and_links_are_one, equal_states_are_one, equal_tab_sizes_are_one,
    lists_are_stated, names_differ, numbers_are_stated, start_is_stated, tabs_reach_stops,
    void_events_are_stated,
};
pub use markdown_children::laws::{
    a_ready_list_has_ordered_chains, all_chains_are_ready, chains_of_children_stay_ready,
    child_events_are_placed_well, children_are_a_function, children_are_read_in_one_way,
    children_can_be_read_next, children_fit, chunks_can_be_read, edits_give_children,
    other_chains_stay_ready, parts_are_by_chunk, subtokenized_lists_are_ready,
};
pub use markdown_edits::laws::{additions_are_new, survivors_keep_links, survivors_keep_order};
pub use markdown_tokenizer::laws::{
    calls_are_alike, choices_put_back, cuts_leave_no_trace, goes_on_elsewhere, pushes_are_one,
    pushes_in_one_way, reading_goes_on, reads_in_one_way, renaming_keeps, reserves_are_enough,
    turns_are_kept, what_was_read_stays,
};
