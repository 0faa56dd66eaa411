//! Links between events, and content in content.

pub use markdown_children::subtokenize::{
    at_first_paragraph_of_list_item, divide_events, ready, subtokenize,
};
pub use markdown_edits::links::{link, link_to};
pub use markdown_tokenizer::subtokenize::{Subresult, joined};
