//! Emphasis: the delimiter runs of a text, their pairs, and the edits that put emphasis in their place.

pub use mdinline_emphasis::emphasis::{emphasize, in_place, put_edits};
pub use mdinline_emphasis::{classes, pairs, runs, unicode};
