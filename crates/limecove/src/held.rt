//! A document that can be edited, with the sections of which its last edit made something new.

use mdconstructs::edit::Other;
use mdconstructs::sections::Sections;

/// A document that can be edited, with the sections of which its last edit made something new.
#[derive(Drop)]
pub struct Held {
    /// The document.
    pub sections: Sections,
    /// The sections that the last edit did not replace and of which something is new, in order. None, if the document was not edited yet.
    pub others: Vec<Other>,
}
