//! The resolvers of machines that have some. The definitions of those machines name them, so they stand here, and not among the tests.

/// The resolvers of the machine that replaces. Each replaces all events that it sees by one span.
#[derive(Clone, Copy, Debug, PartialEq, Eq)]
pub enum ReplacingResolver {
    /// By a paragraph.
    First,
    /// Makes the edit of the first before, and replaces what it then sees by a block quote.
    Second,
}
