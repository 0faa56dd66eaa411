//! What is awaited behind an event, on the way to the check of an item.

ghost use Rattle.std.specs.Prelude.{◌≡◌};
ghost use Rattle.mdgfm_tasks.specs.Awaits.{awaited_behind, awaited_next, enters, exits, is_passed};

use markdown_base::event::{Event, Kind, Name};

/// What is awaited behind an event, on the way to the check of an item.
#[derive(Clone, Copy, PartialEq, Eq, Debug)]
pub enum Awaited {
    /// No item.
    Nothing,
    /// The first block of an item.
    Block,
    /// The end of a definition, which stands before this block.
    DefinitionEnd,
    /// The text of this block, a paragraph.
    Text,
}

/// Whether an event enters a span of this name.
pub(crate) fn enters(event: &Event, name: Name) -> bool
    ensures { result ≡ enters name event.now }
{
    event.kind == Kind::Enter && event.name == name
}

/// Whether an event exits a span of this name.
pub(crate) fn exits(event: &Event, name: Name) -> bool
    ensures { result ≡ exits name event.now }
{
    event.kind == Kind::Exit && event.name == name
}

/// Whether a span of this name may stand between the prefix of an item and its first block.
fn is_passed(name: Name) -> bool
    ensures { result ≡ is_passed name }
{
    name == Name::SpaceOrTab
        || name == Name::LineEnding
        || name == Name::BlankLineEnding
        || name == Name::BlockQuotePrefix
        || name == Name::BlockQuoteMarker
}

/// What is awaited behind an event that ends no prefix of an item.
fn awaited_next(awaited: Awaited, event: &Event) -> Awaited
    ensures { result ≡ awaited_next awaited event.now }
{
    match awaited {
        Awaited::Nothing => Awaited::Nothing,
        Awaited::Block => {
            if is_passed(event.name) {
                Awaited::Block
            } else if enters(event, Name::Definition) {
                Awaited::DefinitionEnd
            } else if enters(event, Name::Paragraph) {
                Awaited::Text
            } else {
                Awaited::Nothing
            }
        }
        Awaited::DefinitionEnd => {
            if exits(event, Name::Definition) {
                Awaited::Block
            } else {
                Awaited::DefinitionEnd
            }
        }
        Awaited::Text => {
            if event.name == Name::SpaceOrTab {
                Awaited::Text
            } else {
                Awaited::Nothing
            }
        }
    }
}

/// What is awaited behind an event.
pub(crate) fn awaited_behind(awaited: Awaited, event: &Event) -> Awaited
    ensures { result ≡ awaited_behind awaited event.now }
{
    if exits(event, Name::ListItemPrefix) {
        Awaited::Block
    } else {
        awaited_next(awaited, event)
    }
}
