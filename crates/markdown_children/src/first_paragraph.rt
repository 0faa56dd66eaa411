//! Whether content is in the first paragraph of a list item.

ghost use Rattle.std.specs.Prelude.{◌≡◌, ◌<◌, ◌↔◌, ◌&&◌, length, IsTrue};
ghost use denote.Enum.Bare.{sameb};
ghost use Rattle.markdown_base.specs.contracts.event.Kind.{the_type as kinds};
ghost use Rattle.markdown_base.specs.Events.{IsBalanced, same_name};
ghost use Rattle.markdown_children.specs.Reads.{IsAtFirstParagraph};

use markdown_base::configuration::Constructs;
use markdown_base::event::{Event, Kind, Name};
use markdown_tokenizer::util::skip::opt_back;

/// Whether the text of the chain that begins at `index` is in the first paragraph of a list item.
pub fn at_first_paragraph_of_list_item(
    events: &[Event],
    index: usize,
    constructs: &Constructs,
) -> bool
    requires balanced { IsBalanced events.now }
    requires within { index < length events.now }
    ensures { IsTrue result ↔ IsAtFirstParagraph events.now index constructs.now }
{
    if !constructs.gfm_task_list_item || index <= 2 {
        return false;
    }
    if !is(&events[index - 1], Kind::Enter, Name::Paragraph) {
        return false;
    }
    let names = [
        Name::BlankLineEnding,
        Name::Definition,
        Name::LineEnding,
        Name::SpaceOrTab,
    ];
    is(
        &events[opt_back(events, index - 2, &names)],
        Kind::Exit,
        Name::ListItemPrefix,
    )
}

/// Whether an event enters or exits a name.
fn is(event: &Event, kind: Kind, name: Name) -> bool
    ensures { result ≡ (sameb kinds event.now.kind kind && same_name event.now.name name) }
{
    event.kind == kind && event.name == name
}
