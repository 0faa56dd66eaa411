//! Events of sections that are read again, and how they are put into these.

ghost use Rattle.std.specs.Prelude.{◌≡◌, ◌<◌, length};
ghost use Rattle.std.specs.List.{AllByRecursion};
ghost use Rattle.mddocument_editing.specs.Put.{put_all};

use crate::linking::Linking;
use crate::packed::Packed;
use crate::section::Section;
use markdown_base::owned::Boxed;

/// What a section is read as that is read again, by its number.
#[derive(Drop)]
pub(crate) struct Reread {
    pub(crate) section: usize,
    pub(crate) events: Packed,
    pub(crate) linking: Boxed<Linking>,
}

/// Puts the events of sections that were read again in the place of those that they had.
pub(crate) fn put_events(sections: &mut Vec<Section>, others: Vec<Reread>)
    requires { AllByRecursion (λ other. other.section < length sections.old.items) others.items }
    ensures { sections.new.items ≡ put_all sections.old.items others.items }
{
    for other in others {
        let Reread {
            section,
            events,
            linking,
        } = other;
        let section = &mut sections[section];
        section.events = events;
        section.linking = linking;
    }
}
