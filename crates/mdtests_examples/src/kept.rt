//! A document is read on from a kept place, after its end was changed.

ghost use Rattle.std.specs.Prelude.{[], ◌∷◌};
ghost use Rattle.markdown.specs.Engine.{AreCuts};
ghost use Rattle.markdown.specs.Virtual.{IsWithinLimit};

use crate::shown::assert_shown;
use markdown::configuration::ParseOptions;
use markdown::parser::ParseState;
use markdown::state::Name;
use mdconstructs::Paragraphs;
use mdexamples::kept::{read_changed, read_up_to};
use mdtests_base::shown::shown;
use std::alloc::{AllocError, Global};

/// The events of a document that was changed behind its second byte, read on from there by what was kept of the old one.
fn read_on(alloc: Global, old: &[u8], changed: &[u8]) -> Result<String, AllocError>
    requires old { IsWithinLimit 4 old.now }
    requires changed { IsWithinLimit 4 changed.now }
    requires cut { AreCuts 4 old.now ((2, 0) ∷ []) }
{
    let options = ParseOptions::default();
    let machine = Paragraphs {};
    let document = ParseState {
        bytes: old,
        options: &options,
        machine: &machine,
    };
    let changed = ParseState {
        bytes: changed,
        options: &options,
        machine: &machine,
    };
    let Ok(kept) = read_up_to(alloc, &document, Name::FlowStart, (2, 0)) else {
        return Err(AllocError);
    };
    let read = read_changed(alloc, &kept, Name::FlowStart, (2, 0), &changed);
    drop(kept);
    match read {
        Ok(Some((events, _))) => shown(alloc, events.as_slice()),
        Ok(None) => String::from_str(alloc, "not alike"),
        Err(fault) => fault.to_string(alloc),
    }
}

/// Of a document of two lines the first line is kept. It goes on with another second line, or with a blank one and a new paragraph. If
/// the first line was changed too, it can't go on.
#[test]
fn changed_documents_are_read_on(rt: HostRuntime) {
    let want = "enter Paragraph 1:1 (0+0); Data 1:1 (0+0) Text None Some(3) to 2:1 (2+0); \
        Data 2:1 (2+0) Text Some(1) None to 2:3 (4+0); exit Paragraph 2:3 (4+0)";
    assert_shown(&rt, read_on(rt.alloc(), b"a\nb", b"a\ncd"), want);
    let want =
        "enter Paragraph 1:1 (0+0); Data 1:1 (0+0) Text None None to 2:1 (2+0); exit Paragraph 2:1 (2+0); \
        BlankLineEnding 2:1 (2+0) to 3:1 (3+0); \
        enter Paragraph 3:1 (3+0); Data 3:1 (3+0) Text None None to 3:2 (4+0); exit Paragraph 3:2 (4+0)";
    assert_shown(&rt, read_on(rt.alloc(), b"a\nb", b"a\n\nc"), want);
    assert_shown(&rt, read_on(rt.alloc(), b"a\nb", b"c\nb"), "not alike");
}
