//! The events that machines make of whole documents, where these are long, or the program does not offer the machine. Other documents
//! are cases of `mdcases`.

ghost use Rattle.markdown.specs.Virtual.{IsWithinLimit};
ghost use Rattle.std.specs.Prelude.{◌+◌, ◌*◌, ◌<◌};

use crate::shown::{assert_holds, assert_shown};
use markdown::configuration::ParseOptions;
use markdown::state::Name;
use markdown::tokenizer::cuts_every;
use mdconstructs_machines::words::Words;
use mdconstructs_machines::wrap::Wrap;
use mdinline_text_machine::read::read_text;
use mdtests_base::documents::{lines_by, repeated};
use mdtests_base::shown::shown;
use std::alloc::{AllocError, Global};

#[test]
fn words_and_tags_are_data_or_refused(rt: HostRuntime) {
    let start = Name::TextStart;
    let read = lines_by(rt.alloc(), &Words {}, start, b" a  #b", 99, false);
    let want =
        "SpaceOrTab 1:1 (0+0) to 1:2 (1+0); Data 1:2 (1+0) to 1:3 (2+0); SpaceOrTab 1:3 (2+0) to 1:5 (4+0); \
        HeadingAtxSequence 1:5 (4+0) to 1:6 (5+0); Data 1:6 (5+0) to 1:7 (6+0)";
    assert_shown(&rt, read, want);
    let read = lines_by(rt.alloc(), &Words {}, start, b"a   b", 99, false);
    assert_shown(&rt, read, "a third blank in a row (limecove:words)");
}

/// Resolvers wrap the data, if there is any, though the document is cut after each byte.
#[test]
fn data_is_wrapped(rt: HostRuntime) {
    let wrap = Wrap { refuse: false };
    let read = lines_by(rt.alloc(), &wrap, Name::TextStart, b"", 1, true);
    assert_shown(&rt, read, "Paragraph 1:1 (0+0) to 1:1 (0+0)");
    let read = lines_by(rt.alloc(), &wrap, Name::TextStart, b"ab", 1, true);
    let want =
        "enter Paragraph 1:1 (0+0); CodeTextData 1:1 (0+0) to 1:3 (2+0); exit Paragraph 1:3 (2+0)";
    assert_shown(&rt, read, want);
}

/// The events of a document that is read as text, cut after each `cut` virtual bytes.
fn lines_of_text(alloc: Global, bytes: &[u8], cut: usize) -> Result<String, AllocError>
    requires limit { IsWithinLimit 4 bytes.now }
    requires cut { 0 < cut }
{
    let options = ParseOptions::default();
    let cuts = cuts_every(alloc, bytes, options.tab_size, cut)?;
    match read_text(alloc, bytes, &options, cuts.as_slice()) {
        Ok(events) => shown(alloc, events.as_slice()),
        Err(_) => Err(AllocError),
    }
}

/// Whether the events of a part, this many times, by the machine of words or as text, end so.
fn many_end_so(
    alloc: Global,
    part: &[u8],
    count: usize,
    words: bool,
    end: &str,
) -> Result<bool, AllocError> {
    let text = repeated(alloc, b"", part, count)?;
    let bytes = text.as_slice();
    if bytes.len() > 9999 {
        return Err(AllocError);
    }
    let made = if words {
        lines_by(alloc, &Words {}, Name::TextStart, bytes, 9999, false)?
    } else {
        lines_of_text(alloc, bytes, 9999)?
    };
    Ok(made.as_str().ends_with(end))
}

/// A part, how many times it is read, whether by the machine of words, and how its events end. An angle bracket that begins no
/// autolink is data of its own.
const MANY: &[(&[u8], usize, bool, &str)] = &[
    (
        b"<",
        6000,
        false,
        "; Data 1:5999 (5998+0) to 1:6000 (5999+0); Data 1:6000 (5999+0) to 1:6001 (6000+0)",
    ),
    (
        b"#b ",
        100,
        true,
        "; HeadingAtxSequence 1:298 (297+0) to 1:299 (298+0); Data 1:299 (298+0) to 1:300 (299+0); \
        SpaceOrTab 1:300 (299+0) to 1:301 (300+0)",
    ),
];

/// Texts may be long, and have many choices or tags.
#[test]
fn long_texts_are_read(rt: HostRuntime) {
    for &(part, count, words, end) in MANY {
        assert_holds(&rt, many_end_so(rt.alloc(), part, count, words, end), end);
    }
}
