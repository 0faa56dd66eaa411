//! What the program writes for long documents.

ghost use Rattle.mdevents_program.specs.Choices.{CanCut};

use markdown::configuration::TabSize;
use mdevents_program::arguments::{Choice, Which};
use mdevents_program::program::write_events;
use mdtests_base::documents::repeated;
use std::alloc::{AllocError, Global};

pub const TWO_LINES: &[u8] =
    b"enter Paragraph 1:1 (0+0)\nenter Data 1:1 (0+0)\nexit Data 1:2 (1+0)\nexit Paragraph 1:2 (1+0)\nenter LineEnding 1:2 (1+0)\nexit LineEnding 2:1 (3+0)\nenter Paragraph 2:1 (3+0)\nenter Data 2:1 (3+0)\nexit Data 2:2 (4+0)\nexit Paragraph 2:2 (4+0)\n";

/// The choice of these: a cut after each `cut` virtual bytes, or no cut if that is 0.
pub fn choice(cut: usize, deep: bool, machine: Which, tab: TabSize) -> Choice
    ensures { CanCut result }
{
    Choice {
        cut: if cut > 0 { Some(cut) } else { None },
        deep,
        machine,
        tab,
    }
}

/// A document that begins so, and then has a line this many times.
type Repeated = (&'static [u8], &'static [u8], usize);

/// Whether so many lines are written for such a document, from the first one to the last.
fn are_written(
    alloc: Global,
    given: Repeated,
    choice: &Choice,
    lines: usize,
    first: &[u8],
    last: &[u8],
) -> Result<bool, AllocError>
    requires { CanCut choice.now }
{
    let (before, line, count) = given;
    let document = repeated(alloc, before, line, count)?;
    let mut reader = document.as_slice();
    let mut written = Vec::new(alloc);
    if write_events(alloc, &mut reader, &mut written, choice).is_err() {
        return Err(AllocError);
    }
    let written = written.as_slice();
    Ok(
        written.iter().filter(|byte| **byte == b'\n').count() == lines
            && written.starts_with(first)
            && written.ends_with(last),
    )
}

/// How a document begins, the line that it has then, and how many times; the machine that reads it, and whether its chunks are read
/// too. Then how many lines are written, and the first and the last of these. A line may be long, and one chain is behind another one.
const MANY: &[(Repeated, Which, bool, usize, &[u8], &[u8])] = &[
    (
        (b"", b"\n", 50_000),
        Which::Lines,
        false,
        100_000,
        b"enter LineEnding 1:1 (0+0)\n",
        b"\nexit LineEnding 50001:1 (50000+0)\n",
    ),
    (
        (b"", b"a", 100_001),
        Which::Lines,
        false,
        4,
        b"enter Paragraph 1:1 (0+0)\nenter Data 1:1 (0+0)\n",
        b"\nexit Data 1:100002 (100001+0)\nexit Paragraph 1:100002 (100001+0)\n",
    ),
    (
        (b"a\n\n", b">a\n", 3000),
        Which::Paragraphs,
        true,
        18_010,
        b"enter Paragraph 1:1 (0+0)\nenter Data 1:1 (0+0)\n",
        b"\nexit LineEnding 3003:1 (9003+0)\nexit Paragraph 3003:1 (9003+0)\n",
    ),
];

#[test]
fn writes_the_events_of_many_lines(rt: HostRuntime) {
    for &(given, machine, deep, lines, first, last) in MANY {
        let choice = choice(0, deep, machine, TabSize::default());
        let found = are_written(rt.alloc(), given, &choice, lines, first, last);
        assert!(rt; found.expect(&rt, "memory"));
    }
}
