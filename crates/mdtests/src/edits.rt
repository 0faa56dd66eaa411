//! Documents that are edited: each edit leaves what reading the new bytes gives.

use crate::shown::assert_holds;
use markdown::configuration::ParseOptions;
use mdconstructs::edit::{Edit, Other, Refused, Why};
use mdconstructs::positions::{Encoding, Position};
use mdconstructs::read_document;
use mdconstructs::sections::Sections;
use std::alloc::{AllocError, Global};

/// What short documents and edits are made of.
const BYTES: [u8; 6] = *b"a\n\r>-]";

/// The longest document that these tests read.
const LONGEST: usize = 1000;

/// The document, or what comes in an edit, that a number stands for: its digits, from the last one, are bytes; of no digits is none.
fn text(alloc: Global, number: usize, count: usize) -> Result<Vec<u8>, AllocError> {
    let mut text = Vec::new(alloc);
    let mut rest = number;
    for _ in 0..count {
        text.push(BYTES[rest % 6])?;
        rest /= 6;
    }
    Ok(text)
}

/// How many texts of so many bytes there are.
fn texts(count: usize) -> usize {
    match count {
        0 => 1,
        1 => 6,
        2 => 36,
        _ => 216,
    }
}

/// Whether a document that can be edited has these bytes, and the events that reading them gives.
fn is_as_read(alloc: Global, sections: &Sections, bytes: &[u8]) -> Result<bool, AllocError> {
    if bytes.len() > LONGEST {
        return Ok(false);
    }
    let options = ParseOptions::default();
    let anew = read_document(alloc, bytes, &options)?;
    let now = sections.bytes(alloc)?;
    let events = sections.events(alloc)?;
    Ok(now.as_slice() == bytes && events.as_slice() == anew.as_slice())
}

/// A document that can be edited, with these bytes. None of these tests is too long for one.
fn sections_of(alloc: Global, bytes: &[u8]) -> Result<Sections, AllocError> {
    match Sections::new(alloc, bytes, &ParseOptions::default()) {
        Ok(sections) => Ok(sections),
        Err(_) => Err(AllocError),
    }
}

/// Bytes, edited.
fn edited(alloc: Global, bytes: &[u8], edit: &Edit) -> Result<Vec<u8>, AllocError> {
    let mut new = Vec::new(alloc);
    if edit.from <= edit.to && edit.to <= bytes.len() {
        new.extend_from_slice(&bytes[..edit.from])?;
        new.extend_from_slice(edit.with)?;
        new.extend_from_slice(&bytes[edit.to..])?;
    }
    Ok(new)
}

/// Whether an edit leaves what reading anew gives, and what was there comes back if it is undone.
fn is_right(
    alloc: Global,
    sections: &mut Sections,
    bytes: &[u8],
    edit: &Edit,
) -> Result<bool, AllocError> {
    let new = edited(alloc, bytes, edit)?;
    if is_refused(sections.replace(alloc, edit))? {
        return Ok(false);
    }
    if !is_as_read(alloc, sections, new.as_slice())? {
        return Ok(false);
    }
    if edit.from > edit.to
        || edit.to > bytes.len()
        || edit.with.len() > LONGEST
        || edit.from > LONGEST
    {
        return Ok(false);
    }
    let back = Edit {
        from: edit.from,
        to: edit.from + edit.with.len(),
        with: &bytes[edit.from..edit.to],
    };
    if is_refused(sections.replace(alloc, &back))? {
        return Ok(false);
    }
    is_as_read(alloc, sections, bytes)
}

/// Whether an edit was refused for another reason than memory.
fn is_refused<T: Drop>(done: Result<T, Refused>) -> Result<bool, AllocError> {
    match done {
        Ok(_) => Ok(false),
        Err(Refused::Memory) => Err(AllocError),
        Err(_) => Ok(true),
    }
}

/// Whether each edit of a document that puts a text of so many bytes in the place of some is right.
fn are_right(
    alloc: Global,
    sections: &mut Sections,
    bytes: &[u8],
    count: usize,
) -> Result<bool, AllocError> {
    for number in 0..texts(count) {
        let with = text(alloc, number, count)?;
        for from in 0..bytes.len() + 1 {
            for to in from..bytes.len() + 1 {
                let edit = Edit {
                    from,
                    to,
                    with: with.as_slice(),
                };
                if !is_right(alloc, sections, bytes, &edit)? {
                    return Ok(false);
                }
            }
        }
    }
    Ok(true)
}

/// Whether each edit by texts of up to so many bytes is right, in each document of so many bytes.
fn all_are_right(alloc: Global, count: usize, most: usize) -> Result<bool, AllocError> {
    for number in 0..texts(count) {
        let bytes = text(alloc, number, count)?;
        let mut sections = sections_of(alloc, bytes.as_slice())?;
        for few in 0..most.min(2) + 1 {
            if !are_right(alloc, &mut sections, bytes.as_slice(), few)? {
                return Ok(false);
            }
        }
    }
    Ok(true)
}

/// Each edit by up to two bytes, in each document of up to two; and each by up to one byte, in each document of three.
#[test]
fn short_edits_of_short_documents(rt: HostRuntime) {
    for (count, most) in [(0, 2), (1, 2), (2, 2), (3, 1)] {
        let found = all_are_right(rt.alloc(), count, most);
        assert_holds(&rt, found, "edits leave what reading gives");
    }
}

/// Four sections: a paragraph, a list, a paragraph with a reference, and its definition.
const SECTIONS: &[u8] = b"a\n\n- x\n- y\n\nb [l]\n\n[l]: u\n";

/// Sections, and the byte that each starts with; bytes, and the section that has each; and lines. Also behind the document.
const STARTS: &[(usize, usize)] = &[(0, 0), (1, 3), (2, 12), (3, 19), (4, 26)];

const BYTES_IN: &[(usize, usize)] = &[
    (0, 0),
    (2, 0),
    (3, 1),
    (11, 1),
    (12, 2),
    (18, 2),
    (19, 3),
    (25, 3),
    (26, 4),
    (99, 4),
];

const LINES_IN: &[(usize, usize)] = &[
    (0, 0),
    (1, 0),
    (2, 1),
    (4, 1),
    (5, 2),
    (7, 3),
    (8, 4),
    (9, 4),
];

/// Whether sections, bytes and lines are looked up, at their beginnings and ends.
fn are_looked_up(sections: &Sections) -> bool {
    for (section, start) in STARTS {
        if *section > sections.count() || sections.start_of(*section) != *start {
            return false;
        }
    }
    for (byte, section) in BYTES_IN {
        if sections.section_at(*byte) != *section {
            return false;
        }
    }
    for (line, section) in LINES_IN {
        if sections.section_at_line(*line) != *section {
            return false;
        }
    }
    true
}

/// Whether a section has its bytes, and a place in it leads to a byte and back.
fn has_places(sections: &Sections) -> bool {
    let position = Position {
        line: 5,
        character: 1,
    };
    sections.count() == 4
        && sections.len() == 26
        && sections.section(1) == b"- x\n- y\n\n".as_slice()
        && sections.position_of(13, Encoding::Utf16) == Some(position)
        && sections.offset_of(position, Encoding::Utf16) == Some(13)
}

/// Whether the events of some sections, and those of the others, are the events of the document.
fn has_events(alloc: Global, sections: &Sections) -> Result<bool, AllocError> {
    if sections.count() != 4 {
        return Ok(false);
    }
    let mut events = sections.events_in(alloc, 0, 2)?;
    events.extend_from_slice(sections.events_in(alloc, 2, 4)?.as_slice())?;
    Ok(events.as_slice() == sections.events(alloc)?.as_slice())
}

/// Whether all this is so of the four sections.
fn sections_are_found(alloc: Global) -> Result<bool, AllocError> {
    let sections = sections_of(alloc, SECTIONS)?;
    Ok(are_looked_up(&sections) && has_places(&sections) && has_events(alloc, &sections)?)
}

#[test]
fn sections_are_looked_up(rt: HostRuntime) {
    assert_holds(&rt, sections_are_found(rt.alloc()), "what sections have");
}

/// Sections of three bytes and two lines each, in more than one block of 256.
const MANY: usize = 300;

/// Of so many sections: some of them, and the bytes that they start with.
const MANY_STARTS: &[(usize, usize)] = &[(0, 0), (255, 765), (256, 768), (257, 771), (300, 900)];

/// The same, once a byte was typed in the first one; and once a section of four bytes stands in front of that.
const TYPED_STARTS: &[(usize, usize)] = &[(0, 0), (255, 766), (256, 769), (257, 772), (300, 901)];

const ADDED_STARTS: &[(usize, usize)] = &[(0, 0), (1, 4), (255, 767), (256, 770), (301, 905)];

/// Whether sections start there, and the bytes are in them, and lines as well, of which each has two.
fn start_there(sections: &Sections, starts: &[(usize, usize)]) -> bool {
    for (section, start) in starts {
        if *section > sections.count()
            || sections.start_of(*section) != *start
            || sections.section_at(*start) != *section
            || *section > LONGEST
            || sections.section_at_line(2 * *section) != *section
        {
            return false;
        }
    }
    true
}

/// Whether sections in two blocks are looked up, before edits and after them.
fn many_are_found(alloc: Global) -> Result<bool, AllocError> {
    let mut bytes = Vec::new(alloc);
    for _ in 0..MANY {
        bytes.extend_from_slice(b"a\n\n")?;
    }
    let mut sections = sections_of(alloc, bytes.as_slice())?;
    let read = start_there(&sections, MANY_STARTS);
    let typed = put_in_front(alloc, &mut sections, b"b")? && start_there(&sections, TYPED_STARTS);
    let added = put_in_front(alloc, &mut sections, b"cc\n\n")?
        && start_there(&sections, ADDED_STARTS);
    Ok(read && typed && added)
}

/// Puts bytes in front of a document.
fn put_in_front(alloc: Global, sections: &mut Sections, with: &[u8]) -> Result<bool, AllocError> {
    let edit = Edit {
        from: 0,
        to: 0,
        with,
    };
    match sections.replace(alloc, &edit) {
        Ok(_) => Ok(true),
        Err(Refused::Memory) => Err(AllocError),
        Err(_) => Ok(false),
    }
}

#[test]
fn sections_in_blocks_are_looked_up(rt: HostRuntime) {
    assert_holds(&rt, many_are_found(rt.alloc()), "what many sections have");
}

/// What an edit changes: the sections that are replaced and those that come, and the others of which something is new.
type Changes = ((usize, usize, usize), &'static [Other]);

/// The first two sections of a document have other events than before.
const OF_TWO: &[Other] = &[
    Other {
        section: 0,
        why: Why::Events,
    },
    Other {
        section: 1,
        why: Why::Events,
    },
];

/// Documents, the range of which nothing stays, what that changes, and what is left. If a definition goes, the sections that refer to it have other
/// events, though they are far: one with its label, however it is written, and one in which a line ends in the label; and none with another label.
const GONE: &[(&[u8], (usize, usize), Changes, &[u8])] = &[
    (
        b"[l]\n\nx\n\ny\n\n[l]: u\n",
        (11, 18),
        (
            (3, 4, 3),
            &[Other {
                section: 0,
                why: Why::Events,
            }],
        ),
        b"[l]\n\nx\n\ny\n\n",
    ),
    (
        b"x [\nl]\n\n[ L ]\n\n[m]\n\ny\n\n[l]: u\n",
        (23, 30),
        ((4, 5, 4), OF_TWO),
        b"x [\nl]\n\n[ L ]\n\n[m]\n\ny\n\n",
    ),
];

/// Documents, the range that a letter comes for, what that changes, and what is left: a definition says something else. A section whose link leads
/// elsewhere is told, and none whose link has a resource, or another label; none is told if another definition of the label stands in front, or the range
/// is the letter.
const REDEFINED: &[(&[u8], (usize, usize), Changes, &[u8])] = &[
    (
        b"[l]: b\n\n# h\n\n![x][L]\n\n[l](c)\n\n[m]\n",
        (5, 6),
        (
            (0, 1, 1),
            &[Other {
                section: 2,
                why: Why::Targets,
            }],
        ),
        b"[l]: u\n\n# h\n\n![x][L]\n\n[l](c)\n\n[m]\n",
    ),
    (
        b"[l]: b\n\n[l]\n\n[l]: c\n",
        (18, 19),
        ((2, 3, 3), &[]),
        b"[l]: b\n\n[l]\n\n[l]: u\n",
    ),
    (
        b"[l]: u\n\n[l]\n",
        (5, 6),
        ((1, 1, 1), &[]),
        b"[l]: u\n\n[l]\n",
    ),
];

/// Whether bytes in the place of a range of a document change this, and leave what reading what is left gives.
fn changes_so(
    alloc: Global,
    bytes: &[u8],
    edit: &Edit,
    (numbers, others): Changes,
    left: &[u8],
) -> Result<bool, AllocError> {
    let mut sections = sections_of(alloc, bytes)?;
    match sections.replace(alloc, edit) {
        Ok(change) => Ok(
            (change.from, change.old_to, change.new_to) == numbers
                && change.others.as_slice() == others
                && is_as_read(alloc, &sections, left)?,
        ),
        Err(Refused::Memory) => Err(AllocError),
        Err(_) => Ok(false),
    }
}

#[test]
fn references_are_read_again(rt: HostRuntime) {
    for &(bytes, (from, to), changes, left) in GONE {
        let with = b"";
        let found = changes_so(rt.alloc(), bytes, &Edit { from, to, with }, changes, left);
        assert_holds(&rt, found, "what refers is read again");
    }
}

#[test]
fn links_that_lead_elsewhere_are_told(rt: HostRuntime) {
    for &(bytes, (from, to), changes, left) in REDEFINED {
        let with = b"u";
        let found = changes_so(rt.alloc(), bytes, &Edit { from, to, with }, changes, left);
        assert_holds(&rt, found, "what leads elsewhere is told");
    }
}

/// Ranges that are none of the four sections'.
const OTHERS: &[(usize, usize)] = &[(5, 4), (26, 27), (27, 27)];

/// Whether a range that is none of the document is refused, and the document is as it was.
fn is_other(alloc: Global, from: usize, to: usize) -> Result<bool, AllocError> {
    let mut sections = sections_of(alloc, SECTIONS)?;
    let with = b"x";
    match sections.replace(alloc, &Edit { from, to, with }) {
        Err(Refused::Range) => is_as_read(alloc, &sections, SECTIONS),
        Err(Refused::Memory) => Err(AllocError),
        _ => Ok(false),
    }
}

#[test]
fn other_ranges_are_refused(rt: HostRuntime) {
    for &(from, to) in OTHERS {
        assert_holds(&rt, is_other(rt.alloc(), from, to), "it is refused");
    }
}

/// Whether a document is as it was if memory runs out in an edit, and else has new bytes.
fn is_whole_or_as_before(alloc: Global) -> Result<bool, AllocError> {
    let mut sections = sections_of(alloc, SECTIONS)?;
    let edit = Edit {
        from: 19,
        to: 26,
        with: b"> q\n",
    };
    match sections.replace(alloc, &edit) {
        Ok(_) => is_as_read(alloc, &sections, b"a\n\n- x\n- y\n\nb [l]\n\n> q\n"),
        Err(Refused::Memory) => is_as_read(alloc, &sections, SECTIONS),
        Err(_) => Ok(false),
    }
}

/// If memory runs out in an edit, the document is as it was. `rt try --test --fail-alloc N` makes an allocation fail.
#[test]
fn refused_edits_change_nothing(rt: HostRuntime) {
    assert_holds(&rt, is_whole_or_as_before(rt.alloc()), "nothing changed");
}
