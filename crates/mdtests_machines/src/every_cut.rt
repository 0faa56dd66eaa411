//! Short documents, cut at every place and at every two places: the events do not depend on the cuts.

ghost use Rattle.markdown.specs.Virtual.{IsWithinLimit};
ghost use Rattle.std.specs.Prelude.{◌+◌, ◌*◌, ◌<◌, ◌≤◌, length};

use crate::readers::{Reader, read_cut};
use markdown::configuration::TabSize;
use markdown::tokenizer::point_at;
use std::alloc::{AllocError, Global};

/// The places at which a document is cut.
type Cuts = Vec<(usize, usize)>;

/// The places of a document, in order.
fn places(alloc: Global, bytes: &[u8], tab: TabSize) -> Result<Cuts, AllocError>
    requires limit { IsWithinLimit tab bytes.now }
{
    let t = tab.get();
    let mut places = Vec::new(alloc);
    for number in 0..(bytes.len() + 1).saturating_mul(t) {
        let place = (number / t, number % t);
        if point_at(bytes, tab, place).is_some() {
            places.push(place)?;
        }
    }
    Ok(places)
}

/// The lists of one of these places; and, if documents are cut twice, of each two of them, in order.
fn lists_of(
    alloc: Global,
    places: &[(usize, usize)],
    twice: bool,
) -> Result<Vec<Cuts>, AllocError> {
    let mut lists = Vec::new(alloc);
    for (index, first) in places.iter().enumerate() {
        lists.push(Vec::from_array(alloc, [*first])?)?;
        let behind = if twice { places.len() } else { 0 };
        for second in places.iter().take(behind).skip(index) {
            lists.push(Vec::from_array(alloc, [*first, *second])?)?;
        }
    }
    Ok(lists)
}

/// How many of these lists of cuts leave the events and the number of calls as they are without cuts.
fn same_readings(
    alloc: Global,
    reader: Reader,
    bytes: &[u8],
    tab: TabSize,
    lists: &[Cuts],
) -> Result<usize, AllocError>
    requires limit { IsWithinLimit tab bytes.now }
{
    let uncut = read_cut(alloc, reader, bytes, tab, &[])?;
    let mut same: usize = 0;
    for cuts in lists {
        let seen = read_cut(alloc, reader, bytes, tab, cuts.as_slice())?;
        if seen.calls == uncut.calls && seen.events.as_slice() == uncut.events.as_slice() {
            same = same.saturating_add(1);
        }
    }
    Ok(same)
}

/// The document of a number: its digits as these letters, the lowest first.
fn document_of(
    alloc: Global,
    letters: &[u8],
    size: usize,
    number: usize,
) -> Result<Vec<u8>, AllocError>
    requires { 0 < length letters.now }
{
    let mut bytes = Vec::new(alloc);
    let mut rest = number;
    for _ in 0..size {
        bytes.push(letters[rest % letters.len()])?;
        rest /= letters.len();
    }
    Ok(bytes)
}

/// How many readings of a document are as the uncut one, if it is cut at each place, and if it has less than four bytes, at each two.
/// The document has at most four bytes.
fn same_of_document(
    alloc: Global,
    readers: &[Reader],
    bytes: &[u8],
    tab: TabSize,
) -> Result<usize, AllocError>
    requires tab { tab ≤ 16 }
{
    if bytes.len() > 4 {
        return Err(AllocError);
    }
    let places = places(alloc, bytes, tab)?;
    let lists = lists_of(alloc, places.as_slice(), bytes.len() < 4)?;
    let mut same: usize = 0;
    for reader in readers {
        let more = same_readings(alloc, *reader, bytes, tab, lists.as_slice())?;
        same = same.saturating_add(more);
    }
    Ok(same)
}

/// How many readings of the documents of these letters and of some size are as the uncut ones.
fn same_of_size(
    alloc: Global,
    readers: &[Reader],
    letters: &[u8],
    tab: TabSize,
    size: usize,
) -> Result<usize, AllocError>
    requires tab { tab ≤ 16 }
{
    if letters.is_empty() || size > 4 {
        return Err(AllocError);
    }
    let mut same: usize = 0;
    for number in 0..letters.len().saturating_pow(size as u32) {
        let document = document_of(alloc, letters, size, number)?;
        let more = same_of_document(alloc, readers, document.as_slice(), tab)?;
        same = same.saturating_add(more);
    }
    Ok(same)
}

/// All readers but those of texts.
const READERS: &[Reader] = &[
    Reader::Lines,
    Reader::Paragraphs,
    Reader::TextOfParagraphs,
    Reader::Peek,
    Reader::Deep,
    Reader::Back,
    Reader::Save,
];

const READERS_OF_TEXT: &[Reader] = &[Reader::Text, Reader::ParagraphsOfText];

/// Readers, the letters of the documents, the tab size, and how many readings each reader makes of the documents of no byte, of one,
/// and so on.
const READINGS: &[(&[Reader], &[u8], usize, &[usize])] = &[
    (READERS, b"a\t\r\n", 1, &[2, 20, 144, 896, 1280]),
    (READERS, b"a\t\r\n", 3, &[2, 29, 230, 1502, 1738]),
    (READERS, b"a\t\r\n", 4, &[2, 35, 290, 1935, 1991]),
    (READERS, b"a\t\r\n", 16, &[2, 185, 1790, 12747, 5063]),
    (READERS_OF_TEXT, b"a`<\\\n", 4, &[2, 25, 225, 1750, 3125]),
];

/// The first size of which documents are not read as often as is said here, if there is one.
fn wrong_size(
    alloc: Global,
    readers: &[Reader],
    letters: &[u8],
    tab: usize,
    readings: &[usize],
) -> Result<Option<usize>, AllocError> {
    let tab = TabSize::new(tab).ok_or(AllocError)?;
    for (size, each) in readings.iter().enumerate() {
        let same = same_of_size(alloc, readers, letters, tab, size)?;
        if same != each.saturating_mul(readers.len()) {
            return Ok(Some(size));
        }
    }
    Ok(None)
}

#[test]
fn no_cut_leaves_a_trace(rt: HostRuntime) {
    for &(readers, letters, tab, readings) in READINGS {
        let wrong = wrong_size(rt.alloc(), readers, letters, tab, readings);
        assert_eq!(rt; wrong.expect(&rt, "memory"), None, "with tabs of {tab}");
    }
}
