//! Labels of links: what one is and which are the same; link reference definitions at the front of a text; resources; their parts.

ghost use Rattle.std.specs.Prelude.{◌≡◌, ◌<◌};

use mdconstructs_loop_counts::Turns;
use mdinline_labels::definitions::{
    Definition, Front, Stretch, definition_at, definition_counted, definitions_counted,
    definitions_in,
};
use mdinline_labels::labels::Labels;
use mdinline_labels::resources::{Resource, resource_at, resource_counted};
use mdinline_labels::tails::{destination_size, gap, label_size, title_size};
use mdinline_labels::{is_label, is_label_counted, normalised};
use std::alloc::{AllocError, Global};
use std::marker::Brand;
use std::sync::ledger::{Blank, Ledger};

/// Two labels, and whether one defines the other: case, white space, letters that fold to two (`ẞ`, `İ`), or to one that another place of a word
/// has (`ς`), or to none but themselves (`ı`), NUL, which is U+FFFD, and bytes that are no UTF-8.
const ALIKE: &[(&[u8], &[u8], bool)] = &[
    (b"Foo", b"fOO", true),
    (b"a  b", b"\ta\n b ", true),
    (b"ab", b"a b", false),
    (b"\xE1\xBA\x9E", b"ss", true),
    (b"\xCE\xB1", b"\xCE\x91", true),
    (b"a\xCF\x82", b"A\xCE\xA3", true),
    (b"\xC4\xB0", b"i\xCC\x87", true),
    (b"\xC4\xB0", b"i", false),
    (b"\xC4\xB1", b"\xC4\xB1", true),
    (b"\xC4\xB1", b"i", false),
    (b"I", b"\xC4\xB1", false),
    (b"a\x00", b"A\xEF\xBF\xBD", true),
    (b"\x00\xFF", b"\xEF\xBF\xBD\xFF", true),
    (b"a\x00", b"a", false),
    (b"a\xFF", b"A\xFF", true),
    (b"a", b"b", false),
    (b"a\\]", b"a]", false),
];

/// Whether a label defines another one.
fn defines(alloc: Global, defined: &[u8], asked: &[u8]) -> Result<bool, AllocError> {
    let mut labels = Labels::new(alloc);
    labels.define(alloc, defined)?;
    labels.contains(alloc, asked)
}

/// Whether a label has this normal form.
fn is_normal(alloc: Global, label: &[u8], want: &[u8]) -> Result<bool, AllocError> {
    Ok(normalised(alloc, label)?.as_slice() == want)
}

/// Texts, how many definitions they begin with, and where what is left begins.
const FRONTS: &[(&[u8], usize, usize)] = &[
    (b"[a]: /u", 1, 7),
    (b"[a]: /u\n[b]: <v> 'w'\nc", 2, 21),
    (b"[a]: /u 'v' w\nb", 0, 0),
    (b"[a]: /u\n'v' w", 1, 8),
    (b"[ ]: /u", 0, 0),
    (b"[a] : /u", 0, 0),
    (b"a\n[b]: /u", 0, 0),
];

/// Whether a text begins with so many definitions, and what is left begins here.
fn has_front(text: &[u8], count: usize, end: usize) -> bool {
    let front = definitions_in(text);
    front.count == count && front.end == end
}

/// Whether so many letters, each two bytes or one, are a label.
fn are_label(alloc: Global, letter: &[u8], count: usize) -> Result<bool, AllocError> {
    let mut label = Vec::new(alloc);
    for _ in 0..count {
        label.extend_from_slice(letter)?;
    }
    Ok(is_label(label.as_slice()))
}

/// What may stand between the brackets of a label, and what may not: nothing, white space alone, a bracket that is not escaped.
const LABELS: &[(&[u8], bool)] = &[
    (b"a", true),
    (b" a\n", true),
    (b"a\\]", true),
    (b"\\[", true),
    (b"\\\\", true),
    (b"", false),
    (b" \t\n", false),
    (b"a]", false),
    (b"[a", false),
    (b"\\\\]", false),
];

/// Letters, how many of them, and whether they are a label: it has at most 999 characters.
const LONG: &[(&[u8], usize, bool)] = &[
    (b"a", 999, true),
    (b"a", 1000, false),
    (b"\xC3\xA4", 999, true),
    (b"\xC3\xA4", 1000, false),
];

#[test]
fn labels_are_read_and_compared(rt: HostRuntime) {
    let alloc = rt.alloc();
    for (defined, asked, is_same) in ALIKE {
        assert!(rt; defines(alloc, defined, asked).expect(&rt, "memory") == *is_same);
    }
    let normal = is_normal(alloc, b" one\n\ttwo ", b"ONE TWO");
    assert!(rt; normal.expect(&rt, "memory"));
    for (bytes, is_one) in LABELS {
        assert!(rt; is_label(bytes) == *is_one);
    }
    for (letter, count, is_one) in LONG {
        assert!(rt; are_label(alloc, letter, *count).expect(&rt, "memory") == *is_one);
    }
}

/// The size of the label, the destination and the title that a text begins with, if it begins with one, and of white space.
type Sizes = (Option<usize>, Option<usize>, Option<usize>, usize);

/// The sizes of what a text begins with. The turns of loops are counted on.
fn sizes_counted<L: Ledger>(bytes: &[u8], turns: &mut Turns<L>) -> Sizes {
    (
        label_size(bytes, turns),
        destination_size(bytes, turns),
        title_size(bytes, turns),
        gap(bytes, turns),
    )
}

/// The sizes of what a text begins with, counted from nothing.
fn sizes_from<L: Ledger>(bytes: &[u8], blank: Blank) -> Sizes
    requires name { blank.name ≡ L.name }
    requires parts { blank.parts ≡ L.parts }
    requires some { 0 < blank.parts }
{
    let mut turns = Turns::<L>::new(blank);
    sizes_counted(bytes, &mut turns)
}

/// The sizes of what a text begins with.
fn sizes(bytes: &[u8]) -> Sizes {
    sizes_from::<Brand>(bytes, Blank::new(1))
}

/// Texts, and the sizes of what they begin with. A label is read behind its `[`. Escaped marks end nothing. A destination without `<` ends
/// at white space, and its parentheses are balanced; one with `<` ends in its line. A title may go over lines, but over no blank one.
/// White space has one line ending at most.
const SIZES: &[(&[u8], Sizes)] = &[
    (b"", (None, None, None, 0)),
    (b"a]b", (Some(1), Some(3), None, 0)),
    (b"a\\]]", (Some(3), Some(4), None, 0)),
    (b"[a]]", (None, Some(4), None, 0)),
    (b"a\n\nb]", (None, Some(1), None, 0)),
    (b"<a b>c", (None, Some(5), None, 0)),
    (b"<>", (None, Some(2), None, 0)),
    (b"<a\nb>", (None, None, None, 0)),
    (b"<a<b>", (None, None, None, 0)),
    (b"a(b)c d", (None, Some(5), None, 0)),
    (b"a)b", (None, Some(1), None, 0)),
    (b"a\x00b c", (None, Some(3), None, 0)),
    (b"a\x01b c", (None, Some(1), None, 0)),
    (b"a(b", (None, None, None, 0)),
    (b"'a' b", (None, Some(3), Some(3), 0)),
    (b"\"a\\\"\"", (None, Some(5), Some(5), 0)),
    (b"(a)", (None, Some(3), Some(3), 0)),
    (b"(a(b)", (None, None, None, 0)),
    (b"'a\nb'", (None, Some(2), Some(5), 0)),
    (b"'a\n\nb'", (None, Some(2), None, 0)),
    (b" \n b", (None, None, None, 3)),
    (b"\n\nb", (None, None, None, 1)),
];

/// A stretch of a text, as tests write it: the index of its first byte, and its size.
type Written = (usize, usize);

/// A stretch, as tests write it.
fn written(stretch: Stretch) -> Written {
    (stretch.from, stretch.size)
}

/// The parts of a definition: its label, its destination, its title, and its size.
fn parts_of(definition: Definition) -> (Written, Written, Option<Written>, usize) {
    let Definition {
        label,
        destination,
        title,
        size,
    } = definition;
    (
        written(label),
        written(destination),
        title.map(written),
        size,
    )
}

/// Texts of CommonMark, "Link reference definitions", and the parts of the definition that each begins with, if it begins with one.
const DEFINITIONS: &[(&[u8], Option<(Written, Written, Option<Written>, usize)>)] = &[
    (
        b"[foo]: /url \"title\"",
        Some(((0, 5), (7, 4), Some((12, 7)), 19)),
    ),
    (b"[foo]:\n/url\na", Some(((0, 5), (7, 4), None, 11))),
    (b"[foo]: <>", Some(((0, 5), (7, 2), None, 9))),
    (
        b"[foo]: /url\n\"title\" ok",
        Some(((0, 5), (7, 4), None, 11)),
    ),
    (b"[foo]: /url \"title\" ok", None),
    (b"[foo]:", None),
    (b"[foo]: <bar>(baz)", None),
];

/// What a text begins with: a definition, definitions, and a resource; and whether it is a label.
type Found = (Option<Definition>, Front, Option<Resource>, bool);

/// What a text begins with, with the turns of loops counted from nothing.
fn counted_from<L: Ledger>(bytes: &[u8], blank: Blank) -> Found
    requires name { blank.name ≡ L.name }
    requires parts { blank.parts ≡ L.parts }
    requires some { 0 < blank.parts }
{
    let mut turns = Turns::<L>::new(blank);
    (
        definition_counted(bytes, &mut turns),
        definitions_counted(bytes, &mut turns),
        resource_counted(bytes, &mut turns),
        is_label_counted(bytes, &mut turns),
    )
}

/// What a text begins with, with the turns of loops counted.
fn counted(bytes: &[u8]) -> Found {
    counted_from::<Brand>(bytes, Blank::new(1))
}

/// Whether a text begins with a definition of these parts, counted or not, and with no resource.
fn has_definition(text: &[u8], want: Option<(Written, Written, Option<Written>, usize)>) -> bool {
    let (definition, front, resource, is_label) = counted(text);
    definition_at(text).map(parts_of) == want
        && definition.map(parts_of) == want
        && front.count == if want.is_some() { 1 } else { 0 }
        && resource.is_none()
        && !is_label
}

#[test]
fn definitions_have_their_parts(rt: HostRuntime) {
    for (text, count, end) in FRONTS {
        assert!(rt; has_front(text, *count, *end));
    }
    for (text, want) in DEFINITIONS {
        assert!(rt; has_definition(text, *want));
    }
}

/// The parts of a resource: its destination, its title, and its size.
fn parts_within(resource: Resource) -> (Option<Written>, Option<Written>, usize) {
    let Resource {
        destination,
        title,
        size,
    } = resource;
    (destination.map(written), title.map(written), size)
}

/// Texts of CommonMark, "Inline link", and the parts of the resource that each begins with, if it begins with one.
const RESOURCES: &[(&[u8], Option<(Option<Written>, Option<Written>, usize)>)] = &[
    (b"(/uri \"title\")a", Some((Some((1, 4)), Some((6, 7)), 14))),
    (b"()", Some((None, None, 2))),
    (b"(\n )", Some((None, None, 4))),
    (b"(\n\n)", None),
    (b"(</my uri>)", Some((Some((1, 9)), None, 11))),
    (b"(foo(and(bar)))", Some((Some((1, 13)), None, 15))),
    (
        b"(   /uri\n  \"title\"  )",
        Some((Some((4, 4)), Some((11, 7)), 21)),
    ),
    (b"(/my uri)", None),
    (b"(</my\nuri>)", None),
    (b"(/uri\"title\"", None),
    (b" (/uri)", None),
];

/// Whether a text begins with a resource of these parts, counted or not, and with no definition.
fn has_resource(text: &[u8], want: Option<(Option<Written>, Option<Written>, usize)>) -> bool {
    let (definition, front, resource, _) = counted(text);
    resource_at(text).map(parts_within) == want
        && resource.map(parts_within) == want
        && definition.is_none()
        && front.end == 0
}

#[test]
fn parts_of_links_are_found(rt: HostRuntime) {
    for (text, want) in SIZES {
        assert!(rt; sizes(text) == *want);
    }
    for (text, want) in RESOURCES {
        assert!(rt; has_resource(text, *want));
    }
}
