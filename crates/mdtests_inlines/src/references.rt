//! Character references: names with the characters of HTML's list, and numbers, as CommonMark's examples have them and at the limits.

use mdinline_characters::{find, numeric};

/// Names, with what they stand for: the first and the last of the list, one from its middle, the longest, two characters, names that differ
/// in case alone, and what is no name.
const NAMES: &[(&str, Option<(char, Option<char>)>)] = &[
    ("AElig", Some(('\u{C6}', None))),
    ("zwnj", Some(('\u{200C}', None))),
    ("frac34", Some(('\u{BE}', None))),
    ("CounterClockwiseContourIntegral", Some(('\u{2233}', None))),
    ("ngE", Some(('\u{2267}', Some('\u{338}')))),
    ("amp", Some(('&', None))),
    ("lt", Some(('<', None))),
    ("LT", Some(('<', None))),
    ("Auml", Some(('\u{C4}', None))),
    ("auml", Some(('\u{E4}', None))),
    ("aUml", None),
    ("amp;", None),
    ("am", None),
    ("nothing", None),
    ("CounterClockwiseContourIntegrals", None),
    ("", None),
];

/// Digits and their base, and the character of their number.
const NUMBERS: &[(&str, u32, char)] = &[
    ("35", 10, '#'),
    ("1234", 10, '\u{4D2}'),
    ("992", 10, '\u{3E0}'),
    ("0", 10, '\u{FFFD}'),
    ("0000000", 10, '\u{FFFD}'),
    ("1114111", 10, '\u{10FFFF}'),
    ("1114112", 10, '\u{FFFD}'),
    ("9999999", 10, '\u{FFFD}'),
    ("4294967331", 10, '\u{FFFD}'),
    ("22", 16, '"'),
    ("D06", 16, '\u{D06}'),
    ("cab", 16, '\u{CAB}'),
    ("0", 16, '\u{FFFD}'),
    ("D7FF", 16, '\u{D7FF}'),
    ("D800", 16, '\u{FFFD}'),
    ("dfff", 16, '\u{FFFD}'),
    ("E000", 16, '\u{E000}'),
    ("10FFFF", 16, '\u{10FFFF}'),
    ("FFFFFF", 16, '\u{FFFD}'),
];

#[test]
fn names_and_numbers_are_characters(rt: HostRuntime) {
    for (name, characters) in NAMES {
        assert!(rt; find(name.as_bytes()) == *characters);
    }
    for (digits, base, want) in NUMBERS {
        assert!(rt; numeric(digits, *base) == *want);
    }
}
