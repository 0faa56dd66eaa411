//! Labels of links, images and link reference definitions: what one is, when two are the same, and a set of them (CommonMark, "Links").
#![tactic(auto)]

ghost use Rattle.std.specs.Prelude.{◌≡◌, ◌+◌, ◌++◌, ◌≤◌, ◌<◌, IfOk, OnOk, length};
ghost use Rattle.mdinline_labels.specs.Labels.{is_label_white, begins_character, hides, is_bracket, is_label, shown_byte, collapsed, normalised};

// labels: their normal form, a set of them
mod folding;
pub mod labels;

// tails: sizes of labels, destinations, titles
pub mod tails;

// definitions: at the front of a text; resources
pub mod definitions;
pub mod resources;

use crate::folding::folded_text;
use mdconstructs_loop_counts::Turns;
use std::alloc::{AllocError, Global};
use std::marker::Brand;
use std::str;
use std::sync::ledger::{Blank, Ledger};

/// A label has at most this many characters.
pub const LABEL_SIZE_MAX: usize = 999;

/// Whether a byte is white space in a label.
fn is_label_white(byte: u8) -> bool
    ensures { result ≡ is_label_white byte }
{
    byte == b' ' || byte == b'\t' || byte == b'\n' || byte == b'\r'
}

/// Whether a byte begins a character: it does not go on with one.
fn begins_character(byte: u8) -> bool
    ensures { result ≡ begins_character byte }
{
    byte < 128 || byte >= 192
}

/// Whether a byte is a bracket.
fn is_bracket(byte: u8) -> bool
    ensures { result ≡ is_bracket byte }
{
    byte == b'[' || byte == b']'
}

/// Whether these bytes may stand between the brackets of a label: no bracket in them that is not escaped, at most 999 characters, and not
/// only white space.
pub fn is_label_counted<L: Ledger>(bytes: &[u8], turns: &mut Turns<L>) -> bool
    ensures label { result ≡ is_label bytes.now }
    ensures turns { turns.new ≤ turns.old + length bytes.now }
{
    let mut next = 0;
    let mut characters = 0usize;
    let mut filled = false;
    let mut hidden = false;
    while next < bytes.len() {
        turns.add_one();
        let byte = bytes[next];
        if is_bracket(byte) && !hidden {
            return false;
        }
        if begins_character(byte) {
            if characters >= LABEL_SIZE_MAX {
                return false;
            }
            characters += 1;
        }
        filled = filled || !is_label_white(byte);
        hidden = byte == b'\\' && !hidden;
        next += 1;
    }
    filled
}

/// Whether these bytes are a label, counted from nothing.
fn is_label_from<L: Ledger>(bytes: &[u8], blank: Blank) -> bool
    requires name { blank.name ≡ L.name }
    requires parts { blank.parts ≡ L.parts }
    requires some { 0 < blank.parts }
    ensures { result ≡ is_label bytes.now }
{
    let mut turns = Turns::<L>::new(blank);
    is_label_counted(bytes, &mut turns)
}

/// Whether these bytes may stand between the brackets of a label, as `is_label_counted`.
pub fn is_label(bytes: &[u8]) -> bool
    ensures { result ≡ is_label bytes.now }
{
    is_label_from::<Brand>(bytes, Blank::new(1))
}

/// Writes a byte of a label: U+FFFD in place of NUL.
fn push_shown(out: &mut Vec<u8>, byte: u8) -> Result<(), AllocError>
    ensures { OnOk result (out.new.items ≡ out.old.items ++ shown_byte byte) }
{
    if byte == 0 {
        out.extend_from_slice(b"\xEF\xBF\xBD")?;
    } else {
        out.push(byte)?;
    }
    Ok(())
}

/// The bytes with white space collapsed: none at the ends, and one space for each stretch of it between; and U+FFFD in place of NUL.
fn collapsed(alloc: Global, bytes: &[u8]) -> Result<Vec<u8>, AllocError>
    ensures { IfOk result (λ out. out.items ≡ collapsed bytes.now) }
{
    let mut out = Vec::new(alloc);
    let mut begun = false;
    let mut apart = false;
    let mut next = 0;
    while next < bytes.len() {
        let byte = bytes[next];
        if is_label_white(byte) {
            apart = true;
        } else {
            if begun && apart {
                out.push(b' ')?;
            }
            push_shown(&mut out, byte)?;
            begun = true;
            apart = false;
        }
        next += 1;
    }
    Ok(out)
}

/// The form of a label by which labels are compared: white space collapsed and NUL replaced, then each character folded, as CommonMark compares
/// them. So `ẞ` and `SS` are the same, and `ı` and `i` are not. Of bytes that are no UTF-8 only ASCII letters change.
pub fn normalised(alloc: Global, bytes: &[u8]) -> Result<Vec<u8>, AllocError>
    ensures { IfOk result (λ out. out.items ≡ normalised bytes.now) }
{
    let together = collapsed(alloc, bytes)?;
    match str::from_utf8(together.as_slice()) {
        Ok(text) => {
            let folded = folded_text(alloc, text)?;
            Ok(folded.into_bytes())
        }
        Err(_) => together.as_slice().to_ascii_uppercase(alloc),
    }
}
