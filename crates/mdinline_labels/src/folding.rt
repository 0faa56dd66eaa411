//! Characters as labels are compared: Unicode's case folding, in upper case.

ghost use Rattle.std.specs.Prelude.{◌≡◌, ◌++◌, IfOk, OnOk, string_bytes, encode_utf8_all, flat_map, option_to_list};
ghost use Rattle.std.specs.Char.Iter.{case_mapping_chars};
ghost use Rattle.std.specs.Char.Unicode.ToUppercase.{to_uppercase};
ghost use Rattle.mdinline_labels.specs.Labels.{folded, folded_text};

use std::alloc::{AllocError, Global};
use std::char::ToUppercase;

/// Writes a character, if there is one.
fn push_some(out: &mut String, letter: Option<char>) -> Result<(), AllocError>
    ensures { OnOk result (string_bytes out.new ≡ string_bytes out.old ++ encode_utf8_all (option_to_list letter)) }
{
    match letter {
        Some(letter) => out.push(letter),
        None => Ok(()),
    }
}

/// Writes what a character becomes in another case: three characters at most.
fn push_all(out: &mut String, mut letters: ToUppercase) -> Result<(), AllocError>
    ensures { OnOk result (string_bytes out.new ≡ string_bytes out.old ++ encode_utf8_all (case_mapping_chars letters)) }
{
    push_some(out, letters.next())?;
    push_some(out, letters.next())?;
    push_some(out, letters.next())
}

/// Writes a character in upper case, if there is one.
fn push_upper(out: &mut String, letter: Option<char>) -> Result<(), AllocError>
    ensures { OnOk result (string_bytes out.new ≡ string_bytes out.old ++ encode_utf8_all (flat_map to_uppercase (option_to_list letter))) }
{
    match letter {
        Some(letter) => push_all(out, letter.to_uppercase()),
        None => Ok(()),
    }
}

/// Writes a character as labels are compared: upper case of its lower case, which is three characters at most. `ı` stays.
fn push_folded(out: &mut String, letter: char) -> Result<(), AllocError>
    ensures { OnOk result (string_bytes out.new ≡ string_bytes out.old ++ encode_utf8_all (folded letter)) }
{
    if letter == 'ı' {
        return out.push(letter);
    }
    let mut lower = letter.to_lowercase();
    push_upper(out, lower.next())?;
    push_upper(out, lower.next())?;
    push_upper(out, lower.next())
}

/// A text with each character folded.
pub(crate) fn folded_text(alloc: Global, text: &str) -> Result<String, AllocError>
    ensures { IfOk result (λ out. string_bytes out ≡ folded_text text.now) }
{
    if text.is_ascii() {
        return text.to_ascii_uppercase(alloc);
    }
    let mut out = String::new(alloc);
    for letter in text.chars() {
        push_folded(&mut out, letter)?;
    }
    Ok(out)
}
