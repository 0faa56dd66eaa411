//! Character references: the characters that a name or a number stands for.
#![tactic(auto)]

ghost use Rattle.std.specs.Cmp.Lexicographic.{slice_cmp};
ghost use Rattle.std.specs.List.Sorted.{IsStrictlySortedBy};
ghost use Rattle.std.specs.Map.{keys_of};
ghost use Rattle.std.specs.Option.{option_copied, option_map};
ghost use Rattle.std.specs.Ordering.{is_lt, nat_cmp};
ghost use Rattle.std.specs.Prelude.{◌≡◌, ◌⊎◌, ◌+◌, ◌++◌, [], ◌∷◌, length, take};
ghost use Rattle.std.specs.Str.Parse.{IsNumeral, digits_value};
ghost use Rattle.mdinline_characters.specs.References.{IsCharacterAt, characters_of, characters_in, code_points, first_from, name_from, read};

// characters: of character references, by name and by number
pub mod laws;
mod table;

use crate::table::{
    NAMES_OF_2, NAMES_OF_3, NAMES_OF_4, NAMES_OF_5, NAMES_OF_6, NAMES_OF_7, NAMES_OF_8, NAMES_OF_9,
    NAMES_OF_10, NAMES_OF_11, NAMES_OF_12, NAMES_OF_13, NAMES_OF_14, NAMES_OF_15, NAMES_OF_16,
    NAMES_OF_17, NAMES_OF_18, NAMES_OF_19, NAMES_OF_20, NAMES_OF_21, NAMES_OF_22, NAMES_OF_23,
    NAMES_OF_24, NAMES_OF_31, Reference,
};
use std::cmp::Ordering;

/// The characters of the character reference with this name, if there is one.
pub fn find(name: &[u8]) -> Option<(char, Option<char>)>
    ensures { option_map code_points result ≡ characters_of name.now }
{
    match name.len() {
        2 => find_in(&NAMES_OF_2, name),
        3 => find_in(&NAMES_OF_3, name),
        4 => find_in(&NAMES_OF_4, name),
        5 => find_in(&NAMES_OF_5, name),
        6 => find_in(&NAMES_OF_6, name),
        7 => find_in(&NAMES_OF_7, name),
        8 => find_in(&NAMES_OF_8, name),
        9 => find_in(&NAMES_OF_9, name),
        10 => find_in(&NAMES_OF_10, name),
        11 => find_in(&NAMES_OF_11, name),
        12 => find_in(&NAMES_OF_12, name),
        13 => find_in(&NAMES_OF_13, name),
        14 => find_in(&NAMES_OF_14, name),
        15 => find_in(&NAMES_OF_15, name),
        16 => find_in(&NAMES_OF_16, name),
        17 => find_in(&NAMES_OF_17, name),
        18 => find_in(&NAMES_OF_18, name),
        19 => find_in(&NAMES_OF_19, name),
        20 => find_in(&NAMES_OF_20, name),
        21 => find_in(&NAMES_OF_21, name),
        22 => find_in(&NAMES_OF_22, name),
        23 => find_in(&NAMES_OF_23, name),
        24 => find_in(&NAMES_OF_24, name),
        31 => find_in(&NAMES_OF_31, name),
        _ => None,
    }
}

/// The characters of the reference with this name in this list.
fn find_in<const N: usize>(references: &[Reference<N>], name: &[u8]) -> Option<(char, Option<char>)>
    ensures { IsStrictlySortedBy (slice_cmp nat_cmp) (keys_of (read references.now)) → option_map code_points result ≡ characters_in (read references.now) name.now }
{
    let by_name = |reference: &Reference<N>| -> Ordering
        ensures { result ≡ slice_cmp nat_cmp reference.now.0 name.entry.now }
    { reference.0.as_slice().cmp(name) };
    match references.binary_search_by(by_name) {
        Ok(index) => {
            let reference = references.get(index)?;
            Some((reference.1, reference.2))
        }
        Err(_) => None,
    }
}

/// A name that begins with these bytes and goes on with this one, if there is one: of the shortest the first, in the order of their bytes.
pub fn name_from(start: &[u8], next: u8) -> Option<&'static [u8]>
    ensures { option_copied result ≡ name_from (start.now ++ (next ∷ [])) }
{
    first_from(&NAMES_OF_2, start, next)
        .or(first_from(&NAMES_OF_3, start, next))
        .or(first_from(&NAMES_OF_4, start, next))
        .or(first_from(&NAMES_OF_5, start, next))
        .or(first_from(&NAMES_OF_6, start, next))
        .or(first_from(&NAMES_OF_7, start, next))
        .or(first_from(&NAMES_OF_8, start, next))
        .or(first_from(&NAMES_OF_9, start, next))
        .or(first_from(&NAMES_OF_10, start, next))
        .or(first_from(&NAMES_OF_11, start, next))
        .or(first_from(&NAMES_OF_12, start, next))
        .or(first_from(&NAMES_OF_13, start, next))
        .or(first_from(&NAMES_OF_14, start, next))
        .or(first_from(&NAMES_OF_15, start, next))
        .or(first_from(&NAMES_OF_16, start, next))
        .or(first_from(&NAMES_OF_17, start, next))
        .or(first_from(&NAMES_OF_18, start, next))
        .or(first_from(&NAMES_OF_19, start, next))
        .or(first_from(&NAMES_OF_20, start, next))
        .or(first_from(&NAMES_OF_21, start, next))
        .or(first_from(&NAMES_OF_22, start, next))
        .or(first_from(&NAMES_OF_23, start, next))
        .or(first_from(&NAMES_OF_24, start, next))
        .or(first_from(&NAMES_OF_31, start, next))
}

/// The first name of this list that begins so.
fn first_from<const N: usize>(
    references: &'static [Reference<N>],
    start: &[u8],
    next: u8,
) -> Option<&'static [u8]>
    ensures { IsStrictlySortedBy (slice_cmp nat_cmp) (keys_of (read references.now)) → option_copied result ≡ first_from (read references.now) (start.now ++ (next ∷ [])) }
{
    let is_before = |reference: &Reference<N>| -> bool
        ensures { result ≡ is_lt (slice_cmp nat_cmp (take (length start.entry.now + 1) reference.now.0) (start.entry.now ++ (next ∷ []))) }
    { order_of_front(reference.0.as_slice(), start, next) == Ordering::Less };
    let reference = references.get(references.partition_point(is_before))?;
    let name = reference.0.as_slice();
    match order_of_front(name, start, next) {
        Ordering::Equal => Some(name),
        _ => None,
    }
}

/// How the front of a name compares to these bytes and this one.
fn order_of_front(name: &[u8], start: &[u8], next: u8) -> Ordering
    ensures { result ≡ slice_cmp nat_cmp (take (length start.now + 1) name.now) (start.now ++ (next ∷ [])) }
{
    if name.len() > start.len() {
        name[..start.len()]
            .cmp(start)
            .then(name[start.len()].cmp(&next))
    } else {
        name.cmp(start).then(Ordering::Less)
    }
}

/// The character that a numeric reference stands for, by its digits and their base. It is U+FFFD where the number is zero, or that of no
/// character: CommonMark, "Entity and numeric character references".
pub fn numeric(digits: &str, base: u32) -> char
    requires base { (base ≡ 10) ⊎ (base ≡ 16) }
    requires digits { IsNumeral base digits.now }
    ensures { IsCharacterAt (digits_value base digits.now) result }
{
    match u32::from_str_radix(digits, base) {
        Ok(number) => character_at(number),
        Err(_) => char::REPLACEMENT_CHARACTER,
    }
}

/// The character with this number, or U+FFFD.
fn character_at(number: u32) -> char
    ensures { IsCharacterAt number result }
{
    match char::from_u32(number) {
        Some('\0') | None => char::REPLACEMENT_CHARACTER,
        Some(character) => character,
    }
}
