//! Laws about the names of character references.

ghost use Rattle.std.specs.Char.{is_ascii_alphanumeric};
ghost use Rattle.std.specs.Cmp.Lexicographic.{slice_cmp};
ghost use Rattle.std.specs.List.{list_all};
ghost use Rattle.std.specs.List.Sorted.{IsStrictlySortedBy};
ghost use Rattle.std.specs.Map.{keys_of};
ghost use Rattle.std.specs.Ordering.{nat_cmp};
ghost use Rattle.std.specs.Prelude.{◌≡◌, ◌<◌, ◌++◌, ℕ, List, length, take, None, Some, IsSome, false};
ghost use Rattle.mdinline_characters.specs.CharacterReferences.{character_references};
ghost use Rattle.mdinline_characters.specs.References.{characters_of, name_from};

/// The names are listed in the order of their bytes, each once.
pub fn names_are_in_order()
    ensures { IsStrictlySortedBy (slice_cmp nat_cmp) (keys_of character_references) }
{}

/// A name has at most 31 bytes, and each is a letter or a digit of ASCII.
pub fn names_are_short_and_plain()
    ensures short { (name : List ℕ) → 31 < length name → characters_of name ≡ None }
    ensures plain { (name : List ℕ) → list_all is_ascii_alphanumeric name ≡ false → characters_of name ≡ None }
{}

/// A name that is found by its beginning begins so, and one is found wherever a name begins so.
pub fn names_are_found_by_their_beginnings()
    ensures sound { (start name : List ℕ) → name_from start ≡ Some name → take (length start) name ≡ start }
    ensures complete { (start rest : List ℕ) → IsSome (characters_of (start ++ rest)) → IsSome (name_from start) }
{}
