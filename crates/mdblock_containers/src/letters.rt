//! Letters in place of lazy underlines.

ghost use Rattle.std.specs.Prelude.{◌≡◌, [], ◌∷◌, IfOk};
ghost use Rattle.mdblock_containers.specs.Letters.{letter, with_letters};

use std::alloc::{AllocError, Global};

/// The letter.
const LETTER: u8 = b'a';

/// A letter at an index, if there is a byte.
#[tactic(auto, using(crate::proofs::LetterLemmas::one_letter, crate::proofs::LetterLemmas::no_letter))]
fn set_letter(all: &mut Vec<u8>, index: usize)
    ensures { all.new.items ≡ with_letters (index ∷ []) all.old.items }
{
    if index < all.len() {
        all[index] = LETTER;
    }
}

/// The document with a letter at each of these indices. Fails only for want of memory.
#[tactic(auto, using(crate::proofs::LetterLemmas::letters_step, crate::proofs::LetterLemmas::no_letters))]
pub fn with_letters(alloc: Global, bytes: &[u8], indices: &[usize]) -> Result<Vec<u8>, AllocError>
    ensures { IfOk result (λ all. all.items ≡ with_letters indices.now bytes.now) }
{
    let mut all = Vec::from_slice(alloc, bytes)?;
    for index in indices {
        set_letter(&mut all, *index);
    }
    Ok(all)
}
