//! Laws about containers. Each is a function that does nothing; its contract is the law.

ghost use Rattle.std.specs.Prelude.{◌≡◌, ℕ, List, map};
ghost use Rattle.markdown_tokenizer.specs.Text.{Given};
ghost use Rattle.mdblock_containers.specs.Examples.{skeletons_of, given_for, a_few, without_containers, quotes, items, quotes_and_items};
ghost use Rattle.mdblock_containers.specs.Letters.{ArePlainFrom, LettersKeepPlaces, LettersKeepTexts};
ghost use Rattle.mdblock_containers.specs.ListExamples.{lists, read_of};
ghost use Rattle.mdblock_containers.specs.SkeletonLaws.{LazyLettersArePlain, SkeletonsAreFormed, SkeletonsAreReady, SkeletonsAreVoidTight, SkeletonsHaveChunks, SkeletonsHaveTextInGaps};
ghost use Rattle.mdblock_containers.specs.SkeletonSpans.{SkeletonsAccount};

/// The skeletons of seventy documents: which events there are, and where.
pub fn skeletons_of_documents()
    ensures few { skeletons_of a_few ≡ given_for a_few }
    ensures no_containers { skeletons_of without_containers ≡ given_for without_containers }
    ensures quotes { skeletons_of quotes ≡ given_for quotes }
    ensures items { skeletons_of items ≡ given_for items }
    ensures both { skeletons_of quotes_and_items ≡ given_for quotes_and_items }
{}

/// Of the blocks of ten documents it is told whether each list is loose, what its marker is, and with which number it starts.
pub fn lists_of_documents()
    ensures { map (λ l. read_of l.document) lists ≡ lists }
{}

/// Letters in place of bytes that are no tab and no part of a line ending keep all places, and texts but for these bytes.
pub fn letters_keep_places()
    ensures places { (t : ℕ) → (at : List ℕ) → (bytes : List ℕ) → ArePlainFrom 0 at bytes → LettersKeepPlaces t at bytes }
    ensures texts { (at : List ℕ) → (g : Given) → ArePlainFrom 0 at g.bytes → LettersKeepTexts at g }
{}

/// The letters with which leaf blocks are read of lazy underlines stand at bytes that are no tab and no part of a line ending.
#[tactic(auto, using(crate::proofs::PlainLetters::lazy_letters_are_plain))]
pub fn lazy_letters_are_plain()
    ensures { LazyLettersArePlain }
{}

/// Void spans of skeletons are empty: each is entered, and exited at once. Each event with a link is such a span's enter.
#[tactic(auto, using(crate::proofs::TightMarks::skeletons_are_void_tight, crate::proofs::TightMarks::skeletons_have_chunks))]
pub fn void_spans_of_skeletons_are_empty()
    ensures empty { SkeletonsAreVoidTight }
    ensures chunks { SkeletonsHaveChunks }
{}

/// The skeleton of a document is well formed: balanced, void spans empty, at places of the document, and in order of these.
pub fn skeletons_are_well_formed()
    ensures { SkeletonsAreFormed }
{}

/// The chains of a document's skeleton can be read: each chunk that is linked to another stands before it, and between the two is text of one
/// line, from its beginning on, with whole spans over it.
pub fn chains_of_skeletons_can_be_read()
    ensures ready { SkeletonsAreReady }
    ensures gaps { SkeletonsHaveTextInGaps }
{}

/// Each virtual byte of a document is in exactly one innermost span of its skeleton: none is lost between the prefixes of a line and its chunk,
/// and no container is entered without its prefix.
pub fn innermost_spans_of_skeletons_account_for_documents()
    ensures { SkeletonsAccount }
{}
