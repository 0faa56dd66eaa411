//! Bytes that states of leaf blocks read over: at them a call only consumes the byte, and the engine need not make it. Each is above CR.

ghost use Rattle.std.specs.Bool.{OnTrue};
ghost use Rattle.std.specs.Prelude.{◌≡◌, [], ◌∷◌, ◌<◌, All};
ghost use Rattle.mdblock_leaf_rows.specs.FlowBytes.{is_line_feed, is_blank, is_tick, is_less, is_dash, is_question, is_greater, is_closing};
ghost use Rattle.mdblock_leaf_rows.specs.Over.{PassNone};
ghost use Rattle.mdblock_leaf_machine.specs.ReadOver.{set_without};

use markdown_tokenizer::state::ByteSet;

/// The bytes of a line.
static IN_LINE: ByteSet = [
    false, false, false, false, false, false, false, false, false, false, false, false, false,
    false, true, true, true, true, true, true, true, true, true, true, true, true, true, true,
    true, true, true, true, true, true, true, true, true, true, true, true, true, true, true, true,
    true, true, true, true, true, true, true, true, true, true, true, true, true, true, true, true,
    true, true, true, true, true, true, true, true, true, true, true, true, true, true, true, true,
    true, true, true, true, true, true, true, true, true, true, true, true, true, true, true, true,
    true, true, true, true, true, true, true, true, true, true, true, true, true, true, true, true,
    true, true, true, true, true, true, true, true, true, true, true, true, true, true, true, true,
    true, true, true, true, true, true, true, true, true, true, true, true, true, true, true, true,
    true, true, true, true, true, true, true, true, true, true, true, true, true, true, true, true,
    true, true, true, true, true, true, true, true, true, true, true, true, true, true, true, true,
    true, true, true, true, true, true, true, true, true, true, true, true, true, true, true, true,
    true, true, true, true, true, true, true, true, true, true, true, true, true, true, true, true,
    true, true, true, true, true, true, true, true, true, true, true, true, true, true, true, true,
    true, true, true, true, true, true, true, true, true, true, true, true, true, true, true, true,
    true, true, true, true, true, true, true, true, true, true, true, true, true, true, true, true,
    true, true, true, true,
];

/// The bytes of a line. A state that reads them stays in them.
#[inline(always)]
pub(crate) fn in_line() -> &'static ByteSet
    ensures passed { PassNone (is_line_feed ∷ []) result.now }
    ensures exact { result.now ≡ set_without (is_line_feed ∷ []) }
{
    &IN_LINE
}

/// The bytes of a word: no white space.
static IN_WORD: ByteSet = [
    false, false, false, false, false, false, false, false, false, false, false, false, false,
    false, true, true, true, true, true, true, true, true, true, true, true, true, true, true,
    true, true, true, true, false, true, true, true, true, true, true, true, true, true, true,
    true, true, true, true, true, true, true, true, true, true, true, true, true, true, true, true,
    true, true, true, true, true, true, true, true, true, true, true, true, true, true, true, true,
    true, true, true, true, true, true, true, true, true, true, true, true, true, true, true, true,
    true, true, true, true, true, true, true, true, true, true, true, true, true, true, true, true,
    true, true, true, true, true, true, true, true, true, true, true, true, true, true, true, true,
    true, true, true, true, true, true, true, true, true, true, true, true, true, true, true, true,
    true, true, true, true, true, true, true, true, true, true, true, true, true, true, true, true,
    true, true, true, true, true, true, true, true, true, true, true, true, true, true, true, true,
    true, true, true, true, true, true, true, true, true, true, true, true, true, true, true, true,
    true, true, true, true, true, true, true, true, true, true, true, true, true, true, true, true,
    true, true, true, true, true, true, true, true, true, true, true, true, true, true, true, true,
    true, true, true, true, true, true, true, true, true, true, true, true, true, true, true, true,
    true, true, true, true, true, true, true, true, true, true, true, true, true, true, true, true,
    true, true, true, true, true,
];

/// The bytes of a word: no white space. A state that reads them stays in them.
#[inline(always)]
pub(crate) fn in_word() -> &'static ByteSet
    ensures passed { PassNone (is_line_feed ∷ is_blank ∷ []) result.now }
    ensures exact { result.now ≡ set_without (is_line_feed ∷ is_blank ∷ []) }
{
    &IN_WORD
}

/// The bytes of an info string in which no grave accent may be.
static IN_INFO: ByteSet = [
    false, false, false, false, false, false, false, false, false, false, false, false, false,
    false, true, true, true, true, true, true, true, true, true, true, true, true, true, true,
    true, true, true, true, true, true, true, true, true, true, true, true, true, true, true, true,
    true, true, true, true, true, true, true, true, true, true, true, true, true, true, true, true,
    true, true, true, true, true, true, true, true, true, true, true, true, true, true, true, true,
    true, true, true, true, true, true, true, true, true, true, true, true, true, true, true, true,
    true, true, true, true, false, true, true, true, true, true, true, true, true, true, true,
    true, true, true, true, true, true, true, true, true, true, true, true, true, true, true, true,
    true, true, true, true, true, true, true, true, true, true, true, true, true, true, true, true,
    true, true, true, true, true, true, true, true, true, true, true, true, true, true, true, true,
    true, true, true, true, true, true, true, true, true, true, true, true, true, true, true, true,
    true, true, true, true, true, true, true, true, true, true, true, true, true, true, true, true,
    true, true, true, true, true, true, true, true, true, true, true, true, true, true, true, true,
    true, true, true, true, true, true, true, true, true, true, true, true, true, true, true, true,
    true, true, true, true, true, true, true, true, true, true, true, true, true, true, true, true,
    true, true, true, true, true, true, true, true, true, true, true, true, true, true, true, true,
    true, true, true, true, true,
];

/// The bytes of an info string in which no grave accent may be. A state that reads them stays in them.
#[inline(always)]
pub(crate) fn in_info() -> &'static ByteSet
    ensures passed { PassNone (is_line_feed ∷ is_tick ∷ []) result.now }
    ensures exact { result.now ≡ set_without (is_line_feed ∷ is_tick ∷ []) }
{
    &IN_INFO
}

/// The bytes of a line of HTML that do not begin its end, of whichever kind it is.
static IN_HTML: ByteSet = [
    false, false, false, false, false, false, false, false, false, false, false, false, false,
    false, true, true, true, true, true, true, true, true, true, true, true, true, true, true,
    true, true, true, true, true, true, true, true, true, true, true, true, true, true, true, true,
    true, false, true, true, true, true, true, true, true, true, true, true, true, true, true,
    true, false, true, false, false, true, true, true, true, true, true, true, true, true, true,
    true, true, true, true, true, true, true, true, true, true, true, true, true, true, true, true,
    true, true, true, false, true, true, true, true, true, true, true, true, true, true, true,
    true, true, true, true, true, true, true, true, true, true, true, true, true, true, true, true,
    true, true, true, true, true, true, true, true, true, true, true, true, true, true, true, true,
    true, true, true, true, true, true, true, true, true, true, true, true, true, true, true, true,
    true, true, true, true, true, true, true, true, true, true, true, true, true, true, true, true,
    true, true, true, true, true, true, true, true, true, true, true, true, true, true, true, true,
    true, true, true, true, true, true, true, true, true, true, true, true, true, true, true, true,
    true, true, true, true, true, true, true, true, true, true, true, true, true, true, true, true,
    true, true, true, true, true, true, true, true, true, true, true, true, true, true, true, true,
    true, true, true, true, true, true, true, true, true, true, true, true, true, true, true, true,
    true, true, true, true, true, true, true,
];

/// The bytes of a line of HTML that do not begin its end, of whichever kind it is. A state that reads them stays in them.
#[inline(always)]
pub(crate) fn in_html() -> &'static ByteSet
    ensures passed { PassNone (is_line_feed ∷ is_less ∷ is_dash ∷ is_question ∷ is_greater ∷ is_closing ∷ []) result.now }
    ensures exact { result.now ≡ set_without (is_line_feed ∷ is_less ∷ is_dash ∷ is_question ∷ is_greater ∷ is_closing ∷ []) }
{
    &IN_HTML
}

/// Whether all these bytes are above CR, and so bytes of a line. It looks at all of them: a loop that ends early is not made into comparisons
/// of many bytes at once.
#[inline(always)]
pub(crate) fn are_in_line(block: &[u8]) -> bool
    ensures { OnTrue result (All (λ byte. 13 < byte) block.now) }
{
    let mut all = true;
    for byte in block {
        all &= *byte > b'\r';
    }
    all
}
