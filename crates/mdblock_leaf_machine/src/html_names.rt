//! Names of tags as numbers, and what else states of HTML blocks note and test.
//!
//! A name is no slice of the document, which may be read in pieces. As its bytes come they are digits of a number in `size_b`, in base
//! 36, whatever their case. `marker_b` is the kind of HTML, from 1 to 7, and `seen` says whether a tag is a closing one.

ghost use Rattle.std.specs.Prelude.{◌≡◌};
ghost use Rattle.markdown_base.specs.Texts.{html_block_names, html_raw_names};
ghost use Rattle.markdown_tokenizer.specs.Calls.{with_local};
ghost use Rattle.markdown_tokenizer.specs.Configuration.{at_configuration};
ghost use Rattle.markdown_tokenizer.specs.Sight.{sight_of};
ghost use Rattle.mdblock_leaf_rows.specs.HtmlNames.{digit_of, no_name, one_byte_more, is_number_in};
ghost use Rattle.mdblock_leaf_rows.specs.HtmlWrites.{html_becomes, tag_closes, name_grows, raw_name_grows, html_is_on, html_is, ends_at_blank_line, is_passed_over, closes_tag, opens_raw, is_block_tag, is_raw_tag, cdata_byte, at_cdata};

use markdown_tokenizer::event;
use markdown_tokenizer::state::MachineTypes;
use markdown_tokenizer::tokenizer::Tokenizer;

/// The number of what is no listed name, as it has a dash or more than ten bytes: 36 to the power of 10.
pub(crate) const NO_NAME: usize = 3_656_158_440_062_976;

/// A number below this one, 36 to the power of 9, has room for one more byte.
const ROOM: usize = 101_559_956_668_416;

/// Notes that the line begins HTML of this kind.
pub(crate) fn set_html<'a, M: MachineTypes>(t: &mut Tokenizer<'a, M>, kind: u8)
    ensures { t.new ≡ at_configuration t.old (with_local t.old.configuration (html_becomes kind t.old.configuration)) }
{
    t.tokenize_state.token_1 = event::Name::HtmlFlow;
    t.tokenize_state.marker_b = kind;
}

/// Notes whether a tag is a closing one.
pub(crate) fn set_closing<'a, M: MachineTypes>(t: &mut Tokenizer<'a, M>, closes: bool)
    ensures { t.new ≡ at_configuration t.old (with_local t.old.configuration (tag_closes closes t.old.configuration)) }
{
    t.tokenize_state.seen = closes;
}

/// Takes one more byte to the number of a name.
pub(crate) fn add_to_name<'a, M: MachineTypes>(t: &mut Tokenizer<'a, M>, byte: u8)
    ensures { t.new ≡ at_configuration t.old (with_local t.old.configuration (name_grows byte t.old.configuration)) }
{
    t.tokenize_state.size_b = one_byte_more(t.tokenize_state.size_b, byte);
}

/// Takes one more byte to the number of the name of a tag that ends HTML of kind 1. No listed name of these has a digit, and a digit zero
/// at the beginning would leave no trace in the number.
pub(crate) fn add_to_raw_name<'a, M: MachineTypes>(t: &mut Tokenizer<'a, M>, byte: u8)
    ensures { t.new ≡ at_configuration t.old (with_local t.old.configuration (raw_name_grows byte t.old.configuration)) }
{
    if byte.is_ascii_alphabetic() {
        t.tokenize_state.size_b = one_byte_more(t.tokenize_state.size_b, byte);
    } else {
        t.tokenize_state.size_b = NO_NAME;
    }
}

/// A number with one more digit.
fn one_byte_more(number: usize, byte: u8) -> usize
    ensures { result ≡ one_byte_more number byte }
{
    if number < ROOM {
        36 * number + digit_of(byte)
    } else {
        NO_NAME
    }
}

/// The value of a digit or a letter, whatever its case, as a digit in base 36.
fn digit_of(byte: u8) -> usize
    ensures { result ≡ digit_of byte }
{
    if byte < b':' {
        usize::from(byte.saturating_sub(b'0'))
    } else if byte < b'[' {
        usize::from(byte.saturating_sub(b'A' - 10))
    } else {
        usize::from(byte.saturating_sub(b'a' - 10))
    }
}

/// Whether it is the number of a name that begins HTML of kind 6.
fn is_block_name(number: usize) -> bool
    ensures { result ≡ is_number_in html_block_names number }
{
    matches!(
        number,
        // `address`, `article`, `aside`, `base`
        22_576_997_548 | 23_449_975_106 | 18_126_338 | 527_198
        // `basefont`, `blockquote`, `body`, `caption`
        | 885_490_927_769 | 1_178_310_947_160_866 | 544_822 | 26_769_417_431
        // `center`, `col`, `colgroup`, `dd`
        | 750_219_939 | 16_437 | 993_910_700_689 | 481
        // `details`, `dialog`, `dir`, `div`
        | 29_193_896_368 | 816_788_032 | 17_523 | 17_527
        // `dl`, `dt`, `fieldset`, `figcaption`
        | 489 | 497 | 1_215_526_985_237 | 1_575_459_924_403_415
        // `figure`, `footer`, `form`, `frame`
        | 938_012_090 | 948_461_283 | 731_938 | 26_467_718
        // `frameset`, `h1`, `h2`, `h3`
        | 1_234_877_887_829 | 613 | 614 | 615
        // `h4`, `h5`, `h6`, `head`
        | 616 | 617 | 618 | 811_669
        // `header`, `hr`, `html`, `iframe`
        | 1_051_923_555 | 639 | 831_549 | 1_114_858_886
        // `legend`, `li`, `link`, `main`
        | 1_294_069_801 | 774 | 1_003_952 | 1_040_063
        // `menu`, `menuitem`, `nav`, `noframes`
        | 1_045_434 | 1_755_928_551_262 | 30_199 | 1_855_571_388_148
        // `ol`, `optgroup`, `option`, `p`
        | 885 | 1_936_941_181_585 | 1_494_555_863 | 25
        // `param`, `search`, `section`, `summary`
        | 42_492_334 | 1_717_069_553 | 61_817_964_503 | 62_801_882_638
        // `table`, `tbody`, `td`, `tfoot`
        | 49_190_450 | 49_253_686 | 1_057 | 49_440_701
        // `th`, `thead`, `title`, `tr`
        | 1_061 | 49_520_533 | 49_587_026 | 1_071
        // `track`, `ul`
        | 49_981_988 | 1_101
    )
}

/// Whether it is the number of a name that begins HTML of kind 1.
fn is_raw_name(number: usize) -> bool
    ensures { result ≡ is_number_in html_raw_names number }
{
    matches!(
        number,
        // `pre`, `script`, `style`, `textarea`
        33_386 | 1_714_492_289 | 48_427_106 | 2_305_080_306_226
    )
}

/// Whether HTML blocks are on.
pub(crate) fn html_is_on<'a, M: MachineTypes>(t: &Tokenizer<'a, M>) -> bool
    ensures { result ≡ html_is_on t.now.given (sight_of t.now) t.now.configuration }
{
    t.parse_state().options.constructs.html_flow
}

/// Whether it is HTML of this kind.
pub(crate) fn html_is<'a, M: MachineTypes>(t: &Tokenizer<'a, M>, kind: u8) -> bool
    ensures { result ≡ html_is kind t.now.given (sight_of t.now) t.now.configuration }
{
    t.tokenize_state.marker_b == kind
}

/// Whether a blank line ends this HTML.
pub(crate) fn ends_at_blank_line<'a, M: MachineTypes>(t: &Tokenizer<'a, M>) -> bool
    ensures { result ≡ ends_at_blank_line t.now.given (sight_of t.now) t.now.configuration }
{
    t.tokenize_state.marker_b >= 6
}

/// Whether a paragraph goes on over the line, though it may begin a block: it is indented, or HTML of kind 7.
pub(crate) fn is_passed_over<'a, M: MachineTypes>(t: &Tokenizer<'a, M>) -> bool
    ensures { result ≡ is_passed_over t.now.given (sight_of t.now) t.now.configuration }
{
    t.tokenize_state.token_1 == event::Name::CodeIndented
        || t.tokenize_state.token_1 == event::Name::HtmlFlow && t.tokenize_state.marker_b == 7
}

/// Whether the tag is a closing one.
pub(crate) fn closes_tag<'a, M: MachineTypes>(t: &Tokenizer<'a, M>) -> bool
    ensures { result ≡ closes_tag t.now.given (sight_of t.now) t.now.configuration }
{
    t.tokenize_state.seen
}

/// Whether it is an opening tag of kind 1.
pub(crate) fn opens_raw<'a, M: MachineTypes>(t: &Tokenizer<'a, M>) -> bool
    ensures { result ≡ opens_raw t.now.given (sight_of t.now) t.now.configuration }
{
    !t.tokenize_state.seen && is_raw_name(t.tokenize_state.size_b)
}

/// Whether it is a tag of kind 6.
pub(crate) fn is_block_tag<'a, M: MachineTypes>(t: &Tokenizer<'a, M>) -> bool
    ensures { result ≡ is_block_tag t.now.given (sight_of t.now) t.now.configuration }
{
    is_block_name(t.tokenize_state.size_b)
}

/// Whether it is the name of a tag of kind 1.
pub(crate) fn is_raw_tag<'a, M: MachineTypes>(t: &Tokenizer<'a, M>) -> bool
    ensures { result ≡ is_raw_tag t.now.given (sight_of t.now) t.now.configuration }
{
    is_raw_name(t.tokenize_state.size_b)
}

/// Which byte of `CDATA[` comes behind so many.
fn cdata_byte(number: usize) -> u8
    ensures { result ≡ cdata_byte number }
{
    match number {
        0 => b'C',
        1 => b'D',
        2 => b'A',
        3 => b'T',
        4 => b'A',
        _ => b'[',
    }
}

/// Whether the next byte of `CDATA[` waits.
pub(crate) fn at_cdata<'a, M: MachineTypes>(t: &Tokenizer<'a, M>) -> bool
    ensures { result ≡ at_cdata t.now.given (sight_of t.now) t.now.configuration }
{
    t.current() == Some(cdata_byte(t.tokenize_state.size_b))
}
