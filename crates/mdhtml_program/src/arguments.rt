//! The program's command-line arguments.

ghost use Rattle.std.specs.Prelude.{◌≡◌, map, string_bytes};
ghost use Rattle.mdhtml_program.specs.Arguments.{asks_gfm, asks_two_tildes, choice_of_words, chosen_after, lets_all, once, options_of, stands_alone, tab_of, with_value, with_word};

use markdown_base::configuration::{Options, TabSize};
use mdprograms::numbers::{read_number, read_tab_size};

/// The usage line. It is shown if the arguments are not accepted.
pub const USAGE: &str =
    "usage: mdhtml [--unsafe] [--gfm] [--strikethrough-double-tilde] [--tab n] [--depth n]";

/// How HTML is written.
#[derive(Debug, Clone, Copy, PartialEq, Eq)]
pub struct Choice {
    /// Raw HTML and addresses with any scheme are written as they stand.
    pub is_unsafe: bool,
    /// Strikethrough, tables, footnotes, autolink literals and checks of tasks, as GFM has them, are read, and tags of raw HTML are filtered.
    pub is_gfm: bool,
    /// Two tildes alone strike through, where strikethrough is read.
    pub needs_two_tildes: bool,
    /// The tab size, if it is not 4.
    pub tab: Option<TabSize>,
    /// The limit of depth, if there is one.
    pub depth: Option<usize>,
}

/// Reads the arguments after the program's name: `--unsafe`, `--gfm`, `--strikethrough-double-tilde`, `--tab` with a number from 1 to 16, and `--depth`
/// with a number from 1 on. They come in any order, each at most once. Without them the HTML is safe, of CommonMark, the tab size 4, and there is no limit of depth.
/// Returns `None` if the arguments are not accepted; [`USAGE`] is then shown.
pub fn read_words(words: &[String]) -> Option<Choice>
    ensures { result ≡ choice_of_words (map string_bytes words.now) }
{
    let nothing = Choice {
        is_unsafe: false,
        is_gfm: false,
        needs_two_tildes: false,
        tab: None,
        depth: None,
    };
    read_options(words, nothing)
}

/// What the remaining arguments choose, after these. Returns `None` if they are not accepted.
fn read_options(words: &[String], so_far: Choice) -> Option<Choice>
    ensures chosen { result ≡ chosen_after so_far (map string_bytes words.now) }
{
    let Some((option, rest)) = words.split_first() else {
        return Some(so_far);
    };
    if stands_alone(option) {
        let so_far = with_word(so_far, option)?;
        return read_options(rest, so_far);
    }
    let (value, rest) = rest.split_first()?;
    let so_far = with_value(so_far, option.as_str(), value.as_str())?;
    read_options(rest, so_far)
}

/// Adds an option without a value. Returns `None` if there is no such option, or if it came before.
fn with_word(so_far: Choice, word: &String) -> Option<Choice>
    ensures { result ≡ with_word so_far (string_bytes word.now) }
{
    if lets_all(word) {
        if so_far.is_unsafe {
            return None;
        }
        Some(Choice {
            is_unsafe: true,
            ..so_far
        })
    } else if asks_gfm(word) {
        if so_far.is_gfm {
            return None;
        }
        Some(Choice {
            is_gfm: true,
            ..so_far
        })
    } else if asks_two_tildes(word) {
        if so_far.needs_two_tildes {
            return None;
        }
        Some(Choice {
            needs_two_tildes: true,
            ..so_far
        })
    } else {
        None
    }
}

/// Adds an option with its value. Returns `None` if there is no such option, or if it came before.
fn with_value(so_far: Choice, option: &str, value: &str) -> Option<Choice>
    ensures value { result ≡ with_value so_far option.now value.now }
{
    if option == "--tab" {
        let tab = once(so_far.tab, read_tab_size(value))?;
        Some(Choice {
            tab: Some(tab),
            ..so_far
        })
    } else if option == "--depth" {
        let depth = once(so_far.depth, read_number(value))?;
        Some(Choice {
            depth: Some(depth),
            ..so_far
        })
    } else {
        None
    }
}

/// A value, if there was none before.
fn once<T: Copy>(before: Option<T>, value: Option<T>) -> Option<T>
    ensures { result ≡ once before value }
{
    match before {
        Some(_) => None,
        None => value,
    }
}

/// Whether an argument is `--unsafe`.
fn lets_all(word: &String) -> bool
    ensures { result ≡ lets_all (string_bytes word.now) }
{
    word.as_str() == "--unsafe"
}

/// Whether an argument is `--gfm`.
fn asks_gfm(word: &String) -> bool
    ensures { result ≡ asks_gfm (string_bytes word.now) }
{
    word.as_str() == "--gfm"
}

/// Whether an argument is `--strikethrough-double-tilde`.
fn asks_two_tildes(word: &String) -> bool
    ensures { result ≡ asks_two_tildes (string_bytes word.now) }
{
    word.as_str() == "--strikethrough-double-tilde"
}

/// Whether an argument is an option without a value.
fn stands_alone(word: &String) -> bool
    ensures { result ≡ stands_alone (string_bytes word.now) }
{
    lets_all(word) || asks_gfm(word) || asks_two_tildes(word)
}

/// The tab size of a choice.
pub fn tab_of(choice: &Choice) -> TabSize
    ensures { result ≡ tab_of choice.now }
{
    match choice.tab {
        Some(size) => size,
        None => TabSize::default(),
    }
}

/// The options of a choice.
pub fn options_of(choice: &Choice) -> Options
    ensures { result ≡ options_of choice.now }
{
    let mut options = Options::default();
    options.parse.tab_size = tab_of(choice);
    options.parse.gfm_strikethrough_single_tilde = !choice.needs_two_tildes;
    options.parse.constructs.gfm_autolink_literal = choice.is_gfm;
    options.parse.constructs.gfm_footnote_definition = choice.is_gfm;
    options.parse.constructs.gfm_label_start_footnote = choice.is_gfm;
    options.parse.constructs.gfm_strikethrough = choice.is_gfm;
    options.parse.constructs.gfm_table = choice.is_gfm;
    options.parse.constructs.gfm_task_list_item = choice.is_gfm;
    options.compile.allow_dangerous_html = choice.is_unsafe;
    options.compile.allow_dangerous_protocol = choice.is_unsafe;
    options.compile.gfm_tagfilter = choice.is_gfm;
    options
}
