//! The program's command-line arguments.

ghost use Rattle.std.specs.Prelude.{◌≡◌, ◌≤◌, IfSome, map, string_bytes};
ghost use Rattle.mdevents_program.specs.Choices.{CanCut};
ghost use Rattle.mdevents_program.specs.Arguments.{choice_of_words, which_of};
ghost use Rattle.mdevents_program.specs.ArgumentsInner.{once, with_value, taken_of, chosen_after};

use crate::choice::links_text;
pub use crate::choice::{Choice, Which};
use markdown::configuration::TabSize;
use mdprograms::numbers::{read_number, read_tab_size};

/// The usage line. It is shown if the arguments are not accepted.
pub const USAGE: &str = "usage: mdevents [--cut n] [--deep] [--machine name] [--tab n]";

/// Reads the arguments after the program's name: `--cut` with a number, `--deep`, `--machine` with a name, and `--tab` with a
/// number from 1 to 16. They come in any order, each at most once. The default machine is `lines`, and the default tab size 4.
/// `--deep` is accepted only with the machines `paragraphs`, `text`, `flow`, `document` and `gfm`. Returns `None` if the arguments are not accepted;
/// [`USAGE`] is then shown.
pub fn read_words(words: &[String]) -> Option<Choice>
    ensures chosen { result ≡ choice_of_words (map string_bytes words.now) }
    ensures cut { IfSome result CanCut }
{
    let nothing = SoFar {
        cut: None,
        deep: false,
        machine: None,
        tab: None,
    };
    read_options(words, nothing)
}

/// The options that came so far, with their values.
#[derive(Clone, Copy)]
struct SoFar {
    cut: Option<usize>,
    deep: bool,
    machine: Option<Which>,
    tab: Option<TabSize>,
}

/// What the remaining arguments choose, after these options. Returns `None` if they are not accepted.
fn read_options(words: &[String], so_far: SoFar) -> Option<Choice>
    requires cut { IfSome so_far.cut (λ n. 1 ≤ n) }
    ensures chosen { result ≡ chosen_after so_far (map string_bytes words.now) }
    ensures cut { IfSome result CanCut }
{
    let Some((option, rest)) = words.split_first() else {
        return taken(so_far);
    };
    let option = option.as_str();
    if option == "--deep" {
        if so_far.deep {
            return None;
        }
        let deeply = SoFar {
            deep: true,
            ..so_far
        };
        return read_options(rest, deeply);
    }
    let (value, rest) = rest.split_first()?;
    let so_far = with_value(so_far, option, value.as_str())?;
    read_options(rest, so_far)
}

/// Adds an option with its value. Returns `None` if there is no such option, or if it came before.
fn with_value(so_far: SoFar, option: &str, value: &str) -> Option<SoFar>
    requires cut { IfSome so_far.cut (λ n. 1 ≤ n) }
    ensures value { result ≡ with_value so_far option.now value.now }
    ensures cut { IfSome result (λ new. IfSome new.cut (λ n. 1 ≤ n)) }
{
    if option == "--cut" {
        let cut = once(so_far.cut, read_number(value))?;
        Some(SoFar {
            cut: Some(cut),
            ..so_far
        })
    } else if option == "--machine" {
        let machine = once(so_far.machine, read_which(value))?;
        Some(SoFar {
            machine: Some(machine),
            ..so_far
        })
    } else if option == "--tab" {
        let tab = once(so_far.tab, read_tab_size(value))?;
        Some(SoFar {
            tab: Some(tab),
            ..so_far
        })
    } else {
        None
    }
}

/// A value, if there was none before.
fn once<T: Copy>(before: Option<T>, value: Option<T>) -> Option<T>
    ensures { result ≡ once before value }
{
    match before {
        Some(_) => None,
        None => value,
    }
}

/// The choice of these options. Returns `None` if they are not accepted together.
fn taken(so_far: SoFar) -> Option<Choice>
    requires cut { IfSome so_far.cut (λ n. 1 ≤ n) }
    ensures taken { result ≡ taken_of so_far }
    ensures cut { IfSome result CanCut }
{
    let machine = so_far.machine.unwrap_or(Which::Lines);
    if so_far.deep && !links_text(machine) {
        return None;
    }
    let tab = match so_far.tab {
        Some(size) => size,
        None => TabSize::default(),
    };
    Some(Choice {
        cut: so_far.cut,
        deep: so_far.deep,
        machine,
        tab,
    })
}

/// The machine with this name.
fn read_which(name: &str) -> Option<Which>
    ensures { result ≡ which_of name.now }
{
    if name == "lines" {
        Some(Which::Lines)
    } else if name == "paragraphs" {
        Some(Which::Paragraphs)
    } else if name == "peek" {
        Some(Which::Peek)
    } else if name == "deep" {
        Some(Which::Deep)
    } else if name == "back" {
        Some(Which::Back)
    } else if name == "save" {
        Some(Which::Save)
    } else if name == "text" {
        Some(Which::Text)
    } else if name == "flow" {
        Some(Which::Flow)
    } else if name == "document" {
        Some(Which::Document)
    } else if name == "gfm" {
        Some(Which::Gfm)
    } else {
        None
    }
}
