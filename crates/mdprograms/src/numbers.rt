//! Numbers in arguments.

ghost use Rattle.std.specs.Prelude.{◌≡◌, ◌≤◌, IfSome};
ghost use Rattle.std.specs.Char.{is_ascii_digit};
ghost use Rattle.std.specs.List.{list_all};
ghost use Rattle.mdprograms.specs.Numbers.{decimal_of, tab_size_of};

use markdown_base::configuration::TabSize;

/// The number of an argument of decimal digits, if it is at least 1 and fits `usize`.
pub fn read_number(word: &str) -> Option<usize>
    ensures number { result ≡ decimal_of word.now }
    ensures some { IfSome result (λ n. 1 ≤ n) }
{
    if !is_decimal(word) {
        return None;
    }
    match word.parse::<usize>() {
        Ok(number) => (number > 0).then_some(number),
        Err(_) => None,
    }
}

/// The tab size of an argument of decimal digits, if its number is from 1 to 16.
pub fn read_tab_size(word: &str) -> Option<TabSize>
    ensures { result ≡ tab_size_of word.now }
{
    let number = read_number(word)?;
    TabSize::new(number)
}

/// Whether all bytes of an argument are decimal digits.
fn is_decimal(word: &str) -> bool
    ensures { result ≡ list_all is_ascii_digit word.now }
{
    word.bytes().all(|byte| byte.is_ascii_digit())
}
