//! Tab stops and line endings: how far a tab reaches, and where a line ends.

ghost use Rattle.std.specs.Prelude.{◌≡◌, ◌<◌, ◌≤◌};
ghost use Rattle.markdown_base.specs.Lines.{ends_line};
ghost use Rattle.markdown_base.specs.Virtual.{tab_width};

/// The number of columns from a column, counted from 1, to the next tab stop. There is a tab stop at every `tab_size`
/// columns.
#[inline]
pub fn tab_width(tab_size: usize, column: usize) -> usize
    requires some { 0 < tab_size }
    requires first { 1 ≤ column }
    ensures width { result ≡ tab_width tab_size column }
{
    tab_size - (column - 1) % tab_size
}

/// Whether the byte at a byte index ends a line: a line feed does, and a carriage return that no line feed follows. None
/// does at the end of the bytes or past it.
#[inline]
pub fn ends_line(bytes: &[u8], index: usize) -> bool
    ensures end { result ≡ ends_line bytes.now index }
{
    match bytes.get(index) {
        Some(b'\n') => true,
        Some(b'\r') => bytes.get(index + 1) != Some(&b'\n'),
        _ => false,
    }
}
