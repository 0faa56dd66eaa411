//! The text of lines of a paragraph.

ghost use Rattle.std.specs.Prelude.{◌≡◌, ◌≤◌, ◌+◌, ◌*◌, List, IfOk, drop, length, ◌&&◌, nat_le, take};
ghost use Rattle.std.specs.List.{list_all};
ghost use Rattle.mdblock_lines.specs.Lines.{line_bytes};
ghost use Rattle.mdblock_containers.specs.Letters.{is_plain};
ghost use Rattle.mdblock_containers.specs.Rows.{Row as RowOf};
ghost use Rattle.mdblock_definitions.specs.Costs.{bytes_in, bytes_of};
ghost use Rattle.mdblock_definitions.specs.Held.{HaveTexts};
ghost use Rattle.mdblock_definitions.specs.Laws.{begins_with_bracket};
ghost use Rattle.mdblock_definitions.specs.Sections.{text_in};

use crate::texts::{begins_with_bracket, hold};
use markdown_base::configuration::TabSize;
use mdblock_containers::spans::RowAt;
use mdblock_containers::texts::text_at;
use mdblock_lines::bytes::{behind, front};
use mdconstructs_loop_counts::Turns;
use std::alloc::AllocError;
use std::sync::ledger::Ledger;

/// The text of lines: what they have behind their prefixes, joined by line feeds. `line` is room for the bytes of one.
pub fn hold_lines<L: Ledger>(
    text: &mut Vec<u8>,
    bytes: &[u8],
    tab: TabSize,
    rows: &[RowAt],
    line: &mut Vec<u8>,
    turns: &mut Turns<L>,
) -> Result<(), AllocError>
    ghost all: { List RowOf }
    requires { HaveTexts tab bytes.now rows.now all }
    ensures text { IfOk result (λ _. text.new.items ≡ text_in all) }
    ensures turns { turns.new ≤ turns.old + 4 * bytes_in tab bytes.now rows.now }
{
    let tab_size = tab.get();
    prove!(tab_size >= 1);
    text.clear();
    let mut goes_on = false;
    for at in rows {
        turns.add_one();
        let read = text_at(line, bytes, tab, at.span.start, turns)?;
        let rest = behind(read.bytes, at.row.columns);
        hold(text, goes_on, rest)?;
        goes_on = true;
    }
    Ok(())
}

/// Whether a byte is no tab, and no part of a line ending.
fn is_plain(byte: u8) -> bool
    ensures { result ≡ is_plain byte }
{
    byte != b'\t' && byte != b'\n' && byte != b'\r'
}

/// Whether all bytes are.
fn are_plain<L: Ledger>(t: &[u8], turns: &mut Turns<L>) -> bool
    ensures value { result ≡ list_all is_plain t.now }
    ensures turns { turns.new ≤ turns.old + length t.now }
{
    let mut next = 0;
    while next < t.len() {
        turns.add_one();
        if !is_plain(t[next]) {
            return false;
        }
        next += 1;
    }
    true
}

/// Whether the first of these bytes, so many, are.
fn is_plain_front<L: Ledger>(t: &[u8], columns: usize, turns: &mut Turns<L>) -> bool
    ensures value { result ≡ (nat_le columns (length t.now) && list_all is_plain (take columns t.now)) }
    ensures turns { turns.new ≤ turns.old + columns }
{
    columns <= t.len() && are_plain(front(t, columns), turns)
}

/// Whether a line begins with `[`, behind its prefixes and white space. `line` is room for its bytes: they are copied only if a tab is in its prefixes.
pub(crate) fn has_bracket<L: Ledger>(
    bytes: &[u8],
    tab: TabSize,
    at: &RowAt,
    line: &mut Vec<u8>,
    turns: &mut Turns<L>,
) -> Result<bool, AllocError>
    requires inside { at.now.span.start ≤ length bytes.now }
    requires within { let s = at.now.span in at.now.row.columns ≤ length (line_bytes tab s.number 1 s.start (drop s.start bytes.now)) }
    ensures value { let s = at.now.span in IfOk result (λ is. is ≡ begins_with_bracket (drop at.now.row.columns (line_bytes tab s.number 1 s.start (drop s.start bytes.now)))) }
    ensures turns { turns.new ≤ turns.old + 6 * bytes_of tab bytes.now at.now }
{
    let tab_size = tab.get();
    prove!(tab_size >= 1);
    let rest = behind(bytes, at.span.start);
    let columns = at.row.columns;
    if is_plain_front(rest, columns, turns) {
        let plain = behind(rest, columns);
        return Ok(begins_with_bracket(plain, turns));
    }
    let read = text_at(line, bytes, tab, at.span.start, turns)?;
    let text = behind(read.bytes, columns);
    Ok(begins_with_bracket(text, turns))
}
