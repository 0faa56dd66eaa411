//! Where a document can be cut.

ghost use Rattle.std.specs.Prelude.{◌≡◌, ◌<◌, ◌==◌, ◌&&◌, not, ℕ, List, IfOk, length, map};
ghost use Rattle.mdblock_leaf_blocks.specs.LeafBlocks.{Line, text_of};
ghost use Rattle.mdblock_lines.specs.Containers.{Container};
ghost use Rattle.mdblock_lines.specs.Views.{kind_of};
ghost use Rattle.mdblock_containers.specs.Views.{IsRow, begun_of, leaf_of, open_of};
ghost use Rattle.mdblock_definitions.specs.Rows.{Known as KnownOf, row_of};
ghost use Rattle.mddocument_parts.specs.DocumentRests.{begins_anew, is_closed, joins_list};
ghost use Rattle.mddocument_parts.specs.Rests.{begins_near};
ghost use Rattle.mddocument_editing.specs.FirstRest.{IsFirstRest};
ghost use Rattle.mddocument_editing.specs.Seen.{first_marker};

use markdown_base::configuration::{Constructs, ParseOptions};
use mdblock_containers::going::is_item;
use mdblock_containers::leaves::Leaf;
use mdblock_containers::rows::Row;
use mdblock_definitions::rows::{Known, next_row};
use mdblock_lines::kinds::{LineKind, line_kind};
use mdconstructs_loop_counts::Turns;
use std::alloc::{AllocError, Global};
use std::marker::Brand;
use std::sync::ledger::{Blank, Ledger};

/// What is known before a line that decides whether it begins anew: whether no leaf block is open, and the marker of the list that it may go
/// on with.
#[derive(Clone, Copy)]
struct Seen {
    is_closed: bool,
    list: Option<u8>,
}

/// What is seen of what is known.
fn seen_of(known: &Known) -> Seen
    ensures closed { result.is_closed ≡ is_closed (leaf_of known.now.before.leaf) }
    ensures list { result.list ≡ first_marker (map open_of known.now.before.stack.items) }
{
    Seen {
        is_closed: is_closed(known.before.leaf),
        list: list_of(known),
    }
}

/// Whether no leaf block is open.
fn is_closed(leaf: Leaf) -> bool
    ensures { result ≡ is_closed (leaf_of leaf) }
{
    match leaf {
        Leaf::Closed => true,
        Leaf::Paragraph | Leaf::Fenced(_) | Leaf::Html(_) | Leaf::Table => false,
    }
}

/// The marker of the first open container, if it is a list item.
fn list_of(known: &Known) -> Option<u8>
    ensures { result ≡ first_marker (map open_of known.now.before.stack.items) }
{
    let first = known.before.stack.first()?;
    if is_item(first.container.kind) {
        Some(first.container.marker)
    } else {
        None
    }
}

/// Whether a line of this kind is neither blank nor indented code.
fn begins_near(kind: LineKind) -> bool
    ensures { result ≡ begins_near (kind_of kind) }
{
    match kind {
        LineKind::Blank | LineKind::Indented => false,
        _ => true,
    }
}

/// Whether the first container that begins goes on with a list.
fn joins_list(list: Option<u8>, row: &Row) -> bool
    ensures { (number : ℕ) (ended : List Container) → first_marker ended ≡ list → result ≡ joins_list ended (begun_of row.now.list number row.now.begun.items) }
{
    let Some(first) = row.begun.first() else {
        return false;
    };
    match list {
        None => false,
        Some(marker) => is_item(first.container.kind) && first.container.marker == marker,
    }
}

/// Whether no leaf block is open before a line, no container goes on with it, and it goes on with no list.
fn stands_alone(seen: Seen, row: &Row) -> bool
    ensures { (number : ℕ) (ended : List Container) → first_marker ended ≡ seen.list → result ≡ (seen.is_closed && ((row.now.many == 0) && not (joins_list ended (begun_of row.now.list number row.now.begun.items)))) }
{
    seen.is_closed && row.many == 0 && !joins_list(seen.list, row)
}

/// Whether a line begins anew, by what was seen before it, its virtual bytes and its containers.
fn begins_anew<L: Ledger>(
    on: &Constructs,
    seen: Seen,
    t: &[u8],
    row: &Row,
    turns: &mut Turns<L>,
) -> bool
    ensures { (k : KnownOf) (number : ℕ) (line : Line) → is_closed k.before.leaf ≡ seen.is_closed → first_marker k.before.stack ≡ seen.list → text_of line ≡ t.now → IsRow number row.now (row_of on.now k number line) → result ≡ begins_anew on.now k number line }
{
    stands_alone(seen, row) && begins_near(line_kind(on, t, turns))
}

/// As [`first_rest`], counted.
fn first_rest_counted<L: Ledger>(
    alloc: Global,
    bytes: &[u8],
    options: &ParseOptions,
    turns: &mut Turns<L>,
) -> Result<usize, AllocError>
    requires some { 0 < length bytes.now }
    ensures { IfOk result (IsFirstRest options.now bytes.now) }
{
    let tab = options.tab_size;
    let on = &options.constructs;
    let tab_size = tab.get();
    prove!(tab_size >= 1);
    let mut known = Known::new(alloc);
    let mut line = Vec::new(alloc);
    let mut start = 0;
    let mut number = 1;
    while start < bytes.len() {
        let seen = seen_of(&known);
        let at = next_row(
            alloc, bytes, tab, on, &mut known, &mut line, number, start, turns,
        )?;
        if start > 0 && begins_anew(on, seen, line.as_slice(), &at.row, turns) {
            return Ok(start);
        }
        start = at.span.next;
        number += 1;
    }
    Ok(bytes.len())
}

fn first_rest_uncounted<L: Ledger>(
    alloc: Global,
    bytes: &[u8],
    options: &ParseOptions,
    blank: Blank,
) -> Result<usize, AllocError>
    requires filled { 0 < length bytes.now }
    requires name { blank.name ≡ L.name }
    requires parts { blank.parts ≡ L.parts }
    requires some { 0 < blank.parts }
    ensures { IfOk result (IsFirstRest options.now bytes.now) }
{
    let mut turns = Turns::<L>::new(blank);
    first_rest_counted(alloc, bytes, options, &mut turns)
}

/// The index of the first rest in a document behind its beginning; its end, if there is none. It fails only if it runs out of memory.
pub fn first_rest(alloc: Global, bytes: &[u8], options: &ParseOptions) -> Result<usize, AllocError>
    requires some { 0 < length bytes.now }
    ensures { IfOk result (IsFirstRest options.now bytes.now) }
{
    first_rest_uncounted::<Brand>(alloc, bytes, options, Blank::new(1))
}
