//! HTML of lists of events, typed by hand: of those that documents do not have.

use markdown_base::configuration::Options;
use markdown_base::event::{Event, Kind, Name, Point};
use mdhtml_document::html::html_of_events;
use std::alloc::{AllocError, Global};

/// What comes next among events.
#[derive(Clone, Copy)]
enum Step {
    /// A span begins, with others in it.
    In(Name),
    /// A span over so many bytes, with no others in it.
    Leaf(Name, usize),
    /// The innermost span that is open ends.
    Out,
}

use Step::{In, Leaf, Out};

/// The start or the end of a span of the first line.
fn event(kind: Kind, name: Name, index: usize) -> Event {
    Event {
        kind,
        name,
        point: Point {
            line: 1,
            column: index.saturating_add(1),
            index,
            vs: 0,
        },
        link: None,
    }
}

/// The events of steps.
fn events_of(alloc: Global, steps: &[Step]) -> Result<Vec<Event>, AllocError> {
    let mut events = Vec::new(alloc);
    let mut open: Vec<Name> = Vec::new(alloc);
    let mut at = 0usize;
    for step in steps {
        match *step {
            Step::In(name) => {
                events.push(event(Kind::Enter, name, at))?;
                open.push(name)?;
            }
            Step::Leaf(name, size) => {
                events.push(event(Kind::Enter, name, at))?;
                at = at.saturating_add(size);
                events.push(event(Kind::Exit, name, at))?;
            }
            Step::Out => {
                if let Some(name) = open.pop() {
                    events.push(event(Kind::Exit, name, at))?;
                }
            }
        }
    }
    Ok(events)
}

/// Checks of tasks: in a list of two items; and in a heading, where one is nothing.
const TASKS: &[(&[u8], &[Step], &[u8])] = &[
    (
        b"- [x] a\n- [ ]  b",
        &[
            In(Name::ListUnordered),
            In(Name::ListItem),
            In(Name::ListItemPrefix),
            Leaf(Name::ListItemMarker, 1),
            Leaf(Name::SpaceOrTab, 1),
            Out,
            In(Name::Paragraph),
            In(Name::GfmTaskListItemCheck),
            Leaf(Name::GfmTaskListItemMarker, 1),
            Leaf(Name::GfmTaskListItemValueChecked, 1),
            Leaf(Name::GfmTaskListItemMarker, 1),
            Out,
            Leaf(Name::Data, 2),
            Out,
            Out,
            Leaf(Name::LineEnding, 1),
            In(Name::ListItem),
            In(Name::ListItemPrefix),
            Leaf(Name::ListItemMarker, 1),
            Leaf(Name::SpaceOrTab, 1),
            Out,
            In(Name::Paragraph),
            In(Name::GfmTaskListItemCheck),
            Leaf(Name::GfmTaskListItemMarker, 1),
            Leaf(Name::GfmTaskListItemValueUnchecked, 1),
            Leaf(Name::GfmTaskListItemMarker, 1),
            Out,
            Leaf(Name::Data, 3),
            Out,
            Out,
            Out,
        ],
        b"<ul>\n<li><input type=\"checkbox\" checked=\"\" disabled=\"\" /> a</li>\n<li><input type=\"checkbox\" disabled=\"\" />  b</li>\n</ul>\n",
    ),
    (
        b"# [x] a",
        &[
            In(Name::HeadingAtx),
            Leaf(Name::HeadingAtxSequence, 1),
            Leaf(Name::SpaceOrTab, 1),
            In(Name::HeadingAtxText),
            In(Name::GfmTaskListItemCheck),
            Leaf(Name::GfmTaskListItemMarker, 1),
            Leaf(Name::GfmTaskListItemValueChecked, 1),
            Leaf(Name::GfmTaskListItemMarker, 1),
            Out,
            Leaf(Name::Data, 2),
            Out,
            Out,
        ],
        b"<h1> a</h1>\n",
    ),
];

/// Tables: cells that are aligned in three ways and not, a pipe in code, a row of fewer cells, one of more; and one with a head alone, in a list.
const TABLES: &[(&[u8], &[Step], &[u8])] = &[
    (
        b"a|b|c|d\n:-|-:|:-:|-\n`e\\|f`\n1|2|3|4|5",
        &[
            In(Name::GfmTable),
            In(Name::GfmTableHead),
            In(Name::GfmTableRow),
            In(Name::GfmTableCell),
            In(Name::GfmTableCellText),
            Leaf(Name::Data, 1),
            Out,
            Out,
            In(Name::GfmTableCell),
            Leaf(Name::GfmTableCellDivider, 1),
            In(Name::GfmTableCellText),
            Leaf(Name::Data, 1),
            Out,
            Out,
            In(Name::GfmTableCell),
            Leaf(Name::GfmTableCellDivider, 1),
            In(Name::GfmTableCellText),
            Leaf(Name::Data, 1),
            Out,
            Out,
            In(Name::GfmTableCell),
            Leaf(Name::GfmTableCellDivider, 1),
            In(Name::GfmTableCellText),
            Leaf(Name::Data, 1),
            Out,
            Out,
            Out,
            Leaf(Name::LineEnding, 1),
            In(Name::GfmTableDelimiterRow),
            In(Name::GfmTableDelimiterCell),
            In(Name::GfmTableDelimiterCellValue),
            Leaf(Name::GfmTableDelimiterMarker, 1),
            Leaf(Name::GfmTableDelimiterFiller, 1),
            Out,
            Out,
            In(Name::GfmTableDelimiterCell),
            Leaf(Name::GfmTableCellDivider, 1),
            In(Name::GfmTableDelimiterCellValue),
            Leaf(Name::GfmTableDelimiterFiller, 1),
            Leaf(Name::GfmTableDelimiterMarker, 1),
            Out,
            Out,
            In(Name::GfmTableDelimiterCell),
            Leaf(Name::GfmTableCellDivider, 1),
            In(Name::GfmTableDelimiterCellValue),
            Leaf(Name::GfmTableDelimiterMarker, 1),
            Leaf(Name::GfmTableDelimiterFiller, 1),
            Leaf(Name::GfmTableDelimiterMarker, 1),
            Out,
            Out,
            In(Name::GfmTableDelimiterCell),
            Leaf(Name::GfmTableCellDivider, 1),
            In(Name::GfmTableDelimiterCellValue),
            Leaf(Name::GfmTableDelimiterFiller, 1),
            Out,
            Out,
            Out,
            Out,
            Leaf(Name::LineEnding, 1),
            In(Name::GfmTableBody),
            In(Name::GfmTableRow),
            In(Name::GfmTableCell),
            In(Name::GfmTableCellText),
            In(Name::CodeText),
            Leaf(Name::CodeTextSequence, 1),
            Leaf(Name::CodeTextData, 4),
            Leaf(Name::CodeTextSequence, 1),
            Out,
            Out,
            Out,
            Out,
            Leaf(Name::LineEnding, 1),
            In(Name::GfmTableRow),
            In(Name::GfmTableCell),
            In(Name::GfmTableCellText),
            Leaf(Name::Data, 1),
            Out,
            Out,
            In(Name::GfmTableCell),
            Leaf(Name::GfmTableCellDivider, 1),
            In(Name::GfmTableCellText),
            Leaf(Name::Data, 1),
            Out,
            Out,
            In(Name::GfmTableCell),
            Leaf(Name::GfmTableCellDivider, 1),
            In(Name::GfmTableCellText),
            Leaf(Name::Data, 1),
            Out,
            Out,
            In(Name::GfmTableCell),
            Leaf(Name::GfmTableCellDivider, 1),
            In(Name::GfmTableCellText),
            Leaf(Name::Data, 1),
            Out,
            Out,
            In(Name::GfmTableCell),
            Leaf(Name::GfmTableCellDivider, 1),
            In(Name::GfmTableCellText),
            Leaf(Name::Data, 1),
            Out,
            Out,
            Out,
            Out,
            Out,
        ],
        b"<table>\n<thead>\n<tr>\n<th align=\"left\">a</th>\n<th align=\"right\">b</th>\n<th align=\"center\">c</th>\n<th>d</th>\n</tr>\n</thead>\n<tbody>\n<tr>\n<td align=\"left\"><code>e|f</code></td>\n<td align=\"right\"></td>\n<td align=\"center\"></td>\n<td></td>\n</tr>\n<tr>\n<td align=\"left\">1</td>\n<td align=\"right\">2</td>\n<td align=\"center\">3</td>\n<td>4</td>\n</tr>\n</tbody>\n</table>\n",
    ),
    (
        b"- |a\n|-",
        &[
            In(Name::ListUnordered),
            In(Name::ListItem),
            In(Name::ListItemPrefix),
            Leaf(Name::ListItemMarker, 1),
            Leaf(Name::SpaceOrTab, 1),
            Out,
            In(Name::GfmTable),
            In(Name::GfmTableHead),
            In(Name::GfmTableRow),
            In(Name::GfmTableCell),
            Leaf(Name::GfmTableCellDivider, 1),
            In(Name::GfmTableCellText),
            Leaf(Name::Data, 1),
            Out,
            Out,
            Out,
            Leaf(Name::LineEnding, 1),
            In(Name::GfmTableDelimiterRow),
            In(Name::GfmTableDelimiterCell),
            Leaf(Name::GfmTableCellDivider, 1),
            In(Name::GfmTableDelimiterCellValue),
            Leaf(Name::GfmTableDelimiterFiller, 1),
            Out,
            Out,
            Out,
            Out,
            Out,
            Out,
            Out,
        ],
        b"<ul>\n<li>\n<table>\n<thead>\n<tr>\n<th>a</th>\n</tr>\n</thead>\n</table>\n</li>\n</ul>\n",
    ),
];

/// Whether documents, by events, have HTML.
fn have_html(alloc: Global, documents: &[(&[u8], &[Step], &[u8])]) -> Result<bool, AllocError> {
    let options = Options::default();
    for &(document, steps, wanted) in documents {
        let events = events_of(alloc, steps)?;
        let html = html_of_events(
            alloc,
            document,
            events.as_slice(),
            &options.compile,
            options.parse.tab_size,
        )?;
        if html.as_slice() != wanted {
            return Ok(false);
        }
    }
    Ok(true)
}

#[test]
fn tasks_have_boxes(rt: HostRuntime) -> Result<(), AllocError> {
    assert!(rt; have_html(rt.alloc(), TASKS)?);
    Ok(())
}

#[test]
fn tables_have_rows_of_their_columns(rt: HostRuntime) -> Result<(), AllocError> {
    assert!(rt; have_html(rt.alloc(), TABLES)?);
    Ok(())
}
