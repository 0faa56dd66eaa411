//! Options as records, for callers that compare layouts.

ghost use Rattle.std.specs.Prelude.{◌≡◌};
ghost use Rattle.limecove.specs.Records.{echoed, echoed_html, echoed_range, echoed_text, numbered};

use crate::choose::{HtmlOptions, Options, TextOptions};
use crate::record::Record;
use mdconstructs::ranges::ByteRange;

/// A record with the number of each field, in their order: 1 to 9.
pub(crate) fn numbered() -> Record
    ensures { result ≡ numbered }
{
    Record {
        kind: 1,
        content: 2,
        name: 3,
        line: 4,
        column: 5,
        index: 6,
        vs: 7,
        previous: 8,
        next: 9,
    }
}

/// The numbers of options, in fields of a record: the machine as its name, the size as its line, the tab size as its column, the cut
/// as its index, `deep` as its `vs`, and the constructs as `previous`. The other fields are 0.
pub(crate) fn echo_of(options: &Options) -> Record
    ensures { result ≡ echoed options.now }
{
    Record {
        kind: 0,
        content: 0,
        name: options.machine,
        line: options.size,
        column: options.tab_size,
        index: options.cut,
        vs: options.deep as usize,
        previous: options.constructs as usize,
        next: 0,
    }
}

/// The numbers of options of text, in the same fields.
pub(crate) fn echo_of_text(options: &TextOptions) -> Record
    ensures { result ≡ echoed_text options.now }
{
    let constructs = options.constructs as usize;
    Record {
        kind: 0,
        content: 0,
        name: 0,
        line: options.size,
        column: options.tab_size,
        index: 0,
        vs: 0,
        previous: constructs,
        next: 0,
    }
}

/// The numbers of options of HTML, in the same fields; what they let through is `next`.
pub(crate) fn echo_of_html(options: &HtmlOptions) -> Record
    ensures { result ≡ echoed_html options.now }
{
    Record {
        kind: 0,
        content: 0,
        name: 0,
        line: options.size,
        column: options.tab_size,
        index: 0,
        vs: 0,
        previous: options.constructs as usize,
        next: options.allow as usize,
    }
}

/// The numbers of a range: where it begins as the line, and where it ends as the column. The other fields are 0.
pub(crate) fn echo_of_range(range: &ByteRange) -> Record
    ensures { result ≡ echoed_range range.now }
{
    Record {
        kind: 0,
        content: 0,
        name: 0,
        line: range.from,
        column: range.to,
        index: 0,
        vs: 0,
        previous: 0,
        next: 0,
    }
}
