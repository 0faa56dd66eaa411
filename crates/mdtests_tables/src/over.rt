//! A machine that reads over bytes, and its twin that is called for each of them: cuts, gaps, tabs and line endings show no difference.

ghost use Rattle.std.specs.Prelude.{◌≡◌, ◌+◌, ◌*◌, ◌<◌, ℕ, IfOk, get_or, false, true};
ghost use Rattle.markdown.specs.Virtual.{IsWithinLimit};
ghost use Rattle.mdconstructs_tables.specs.RowInvariant.{DoesAll, IsCallable, step_in};
ghost use Rattle.mdtests_tables.specs.Over.{data_inside, is_text, text_start};

use crate::shown::assert_shown;
use markdown::configuration::TabSize;
use markdown::event::{self, Point};
use markdown::state::{ByteSet, Machine, MachineTypes, Name, State};
use markdown::subtokenize::Subresult;
use markdown::tokenizer::{AfterGap, Fault, Tokenizer, follow_on, point_at};
use mdconstructs_tables::marker;
use mdtests_base::documents::lines_by;
use mdtests_base::pushed::read_by;
use mdtests_base::shown::point_of;
use std::alloc::{AllocError, Global};

/// Reads the data of each line, and line endings.
#[derive(Drop)]
pub struct Over {
    /// Whether it says that it reads over data. It does not for `*`, for which it is called.
    pub over: bool,
}

impl MachineTypes for Over {
    type Resolver = ();

    type Document = ();
}

impl Machine for Over {
    ghost use Rattle.mdconstructs_tables.proofs.Tables.Lawful.{plain-lawful};
    ghost use Rattle.mdtests_tables.specs.Over.{over, over_rules};
    ghost use Rattle.mdtests_tables.specs.Laws.Over.{over-fit, over-plain};

    ghost rules = { λ _. over_rules };

    fn call<'a>(
        &self,
        alloc: Global,
        t: &mut Tokenizer<'a, Self>,
        name: Name,
    ) -> Result<State, AllocError> {
        t.tick();
        match name {
            Name::TextStart => text_start(t),
            Name::DataInside => data_inside(t),
            _ => unreachable!(),
        }
    }

    fn reads_over(&self, name: Name) -> Option<&'static ByteSet> {
        if !self.over {
            return None;
        }
        match name {
            Name::DataInside => Some(data_bytes()),
            _ => None,
        }
    }

    /// Never called, as it registers no resolver.
    fn resolve<'a>(
        &self,
        alloc: Global,
        t: &mut Tokenizer<'a, Self>,
        name: (),
    ) -> Result<Option<Subresult>, Fault> {
        Ok(None)
    }

    ghost lawful = { λ _ g. plain-lawful over g over-fit over-plain };
}

/// The bytes above CR but `*`.
static DATA: ByteSet = [
    false, false, false, false, false, false, false, false, false, false, false, false, false,
    false, true, true, true, true, true, true, true, true, true, true, true, true, true, true,
    true, true, true, true, true, true, true, true, true, true, true, true, true, true, false,
    true, true, true, true, true, true, true, true, true, true, true, true, true, true, true, true,
    true, true, true, true, true, true, true, true, true, true, true, true, true, true, true, true,
    true, true, true, true, true, true, true, true, true, true, true, true, true, true, true, true,
    true, true, true, true, true, true, true, true, true, true, true, true, true, true, true, true,
    true, true, true, true, true, true, true, true, true, true, true, true, true, true, true, true,
    true, true, true, true, true, true, true, true, true, true, true, true, true, true, true, true,
    true, true, true, true, true, true, true, true, true, true, true, true, true, true, true, true,
    true, true, true, true, true, true, true, true, true, true, true, true, true, true, true, true,
    true, true, true, true, true, true, true, true, true, true, true, true, true, true, true, true,
    true, true, true, true, true, true, true, true, true, true, true, true, true, true, true, true,
    true, true, true, true, true, true, true, true, true, true, true, true, true, true, true, true,
    true, true, true, true, true, true, true, true, true, true, true, true, true, true, true, true,
    true, true, true, true, true, true, true, true, true, true, true, true, true, true, true, true,
    true, true, true, true, true,
];

/// The bytes that are read over: those of data, but `*`.
fn data_bytes() -> &'static ByteSet
    ensures { (byte : ℕ) → get_or result.now byte false ≡ true → (13 < byte) × (is_text byte ≡ true) }
{
    &DATA
}

/// Before data, or before a line ending.
fn text_start<'a>(t: &mut Tokenizer<'a, Over>) -> Result<State, AllocError>
    requires { IsCallable is_text text_start t.old }
    ensures { IfOk result (DoesAll (step_in is_text text_start t.old) t.old t.new) }
{
    match t.current() {
        None => Ok(State::Ok),
        Some(b'\n') => {
            marker(t, event::Name::LineEnding)?;
            Ok(State::Next(Name::TextStart))
        }
        Some(_) => {
            t.enter(event::Name::Data)?;
            Ok(State::Retry(Name::DataInside))
        }
    }
}

/// In data.
fn data_inside<'a>(t: &mut Tokenizer<'a, Over>) -> Result<State, AllocError>
    requires { IsCallable is_text data_inside t.old }
    ensures { IfOk result (DoesAll (step_in is_text data_inside t.old) t.old t.new) }
{
    match t.current() {
        None => {
            t.exit(event::Name::Data)?;
            Ok(State::Ok)
        }
        Some(b'\n') => {
            t.exit(event::Name::Data)?;
            Ok(State::Retry(Name::TextStart))
        }
        Some(_) => {
            t.consume();
            Ok(State::Next(Name::DataInside))
        }
    }
}

/// A range, and if a gap is before it, the line and the column at which it begins.
type Row = (Option<(usize, usize)>, (usize, usize), (usize, usize));

/// A document, and ranges of it: without gaps; with gaps of two bytes; with gaps in tabs; and with a gap before a CR LF.
const DOCUMENTS: &[(&[u8], &[Row])] = &[
    (b"ab*c\r\nd\te\rfg\nh", &[(None, (0, 0), (14, 0))]),
    (
        b"> ab\n> c\td",
        &[
            (Some((1, 3)), (2, 0), (5, 0)),
            (Some((2, 3)), (7, 0), (10, 0)),
        ],
    ),
    (
        b"a\n\tb*c",
        &[(None, (0, 0), (2, 0)), (Some((2, 3)), (2, 2), (6, 0))],
    ),
    (
        b"ab\r\n>\r\n> c",
        &[
            (None, (0, 0), (4, 0)),
            (Some((2, 2)), (5, 0), (7, 0)),
            (Some((3, 3)), (9, 0), (10, 0)),
        ],
    ),
];

/// These ranges, of which the one with this place in it, if one has it, is cut there.
fn cut_at(alloc: Global, rows: &[Row], cut: (usize, usize)) -> Result<Vec<AfterGap>, AllocError> {
    let mut ranges = Vec::new(alloc);
    for (gap, from, to) in rows {
        let gap = point_of(*from, *gap);
        if is_before(*from, cut) && is_before(cut, *to) {
            ranges.push((gap, *from, cut))?;
            ranges.push((None, cut, *to))?;
        } else {
            ranges.push((gap, *from, *to))?;
        }
    }
    Ok(ranges)
}

/// Whether a place is before another.
fn is_before(one: (usize, usize), other: (usize, usize)) -> bool {
    one.0 < other.0 || one.0 == other.0 && one.1 < other.1
}

/// Whether the machine that reads over bytes and its twin see the same after each push of these ranges, and make the same events. The
/// ranges have to follow on one another.
fn same_by_both(alloc: Global, bytes: &[u8], ranges: &[AfterGap]) -> Result<bool, AllocError>
    requires limit { IsWithinLimit 4 bytes.now }
{
    let tab = TabSize::default();
    if !follow_on(bytes, tab, Point::START, ranges) {
        return Err(AllocError);
    }
    let start = Name::TextStart;
    let called = read_by(alloc, &Over { over: false }, start, bytes, tab, ranges)?;
    let over = read_by(alloc, &Over { over: true }, start, bytes, tab, ranges)?;
    Ok(
        called.pushed.as_slice() == over.pushed.as_slice()
            && called.events.as_slice() == over.events.as_slice(),
    )
}

/// The first place of a document at which a cut makes a difference between both, if there is one.
fn difference(
    alloc: Global,
    bytes: &[u8],
    rows: &[Row],
) -> Result<Option<(usize, usize)>, AllocError>
    requires limit { IsWithinLimit 4 bytes.now }
{
    let tab = TabSize::default();
    for number in 0..bytes.len().saturating_add(1).saturating_mul(4) {
        let cut = (number / 4, number % 4);
        if point_at(bytes, tab, cut).is_some() {
            let ranges = cut_at(alloc, rows, cut)?;
            if !same_by_both(alloc, bytes, ranges.as_slice())? {
                return Ok(Some(cut));
            }
        }
    }
    Ok(None)
}

/// Each document is cut at each of its places.
#[test]
fn bytes_read_over_leave_no_trace(rt: HostRuntime) {
    for &(bytes, rows) in DOCUMENTS {
        assert!(rt; bytes.len() < 99);
        let found = difference(rt.alloc(), bytes, rows);
        assert_eq!(rt; found.expect(&rt, "memory"), None);
    }
}

/// Both make the events that are written here.
#[test]
fn bytes_read_over_are_read(rt: HostRuntime) {
    let bytes = b"ab*c\nd";
    let want =
        "Data 1:1 (0+0) to 1:5 (4+0); LineEnding 1:5 (4+0) to 2:1 (5+0); Data 2:1 (5+0) to 2:2 (6+0)";
    for over in [false, true] {
        let read = lines_by(
            rt.alloc(),
            &Over { over },
            Name::TextStart,
            bytes,
            99,
            false,
        );
        assert_shown(&rt, read, want);
    }
}
