//! A linter: rules about the headings, the fenced code and the links of a document.
//!
//! What the rules look at is found by the events of the document. Each of these functions goes over the events once, and once more over those of
//! each heading and of each opening fence. Of a link it looks at each event in it eight times at most, and, if it is a reference, at each event in
//! its definition six times at most. Where labels are defined is found once for all links, in linear time.

ghost use Rattle.std.specs.Prelude.{◌≡◌, ◌++◌, ◌∷◌, [], List, ℕ, IfOk, OnOk};
ghost use Rattle.markdown.specs.declared.event.Name.TheVariants as name;
ghost use Rattle.markdown.specs.Engine.{given_by};
ghost use Rattle.markdown.specs.Virtual.{IsWithinLimit};
ghost use Rattle.mdconstructs.specs.DefinedAt.{defined_at};
ghost use Rattle.mdconstructs.specs.DocumentEvents.{document_events};
ghost use Rattle.mdconstructs.specs.Targets.{definition_of};
ghost use Rattle.mdexamples.specs.Linter.{broken, byte_of_first, enters, exits, fence_at, fences, from_first, heading_at, headings, is_info_or_end, language_behind, leads_nowhere, link_at, links, missing_destinations, missing_languages, problems_in, rank_at, said, second_titles, size_of_first, skipped_ranks};

use markdown::configuration::ParseOptions;
use markdown::event::{Event, Kind, Name};
use markdown::owned::Items;
use mdconstructs::definitions::{Definitions, definitions_of};
use mdconstructs::read_document;
use mdconstructs::targets::{Parts, Target, decoded, parts_of, target_of};
use std::alloc::{AllocError, Global};
use std::fmt;

/// A heading.
#[derive(Clone, Copy, Debug, PartialEq, Eq)]
pub struct Heading {
    /// The line on which it begins, from 1.
    pub line: usize,
    /// Its rank, from 1 to 6.
    pub rank: usize,
}

/// Fenced code.
#[derive(Debug, PartialEq, Eq, Drop)]
pub struct Fence {
    /// The line on which it begins, from 1.
    pub line: usize,
    /// The first word of its info string, decoded, if it has one.
    pub language: Option<Items<u8>>,
}

/// A link or an image.
#[derive(Debug, PartialEq, Eq, Drop)]
pub struct FoundLink {
    /// The line on which it begins, from 1.
    pub line: usize,
    /// Whether it is an image.
    pub is_image: bool,
    /// The destination and the title, decoded: its own, or those of the definition that it refers to. `None` if that is not defined.
    pub parts: Option<Parts>,
}

/// What a document should not have.
#[derive(Clone, Copy, Debug, PartialEq, Eq)]
pub enum Rule {
    /// A heading whose rank is more than one above that of the heading before.
    SkippedRank,
    /// A second heading of rank 1.
    SecondTitle,
    /// Fenced code without a language.
    NoLanguage,
    /// A link or an image without a destination.
    NoDestination,
}

/// A rule that is broken.
#[derive(Clone, Copy, Debug, PartialEq, Eq)]
pub struct Problem {
    /// The line on which the heading, the code or the link begins, from 1.
    pub line: usize,
    /// The rule.
    pub rule: Rule,
}

impl fmt::Display for Problem {
    /// Writes the line and what is there, as `4: fenced code without a language`.
    fn fmt<W: fmt::Write>(&self, f: &mut fmt::Formatter<W>) -> fmt::Result {
        let what = match self.rule {
            Rule::SkippedRank => "a heading that skips a rank",
            Rule::SecondTitle => "a second heading of rank 1",
            Rule::NoLanguage => "fenced code without a language",
            Rule::NoDestination => "a link or an image without a destination",
        };
        write!(f, "{}: {what}", self.line)
    }
}

/// Whether an event enters a span of a name.
fn enters(event: &Event, name: Name) -> bool
    ensures { result ≡ enters name event.now }
{
    event.kind == Kind::Enter && event.name == name
}

/// Whether an event exits a span of a name.
fn exits(event: &Event, name: Name) -> bool
    ensures { result ≡ exits name event.now }
{
    event.kind == Kind::Exit && event.name == name
}

/// The events from the first enter of a name on. There are none if there is no such enter.
fn from_enter(events: &[Event], name: Name) -> &[Event]
    ensures { result.now ≡ from_first (enters name) events.now }
{
    for (i, event) in events.iter().enumerate() {
        if enters(event, name) {
            return &events[i..];
        }
    }
    &[]
}

/// The events from the info of a fence on, or from the end of the fence on, if it has no info.
fn from_info(events: &[Event]) -> &[Event]
    ensures { result.now ≡ from_first is_info_or_end events.now }
{
    for (i, event) in events.iter().enumerate() {
        if enters(event, Name::CodeFencedFenceInfo) || exits(event, Name::CodeFencedFence) {
            return &events[i..];
        }
    }
    &[]
}

/// How many bytes there are from the first event to the second, if there are both.
fn size_of_first(events: &[Event]) -> Option<usize>
    ensures { result ≡ size_of_first events.now }
{
    match events {
        [enter, exit, ..] => Some(exit.point.index.saturating_sub(enter.point.index)),
        _ => None,
    }
}

/// The byte at the first event, if there is one.
fn byte_of_first(bytes: &[u8], events: &[Event]) -> Option<u8>
    ensures { result ≡ byte_of_first bytes.now events.now }
{
    match events {
        [enter, ..] => bytes.get(enter.point.index).copied(),
        [] => None,
    }
}

/// The rank of the heading that an event enters, if it does so, by the events behind it.
fn rank_at(bytes: &[u8], event: &Event, behind: &[Event]) -> Option<usize>
    ensures { result ≡ rank_at bytes.now event.now behind.now }
{
    if enters(event, Name::HeadingAtx) {
        size_of_first(from_enter(behind, Name::HeadingAtxSequence))
    } else if enters(event, Name::HeadingSetext) {
        let underline = from_enter(behind, Name::HeadingSetextUnderlineSequence);
        byte_of_first(bytes, underline).map(|byte| if byte == b'=' { 1 } else { 2 })
    } else {
        None
    }
}

/// The heading that an event enters, if it does so, by the events behind it.
fn heading_at(bytes: &[u8], event: &Event, behind: &[Event]) -> Option<Heading>
    ensures { result ≡ heading_at bytes.now event.now behind.now }
{
    let rank = rank_at(bytes, event, behind)?;
    Some(Heading {
        line: event.point.line,
        rank,
    })
}

/// The headings of a document, in their order, by its events. Fails only if it runs out of memory.
pub fn headings(alloc: Global, bytes: &[u8], events: &[Event]) -> Result<Vec<Heading>, AllocError>
    ensures { IfOk result (λ found. found.items ≡ headings bytes.now events.now) }
{
    let mut found = Vec::new(alloc);
    for (i, event) in events.iter().enumerate() {
        if let Some(heading) = heading_at(bytes, event, &events[i + 1..]) {
            found.push(heading)?;
        }
    }
    Ok(found)
}

/// The language of fenced code, by the events behind its enter.
fn language_behind(
    alloc: Global,
    bytes: &[u8],
    behind: &[Event],
) -> Result<Option<Items<u8>>, AllocError>
    ensures { IfOk result (λ language. language ≡ language_behind bytes.now behind.now) }
{
    decoded(alloc, bytes, from_info(behind), 0)
}

/// The fenced code that an event enters, if it does so, by the events behind it.
fn fence_at(
    alloc: Global,
    bytes: &[u8],
    event: &Event,
    behind: &[Event],
) -> Result<Option<Fence>, AllocError>
    ensures { IfOk result (λ fence. fence ≡ fence_at bytes.now event.now behind.now) }
{
    if !enters(event, Name::CodeFenced) {
        return Ok(None);
    }
    let language = language_behind(alloc, bytes, behind)?;
    Ok(Some(Fence {
        line: event.point.line,
        language,
    }))
}

/// The fenced code of a document, in its order, by its events. Fails only if it runs out of memory.
pub fn fences(alloc: Global, bytes: &[u8], events: &[Event]) -> Result<Vec<Fence>, AllocError>
    ensures { IfOk result (λ found. found.items ≡ fences bytes.now events.now) }
{
    let mut found = Vec::new(alloc);
    for (i, event) in events.iter().enumerate() {
        if let Some(fence) = fence_at(alloc, bytes, event, &events[i + 1..])? {
            found.push(fence)?;
        }
    }
    Ok(found)
}

/// What a target says among the events of a document, by the definitions of these.
fn said(
    alloc: Global,
    bytes: &[u8],
    events: &[Event],
    definitions: &Definitions,
    target: Target,
) -> Result<Option<Parts>, AllocError>
    requires { (label : List ℕ) → defined_at definitions.now label ≡ definition_of bytes.now events.now label }
    ensures { IfOk result (λ parts. parts ≡ said bytes.now events.now target) }
{
    match target {
        Target::Parts(parts) => Ok(Some(parts)),
        Target::Label(label) => match definitions.get(label.as_slice()) {
            None => Ok(None),
            Some(at) => parts_of(alloc, bytes, events, at),
        },
    }
}

/// The link or image that the first of these events enters, if it does so, by the events of the document and the definitions of these.
fn link_at(
    alloc: Global,
    bytes: &[u8],
    events: &[Event],
    definitions: &Definitions,
    from: &[Event],
) -> Result<Option<FoundLink>, AllocError>
    requires { (label : List ℕ) → defined_at definitions.now label ≡ definition_of bytes.now events.now label }
    ensures { IfOk result (λ link. link ≡ link_at bytes.now events.now from.now) }
{
    match (from, target_of(alloc, bytes, from, 0)?) {
        ([event, ..], Some(target)) => {
            let parts = said(alloc, bytes, events, definitions, target)?;
            Ok(Some(FoundLink {
                line: event.point.line,
                is_image: event.name == Name::Image,
                parts,
            }))
        }
        _ => Ok(None),
    }
}

/// The links and images of a document, in the order in which they begin, by its events. Fails only if it runs out of memory.
pub fn links(alloc: Global, bytes: &[u8], events: &[Event]) -> Result<Vec<FoundLink>, AllocError>
    ensures { IfOk result (λ found. found.items ≡ links bytes.now events.now) }
{
    let definitions = definitions_of(alloc, bytes, events)?;
    let mut found = Vec::new(alloc);
    for at in 0..events.len() {
        if let Some(link) = link_at(alloc, bytes, events, &definitions, &events[at..])? {
            found.push(link)?;
        }
    }
    Ok(found)
}

/// Adds that a rule is broken at a line.
fn report(found: &mut Vec<Problem>, rule: Rule, line: usize) -> Result<(), AllocError>
    ensures { OnOk result (found.new.items ≡ found.old.items ++ broken rule line ∷ []) }
{
    Ok(found.push(Problem { line, rule })?)
}

/// Adds the headings whose rank is more than one above that of the heading before.
fn report_skipped_ranks(found: &mut Vec<Problem>, headings: &[Heading]) -> Result<(), AllocError>
    ensures { OnOk result (found.new.items ≡ found.old.items ++ skipped_ranks headings.now) }
{
    for at in 1..headings.len() {
        let heading = headings[at];
        if heading.rank.saturating_sub(headings[at - 1].rank) > 1 {
            report(found, Rule::SkippedRank, heading.line)?;
        }
    }
    Ok(())
}

/// Adds the headings of rank 1 behind the first one.
fn report_second_titles(found: &mut Vec<Problem>, headings: &[Heading]) -> Result<(), AllocError>
    ensures { OnOk result (found.new.items ≡ found.old.items ++ second_titles headings.now) }
{
    let mut has_title = false;
    for heading in headings {
        if heading.rank == 1 {
            if has_title {
                report(found, Rule::SecondTitle, heading.line)?;
            }
            has_title = true;
        }
    }
    Ok(())
}

/// Adds the fenced code that has no language.
fn report_missing_languages(found: &mut Vec<Problem>, fences: &[Fence]) -> Result<(), AllocError>
    ensures { OnOk result (found.new.items ≡ found.old.items ++ missing_languages fences.now) }
{
    for fence in fences {
        if fence.language.is_none() {
            report(found, Rule::NoLanguage, fence.line)?;
        }
    }
    Ok(())
}

/// Whether a link has no destination.
fn leads_nowhere(link: &FoundLink) -> bool
    ensures { result ≡ leads_nowhere link.now }
{
    match &link.parts {
        None => true,
        Some(parts) => parts.destination.as_slice().is_empty(),
    }
}

/// Adds the links and images that have no destination.
fn report_missing_destinations(
    found: &mut Vec<Problem>,
    links: &[FoundLink],
) -> Result<(), AllocError>
    ensures { OnOk result (found.new.items ≡ found.old.items ++ missing_destinations links.now) }
{
    for link in links {
        if leads_nowhere(link) {
            report(found, Rule::NoDestination, link.line)?;
        }
    }
    Ok(())
}

/// The problems of a document, by its events: rule by rule, and of each rule in the order of the document. Fails only if it runs out of memory.
pub fn problems_in(
    alloc: Global,
    bytes: &[u8],
    events: &[Event],
) -> Result<Vec<Problem>, AllocError>
    ensures { IfOk result (λ found. found.items ≡ problems_in bytes.now events.now) }
{
    let headings = headings(alloc, bytes, events)?;
    let fences = fences(alloc, bytes, events)?;
    let links = links(alloc, bytes, events)?;
    let mut found = Vec::new(alloc);
    report_skipped_ranks(&mut found, headings.as_slice())?;
    report_second_titles(&mut found, headings.as_slice())?;
    report_missing_languages(&mut found, fences.as_slice())?;
    report_missing_destinations(&mut found, links.as_slice())?;
    Ok(found)
}

/// The problems of a document: rule by rule, and of each rule in the order of the document. Fails only if it runs out of memory.
pub fn problems(
    alloc: Global,
    bytes: &[u8],
    options: &ParseOptions,
) -> Result<Vec<Problem>, AllocError>
    requires { IsWithinLimit options.now.tab_size bytes.now }
    ensures { IfOk result (λ found. found.items ≡ problems_in bytes.now (document_events (given_by bytes.now options.now))) }
{
    let events = read_document(alloc, bytes, options)?;
    problems_in(alloc, bytes, events.as_slice())
}
