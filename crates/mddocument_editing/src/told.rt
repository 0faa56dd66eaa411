//! Of which sections something is new, beside those that are replaced.

ghost use Rattle.std.specs.Option.{option_copied};
ghost use Rattle.std.specs.Prelude.{◌≡◌, ◌↔◌, ◌<◌, ◌+◌, ◌++◌, ◌∷◌, [], ◌^◌, IfNone, IfOk, IfSome, List, None, OnOk, is_some, length, ℕ, true};
ghost use Rattle.std.specs.List.{AllByRecursion};
ghost use Rattle.mddocument_editing.specs.Kept.{bytes_of_sections};
ghost use Rattle.mddocument_editing.specs.Known.{knows, part_events};
ghost use Rattle.mddocument_editing.specs.Leading.{first_said};
ghost use Rattle.mddocument_editing.specs.Put.{AreReread};
ghost use Rattle.mddocument_editing.specs.Said.{said_by, said_of};
ghost use Rattle.mddocument_editing.specs.Told.{ArePushed, AreToldAround, Goes, IsAgain, IsToldAs, IsToldNext, IsUntouched, all_saids, own_saids, read_next, saids_now, visit_of, visits_of};

use crate::defined::Defined;
use crate::edit::{Other, Why};
use crate::leads::{Leads, lead_as_before, touch};
use crate::reread::Reread;
use crate::said::{Said, push_saids, same_saids};
use crate::section::Section;
use markdown_base::configuration::ParseOptions;
use std::alloc::{AllocError, Global};

/// Sections in a row, and which of them were read again. It goes over them.
#[derive(Clone, Copy)]
pub(crate) struct Side<'a> {
    /// The sections.
    pub(crate) sections: &'a [Section],
    /// The number of the first one.
    pub(crate) first: usize,
    /// Those that were read again.
    pub(crate) rereads: &'a [Reread],
}

/// A section that is gone over: its number, and what it was read as, if it was read again.
#[derive(Clone, Copy)]
pub(crate) struct Visit<'a> {
    number: usize,
    section: &'a Section,
    found: Option<&'a Reread>,
}

/// What the section with a number is read as, if it is the first of those that were read again.
fn read_next(rereads: &[Reread], number: usize) -> Option<&Reread>
    ensures { option_copied result ≡ read_next number rereads.now }
{
    let reread = rereads.first()?;
    if reread.section == number {
        Some(reread)
    } else {
        None
    }
}

impl<'a> Iterator for Side<'a> {
    ghost use Rattle.std.specs.Iterator.{YieldsFirstBy, item_count};
    ghost use Rattle.std.specs.Prelude.{◌+◌, ◌<◌, ◌^◌, length};
    ghost use Rattle.mddocument_editing.specs.Told.{visit_of, visits_of};

    type Item = Visit<'a>;

    ghost can_next = { λ side. side.first + length side.sections.now < 2 ^ 64 };

    ghost next_gives = { YieldsFirstBy visit_of visits_of };

    ghost remaining = { item_count (λ side. side.sections.now) };

    fn next(&mut self) -> Option<Visit<'a>> {
        let (section, sections) = self.sections.split_first()?;
        let number = self.first;
        let found = read_next(self.rereads, number);
        if found.is_some() {
            self.rereads = &self.rereads[1..];
        }
        self.sections = sections;
        self.first += 1;
        Some(Visit {
            number,
            section,
            found,
        })
    }
}

/// What labels led to, and what they lead to: those that may lead elsewhere.
#[derive(Drop)]
struct Leading {
    old: Leads,
    new: Leads,
}

/// Appends the definitions that sections have.
fn push_own(all: &mut Vec<Said>, alloc: Global, sections: &[Section]) -> Result<(), AllocError>
    ensures { OnOk result (all.new.items ≡ all.old.items ++ own_saids sections.now) }
{
    for section in sections {
        push_saids(all, alloc, section.linking.as_ref().saids.as_slice())?;
    }
    Ok(())
}

/// Appends the definitions of a section, its own or those that it has now.
fn push_now(
    all: &mut Vec<Said>,
    alloc: Global,
    section: &Section,
    found: Option<&Reread>,
) -> Result<(), AllocError>
    ensures { OnOk result (all.new.items ≡ all.old.items ++ saids_now section.now (option_copied found.entry)) }
{
    match found {
        Some(reread) => push_saids(all, alloc, reread.linking.as_ref().saids.as_slice()),
        None => push_saids(all, alloc, section.linking.as_ref().saids.as_slice()),
    }
}

/// What is new of a section, which was read again or was not.
fn what_is_new(leading: &Leading, section: &Section, found: Option<&Reread>) -> Option<Why>
    ensures { IsToldAs (said_by leading.now.old) (said_by leading.now.new) section.now (is_some (option_copied found.entry)) result }
{
    if found.is_some() {
        return Some(Why::Events);
    }
    let labels = section.linking.as_ref().labels.as_slice();
    if lead_as_before(&leading.old, &leading.new, labels) {
        None
    } else {
        Some(Why::Targets)
    }
}

/// Appends a section, if something is new of it.
fn push_other(told: &mut Vec<Other>, section: usize, why: Option<Why>) -> Result<(), AllocError>
    ensures none { OnOk result (IfNone why (told.new.items ≡ told.old.items)) }
    ensures some { OnOk result (IfSome why (λ why. told.new.items ≡ told.old.items ++ record { section = section; why = why } ∷ [])) }
{
    if let Some(why) = why {
        told.push(Other { section, why })?;
    }
    Ok(())
}

/// Those of sections of which something is new.
fn tell_side(alloc: Global, leading: &Leading, side: Side) -> Result<Vec<Other>, AllocError>
    requires { side.first + length side.sections.now < 2 ^ 64 }
    ensures { IfOk result (λ told. Goes (IsToldNext (said_by leading.now.old) (said_by leading.now.new)) (visits_of side.entry) [] told.items) }
{
    let mut told = Vec::new(alloc);
    for visit in side {
        let why = what_is_new(leading, visit.section, visit.found);
        push_other(&mut told, visit.number, why)?;
    }
    Ok(told)
}

/// Sections that are replaced, and what is in front of them, in their place and behind them.
#[derive(Clone, Copy)]
pub(crate) struct Around<'a> {
    /// The sections in front.
    pub(crate) front: Side<'a>,
    /// Those that are replaced.
    pub(crate) gone: &'a [Section],
    /// Those that were read in their place.
    pub(crate) read: &'a [Section],
    /// The sections behind.
    pub(crate) behind: Side<'a>,
}

/// Appends what a section defined and what it defines now, if it was read again.
fn push_again(all: &mut Vec<Said>, alloc: Global, visit: &Visit) -> Result<(), AllocError>
    ensures { OnOk result (IsAgain (visit_of visit.now) all.old.items all.new.items) }
{
    if let Some(reread) = visit.found {
        push_saids(all, alloc, visit.section.linking.as_ref().saids.as_slice())?;
        push_saids(all, alloc, reread.linking.as_ref().saids.as_slice())?;
    }
    Ok(())
}

/// Appends what those of sections that were read again defined, and what they define now.
fn push_rereads(all: &mut Vec<Said>, alloc: Global, side: Side) -> Result<(), AllocError>
    requires { side.first + length side.sections.now < 2 ^ 64 }
    ensures { OnOk result (Goes IsAgain (visits_of side.entry) all.old.items all.new.items) }
{
    for visit in side {
        push_again(all, alloc, &visit)?;
    }
    Ok(())
}

/// The definitions whose labels may lead elsewhere: those of sections that are replaced, that come in their place or that were read again.
fn touched(
    alloc: Global,
    options: &ParseOptions,
    old: &Defined,
    new: &Defined,
    around: &Around,
) -> Result<Leads, AllocError>
    requires gone { AreReread (part_events options.now (knows old.now)) 0 around.now.gone.now [] }
    requires front { AreReread (part_events options.now (knows new.now)) around.now.front.first around.now.front.sections.now around.now.front.rereads.now }
    requires read { AreReread (part_events options.now (knows new.now)) 0 around.now.read.now [] }
    requires behind { AreReread (part_events options.now (knows new.now)) around.now.behind.first around.now.behind.sections.now around.now.behind.rereads.now }
    requires few { around.now.front.first + length around.now.front.sections.now < 2 ^ 64 }
    requires numbers { around.now.behind.first + length around.now.behind.sections.now < 2 ^ 64 }
    ensures gone { IfOk result (λ touched. (label : List ℕ) → said_by touched label ≡ None → said_of (all_saids (part_events options.now (knows old.now)) (bytes_of_sections around.now.gone.now)) label ≡ None) }
    ensures read { IfOk result (λ touched. (label : List ℕ) → said_by touched label ≡ None → said_of (all_saids (part_events options.now (knows new.now)) (bytes_of_sections around.now.read.now)) label ≡ None) }
    ensures front { IfOk result (λ touched. (label : List ℕ) → said_by touched label ≡ None → AllByRecursion (IsUntouched (part_events options.now (knows new.now)) label) around.now.front.sections.now) }
    ensures behind { IfOk result (λ touched. (label : List ℕ) → said_by touched label ≡ None → AllByRecursion (IsUntouched (part_events options.now (knows new.now)) label) around.now.behind.sections.now) }
{
    let mut all = Vec::new(alloc);
    push_own(&mut all, alloc, around.gone)?;
    push_own(&mut all, alloc, around.read)?;
    push_rereads(&mut all, alloc, around.front)?;
    push_rereads(&mut all, alloc, around.behind)?;
    let touched = Leads::of(alloc, all)?;
    Ok(touched)
}

/// What was defined, and what is defined now.
#[derive(Drop)]
pub(crate) struct Saids {
    pub(crate) olds: Vec<Said>,
    pub(crate) news: Vec<Said>,
}

/// Appends what a section defined and what it defines now, if it was read again or defines a touched label.
fn push_near(
    near: &mut Saids,
    alloc: Global,
    touched: &Leads,
    visit: &Visit,
) -> Result<(), AllocError>
    ensures { OnOk result (ArePushed (said_by touched.now) (visit_of visit.now) near.old near.new) }
{
    let saids = visit.section.linking.as_ref().saids.as_slice();
    if visit.found.is_some() || touch(touched, saids) {
        push_saids(&mut near.olds, alloc, saids)?;
        push_now(&mut near.news, alloc, visit.section, visit.found)?;
    }
    Ok(())
}

/// Appends what those of sections defined and what they define now that were read again or define a touched label.
fn push_nears(
    near: &mut Saids,
    alloc: Global,
    touched: &Leads,
    side: Side,
) -> Result<(), AllocError>
    requires { side.first + length side.sections.now < 2 ^ 64 }
    ensures { OnOk result (Goes (ArePushed (said_by touched.now)) (visits_of side.entry) near.old near.new) }
{
    for visit in side {
        push_near(near, alloc, touched, &visit)?;
    }
    Ok(())
}

/// What labels led to, and what they lead to; of a label that is touched by no section, neither.
fn near_leads(
    alloc: Global,
    options: &ParseOptions,
    old: &Defined,
    new: &Defined,
    around: &Around,
) -> Result<Leading, AllocError>
    requires old_front { AreReread (part_events options.now (knows old.now)) 0 around.now.front.sections.now [] }
    requires gone { AreReread (part_events options.now (knows old.now)) 0 around.now.gone.now [] }
    requires old_behind { AreReread (part_events options.now (knows old.now)) 0 around.now.behind.sections.now [] }
    requires front { AreReread (part_events options.now (knows new.now)) around.now.front.first around.now.front.sections.now around.now.front.rereads.now }
    requires read { AreReread (part_events options.now (knows new.now)) 0 around.now.read.now [] }
    requires behind { AreReread (part_events options.now (knows new.now)) around.now.behind.first around.now.behind.sections.now around.now.behind.rereads.now }
    requires few { around.now.front.first + length around.now.front.sections.now < 2 ^ 64 }
    requires numbers { around.now.behind.first + length around.now.behind.sections.now < 2 ^ 64 }
    ensures { let front = bytes_of_sections around.now.front.sections.now in let behind = bytes_of_sections around.now.behind.sections.now in
        let before = first_said (part_events options.now (knows old.now)) (front ++ (bytes_of_sections around.now.gone.now ++ behind)) in
        let now = first_said (part_events options.now (knows new.now)) (front ++ (bytes_of_sections around.now.read.now ++ behind)) in
        IfOk result (λ leading. (label : List ℕ) → (said_by leading.new label ≡ said_by leading.old label) ↔ (now label ≡ before label)) }
{
    let touched = touched(alloc, options, old, new, around)?;
    let olds = Vec::new(alloc);
    let news = Vec::new(alloc);
    let mut near = Saids { olds, news };
    push_nears(&mut near, alloc, &touched, around.front)?;
    push_own(&mut near.olds, alloc, around.gone)?;
    push_own(&mut near.news, alloc, around.read)?;
    push_nears(&mut near, alloc, &touched, around.behind)?;
    let before = Leads::of(alloc, near.olds)?;
    let now = Leads::of(alloc, near.news)?;
    Ok(Leading {
        old: before,
        new: now,
    })
}

/// Whether the sections that are replaced define what those in their place define.
fn define_as_before(
    alloc: Global,
    options: &ParseOptions,
    old: &Defined,
    new: &Defined,
    around: &Around,
) -> Result<bool, AllocError>
    requires gone { AreReread (part_events options.now (knows old.now)) 0 around.now.gone.now [] }
    requires read { AreReread (part_events options.now (knows new.now)) 0 around.now.read.now [] }
    ensures { IfOk result (λ same. same ≡ true → all_saids (part_events options.now (knows old.now)) (bytes_of_sections around.now.gone.now) ≡ all_saids (part_events options.now (knows new.now)) (bytes_of_sections around.now.read.now)) }
{
    let mut gone = Vec::new(alloc);
    push_own(&mut gone, alloc, around.gone)?;
    let mut read = Vec::new(alloc);
    push_own(&mut read, alloc, around.read)?;
    Ok(same_saids(gone.as_slice(), read.as_slice()))
}

/// Whether none was read again, and the sections that are replaced define what those in their place define.
fn lead_where_they_led(
    alloc: Global,
    options: &ParseOptions,
    old: &Defined,
    new: &Defined,
    around: &Around,
) -> Result<bool, AllocError>
    requires gone { AreReread (part_events options.now (knows old.now)) 0 around.now.gone.now [] }
    requires read { AreReread (part_events options.now (knows new.now)) 0 around.now.read.now [] }
    ensures front { IfOk result (λ same. same ≡ true → around.now.front.rereads.now ≡ []) }
    ensures behind { IfOk result (λ same. same ≡ true → around.now.behind.rereads.now ≡ []) }
    ensures saids { IfOk result (λ same. same ≡ true → all_saids (part_events options.now (knows old.now)) (bytes_of_sections around.now.gone.now) ≡ all_saids (part_events options.now (knows new.now)) (bytes_of_sections around.now.read.now)) }
{
    if !around.front.rereads.is_empty() || !around.behind.rereads.is_empty() {
        return Ok(false);
    }
    let same = define_as_before(alloc, options, old, new, around)?;
    Ok(same)
}

/// Those of the sections in front and behind of which something is new.
fn tell_sides(
    alloc: Global,
    options: &ParseOptions,
    old: &Defined,
    new: &Defined,
    around: Around,
) -> Result<Vec<Other>, AllocError>
    requires old_front { AreReread (part_events options.now (knows old.now)) 0 around.front.sections.now [] }
    requires old_gone { AreReread (part_events options.now (knows old.now)) 0 around.gone.now [] }
    requires old_behind { AreReread (part_events options.now (knows old.now)) 0 around.behind.sections.now [] }
    requires front { AreReread (part_events options.now (knows new.now)) 0 around.front.sections.now around.front.rereads.now }
    requires first { around.front.first ≡ 0 }
    requires read { AreReread (part_events options.now (knows new.now)) 0 around.read.now [] }
    requires behind { AreReread (part_events options.now (knows new.now)) around.behind.first around.behind.sections.now around.behind.rereads.now }
    requires few { length around.front.sections.now < 2 ^ 64 }
    requires numbers { around.behind.first + length around.behind.sections.now < 2 ^ 64 }
    ensures { let front = bytes_of_sections around.entry.front.sections.now in let behind = bytes_of_sections around.entry.behind.sections.now in
        IfOk result (λ told. AreToldAround (part_events options.now (knows new.now))
        (first_said (part_events options.now (knows old.now)) (front ++ (bytes_of_sections around.entry.gone.now ++ behind)))
        (first_said (part_events options.now (knows new.now)) (front ++ (bytes_of_sections around.entry.read.now ++ behind)))
        around.entry.behind.first around.entry.front.sections.now around.entry.behind.sections.now told.items) }
{
    let leading = near_leads(alloc, options, old, new, &around)?;
    let mut told = tell_side(alloc, &leading, around.front)?;
    let mut more = tell_side(alloc, &leading, around.behind)?;
    told.append(&mut more)?;
    Ok(told)
}

/// Those of the sections in front and behind of which something is new: they were read again, or a link of theirs leads elsewhere. If none was read again,
/// links are looked at only if other definitions are in the place of those that were replaced.
pub(crate) fn tell(
    alloc: Global,
    options: &ParseOptions,
    old: &Defined,
    new: &Defined,
    around: Around,
) -> Result<Vec<Other>, AllocError>
    requires old_front { AreReread (part_events options.now (knows old.now)) 0 around.front.sections.now [] }
    requires old_gone { AreReread (part_events options.now (knows old.now)) 0 around.gone.now [] }
    requires old_behind { AreReread (part_events options.now (knows old.now)) 0 around.behind.sections.now [] }
    requires front { AreReread (part_events options.now (knows new.now)) 0 around.front.sections.now around.front.rereads.now }
    requires first { around.front.first ≡ 0 }
    requires read { AreReread (part_events options.now (knows new.now)) 0 around.read.now [] }
    requires behind { AreReread (part_events options.now (knows new.now)) around.behind.first around.behind.sections.now around.behind.rereads.now }
    requires few { length around.front.sections.now < 2 ^ 64 }
    requires numbers { around.behind.first + length around.behind.sections.now < 2 ^ 64 }
    ensures { let front = bytes_of_sections around.entry.front.sections.now in let behind = bytes_of_sections around.entry.behind.sections.now in
        IfOk result (λ told. AreToldAround (part_events options.now (knows new.now))
        (first_said (part_events options.now (knows old.now)) (front ++ (bytes_of_sections around.entry.gone.now ++ behind)))
        (first_said (part_events options.now (knows new.now)) (front ++ (bytes_of_sections around.entry.read.now ++ behind)))
        around.entry.behind.first around.entry.front.sections.now around.entry.behind.sections.now told.items) }
{
    let same = lead_where_they_led(alloc, options, old, new, &around)?;
    if same {
        return Ok(Vec::new(alloc));
    }
    let told = tell_sides(alloc, options, old, new, around)?;
    Ok(told)
}
