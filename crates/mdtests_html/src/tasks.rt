//! Checks of task list items, in whole documents.

use markdown_base::configuration::ParseOptions;
use markdown_base::event::{Kind, Name};
use mddocument::documents::read_document;
use mdgfm_tasks::events::with_tasks;
use std::alloc::AllocError;

/// Documents, and their checks: the byte index of what is between the brackets, and whether it is checked.
const CHECKS: &[(&[u8], &[(usize, bool)])] = &[
    (
        b"- [ ] a\n* [x] b\n+ [X] c\n1. [x] d\n2) [ ] e",
        &[(3, false), (11, true), (19, true), (28, true), (37, false)],
    ),
    (b"- [\t] a\n- [x]\tb", &[(3, false), (11, true)]),
    (b"> - [x] a\n> - b", &[(5, true)]),
    (b"- - [x] a\n- 1. [ ] b", &[(5, true), (16, false)]),
    (b"-\n  [x] a", &[(5, true)]),
    (b"- [b]: c\n\n  [x] a", &[(13, true)]),
    (b"> -\n>\n> [x] a\n>   [x] b", &[]),
    (b"-    [x] a\n     [ ] b", &[(6, true)]),
    (b"- [x] a](u) *b* `c`", &[(3, true)]),
    (b"- [x] [y](u)\n- [x] <b>", &[(3, true), (16, true)]),
    (b"- a\n\n  [x] b", &[]),
    (b"- [x] a\n\n  [x] b", &[(3, true)]),
    (b"- # [x] a\n- [x] b\n  ---", &[]),
    (b"- > [x] a\n- ```\n  [x] a\n  ```", &[]),
    (b"[x] a\n\n> [x] b", &[]),
    (b"- [x]\n- [x] \n- [x]\n  a", &[]),
    (
        b"- [y] a\n- [] a\n- [xX] a\n- [x]a\n- [ x] a\n- \\[x] a\n- [\xc2\xa0] a",
        &[],
    ),
    (
        b"- [x] a\n- [x](u) b\n- [x][] c\n- [ ] d\n\n[x]: u",
        &[(3, true), (32, false)],
    ),
    (b"- [x] a\n- `[x] b`\n- ![x] c\n- *[x] d*", &[(3, true)]),
];

#[test]
fn documents_have_checks(rt: HostRuntime) -> Result<(), AllocError> {
    let options = ParseOptions::gfm();
    for &(document, wanted) in CHECKS {
        let read = read_document(rt.alloc(), document, &options)?;
        let all = with_tasks(rt.alloc(), document, &options, read)?;
        let mut found = Vec::new(rt.alloc());
        for event in all.as_slice() {
            if event.kind == Kind::Enter && event.name == Name::GfmTaskListItemValueChecked {
                found.push((event.point.index, true))?;
            }
            if event.kind == Kind::Enter && event.name == Name::GfmTaskListItemValueUnchecked {
                found.push((event.point.index, false))?;
            }
        }
        assert!(rt; found.as_slice() == wanted);
    }
    Ok(())
}

/// The kinds, names and places of the events of a check and its paragraph.
const PARAGRAPH: &[(Kind, Name, usize, usize)] = &[
    (Kind::Enter, Name::Paragraph, 2, 3),
    (Kind::Enter, Name::GfmTaskListItemCheck, 2, 3),
    (Kind::Enter, Name::GfmTaskListItemMarker, 2, 3),
    (Kind::Exit, Name::GfmTaskListItemMarker, 3, 4),
    (Kind::Enter, Name::GfmTaskListItemValueUnchecked, 3, 4),
    (Kind::Exit, Name::GfmTaskListItemValueUnchecked, 4, 5),
    (Kind::Enter, Name::GfmTaskListItemMarker, 4, 5),
    (Kind::Exit, Name::GfmTaskListItemMarker, 5, 6),
    (Kind::Exit, Name::GfmTaskListItemCheck, 5, 6),
    (Kind::Enter, Name::Data, 5, 6),
    (Kind::Exit, Name::Data, 7, 10),
    (Kind::Exit, Name::Paragraph, 7, 10),
];

#[test]
fn checks_take_the_place_of_data(rt: HostRuntime) -> Result<(), AllocError> {
    let document = b"- [\t]\ta";
    let options = ParseOptions::gfm();
    let read = read_document(rt.alloc(), document, &options)?;
    let all = with_tasks(rt.alloc(), document, &options, read)?;
    let mut found = Vec::new(rt.alloc());
    for event in all.as_slice() {
        found.push((
            event.kind,
            event.name,
            event.point.index,
            event.point.column,
        ))?;
    }
    assert!(rt; found.len() == 22 && found.as_slice().get(8..20) == Some(PARAGRAPH));
    let off = ParseOptions::default();
    let read = read_document(rt.alloc(), document, &off)?;
    let same = with_tasks(rt.alloc(), document, &off, read)?;
    assert!(rt; same.len() == 20);
    Ok(())
}
