//! Which bytes may look up a label that comes or goes.

ghost use Rattle.std.specs.Prelude.{◌≡◌, [], IfOk};
ghost use Rattle.mdinline_labels.specs.Defined.{defines};
ghost use Rattle.mddocument_editing.specs.InBrackets.{AreAllNear, asks_for, changes, label_ends, may_ask};
ghost use Rattle.mddocument_editing.specs.Known.{knows, link, note};

use crate::defined::Defined;
use mdinline_labels::labels::Labels;
use std::alloc::{AllocError, Global};

/// Whether a label is defined in one of two sets, and not in the other.
fn is_changed(
    alloc: Global,
    old: &Labels,
    new: &Labels,
    near: &Labels,
    label: &[u8],
) -> Result<bool, AllocError>
    requires { AreAllNear (defines old.now) (defines new.now) (defines near.now) }
    ensures { IfOk result (λ is. is ≡ changes (defines old.now) (defines new.now) label.now) }
{
    let is_near = near.contains(alloc, label)?;
    if !is_near {
        return Ok(false);
    }
    Ok(old.contains(alloc, label)? != new.contains(alloc, label)?)
}

/// Whether a text is a label of links that changes.
fn is_link_changed(
    alloc: Global,
    old: &Defined,
    new: &Defined,
    near: &Defined,
    label: &[u8],
) -> Result<bool, AllocError>
    requires { AreAllNear (knows old.now) (knows new.now) (knows near.now) }
    ensures { IfOk result (λ is. is ≡ changes (knows old.now) (knows new.now) (link label.now)) }
{
    let labels = &near.machine.labels;
    is_changed(
        alloc,
        &old.machine.labels,
        &new.machine.labels,
        labels,
        label,
    )
}

/// Whether a text is a label of footnotes that changes.
fn is_note_changed(
    alloc: Global,
    old: &Defined,
    new: &Defined,
    near: &Defined,
    label: &[u8],
) -> Result<bool, AllocError>
    requires { AreAllNear (knows old.now) (knows new.now) (knows near.now) }
    ensures { IfOk result (λ is. is ≡ changes (knows old.now) (knows new.now) (note label.now)) }
{
    is_changed(alloc, &old.notes, &new.notes, &near.notes, label)
}

/// Whether what stands between brackets asks for a label that changes.
fn asks_for(
    alloc: Global,
    old: &Defined,
    new: &Defined,
    near: &Defined,
    text: &[u8],
) -> Result<bool, AllocError>
    requires { AreAllNear (knows old.now) (knows new.now) (knows near.now) }
    ensures { IfOk result (λ asks. asks ≡ asks_for (changes (knows old.now) (knows new.now)) text.now) }
{
    if is_link_changed(alloc, old, new, near, text)? {
        return Ok(true);
    }
    match text {
        [b'^', label @ ..] => is_note_changed(alloc, old, new, near, label),
        _ => Ok(false),
    }
}

/// Behind a `[`: whether a label that changes ends at the next bracket, which is a `]`. It may, if a line ends or a backslash stands before that.
fn label_ends(
    alloc: Global,
    old: &Defined,
    new: &Defined,
    near: &Defined,
    bytes: &[u8],
) -> Result<bool, AllocError>
    requires { AreAllNear (knows old.now) (knows new.now) (knows near.now) }
    ensures { IfOk result (λ ends. ends ≡ label_ends (asks_for (changes (knows old.now) (knows new.now))) [] bytes.now) }
{
    let mut index = 0;
    while index < bytes.len() {
        let byte = bytes[index];
        if byte == b'\n' || byte == b'\r' || byte == b'\\' {
            return Ok(true);
        }
        if byte == b']' {
            return asks_for(alloc, old, new, near, &bytes[..index]);
        }
        if byte == b'[' {
            return Ok(false);
        }
        index += 1;
    }
    Ok(false)
}

/// Whether a label that changes may stand somewhere behind a `[`.
pub(crate) fn may_ask(
    alloc: Global,
    old: &Defined,
    new: &Defined,
    near: &Defined,
    bytes: &[u8],
) -> Result<bool, AllocError>
    requires { AreAllNear (knows old.now) (knows new.now) (knows near.now) }
    ensures { IfOk result (λ may. may ≡ may_ask (asks_for (changes (knows old.now) (knows new.now))) bytes.now) }
{
    let mut index = 0;
    while index < bytes.len() {
        if bytes[index] == b'[' && label_ends(alloc, old, new, near, &bytes[index + 1..])? {
            return Ok(true);
        }
        index += 1;
    }
    Ok(false)
}
