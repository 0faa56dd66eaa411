//! Links and images: where they lead, and their attributes.

ghost use Rattle.std.specs.List.{flat_map};
ghost use Rattle.std.specs.Prelude.{◌≡◌, ◌++◌, IfOk, OnOk, Some, codes, cond};
ghost use Rattle.mdhtml_document.specs.Frames.{Opens, lookup_of};
ghost use Rattle.mdhtml_document.specs.Html.{address_at, autolink, image_of, link_to, literal, parts_in_link, titled};
ghost use Rattle.mdhtml_document.specs.Walks.{alt_from};
ghost use Rattle.mdhtml_markup.specs.Addresses.{allowed, written_address};
ghost use Rattle.mdhtml_markup.specs.declared.addresses.Place.TheVariants as place;
ghost use Rattle.mdhtml_markup.specs.Pieces.{attribute};

use crate::descriptions::{alt_of, autolink_address, is_email};
use crate::notes::Calls;
use crate::shapes::{DONE, End, Frame, Mode, through};
use markdown_base::configuration::{CompileOptions, TabSize};
use markdown_base::event::Event;
use markdown_base::owned::Items;
use mddocument_link_targets::definitions::Definitions;
use mddocument_link_targets::targets::{Parts, Target, parts_of, target_inside};
use mdhtml_markup::addresses::{Place, is_allowed, push_address};
use mdhtml_markup::elements::Element;
use mdhtml_markup::escape::push_escaped;
use std::alloc::{AllocError, Global};

/// A document, with what is known of all of it.
#[derive(Clone, Copy)]
pub(crate) struct Whole<'a> {
    pub(crate) bytes: &'a [u8],
    pub(crate) events: &'a [Event],
    pub(crate) definitions: &'a Definitions,
    pub(crate) are_too_many: bool,
    pub(crate) calls: &'a Calls,
    pub(crate) options: &'a CompileOptions,
    pub(crate) tab: TabSize,
}

/// What a label is defined as.
fn led_to(alloc: Global, whole: &Whole<'_>, label: &[u8]) -> Result<Option<Parts>, AllocError>
    ensures { IfOk result (λ parts. parts ≡ lookup_of whole.now label.now) }
{
    if whole.are_too_many {
        return Ok(None);
    }
    match whole.definitions.get(label) {
        None => Ok(None),
        Some(at) => parts_of(alloc, whole.bytes, whole.events, at),
    }
}

/// What a link or an image leads to, by the events in it.
fn parts_in_link(
    alloc: Global,
    whole: &Whole<'_>,
    inner: &[Event],
) -> Result<Option<Parts>, AllocError>
    ensures { IfOk result (λ parts. parts ≡ parts_in_link whole.now.bytes.now (lookup_of whole.now) inner.now) }
{
    match target_inside(alloc, whole.bytes, inner)? {
        Target::Parts(parts) => Ok(Some(parts)),
        Target::Label(label) => led_to(alloc, whole, label.as_slice()),
    }
}

/// Whether an address of any scheme is written at a place.
fn is_any(options: &CompileOptions, place: Place) -> bool
    ensures { (url : _) → address_at options.now place url ≡ cond result url (allowed place url) }
{
    match place {
        Place::Href => options.allow_dangerous_protocol,
        Place::Src => options.allow_dangerous_protocol || options.allow_any_img_src,
    }
}

/// Adds an address: nothing, if its scheme is not allowed.
fn push_url(
    out: &mut Vec<u8>,
    options: &CompileOptions,
    place: Place,
    url: &[u8],
) -> Result<(), AllocError>
    ensures { OnOk result (out.new.items ≡ out.old.items ++ written_address (address_at options.now place url.now)) }
{
    if is_any(options, place) || is_allowed(place, url) {
        push_address(out, url)
    } else {
        Ok(())
    }
}

/// Adds a title, if there is one.
fn push_title(out: &mut Vec<u8>, title: &Option<Items<u8>>) -> Result<(), AllocError>
    ensures { OnOk result (out.new.items ≡ out.old.items ++ flat_map attribute (titled title.now)) }
{
    match title {
        None => Ok(()),
        Some(title) => {
            out.extend_from_slice(b" title=\"")?;
            push_escaped(out, title.as_slice())?;
            out.extend_from_slice(b"\"")
        }
    }
}

/// Begins a link.
fn open_link_to(
    out: &mut Vec<u8>,
    options: &CompileOptions,
    parts: &Parts,
) -> Result<Frame, AllocError>
    ensures { IfOk result (λ frame. Opens (link_to options.now (Some parts.now)) out.old.items out.new.items frame) }
{
    out.extend_from_slice(b"<a href=\"")?;
    push_url(out, options, Place::Href, parts.destination.as_slice())?;
    out.extend_from_slice(b"\"")?;
    push_title(out, &parts.title)?;
    out.extend_from_slice(b">")?;
    Ok(Frame {
        mode: Mode::Text,
        end: End::WithinLine(Element::Anchor),
    })
}

/// Begins a link, by the events in it.
pub(crate) fn open_link(
    alloc: Global,
    out: &mut Vec<u8>,
    whole: &Whole<'_>,
    inner: &[Event],
) -> Result<Frame, AllocError>
    ensures { IfOk result (λ frame. Opens (link_to whole.now.options.now (parts_in_link whole.now.bytes.now (lookup_of whole.now) inner.now)) out.old.items out.new.items frame) }
{
    match parts_in_link(alloc, whole, inner)? {
        None => Ok(through(Mode::Text)),
        Some(parts) => open_link_to(out, whole.options, &parts),
    }
}

/// Writes an image, by what it is described by.
fn push_image(
    out: &mut Vec<u8>,
    options: &CompileOptions,
    alt: &[u8],
    parts: &Parts,
) -> Result<Frame, AllocError>
    ensures { IfOk result (λ frame. Opens (image_of options.now alt.now (Some parts.now)) out.old.items out.new.items frame) }
{
    out.extend_from_slice(b"<img src=\"")?;
    push_url(out, options, Place::Src, parts.destination.as_slice())?;
    out.extend_from_slice(b"\" alt=\"")?;
    push_escaped(out, alt)?;
    out.extend_from_slice(b"\"")?;
    push_title(out, &parts.title)?;
    out.extend_from_slice(b" />")?;
    Ok(DONE)
}

/// Writes an image, by the events in it.
pub(crate) fn image(
    alloc: Global,
    out: &mut Vec<u8>,
    whole: &Whole<'_>,
    inner: &[Event],
) -> Result<Frame, AllocError>
    ensures { IfOk result (λ frame. Opens (image_of whole.now.options.now (alt_from whole.now.bytes.now 0 inner.now) (parts_in_link whole.now.bytes.now (lookup_of whole.now) inner.now)) out.old.items out.new.items frame) }
{
    let alt = alt_of(alloc, whole.bytes, inner)?;
    match parts_in_link(alloc, whole, inner)? {
        None => {
            push_escaped(out, alt.as_slice())?;
            Ok(DONE)
        }
        Some(parts) => push_image(out, whole.options, alt.as_slice(), &parts),
    }
}

/// Adds where an autolink leads.
fn push_autolink_address(
    out: &mut Vec<u8>,
    options: &CompileOptions,
    is_email: bool,
    address: &[u8],
) -> Result<(), AllocError>
    ensures { OnOk result (out.new.items ≡ out.old.items ++ written_address (cond is_email (codes "mailto:" ++ address.now) (address_at options.now place.Href address.now))) }
{
    if is_email {
        out.extend_from_slice(b"mailto:")?;
        push_address(out, address)
    } else {
        push_url(out, options, Place::Href, address)
    }
}

/// Writes an autolink, by the events in it.
pub(crate) fn autolink(
    out: &mut Vec<u8>,
    whole: &Whole<'_>,
    inner: &[Event],
) -> Result<Frame, AllocError>
    ensures { IfOk result (λ frame. Opens (autolink whole.now.options.now whole.now.bytes.now inner.now) out.old.items out.new.items frame) }
{
    let address = autolink_address(whole.bytes, inner);
    out.extend_from_slice(b"<a href=\"")?;
    push_autolink_address(out, whole.options, is_email(inner), address)?;
    out.extend_from_slice(b"\">")?;
    push_escaped(out, address)?;
    out.extend_from_slice(b"</a>")?;
    Ok(DONE)
}

/// Writes a literal: a link to what it says, with a scheme in front if it has none.
pub(crate) fn literal(
    alloc: Global,
    out: &mut Vec<u8>,
    options: &CompileOptions,
    scheme: &[u8],
    said: &[u8],
) -> Result<Frame, AllocError>
    ensures { IfOk result (λ frame. Opens (literal options.now scheme.now said.now) out.old.items out.new.items frame) }
{
    let mut url = Vec::new(alloc);
    url.extend_from_slice(scheme)?;
    url.extend_from_slice(said)?;
    out.extend_from_slice(b"<a href=\"")?;
    push_url(out, options, Place::Href, url.as_slice())?;
    out.extend_from_slice(b"\">")?;
    push_escaped(out, said)?;
    out.extend_from_slice(b"</a>")?;
    Ok(DONE)
}
