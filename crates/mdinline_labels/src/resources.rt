//! Resources: what stands in parentheses behind the text of an inline link (CommonMark, "Links").

ghost use Rattle.std.specs.Prelude.{◌≡◌, ◌+◌, ◌*◌, ◌≤◌, ◌<◌, IfSome, length};
ghost use Rattle.mdinline_labels.specs.Resources.{closed_at, resource_at};

use crate::definitions::{Stretch, title_at};
use crate::tails::{begins_with, destination_size, gap};
use mdconstructs_loop_counts::Turns;
use std::marker::Brand;
use std::sync::ledger::{Blank, Ledger};

/// A resource, by its parts with their marks.
#[derive(Clone, Copy, PartialEq, Eq, Debug)]
pub struct Resource {
    /// The destination, if it has one.
    pub destination: Option<Stretch>,
    /// The title, if it has one.
    pub title: Option<Stretch>,
    /// How many bytes it has, with its parentheses.
    pub size: usize,
}

/// A resource with these parts, if the parenthesis that closes it stands there.
fn closed_at(
    bytes: &[u8],
    destination: Option<Stretch>,
    title: Option<Stretch>,
    close: usize,
) -> Option<Resource>
    requires { close ≤ length bytes.now }
    ensures resource { result ≡ closed_at bytes.now destination title close }
    ensures inside { IfSome result (λ r. r.size ≤ length bytes.now) }
{
    if begins_with(b')', &bytes[close..]) {
        Some(Resource {
            destination,
            title,
            size: close + 1,
        })
    } else {
        None
    }
}

/// The resource that a text begins with, if it begins with one. It looks at each byte three times at most, and at eight more.
pub fn resource_counted<L: Ledger>(bytes: &[u8], turns: &mut Turns<L>) -> Option<Resource>
    ensures resource { result ≡ resource_at bytes.now }
    ensures inside { IfSome result (λ r. r.size ≤ length bytes.now) }
    ensures turns { turns.new ≤ turns.old + 3 * length bytes.now + 8 }
{
    if !begins_with(b'(', bytes) {
        return None;
    }
    let from = 1 + gap(&bytes[1..], turns);
    match destination_size(&bytes[from..], turns) {
        None => closed_at(bytes, None, None, from),
        Some(size) => {
            let title = title_at(bytes, from + size, turns);
            let at = match title {
                None => from + size,
                Some(title) => title.from + title.size,
            };
            let close = at + gap(&bytes[at..], turns);
            closed_at(bytes, Some(Stretch { from, size }), title, close)
        }
    }
}

/// The resource that a text begins with, counted from nothing.
fn resource_from<L: Ledger>(bytes: &[u8], blank: Blank) -> Option<Resource>
    requires name { blank.name ≡ L.name }
    requires parts { blank.parts ≡ L.parts }
    requires some { 0 < blank.parts }
    ensures resource { result ≡ resource_at bytes.now }
    ensures inside { IfSome result (λ r. r.size ≤ length bytes.now) }
{
    let mut turns = Turns::<L>::new(blank);
    resource_counted(bytes, &mut turns)
}

/// The resource that a text begins with, if it begins with one, as `resource_counted`.
pub fn resource_at(bytes: &[u8]) -> Option<Resource>
    ensures resource { result ≡ resource_at bytes.now }
    ensures inside { IfSome result (λ r. r.size ≤ length bytes.now) }
{
    resource_from::<Brand>(bytes, Blank::new(1))
}
