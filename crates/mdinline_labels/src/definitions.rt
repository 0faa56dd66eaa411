//! Link reference definitions at the front of a text (CommonMark, "Link reference definitions").

ghost use Rattle.std.specs.Prelude.{ℕ, ◌≡◌, ◌+◌, ◌*◌, ◌-◌, ◌≤◌, ◌<◌, ◌⊎◌, IfSome, Some, None, length, drop};
ghost use Rattle.std.specs.List.{prefix_len};
ghost use Rattle.mdinline_labels.specs.Costs.{TriesTitle, IsEnded, IsPaid};
ghost use Rattle.mdinline_labels.specs.Tails.{is_white, gap};
ghost use Rattle.mdinline_labels.specs.Definitions.{end, end_of, label_at, destination_at, title_at, line_left, ended, titled_or_not, definition_at, definitions, rest};

use crate::is_label_counted;
use crate::tails::{begins_with, blanks, destination_size, gap, label_size, line_ends, title_size};
use mdconstructs_loop_counts::Turns;
use std::marker::Brand;
use std::sync::ledger::{Blank, Ledger};

/// A stretch of a text.
#[derive(Clone, Copy, PartialEq, Eq, Debug)]
pub struct Stretch {
    /// The index of its first byte in the text.
    pub from: usize,
    /// How many bytes it has.
    pub size: usize,
}

/// A link reference definition, by its parts with their marks.
#[derive(Clone, Copy, PartialEq, Eq, Debug)]
pub struct Definition {
    /// The label.
    pub label: Stretch,
    /// The destination.
    pub destination: Stretch,
    /// The title, if it has one.
    pub title: Option<Stretch>,
    /// How many bytes it has: up to a line ending, or the end of the text.
    pub size: usize,
}

/// The label that a text begins with, behind white space, if a colon comes behind it.
fn label_at<L: Ledger>(bytes: &[u8], turns: &mut Turns<L>) -> Option<Stretch>
    ensures label { result ≡ label_at bytes.now }
    ensures inside { IfSome result (λ s. end s < length bytes.now) }
    ensures found { IfSome result (λ s. turns.new ≤ turns.old + 2 * end s) }
    ensures turns { turns.new ≤ turns.old + 2 * length bytes.now + 1 }
    ensures front { IfSome result (λ s. prefix_len is_white bytes.now + 2 ≤ end s) }
{
    let from = blanks(bytes, turns);
    if !begins_with(b'[', &bytes[from..]) {
        return None;
    }
    let size = label_size(&bytes[from + 1..], turns)?;
    if is_label_counted(&bytes[from + 1..from + 1 + size], turns)
        && begins_with(b':', &bytes[from + size + 2..])
    {
        Some(Stretch {
            from,
            size: size + 2,
        })
    } else {
        None
    }
}

/// The destination behind so many bytes and white space.
fn destination_at<L: Ledger>(bytes: &[u8], at: usize, turns: &mut Turns<L>) -> Option<Stretch>
    requires { at ≤ length bytes.now }
    ensures destination { result ≡ destination_at bytes.now at }
    ensures inside { IfSome result (λ s. end s ≤ length bytes.now) }
    ensures found { IfSome result (λ s. turns.new + at ≤ turns.old + end s + 3) }
    ensures turns { turns.new + at ≤ turns.old + length bytes.now + 2 }
    ensures behind { IfSome result (λ s. at ≤ end s) }
{
    let from = at + gap(&bytes[at..], turns);
    let size = destination_size(&bytes[from..], turns)?;
    Some(Stretch { from, size })
}

/// The title behind so many bytes and some white space.
pub(crate) fn title_at<L: Ledger>(bytes: &[u8], at: usize, turns: &mut Turns<L>) -> Option<Stretch>
    requires { at ≤ length bytes.now }
    ensures title { result ≡ title_at bytes.now at }
    ensures inside { IfSome result (λ s. end s ≤ length bytes.now) }
    ensures found { IfSome result (λ s. turns.new + at ≤ turns.old + end s + 3) }
    ensures turns { turns.new + at ≤ turns.old + length bytes.now + 2 }
    ensures tried { (turns.new ≤ turns.old + gap (drop at bytes.now) + 2) ⊎ TriesTitle bytes.now at }
    ensures mark { IfSome result (λ s. TriesTitle bytes.now at) }
    ensures behind { IfSome result (λ s. at ≤ end s) }
{
    let white = gap(&bytes[at..], turns);
    if white == 0 {
        return None;
    }
    let from = at + white;
    let size = title_size(&bytes[from..], turns)?;
    Some(Stretch { from, size })
}

/// How many bytes of white space are left of the line, if nothing else is.
fn line_left<L: Ledger>(bytes: &[u8], turns: &mut Turns<L>) -> Option<usize>
    ensures size { result ≡ line_left bytes.now }
    ensures inside { IfSome result (λ n. n ≤ length bytes.now) }
    ensures turns { turns.new ≤ turns.old + length bytes.now + 1 }
    ensures found { IfSome result (λ n. turns.new ≤ turns.old + n + 1) }
{
    let size = blanks(bytes, turns);
    if line_ends(&bytes[size..]) {
        Some(size)
    } else {
        None
    }
}

/// A definition with this title or none, if nothing else is in its last line.
fn ended<L: Ledger>(
    bytes: &[u8],
    label: Stretch,
    destination: Stretch,
    title: Option<Stretch>,
    turns: &mut Turns<L>,
) -> Option<Definition>
    requires destination { end destination ≤ length bytes.now }
    requires title { IfSome title (λ s. end s ≤ length bytes.now) }
    ensures definition { result ≡ ended bytes.now label destination title }
    ensures inside { IfSome result (λ d. d.size ≤ length bytes.now) }
    ensures turns { turns.new + end_of title destination ≤ turns.old + length bytes.now + 1 }
    ensures found { IfSome result (λ d. turns.new + end_of title destination ≤ turns.old + d.size + 1) }
    ensures left { IfSome result (λ d. line_left (drop (end_of title destination) bytes.now) ≡ Some (d.size - end_of title destination)) }
    ensures behind { IfSome result (λ d. end_of title destination ≤ d.size) }
{
    let at = match title {
        None => destination.from + destination.size,
        Some(title) => title.from + title.size,
    };
    let left = line_left(&bytes[at..], turns)?;
    Some(Definition {
        label,
        destination,
        title,
        size: at + left,
    })
}

/// A definition with its title, if nothing else is in the title's last line; or else without.
fn titled_or_not<L: Ledger>(
    bytes: &[u8],
    label: Stretch,
    destination: Stretch,
    title: Option<Stretch>,
    turns: &mut Turns<L>,
) -> Option<Definition>
    requires destination { end destination ≤ length bytes.now }
    requires title { IfSome title (λ s. end s ≤ length bytes.now) }
    requires behind { IfSome title (λ s. end destination ≤ end s) }
    ensures definition { result ≡ titled_or_not bytes.now label destination title }
    ensures inside { IfSome result (λ d. d.size ≤ length bytes.now) }
    ensures turns { turns.new + end_of title destination + end destination ≤ turns.old + 2 * length bytes.now + 2 }
    ensures paid { IfSome result (λ d. IsEnded bytes.now destination title d turns.old turns.new) }
    ensures behind { IfSome result (λ d. end destination ≤ d.size) }
{
    match ended(bytes, label, destination, title, turns) {
        Some(definition) => Some(definition),
        None => ended(bytes, label, destination, None, turns),
    }
}

/// The definition that a text begins with, if it begins with one. It looks at each byte four times at most, and at eight more.
pub fn definition_counted<L: Ledger>(bytes: &[u8], turns: &mut Turns<L>) -> Option<Definition>
    ensures definition { result ≡ definition_at bytes.now }
    ensures inside { IfSome result (λ d. d.size ≤ length bytes.now) }
    ensures turns { turns.new ≤ turns.old + 4 * length bytes.now + 8 }
    ensures front { IfSome result (λ d. prefix_len is_white bytes.now + 3 ≤ d.size) }
    ensures paid { IfSome result (λ d. IsPaid bytes.now d turns.old turns.new) }
{
    let label = label_at(bytes, turns)?;
    let destination = destination_at(bytes, label.from + label.size + 1, turns)?;
    let title = title_at(bytes, destination.from + destination.size, turns);
    titled_or_not(bytes, label, destination, title, turns)
}

/// The definition that a text begins with, counted from nothing.
fn definition_from<L: Ledger>(bytes: &[u8], blank: Blank) -> Option<Definition>
    requires name { blank.name ≡ L.name }
    requires parts { blank.parts ≡ L.parts }
    requires some { 0 < blank.parts }
    ensures definition { result ≡ definition_at bytes.now }
    ensures inside { IfSome result (λ d. d.size ≤ length bytes.now) }
{
    let mut turns = Turns::<L>::new(blank);
    definition_counted(bytes, &mut turns)
}

/// The definition that a text begins with, if it begins with one, as `definition_counted`.
pub fn definition_at(bytes: &[u8]) -> Option<Definition>
    ensures definition { result ≡ definition_at bytes.now }
    ensures inside { IfSome result (λ d. d.size ≤ length bytes.now) }
{
    definition_from::<Brand>(bytes, Blank::new(1))
}

/// The definitions at the front of a text.
#[derive(Clone, Copy, PartialEq, Eq, Debug)]
pub struct Front {
    /// How many there are.
    pub count: usize,
    /// Where what is left of the text begins.
    pub end: usize,
}

/// How many definitions stand at the front of a text, one after another, and where what is left of it begins.
///
/// It is linear over the whole text. Each definition is paid by its own bytes, but where a title is given back, which is looked for to the end of
/// the text: then no definition comes behind it, as the next line begins with the mark of that title.
pub fn definitions_counted<L: Ledger>(bytes: &[u8], turns: &mut Turns<L>) -> Front
    ensures count { result.count ≡ length (definitions bytes.now) }
    ensures rest { drop result.end bytes.now ≡ rest bytes.now }
    ensures inside { result.end ≤ length bytes.now }
    ensures turns { turns.new ≤ turns.old + 16 * length bytes.now + 16 }
{
    let mut count = 0;
    let mut next = 0;
    while next < bytes.len() {
        match definition_counted(&bytes[next..], turns) {
            None => return Front { count, end: next },
            Some(definition) => {
                let end = next + definition.size;
                next = if end < bytes.len() { end + 1 } else { end };
                count += 1;
            }
        }
    }
    Front { count, end: next }
}

/// The definitions at the front of a text, counted from nothing.
fn definitions_uncounted<L: Ledger>(bytes: &[u8], blank: Blank) -> Front
    requires name { blank.name ≡ L.name }
    requires parts { blank.parts ≡ L.parts }
    requires some { 0 < blank.parts }
    ensures count { result.count ≡ length (definitions bytes.now) }
    ensures rest { drop result.end bytes.now ≡ rest bytes.now }
    ensures inside { result.end ≤ length bytes.now }
{
    let mut turns = Turns::<L>::new(blank);
    definitions_counted(bytes, &mut turns)
}

/// How many definitions stand at the front of a text, and where what is left of it begins, as `definitions_counted`.
pub fn definitions_in(bytes: &[u8]) -> Front
    ensures count { result.count ≡ length (definitions bytes.now) }
    ensures rest { drop result.end bytes.now ≡ rest bytes.now }
    ensures inside { result.end ≤ length bytes.now }
{
    definitions_uncounted::<Brand>(bytes, Blank::new(1))
}
