//! Lists, texts and boxes, as contracts see them.
//!
//! Contracts compare what a `Vec`, a `String` or a `Box` holds, not where it holds it. Each type here wraps one of
//! these, and a contract sees only its contents. It is made from what it wraps, and gives it back, without taking
//! memory.

ghost use Rattle.std.specs.Prelude.{◌≡◌, ◌++◌, ◌∷◌, [], List, ℕ, IfOk, OnOk, OnErr, bytes_eq, string_bytes};
ghost use Rattle.std.specs.Cmp.{partial_equiv_from_equiv};
ghost use Rattle.std.specs.Cmp.Lexicographic.{pointwise, lists_per, lists_equiv, nat_list_eq_equiv};

use std::alloc::{AllocError, Global};
use std::fmt;
use std::marker::Model;

/// A `Vec`, seen as the list of its items.
#[derive(Drop)]
pub struct Items<T> {
    items: Vec<T>,
}

impl<T> Model for Items<T> {
    ghost Value = { List T };

    ghost view = { λ a. a.items.items };
}

impl<T> Items<T> {
    /// No items. Takes no memory.
    pub fn new(alloc: Global) -> Self
        ensures { result ≡ [] }
    {
        Items {
            items: Vec::new(alloc),
        }
    }

    /// The items of a `Vec`. Takes no memory.
    pub fn from_vec(items: Vec<T>) -> Self
        ensures { result ≡ items.items }
    {
        Items { items }
    }

    /// The `Vec` of these items. Takes no memory.
    pub fn into_vec(self) -> Vec<T>
        ensures { result.items ≡ self }
    {
        let Items { items } = self;
        items
    }

    /// The items.
    pub fn as_slice(&self) -> &[T]
        ensures { result.now ≡ self.now }
    {
        self.items.as_slice()
    }
}

impl<T: Drop> Items<T> {
    /// Takes out all items, and keeps their memory. Takes no memory.
    pub fn clear(&mut self)
        ensures { self.new ≡ [] }
    {
        self.items.clear();
    }

    /// Puts an item at the end. If it runs out of memory, the items stay as they were.
    pub fn push(&mut self, item: T) -> Result<(), AllocError>
        ensures ok { OnOk result (self.new ≡ self.old ++ item ∷ []) }
        ensures err { OnErr result (self.new ≡ self.old) }
    {
        self.items.push(item)?;
        Ok(())
    }
}

impl<T: PartialEq> PartialEq for Items<T> {
    ghost eq = { pointwise T.eq };

    ghost laws = { lists_per T.laws };

    /// Whether the items are equal, one by one.
    fn eq(&self, other: &Self) -> bool {
        self.items == other.items
    }
}

impl<T: Eq> Eq for Items<T> {
    ghost laws = { lists_equiv T.Eq.laws };
}

impl<T: fmt::Debug> fmt::Debug for Items<T> {
    /// Writes the items as a `Vec` writes them.
    fn fmt<W: fmt::Write>(&self, f: &mut fmt::Formatter<W>) -> fmt::Result {
        fmt::Debug::fmt(&self.items, f)
    }
}

/// A `String`, seen as its bytes.
#[derive(Drop)]
pub struct OwnedText {
    text: String,
}

impl Model for OwnedText {
    ghost Value = { List ℕ };

    ghost view = { λ a. string_bytes a.text };
}

impl OwnedText {
    /// The text of a `String`. Takes no memory.
    pub fn from_string(text: String) -> Self
        ensures { result ≡ string_bytes text }
    {
        OwnedText { text }
    }

    /// The `String` of this text. Takes no memory.
    pub fn into_string(self) -> String
        ensures { string_bytes result ≡ self }
    {
        let OwnedText { text } = self;
        text
    }

    /// The text.
    pub fn as_str(&self) -> &str
        ensures { result.now ≡ self.now }
    {
        self.text.as_str()
    }
}

impl OwnedText {
    /// The same text, in memory of its own.
    pub fn try_clone(&self, alloc: Global) -> Result<Self, AllocError>
        ensures { IfOk result (λ copy. copy ≡ self.now) }
    {
        Ok(OwnedText {
            text: String::from_str(alloc, self.as_str())?,
        })
    }
}

impl PartialEq for OwnedText {
    ghost eq = { bytes_eq };

    ghost laws = { partial_equiv_from_equiv nat_list_eq_equiv };

    /// Whether the texts are equal, byte by byte.
    fn eq(&self, other: &Self) -> bool {
        self.as_str() == other.as_str()
    }
}

impl Eq for OwnedText {
    ghost laws = { nat_list_eq_equiv };
}

impl fmt::Debug for OwnedText {
    /// Writes the text as a `String` writes it.
    fn fmt<W: fmt::Write>(&self, f: &mut fmt::Formatter<W>) -> fmt::Result {
        fmt::Debug::fmt(&self.text, f)
    }
}

/// A `Box`, seen as what it holds.
#[derive(Drop)]
pub struct Boxed<T> {
    item: Box<T>,
}

impl<T> Model for Boxed<T> {
    ghost Value = { T };

    ghost view = { λ a. a.item.value };
}

impl<T> Boxed<T> {
    /// What a box holds. Takes no memory.
    pub fn from_box(item: Box<T>) -> Self
        ensures { result ≡ item.value }
    {
        Boxed { item }
    }

    /// The box that holds it. Takes no memory.
    pub fn into_box(self) -> Box<T>
        ensures { result.value ≡ self }
    {
        let Boxed { item } = self;
        item
    }

    /// What it holds.
    pub fn as_ref(&self) -> &T
        ensures { result.now ≡ self.now }
    {
        &self.item
    }
}

impl<T: PartialEq> PartialEq for Boxed<T> {
    ghost eq = { T.eq };

    ghost laws = { T.laws };

    /// Whether what the boxes hold is equal.
    fn eq(&self, other: &Self) -> bool {
        self.item == other.item
    }
}

impl<T: Eq> Eq for Boxed<T> {
    ghost laws = { T.Eq.laws };
}

impl<T: fmt::Debug> fmt::Debug for Boxed<T> {
    /// Writes what the box holds, as a `Box` writes it.
    fn fmt<W: fmt::Write>(&self, f: &mut fmt::Formatter<W>) -> fmt::Result {
        fmt::Debug::fmt(&self.item, f)
    }
}

/// Bytes of the program itself, seen as their list.
#[derive(Drop)]
pub struct StaticBytes {
    bytes: &'static [u8],
}

impl Model for StaticBytes {
    ghost Value = { List ℕ };

    ghost view = { λ a. a.bytes.now };
}

impl StaticBytes {
    /// These bytes.
    pub fn new(bytes: &'static [u8]) -> Self
        ensures { result ≡ bytes.now }
    {
        StaticBytes { bytes }
    }

    /// The bytes.
    pub fn as_slice(&self) -> &'static [u8]
        ensures { result.now ≡ self.now }
    {
        self.bytes
    }
}
