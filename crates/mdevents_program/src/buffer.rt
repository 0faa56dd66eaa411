//! Bytes on their way to a writer.

ghost use Rattle.std.specs.Prelude.{◌≡◌, ◌+◌, ◌++◌, ◌≤◌, ℕ, List, [], length, take};

use crate::block::put_block;
use std::marker::Model;

/// The most bytes that wait.
pub(crate) const SIZE: usize = 4096;

/// Bytes that wait to be written, in order: at most [`SIZE`], in an array.
#[derive(Drop)]
pub(crate) struct Buffer {
    bytes: [u8; SIZE],
    count: usize,
}

impl Model for Buffer {
    ghost Value = { List ℕ };

    ghost view = { λ buffer. take buffer.count buffer.bytes };

    ghost invariant = { λ buffer. buffer.count ≤ 4096 };
}

impl Buffer {
    /// An empty buffer.
    pub(crate) fn new() -> Buffer
        ensures { result ≡ [] }
    {
        Buffer {
            bytes: [0; SIZE],
            count: 0,
        }
    }

    /// How many bytes wait.
    pub(crate) fn len(&self) -> usize
        ensures len { result ≡ length self.now }
        ensures most { result ≤ SIZE }
    {
        self.bytes[..self.count].len()
    }

    /// The bytes that wait.
    pub(crate) fn as_slice(&self) -> &[u8]
        ensures { result.now ≡ self.now }
    {
        &self.bytes[..self.count]
    }

    /// Makes the buffer empty.
    pub(crate) fn clear(&mut self)
        ensures { self.new ≡ [] }
    {
        self.count = 0;
    }

    /// Puts a text after the bytes that wait.
    pub(crate) fn push_text(&mut self, text: &[u8])
        requires { length self.old + length text.now ≤ SIZE }
        ensures bytes { self.new ≡ self.old ++ text.now }
        ensures len { length self.new ≡ length self.old + length text.now }
    {
        let end = self.count + text.len();
        self.bytes[self.count..end].copy_from_slice(text);
        self.count = end;
    }

    /// Puts the first `len` bytes of a block after the bytes that wait. It copies `N` bytes, since a copy of a fixed length is
    /// fast. Those after the first `len` do not wait.
    #[inline(always)]
    pub(crate) fn push_block<const N: usize>(&mut self, block: &[u8], len: usize)
        requires room { length self.old + N ≤ SIZE }
        requires whole { N ≤ length block.now }
        requires part { len ≤ N }
        ensures bytes { self.new ≡ self.old ++ take len block.now }
        ensures len { length self.new ≡ length self.old + len }
    {
        self.count = put_block::<N>(&mut self.bytes, self.count, block, len);
    }
}
