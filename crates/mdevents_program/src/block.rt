//! Blocks of bytes, which are put into a list of bytes.

ghost use Rattle.std.specs.Prelude.{◌≡◌, ◌+◌, ◌++◌, ◌≤◌, length, take};

use std::simd::Simd;

/// Puts the first `len` bytes of a block at an index. Returns the index behind them. It copies `N` bytes, since a copy of a fixed length is fast; so
/// those behind the first `len` may change.
#[inline(always)]
pub(crate) fn put_block<const N: usize>(
    bytes: &mut [u8],
    at: usize,
    block: &[u8],
    len: usize,
) -> usize
    requires room { at + N ≤ length bytes.old }
    requires whole { N ≤ length block.now }
    requires part { len ≤ N }
    ensures bytes { take result bytes.new ≡ take at bytes.old ++ take len block.now }
    ensures behind { result ≡ at + len }
{
    Simd::<u8, N>::from_slice(block).copy_to_slice(&mut bytes[at..]);
    at + len
}
