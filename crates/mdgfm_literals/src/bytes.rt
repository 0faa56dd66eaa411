//! Bytes of autolink literals.

ghost use Rattle.std.specs.List.{prefix_len};
ghost use Rattle.std.specs.Prelude.{ℕ, ◌≡◌, ◌||◌, ◌≤◌, Bool, IsTrue, length, not};
ghost use Rattle.mdgfm_literals.specs.Bytes.{begins_with, count, ends_literal, in_domain, in_host, in_local, is_escape, is_space, is_trailing, is_wide, lower};

/// White space or a line ending.
pub(crate) fn is_space(byte: u8) -> bool
    ensures { result ≡ is_space byte }
{
    byte == b' ' || byte >= 9 && byte <= 13
}

/// A part of a character that is not ASCII.
pub(crate) fn is_wide(byte: u8) -> bool
    ensures { result ≡ is_wide byte }
{
    byte >= 128
}

/// A letter, a digit, `-` or `_`.
pub(crate) fn in_host(byte: u8) -> bool
    ensures { result ≡ in_host byte }
{
    byte.is_ascii_alphanumeric() || byte == b'-' || byte == b'_'
}

/// What a domain is made of.
fn in_domain(byte: u8) -> bool
    ensures { result ≡ in_domain byte }
{
    in_host(byte) || byte == b'.' || is_wide(byte)
}

/// What may stand before the `@` of an email address.
pub(crate) fn in_local(byte: u8) -> bool
    ensures { result ≡ in_local byte }
{
    in_host(byte) || byte == b'.' || byte == b'+'
}

/// A byte that ends a literal.
fn ends_literal(byte: u8) -> bool
    ensures { result ≡ ends_literal byte }
{
    is_space(byte) || byte == b'<'
}

/// Punctuation that is no part of a literal at its end.
pub(crate) fn is_trailing(byte: u8) -> bool
    ensures { result ≡ is_trailing byte }
{
    byte == b'?'
        || byte == b'!'
        || byte == b'.'
        || byte == b','
        || byte == b':'
        || byte == b'*'
        || byte == b'_'
        || byte == b'~'
        || byte == b'\''
        || byte == b'"'
}

/// A capital letter as a small one.
fn lower(byte: u8) -> u8
    ensures { result ≡ lower byte }
{
    if byte >= b'A' && byte <= b'Z' {
        byte + 32
    } else {
        byte
    }
}

/// Whether a text begins with these small letters and marks, in any case.
#[tactic(auto, using(crate::proofs::ByteLemmas::word_same, crate::proofs::ByteLemmas::word_other, crate::proofs::ByteLemmas::word_end, crate::proofs::ByteLemmas::word_short))]
pub(crate) fn begins_with(word: &[u8], text: &[u8]) -> bool
    ensures value { result ≡ begins_with word.now text.now }
    ensures within { IsTrue result → length word.now ≤ length text.now }
{
    if text.len() < word.len() {
        return false;
    }
    for (n, byte) in word.iter().enumerate() {
        if lower(text[n]) != *byte {
            return false;
        }
    }
    true
}

/// How often a byte stands in a text.
pub(crate) fn count(byte: u8, text: &[u8]) -> usize
    ensures { result ≡ count byte text.now }
{
    let mut all = 0usize;
    let mut next = 0;
    while next < text.len() {
        if text[next] == byte {
            all += 1;
        }
        next += 1;
    }
    all
}

/// How many bytes of a domain come.
pub(crate) fn domain_size(text: &[u8]) -> usize
    ensures size { result ≡ prefix_len in_domain text.now }
    ensures within { result ≤ length text.now }
{
    let mut next = 0;
    while next < text.len() {
        if !in_domain(text[next]) {
            return next;
        }
        next += 1;
    }
    next
}

/// How many bytes come that may stand before the `@` of an email address.
pub(crate) fn local_size(text: &[u8]) -> usize
    ensures size { result ≡ prefix_len in_local text.now }
    ensures within { result ≤ length text.now }
{
    let mut next = 0;
    while next < text.len() {
        if !in_local(text[next]) {
            return next;
        }
        next += 1;
    }
    next
}

/// How many bytes come that may be part of a literal.
pub(crate) fn run_size(text: &[u8]) -> usize
    ensures size { result ≡ prefix_len (λ b. not (ends_literal b)) text.now }
    ensures within { result ≤ length text.now }
{
    let mut next = 0;
    while next < text.len() {
        if ends_literal(text[next]) {
            return next;
        }
        next += 1;
    }
    next
}

/// Whether a backslash comes first, and punctuation behind it.
pub fn is_escape(text: &[u8]) -> bool
    ensures { result ≡ is_escape text.now }
{
    match text {
        [first, second, ..] => *first == b'\\' && second.is_ascii_punctuation(),
        _ => false,
    }
}
