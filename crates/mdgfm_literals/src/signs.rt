//! Signs of autolink literals: each literal has one, so a text with none needs no search.

ghost use Rattle.std.specs.Prelude.{ℕ, ◌≡◌};
ghost use Rattle.mdgfm_literals.specs.Signs.{begins_sign, has_sign};

/// Whether a sign of a literal comes first: `@`, `:/` or `ww`.
fn begins_sign(text: &[u8]) -> bool
    ensures { result ≡ begins_sign text.now }
{
    match text {
        [first, second, ..] => {
            *first == b'@' || *first == b':' && *second == b'/' || *first == b'w' && *second == b'w'
        }
        [first] => *first == b'@',
        [] => false,
    }
}

/// Whether a sign of a literal is in a text.
pub(crate) fn has_sign(text: &[u8]) -> bool
    ensures { result ≡ has_sign text.now }
{
    let mut next = 0;
    while next < text.len() {
        if begins_sign(&text[next..]) {
            return true;
        }
        next += 1;
    }
    false
}
