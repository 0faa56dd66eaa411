//! Text, kept HTML and addresses, written behind what is there; and HTML that is safe, or not. All bytes were typed by hand.

use mdhtml_markup::addresses::push_address;
use mdhtml_markup::checks::is_safe_html;
use mdhtml_markup::escape::{push_escaped, push_kept};
use mdhtml_markup::tag_filter::{push_filtered, push_first_filtered};
use std::alloc::{AllocError, Global};

/// How bytes are written.
#[derive(Clone, Copy)]
enum How {
    Escaped,
    Kept,
    Filtered,
    FirstFiltered,
    Address,
}

/// How bytes are written, bytes, and what is written behind `x`.
const WRITTEN: &[(How, &[u8], &[u8])] = &[
    // marks at the front, in the middle and at the end; NUL; the escape byte; what is an entity already; bytes that stay
    (How::Escaped, b"", b"x"),
    (How::Escaped, b"abc", b"xabc"),
    (How::Escaped, b"a&b", b"xa&amp;b"),
    (How::Escaped, b"<a> \"b\"", b"x&lt;a&gt; &quot;b&quot;"),
    (How::Escaped, b"&amp;", b"x&amp;amp;"),
    (How::Escaped, b"it's", b"xit's"),
    (How::Escaped, b"\x00", b"x\xEF\xBF\xBD"),
    (How::Escaped, b"a\x1B$B", b"xa&#x1B;$B"),
    (How::Escaped, b"\xC3\xA4\xFF\n", b"x\xC3\xA4\xFF\n"),
    // HTML of which all is kept but NUL
    (How::Kept, b"", b"x"),
    (How::Kept, b"<b>&\"</b>", b"x<b>&\"</b>"),
    (
        How::Kept,
        b"\x00<i>\x00\x00</i>\x00",
        b"x\xEF\xBF\xBD<i>\xEF\xBF\xBD\xEF\xBF\xBD</i>\xEF\xBF\xBD",
    ),
    (How::Kept, b"\x1B\xFF", b"x\x1B\xFF"),
    // HTML whose tags are filtered: each name in any case, that opens or closes; what ends it; other names; in a comment, a value, and another tag; NUL
    (How::Filtered, b"", b"x"),
    (How::Filtered, b"<script>", b"x&lt;script>"),
    (How::Filtered, b"a</STYLE >b", b"xa&lt;/STYLE >b"),
    (How::Filtered, b"<scripty><ascript>", b"x<scripty><ascript>"),
    (
        How::Filtered,
        b"<title/><title/ >",
        b"x&lt;title/><title/ >",
    ),
    (How::Filtered, b"<!-- <xmp> -->", b"x<!-- &lt;xmp> -->"),
    (
        How::Filtered,
        b"<a b=\"<iframe\t\">< style>",
        b"x<a b=\"&lt;iframe\t\">< style>",
    ),
    (
        How::Filtered,
        b"<tExTaReA\n><NoEmbed ></noframes></noframes",
        b"x&lt;tExTaReA\n>&lt;NoEmbed >&lt;/noframes>&lt;/noframes",
    ),
    (
        How::Filtered,
        b"<<plaintext></</script><script",
        b"x<&lt;plaintext></&lt;/script>&lt;script",
    ),
    (
        How::Filtered,
        b"<xmp\x0C><xmp\x0B><xmp\x00><b>",
        b"x<xmp\x0C><xmp\x0B><xmp\xEF\xBF\xBD><b>",
    ),
    // within text the first byte alone is looked at
    (How::FirstFiltered, b"", b"x"),
    (How::FirstFiltered, b"<script>", b"x&lt;script>"),
    (How::FirstFiltered, b"</STYLE >", b"x&lt;/STYLE >"),
    (How::FirstFiltered, b"<scripty>", b"x<scripty>"),
    (How::FirstFiltered, b"<title/>", b"x&lt;title/>"),
    (How::FirstFiltered, b"<!-- <xmp> -->", b"x<!-- <xmp> -->"),
    (
        How::FirstFiltered,
        b"<xmp a=\"\x00<xmp>\">",
        b"x&lt;xmp a=\"\xEF\xBF\xBD<xmp>\">",
    ),
    // addresses: bytes that stand for themselves, also `%` before what is no number; entities; NUL; and bytes as two hexadecimal digits, at the
    // limits of both
    (How::Address, b"", b"x"),
    (How::Address, b"http://a.b/c?d#e", b"xhttp://a.b/c?d#e"),
    (
        How::Address,
        b"AZaz09-_.+!*(),%#@?=;:/$~",
        b"xAZaz09-_.+!*(),%#@?=;:/$~",
    ),
    (How::Address, b"a b", b"xa%20b"),
    (How::Address, b"?a=1&b='", b"x?a=1&amp;b=&#x27;"),
    (
        How::Address,
        b"\"<>\\[]^`{|}",
        b"x%22%3C%3E%5C%5B%5D%5E%60%7B%7C%7D",
    ),
    (How::Address, b"\x00", b"x%EF%BF%BD"),
    (How::Address, b"\x01\x0A\x1F\x7F", b"x%01%0A%1F%7F"),
    (How::Address, b"\xC3\xA4/\xFF", b"x%C3%A4/%FF"),
    (How::Address, b"%41%zz", b"x%41%zz"),
];

/// Whether this is written of bytes behind `x`.
fn is_written(alloc: Global, how: How, bytes: &[u8], want: &[u8]) -> Result<bool, AllocError> {
    let mut out = Vec::new(alloc);
    out.push(b'x')?;
    match how {
        How::Escaped => push_escaped(&mut out, bytes)?,
        How::Kept => push_kept(&mut out, bytes)?,
        How::Filtered => push_filtered(&mut out, bytes)?,
        How::FirstFiltered => push_first_filtered(&mut out, bytes)?,
        How::Address => push_address(&mut out, bytes)?,
    }
    Ok(out.as_slice() == want)
}

#[test]
fn bytes_are_written(rt: HostRuntime) {
    for &(how, bytes, want) in WRITTEN {
        let found = is_written(rt.alloc(), how, bytes, want);
        assert!(rt; found.expect(&rt, "memory"), "{want:?}");
    }
}

/// HTML, and whether it is safe: tags that are open, in other order, or not where they stand; attributes; addresses behind entities; marks.
const HTML: &[(&[u8], bool)] = &[
    (b"", true),
    (b"<p>a <em>b</em></p>\n", true),
    (b"<ul>\n<li>a</li>\n</ul>\n", true),
    (
        b"<p><a href=\"/b?c&amp;d=&#x27;e&#x27;\" title=\"&quot;\">f</a></p>",
        true,
    ),
    (b"<p><img src=\"a.png\" alt=\"&lt;b&gt;\" /></p>", true),
    (b"<pre><code class=\"language-c\">a\n</code></pre>", true),
    (b"<p>a", false),
    (b"a</p>", false),
    (b"<em><strong>a</em></strong>", false),
    (b"<p><ul></ul></p>", false),
    (b"<p onclick=\"a\">b</p>", false),
    (b"<a title=\"a\" href=\"b\">c</a>", false),
    (b"<a href=\"javascript&#x27;:b\">c</a>", false),
    (b"<a href=\"mailto:a\">b</a>", true),
    (b"<img src=\"mailto:a\" alt=\"\" />", false),
    (b"a & b", false),
    (b"a\x1B", false),
    (b"<script>a</script>", false),
    (
        b"<p><input type=\"checkbox\" checked=\"\" disabled=\"\" /> a</p>",
        true,
    ),
    (b"<p><input type=\"checkbox\" /> a</p>", false),
    (
        b"<table><thead><tr><th align=\"left\">a</th><th></th></tr></thead></table>",
        true,
    ),
    (
        b"<table><thead><tr><th align=\"top\">a</th></tr></thead></table>",
        false,
    ),
    (b"<table><thead>a</thead></table>", false),
    (b"<td>a</td>", false),
    (b"<p><input type=\"image\" disabled=\"\" /> a</p>", false),
];

#[test]
fn safe_html_passes_and_no_other(rt: HostRuntime) {
    for (html, want) in HTML {
        let found = is_safe_html(rt.alloc(), html);
        assert!(rt; found.expect(&rt, "memory") == *want, "{html:?}");
    }
}
