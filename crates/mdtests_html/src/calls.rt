//! Documents as HTML, by options.

ghost use Rattle.markdown_base.specs.Virtual.{IsWithinLimit};

use markdown_base::configuration::Options;
use mdhtml_calls::html::{to_html, to_html_with_options, to_html_within};
use std::alloc::{AllocError, Global};

/// Documents, and their safe HTML.
const SAFE: &[(&[u8], &[u8])] = &[
    (b"", b""),
    (b"# a *b*", b"<h1>a <em>b</em></h1>\n"),
    (b"<b>&amp;\0", b"<p>&lt;b&gt;&amp;\xef\xbf\xbd</p>\n"),
    (
        b"[a](javascript:b \"c\") ![d](mailto:e)",
        b"<p><a href=\"\" title=\"c\">a</a> <img src=\"\" alt=\"d\" /></p>\n",
    ),
    (
        b"1. a\n2. b\n\n   c",
        b"<ol>\n<li>\n<p>a</p>\n</li>\n<li>\n<p>b</p>\n<p>c</p>\n</li>\n</ol>\n",
    ),
    (
        b"~~~ d e\n<\n~~~\n***",
        b"<pre><code class=\"language-d\">&lt;\n</code></pre>\n<hr />\n",
    ),
];

/// Whether a document has this safe HTML.
fn is_safe(alloc: Global, document: &[u8], wanted: &[u8]) -> Result<bool, AllocError>
    requires { IsWithinLimit 4 document.now }
{
    Ok(to_html(alloc, document)?.as_slice() == wanted)
}

/// What is let through of HTML, of addresses of any kind, and of addresses of images; and the HTML then of a document with these.
const LET_THROUGH: &[(bool, bool, bool, &[u8])] = &[
    (
        false,
        false,
        true,
        b"<p>&lt;b&gt; <a href=\"\">a</a> <img src=\"z:d\" alt=\"c\" /></p>\n",
    ),
    (
        true,
        false,
        true,
        b"<p><b> <a href=\"\">a</a> <img src=\"z:d\" alt=\"c\" /></p>\n",
    ),
    (
        true,
        true,
        false,
        b"<p><b> <a href=\"x:y\">a</a> <img src=\"z:d\" alt=\"c\" /></p>\n",
    ),
];

/// Whether a document with HTML and addresses is written so, if this is let through.
fn lets_through(
    alloc: Global,
    html: bool,
    protocol: bool,
    images: bool,
    wanted: &[u8],
) -> Result<bool, AllocError> {
    let mut options = Options::default();
    options.compile.allow_dangerous_html = html;
    options.compile.allow_dangerous_protocol = protocol;
    options.compile.allow_any_img_src = images;
    let html = to_html_with_options(alloc, b"<b> [a](x:y) ![c](z:d)", &options)?;
    Ok(html.as_slice() == wanted)
}

#[test]
fn documents_are_html(rt: HostRuntime) {
    for &(document, wanted) in SAFE {
        let found = is_safe(rt.alloc(), document, wanted);
        assert!(rt; found.expect(&rt, "memory"), "{wanted:?}");
    }
    for &(html, protocol, images, wanted) in LET_THROUGH {
        let found = lets_through(rt.alloc(), html, protocol, images, wanted);
        assert!(rt; found.expect(&rt, "memory"), "{wanted:?}");
    }
}

/// Documents with raw HTML, which is let through, and their HTML with tags filtered.
const FILTERED: &[(&[u8], &[u8])] = &[
    (b"<script>a</script>", b"&lt;script>a&lt;/script>\n"),
    (
        b"a <b></STYLE ></b> <scripty>",
        b"<p>a <b>&lt;/STYLE ></b> <scripty></p>\n",
    ),
    (b"a <title/>", b"<p>a &lt;title/></p>\n"),
    (b"<!-- <title> -->", b"<!-- &lt;title> -->\n"),
    (b"a <!-- <title> -->", b"<p>a <!-- <title> --></p>\n"),
    (
        b"> <div>\n> <xmp",
        b"<blockquote>\n<div>\n&lt;xmp\n</blockquote>\n",
    ),
    (
        b"![<xmp>](a) `<xmp>` \\<xmp>",
        b"<p><img src=\"a\" alt=\"&lt;xmp&gt;\" /> <code>&lt;xmp&gt;</code> &lt;xmp&gt;</p>\n",
    ),
];

/// Whether a document is written so with tags filtered; and, if its raw HTML is not let through, as without.
fn is_filtered(alloc: Global, document: &[u8], wanted: &[u8]) -> Result<bool, AllocError>
    requires { IsWithinLimit 4 document.now }
{
    let mut options = Options::default();
    options.compile.gfm_tagfilter = true;
    let safe = to_html_with_options(alloc, document, &options)?;
    options.compile.allow_dangerous_html = true;
    let html = to_html_with_options(alloc, document, &options)?;
    Ok(html.as_slice() == wanted && safe.as_slice() == to_html(alloc, document)?.as_slice())
}

#[test]
fn tags_are_filtered(rt: HostRuntime) {
    for &(document, wanted) in FILTERED {
        let found = is_filtered(rt.alloc(), document, wanted);
        assert!(rt; found.expect(&rt, "memory"), "{wanted:?}");
    }
}

/// Documents, limits of depth, and their HTML.
const WITHIN: &[(&[u8], usize, &[u8])] = &[
    (
        b"> > > a",
        2,
        b"<blockquote>\n<blockquote>\n<p>a</p>\n</blockquote>\n</blockquote>\n",
    ),
    (
        b"> > > a",
        3,
        b"<blockquote>\n<blockquote>\n<blockquote>\n<p>a</p>\n</blockquote>\n</blockquote>\n</blockquote>\n",
    ),
    (b"> # a\n> ***", 0, b"<h1>a</h1>\n<hr />\n"),
    (
        b"- > *a **b***\n\n  c",
        2,
        b"<ul>\n<li>\n<blockquote>\n<p>a b</p>\n</blockquote>\n<p>c</p>\n</li>\n</ul>\n",
    ),
    (
        b"*a [b **c**](d)* ![e](f)",
        1,
        b"<p><em>a b c</em> <img src=\"f\" alt=\"e\" /></p>\n",
    ),
];

/// Whether a document is written so within a limit of depth.
fn is_within(
    alloc: Global,
    document: &[u8],
    limit: usize,
    wanted: &[u8],
) -> Result<bool, AllocError>
    requires limit { IsWithinLimit 4 document.now }
{
    let html = to_html_within(alloc, document, &Options::default(), limit)?;
    Ok(html.as_slice() == wanted)
}

#[test]
fn limits_of_depth_leave_out_tags(rt: HostRuntime) {
    for &(document, limit, wanted) in WITHIN {
        let found = is_within(rt.alloc(), document, limit, wanted);
        assert!(rt; found.expect(&rt, "memory"), "{wanted:?}");
    }
}
