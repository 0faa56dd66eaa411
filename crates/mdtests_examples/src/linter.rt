//! Tests of the linter among the examples: what it finds in documents, by CommonMark's rules.

ghost use Rattle.markdown.specs.Virtual.{IsWithinLimit};

use crate::shown::assert_shown;
use markdown::configuration::ParseOptions;
use mdconstructs::read_document;
use mdconstructs::targets::Parts;
use mdexamples::linter::{fences, headings, links, problems};
use std::alloc::{AllocError, Global};
use std::str;

/// Bytes of a document as text.
fn text(bytes: &[u8]) -> Result<&str, AllocError> {
    match str::from_utf8(bytes) {
        Ok(text) => Ok(text),
        Err(_) => Err(AllocError),
    }
}

/// The headings of a document, a line each, as `3: rank 2`.
fn headings_of(alloc: Global, bytes: &[u8]) -> Result<String, AllocError>
    requires limit { IsWithinLimit 4 bytes.now }
{
    let events = read_document(alloc, bytes, &ParseOptions::default())?;
    let mut lines = String::new(alloc);
    for heading in headings(alloc, bytes, events.as_slice())?.as_slice() {
        writeln!(lines, "{}: rank {}", heading.line, heading.rank)?;
    }
    Ok(lines)
}

/// CommonMark, 4.2 and 4.3: up to three spaces stand before `#`, seven are no heading, an escaped one is none; and the text of a setext
/// heading may have two lines. Headings stand in quotes and in list items.
#[test]
fn headings_have_ranks(rt: HostRuntime) {
    let document =
        b"# a\n\n   ### b ###\nc\nd\n---\n> ## e\n- f\n  ==\n####### g\n\n\\# h\n\n###### i";
    assert_shown(
        &rt,
        headings_of(rt.alloc(), document),
        "1: rank 1\n3: rank 3\n4: rank 2\n7: rank 2\n8: rank 1\n14: rank 6\n",
    );
}

/// The fenced code of a document, a line each, as `3: rust`.
fn fences_of(alloc: Global, bytes: &[u8]) -> Result<String, AllocError>
    requires limit { IsWithinLimit 4 bytes.now }
{
    let events = read_document(alloc, bytes, &ParseOptions::default())?;
    let mut lines = String::new(alloc);
    for fence in fences(alloc, bytes, events.as_slice())?.as_slice() {
        match &fence.language {
            None => writeln!(lines, "{}:", fence.line)?,
            Some(language) => writeln!(lines, "{}: {}", fence.line, text(language.as_slice())?)?,
        }
    }
    Ok(lines)
}

/// CommonMark, 4.5, 2.4 and 2.5: the first word is the language, with escapes and references decoded. The closing fence has none. Behind
/// tildes a word may have backticks.
#[test]
fn fences_have_languages(rt: HostRuntime) {
    let document = b"```c\\+\\+ x\na\n```\n~~~\n~~~\n> ``` f&ouml;o\n> b\n- ~~~ r`b\n  c";
    assert_shown(
        &rt,
        fences_of(rt.alloc(), document),
        "1: c++\n4:\n6: f\u{f6}o\n8: r`b\n",
    );
}

/// Adds what a link leads to.
fn write_parts(lines: &mut String, parts: &Parts) -> Result<(), AllocError> {
    write!(lines, "<{}>", text(parts.destination.as_slice())?)?;
    if let Some(title) = &parts.title {
        write!(lines, " '{}'", text(title.as_slice())?)?;
    }
    Ok(())
}

/// The links and images of a document, a line each, as `3: image <to> 'title'`.
fn links_of(alloc: Global, bytes: &[u8]) -> Result<String, AllocError>
    requires limit { IsWithinLimit 4 bytes.now }
{
    let events = read_document(alloc, bytes, &ParseOptions::default())?;
    let mut lines = String::new(alloc);
    for link in links(alloc, bytes, events.as_slice())?.as_slice() {
        let what = if link.is_image { "image" } else { "link" };
        write!(lines, "{}: {what} ", link.line)?;
        if let Some(parts) = &link.parts {
            write_parts(&mut lines, parts)?;
        }
        writeln!(lines)?;
    }
    Ok(lines)
}

/// CommonMark, 6.3, 6.4 and 4.7: references lead to the first definition of their label, which may come later. Labels match in any case
/// and with white space around them. A link without a destination has an empty one.
#[test]
fn links_lead_somewhere(rt: HostRuntime) {
    let document = b"[a](/u \"t\") ![b](<c d>)\n\n> [Foo]\n> [x][ foo ] [y]()\n\n- ![z][FOO]\n\n\
        [foo]: /d&amp;e 'f\\'g'\n[foo]: /second";
    assert_shown(
        &rt,
        links_of(rt.alloc(), document),
        "1: link </u> 't'\n1: image <c d>\n3: link </d&e> 'f'g'\n4: link </d&e> 'f'g'\n4: link <>\n6: image </d&e> 'f'g'\n",
    );
    assert_shown(
        &rt,
        links_of(rt.alloc(), b"x\n[![i](j)](k)"),
        "2: link <k>\n2: image <j>\n",
    );
}

/// The problems of a document, a line each.
fn problems_of(alloc: Global, bytes: &[u8]) -> Result<String, AllocError>
    requires limit { IsWithinLimit 4 bytes.now }
{
    let mut lines = String::new(alloc);
    for problem in problems(alloc, bytes, &ParseOptions::default())?.as_slice() {
        writeln!(lines, "{problem}")?;
    }
    Ok(lines)
}

/// Rule by rule, and of each rule in the order of the document. The destination of the image is that of its definition, which is empty.
#[test]
fn documents_have_problems(rt: HostRuntime) {
    let document =
        b"# a\n### b\n\n```\nx\n```\n# c\n[d]() ![e][f]\n\n[f]: <>\n> #### g\n\n[h](i)\n~~~ x\n";
    assert_shown(
        &rt,
        problems_of(rt.alloc(), document),
        "2: a heading that skips a rank\n11: a heading that skips a rank\n7: a second heading of rank 1\n\
        4: fenced code without a language\n8: a link or an image without a destination\n\
        8: a link or an image without a destination\n",
    );
    let document = b"## a\n### b\n# c\n\n```rust\n```\n[d](e)\n";
    assert_shown(&rt, problems_of(rt.alloc(), document), "");
}
