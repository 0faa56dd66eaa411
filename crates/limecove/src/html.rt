//! What programs in C and in Rust call to make a document HTML.

ghost use Rattle.std.specs.Prelude.{◌≡◌, ◌≢◌, ◌<◌, ◌≤◌, ◌↔◌, ◌⊎◌, [], Err, IfErr, IfOk, IsOkAnd, bit_and, length, take};
ghost use Rattle.markdown.specs.Virtual.{IsWithinLimit};
ghost use Rattle.mdhtml_markup.specs.SafeHtml.{IsSafeHtml};
ghost use Rattle.limecove.specs.Choices.{html_choice_of};
ghost use Rattle.limecove.specs.Editing.{written};
ghost use Rattle.limecove.specs.Html.{HoldsHtml, IsHtml, options_of};

use crate::choose::{
    ALLOW_ALL, ALLOW_ANY_IMG_SRC, ALLOW_DANGEROUS_HTML, ALLOW_DANGEROUS_PROTOCOL, GFM_TAGFILTER,
    HtmlOptions, choose_html, parse_options_of,
};
use crate::code::{NO_SUCH_CONSTRUCT, NO_SUCH_PERMISSION, OUT_OF_MEMORY, READ, TOO_LONG, VERSION};
use crate::{Answer, ended};
use markdown_base::configuration::{CompileOptions, Options, TabSize};
use mdconstructs::limit_of;
use mdhtml_calls::html::to_html_with_options;
use std::alloc::Global;
use std::cmp;

/// Makes a document HTML, and writes that over the first bytes of `out`, as many as fit. The count is how many bytes the HTML has. It is
/// safe, whatever the document is, if the options let nothing through.
#[unsafe(no_mangle)]
pub extern "C" fn limecove_html(
    alloc: Global,
    bytes: &[u8],
    options: &HtmlOptions,
    out: &mut [u8],
) -> Answer
    ensures read { result.code ≡ READ → HoldsHtml options.now bytes.now result.count out.old out.new }
    ensures safe { result.code ≡ READ → bit_and options.now.allow ALLOW_ALL ≡ 0 → result.count ≤ length out.old → IsSafeHtml [] (take result.count out.new) }
    ensures kept { result.code ≢ READ → out.new ≡ out.old }
    ensures none { result.code ≢ READ → result.count ≡ 0 }
    ensures options { IfErr (html_choice_of options.now) (λ code. result.code ≡ code) }
    ensures chosen { IfOk (html_choice_of options.now) (λ _. result.code ≤ TOO_LONG) }
    ensures too_long { (result.code ≡ TOO_LONG) ↔ IsOkAnd (html_choice_of options.now) (λ tab. ¬ IsWithinLimit tab bytes.now) }
    ensures codes { (result.code ≤ NO_SUCH_CONSTRUCT) ⊎ (result.code ≡ NO_SUCH_PERMISSION) }
    ensures version { result.version ≡ VERSION }
{
    match html_of(alloc, bytes, options) {
        Ok(html) => ended(READ, write_bytes(out, html.as_slice())),
        Err(code) => ended(code, 0),
    }
}

/// The HTML of a document. If there is none, the code that says why.
fn html_of(alloc: Global, bytes: &[u8], options: &HtmlOptions) -> Result<Vec<u8>, u32>
    ensures read { IfOk result (λ html. IsHtml options.now bytes.now html.items) }
    ensures safe { bit_and options.now.allow ALLOW_ALL ≡ 0 → IfOk result (λ html. IsSafeHtml [] html.items) }
    ensures options { IfErr (html_choice_of options.now) (λ code. result ≡ Err code) }
    ensures chosen { IfOk (html_choice_of options.now) (λ _. IfErr result (λ code. code ≤ TOO_LONG)) }
    ensures too_long { (result ≡ Err TOO_LONG) ↔ IsOkAnd (html_choice_of options.now) (λ tab. ¬ IsWithinLimit tab bytes.now) }
    ensures codes { IfErr result (λ code. (READ < code) × ((code ≤ NO_SUCH_CONSTRUCT) ⊎ (code ≡ NO_SUCH_PERMISSION))) }
{
    let tab = choose_html(options)?;
    if bytes.len() > limit_of(tab) {
        return Err(TOO_LONG);
    }
    match to_html_with_options(alloc, bytes, &options_of(options, tab)) {
        Ok(html) => Ok(html),
        Err(_) => Err(OUT_OF_MEMORY),
    }
}

/// How a document is read and made into HTML, with this tab size.
fn options_of(options: &HtmlOptions, tab: TabSize) -> Options
    ensures { result ≡ options_of options.now tab }
{
    let allow = options.allow;
    Options {
        parse: parse_options_of(options.constructs, tab),
        compile: CompileOptions {
            allow_any_img_src: allow & ALLOW_ANY_IMG_SRC != 0,
            allow_dangerous_html: allow & ALLOW_DANGEROUS_HTML != 0,
            allow_dangerous_protocol: allow & ALLOW_DANGEROUS_PROTOCOL != 0,
            gfm_tagfilter: allow & GFM_TAGFILTER != 0,
            ..CompileOptions::default()
        },
    }
}

/// Writes bytes over the first of others, as many as fit. Returns how many there are.
pub(crate) fn write_bytes(out: &mut [u8], bytes: &[u8]) -> usize
    ensures written { out.new ≡ written out.old bytes.now }
    ensures count { result ≡ length bytes.now }
{
    let count = cmp::min(out.len(), bytes.len());
    out[..count].copy_from_slice(&bytes[..count]);
    bytes.len()
}
