//! Documents that machines read, and long documents.

ghost use Rattle.markdown.specs.Virtual.{IsWithinLimit};
ghost use Rattle.std.specs.Prelude.{◌+◌, ◌*◌, ◌<◌, Contains};
ghost use Rattle.markdown.specs.Presets.{default_parse_options};
ghost use Rattle.markdown.specs.Engine.{given_by};

use crate::shown::shown;
use markdown::configuration::ParseOptions;
use markdown::parser::ParseState;
use markdown::state::{Machine, Name};
use markdown::tokenizer::{cuts_every, run};
use std::alloc::{AllocError, Global};

/// The events that a machine makes of a document that is cut after each given number of virtual bytes, from this start, with or
/// without running resolvers; or why the document is refused.
pub fn lines_by<M: Machine>(
    alloc: Global,
    machine: &M,
    start: Name,
    bytes: &[u8],
    cut: usize,
    resolve: bool,
) -> Result<String, AllocError>
    requires limit { IsWithinLimit 4 bytes.now }
    requires start { Contains (M.rules machine.now (given_by bytes.now default_parse_options)).starts start }
    requires cut { 0 < cut }
{
    let options = ParseOptions::default();
    let parse_state = ParseState {
        bytes,
        options: &options,
        machine,
    };
    let cuts = cuts_every(alloc, bytes, options.tab_size, cut)?;
    match run(alloc, &parse_state, start, cuts.as_slice(), resolve) {
        Ok((events, _)) => shown(alloc, events.as_slice()),
        Err(fault) => fault.to_string(alloc),
    }
}

/// A beginning, and then a line, this many times.
pub fn repeated(
    alloc: Global,
    before: &[u8],
    line: &[u8],
    count: usize,
) -> Result<Vec<u8>, AllocError> {
    let mut text = Vec::new(alloc);
    text.extend_from_slice(before)?;
    for _ in 0..count {
        text.extend_from_slice(line)?;
    }
    Ok(text)
}
