//! The surface: each item that the libraries offer, by the path under which a caller finds it. A path that is gone is an error here.
//! The program's own items are at the root of `mdevents`, and no crate can import from a program.
//!
//! Each call that takes memory and returns something is made with ample memory, and what it returns is compared. Of `mdtests_engine`, clones
//! are in `values`, `cuts_every` and what is of slices and locations in `places`. `run` and `read_text` are in `machines` of
//! `mdtests_machines`; `read_document`, `read_leaf_blocks` and what else reads documents are in `documents`, and `read_inline_text` is called by `mdcases`. The
//! rest is in the module of its name, or for `Tokenizer` in `tokenizer`, and in `driven` and `pushed` of `mdtests_base`.

use markdown::configuration::{CompileOptions, Constructs, Options, ParseOptions, TabSize};
use markdown::event::{Content, Event, Kind, Link, Name, Point, VOID_EVENTS};
use markdown::message::{Message, Place};
use markdown::parser::ParseState;
use markdown::state::{Machine, MachineTypes, Name as StateName, State};
use markdown::subtokenize::{
    Subresult, at_first_paragraph_of_list_item, divide_events, link, link_to, ready, subtokenize,
};
use markdown::tokenizer::{
    AfterGap, Container, ContainerState, Fault, Label, LabelKind, LabelStart, TokenizeState,
    Tokenizer, cuts_every, follow_on, point_at, run,
};
use markdown::unist::{Point as PlainPoint, Position};
use markdown::util::char::{
    Kind as CharKind, after_index, before_index, classify, classify_opt, format, format_byte,
    format_byte_opt, format_opt, kind_after_index,
};
use markdown::util::edit_map::EditMap;
use markdown::util::line_ending::LineEnding;
use markdown::util::location::{Location, Stop};
use markdown::util::skip::{opt, opt_back, to, to_back};
use markdown::util::slice::{Position as SlicePosition, Slice};
use markdown::{
    CompileOptions as RootCompileOptions, Constructs as RootConstructs, Options as RootOptions,
    ParseOptions as RootParseOptions,
};
use mdconstructs::answers::{enter_over, exit_to};
use mdconstructs::chunks::{connect, disconnect, is_connected, last_event, link_chunk};
use mdconstructs::{
    Back, Choice, Deep, Fail, Inlines, Lines, Paragraphs, Peek, Save, Text, Which, Words, Wrap,
    events_of, limit_of, options_with, read_document, read_inline_text, read_leaf_blocks,
    read_text,
};
