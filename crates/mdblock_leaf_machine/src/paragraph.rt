//! Paragraphs. Each line is a chunk of text, linked to the chunk before; its line ending is in it, but for the last line's.

ghost use Rattle.std.specs.Prelude.{IfOk};
ghost use Rattle.mdconstructs_tables.specs.RowInvariant.{DoesAll, IsCallable, step_in};
ghost use Rattle.mdblock_leaf_rows.specs.FlowBytes.{flow_byte};
ghost use Rattle.mdblock_leaf_rows.specs.ChunkRows.{chunk_begins};
ghost use Rattle.mdblock_leaf_rows.specs.Steps.{rows_step};
ghost use Rattle.mdblock_leaf_rows.specs.Paragraph.{flow_before_content, paragraph_start, paragraph_inside, paragraph_line_start, paragraph_line_after};
ghost use Rattle.mdconstructs_tables.specs.Paragraphs.{CanLinkChunk};

use crate::heading_edits::{begin_paragraph, end_paragraph};
use crate::html_names::is_passed_over;
use crate::sizes::{TEXT, kind_is};
use markdown_tokenizer::event;
use markdown_tokenizer::state::{MachineTypes, Name, State};
use markdown_tokenizer::tokenizer::Tokenizer;
use mdblock_leaf_rows::names;
use mdconstructs_tables::answers::exit_to;
use mdconstructs_tables::chunks::{connect, disconnect, is_connected, link_chunk};
use std::alloc::AllocError;

/// Before a paragraph, which begins here.
pub(crate) fn flow_before_content<'a, M: MachineTypes>(
    t: &mut Tokenizer<'a, M>,
) -> Result<State, AllocError>
    requires { IsCallable flow_byte flow_before_content t.old }
    ensures { IfOk result (DoesAll (step_in flow_byte flow_before_content t.old) t.old t.new) }
{
    t.enter(event::Name::Paragraph)?;
    disconnect(t);
    begin_paragraph(t);
    Ok(State::Retry(Name::ParagraphStart))
}

/// Before a line of a paragraph. Its chunk is linked to the one before, if there is one.
pub(crate) fn paragraph_start<'a, M: MachineTypes>(
    t: &mut Tokenizer<'a, M>,
) -> Result<State, AllocError>
    requires called { IsCallable flow_byte paragraph_start t.old }
    requires chunk { CanLinkChunk t.old }
    ensures { IfOk result (DoesAll (step_in flow_byte paragraph_start t.old) t.old t.new) }
{
    match t.current() {
        None | Some(b'\n') => exit_to(t, event::Name::Paragraph, State::Retry(Name::FlowAfter)),
        Some(_) => begin_chunk(t),
    }
}

/// In a line of a paragraph. At its end a look says whether the next line ends the paragraph.
pub(crate) fn paragraph_inside<'a, M: MachineTypes>(
    t: &mut Tokenizer<'a, M>,
) -> Result<State, AllocError>
    requires { IsCallable flow_byte paragraph_inside t.old }
    ensures { IfOk result (DoesAll (step_in flow_byte paragraph_inside t.old) t.old t.new) }
{
    match t.current() {
        None => {
            t.exit(event::Name::Data)?;
            exit_to(t, event::Name::Paragraph, State::Retry(Name::FlowAfter))
        }
        Some(b'\n') => {
            t.check(
                State::Next(Name::ParagraphLineStart),
                State::Next(names::ParagraphLineAfter),
            )?;
            Ok(State::Retry(names::ParagraphLookStart))
        }
        Some(_) => {
            t.consume();
            Ok(State::Next(Name::ParagraphInside))
        }
    }
}

/// At the end of a line of a paragraph, if the next line is no plain text. The paragraph goes on over an indented
/// line, and over HTML of kind 7. An underline makes it a heading.
pub(crate) fn paragraph_line_start<'a, M: MachineTypes>(
    t: &mut Tokenizer<'a, M>,
) -> Result<State, AllocError>
    requires { IsCallable flow_byte paragraph_line_start t.old }
    ensures { IfOk result (DoesAll (step_in flow_byte paragraph_line_start t.old) t.old t.new) }
{
    if is_passed_over(t) {
        return Ok(State::Retry(names::ParagraphLineAfter));
    }
    if kind_is(t, event::Name::HeadingSetextUnderline) {
        t.exit(event::Name::Data)?;
        t.exit(event::Name::Paragraph)?;
        end_paragraph(t);
        return Ok(State::Retry(names::HeadingSetextTextAfter));
    }
    t.exit(event::Name::Data)?;
    exit_to(t, event::Name::Paragraph, State::Retry(Name::FlowAfter))
}

/// At the end of a line of a paragraph that goes on: the line ending is in the chunk.
pub(crate) fn paragraph_line_after<'a, M: MachineTypes>(
    t: &mut Tokenizer<'a, M>,
) -> Result<State, AllocError>
    requires { IsCallable flow_byte paragraph_line_after t.old }
    ensures { IfOk result (DoesAll (step_in flow_byte paragraph_line_after t.old) t.old t.new) }
{
    t.consume();
    exit_to(t, event::Name::Data, State::Next(Name::ParagraphStart))
}

/// Begins a chunk, and links it to the one before, if there is one.
fn begin_chunk<'a, M: MachineTypes>(t: &mut Tokenizer<'a, M>) -> Result<State, AllocError>
    requires { CanLinkChunk t.old }
    ensures { IfOk result (DoesAll (rows_step chunk_begins t.old) t.old t.new) }
{
    t.enter_link(event::Name::Data, TEXT)?;
    if is_connected(t) {
        link_chunk(t);
    }
    connect(t);
    Ok(State::Retry(Name::ParagraphInside))
}
