//! Laws about the machines. Each is a function that does nothing; its contract is the law.

ghost use Rattle.std.specs.Prelude.{◌≡◌, ◌+◌, ◌-◌, ◌*◌, ◌/◌, [], ◌∷◌, false, Some, None};
ghost use Rattle.markdown_base.specs.declared.state.TheConstants.Name.{DataAtBreak, DataInside, FlowStart, ParagraphInside, StringBefore, StringStart, TextBefore, TextStart, ThematicBreakAtBreak};
ghost use Rattle.markdown_tokenizer.specs.Alike.{LooksNoFurther};
ghost use Rattle.mdconstructs_tables.specs.Fitting.{IsFit};
ghost use Rattle.mdconstructs_tables.specs.Misfits.{act, spans, choice, answer, unpaid, start, misfits};
ghost use Rattle.mdconstructs_tables.specs.Numbers.{shortages};
ghost use Rattle.mdconstructs_tables.specs.PlainTables.{IsPlainTable};
ghost use Rattle.mdconstructs_tables.specs.PlainWrites.{WritesPlain};
ghost use Rattle.mdconstructs_tables.specs.Quiet.{loud};
ghost use Rattle.mdconstructs_tables.specs.Refusals.{RulesRefuseNothing};
ghost use Rattle.mdconstructs_tables.specs.RowTest.{never};
ghost use Rattle.mdconstructs_tables.specs.Rows.{anywhere, at_bytes_or_end};
ghost use Rattle.mdconstructs_tables.specs.Breaks.{breaks, BreaksAreScanned};
ghost use Rattle.mdconstructs_machines.specs.Costs.{StartsAt, StartsAmong};
ghost use Rattle.mdconstructs_machines.specs.Innermost.{AccountsForDocuments};
ghost use Rattle.mdconstructs_machines.specs.LineEvents.{line_events, data_events, save_events, back_events};
ghost use Rattle.mdconstructs_machines.specs.ReadAs.{IsReadAs};
ghost use Rattle.mdconstructs_tables.specs.Tables.{line_ending, other};
ghost use Rattle.mdconstructs_machines.specs.Unfit.{lines_with, consumes_twice, enters_no_data, gives_up, consumes_nothing, unpaid_lines, round_by, goes_round_in_place, goes_round, ends_well, fails_at_line_ending, breaking, is_ending, starts_inside, too_few, lacking, uncounted_lines, editing};
ghost use Rattle.mdconstructs_machines.specs.Unfit.{lines_that, lines_inside, exits_outer_first, spans_nothing, begins_at_the_end, fills_a_void_span, tries_in_a_full_span, tries_where_a_span_began, hasty_inside};
ghost use Rattle.mdconstructs_machines.specs.Unfit.{ends_inside, tries_to_go_inside, needy_inside, retries_behind_a_byte, names_no_state, goes_on_in_a_full_span};
ghost use Rattle.mdconstructs_machines.specs.Unfit.{late_inside, narrow_inside, stays, starts_nowhere};
ghost use Rattle.mdconstructs_machines.specs.Unfit.{notes_where_a_span_began, ends_where_nothing_was_noted, begins_where_it_notes, begins_before_an_event, begins_where_it_noted, knowing_inside};
ghost use Rattle.mdconstructs_machines.specs.Lines.{lines, lines_rules};
ghost use Rattle.mdconstructs_tables.specs.Paragraphs.{paragraphs_rules};
ghost use Rattle.mdconstructs_machines.specs.Peek.{peek, peek_rules};
ghost use Rattle.mdconstructs_machines.specs.Deep.{deep, deep_rules};
ghost use Rattle.mdconstructs_machines.specs.Back.{back_rules};
ghost use Rattle.mdconstructs_machines.specs.Save.{save_rules};
ghost use Rattle.mdconstructs_machines.specs.Words.{words_rules};
ghost use Rattle.mdconstructs_machines.specs.Fail.{fail_rules};
ghost use Rattle.mdconstructs_machines.specs.WholeLooks.{LooksOverTheRest};
ghost use Rattle.mdconstructs_machines.specs.Wrap.{wrap_rules};

/// With which states each machine may start, and how many calls it takes at most from each, on a text of n virtual bytes.
/// The machine of paragraphs has two such states, and the others one.
pub fn costs_at_the_start()
    ensures lines { StartsAt lines_rules FlowStart (λ n. 2 * n + 1) }
    ensures paragraphs { StartsAmong paragraphs_rules (FlowStart ∷ TextStart ∷ []) FlowStart (λ n. 4 * n + 3) }
    ensures paragraphs_as_text { StartsAmong paragraphs_rules (FlowStart ∷ TextStart ∷ []) TextStart (λ n. 2 * n + 2) }
    ensures peek { StartsAt peek_rules TextStart (λ n. 3 * n + 3) }
    ensures deep { StartsAt deep_rules StringStart (λ n. n * (n - 1) / 2 + 4 * n + 1) }
    ensures back { StartsAt back_rules TextStart (λ n. 2 * n + 4) }
    ensures save { StartsAt save_rules TextStart (λ n. 2 * n + 1) }
    ensures words { StartsAt words_rules TextStart (λ n. 2 * n + 1) }
    ensures fail { (at : _) → StartsAt (fail_rules at) TextStart (λ n. n + 1) }
    ensures wrap { (refuse : _) → StartsAt (wrap_rules refuse) TextStart (λ n. 2 * n + 2) }
{}

/// No reading by these machines ends in a message, whatever the text and the state with which it begins: they make events of
/// every document. `Words`, `Fail` and `Wrap` are not among them; they refuse some documents.
pub fn no_document_is_refused()
    ensures lines { RulesRefuseNothing lines_rules }
    ensures paragraphs { RulesRefuseNothing paragraphs_rules }
    ensures peek { RulesRefuseNothing peek_rules }
    ensures deep { RulesRefuseNothing deep_rules }
    ensures back { RulesRefuseNothing back_rules }
    ensures save { RulesRefuseNothing save_rules }
{}

/// The events that these machines make of each document have definitions without states: each line is data, or each line but the
/// first; or the first line is data, and all the rest.
pub fn documents_are_read_by_lines()
    ensures lines { IsReadAs lines_rules FlowStart line_events }
    ensures peek { IsReadAs peek_rules TextStart data_events }
    ensures deep { IsReadAs deep_rules StringStart data_events }
    ensures save { IsReadAs save_rules TextStart save_events }
    ensures back { IsReadAs back_rules TextStart back_events }
{}

/// The looks of `Peek` and of `Deep` read all that is left, and fail: one call for each byte, and one at the end. They are quiet,
/// as the test says. A line of data is not, as its state ends a span.
pub fn looks_read_the_rest()
    ensures peek { LooksOverTheRest peek TextBefore }
    ensures deep { LooksOverTheRest deep StringBefore }
    ensures quiet { (previous current : _) → loud peek (TextBefore ∷ []) (λ name. 0) previous current ≡ [] }
    ensures loud { loud peek (TextBefore ∷ DataInside ∷ []) (λ name. 0) None (Some line_ending) ≡ DataInside ∷ [] }
{}

/// The look at the line of a thematic break of stars ends with `Ok` exactly if its bytes make one: a recursion on bytes that has no
/// state, position or class. The rows of its state are given by tests.
pub fn breaks_are_scanned()
    ensures scanned { BreaksAreScanned }
    ensures quiet { (previous current : _) → loud breaks (ThematicBreakAtBreak ∷ []) (λ name. 0) previous current ≡ [] }
{}

/// Each virtual byte of a document is in exactly one innermost span of the events of `Lines`: its tokens account for the document.
pub fn innermost_spans_account_for_documents()
    ensures { AccountsForDocuments lines_rules FlowStart }
{}

/// The test of a table names each state that does not fit, with the reason. The tables here are the table of lines with
/// one thing changed, and three that go round through an attempt that saves nothing: the third has no misfit. A row is tested
/// only for what may wait: in the last but one a state with a row that does not fit is never called there.
pub fn misfits_have_reasons()
    ensures act { misfits (lines_with consumes_twice) None (Some line_ending) ≡ (FlowStart, act) ∷ [] }
    ensures spans { misfits (lines_with enters_no_data) None (Some other) ≡ (FlowStart, spans) ∷ [] }
    ensures choice { misfits (lines_with gives_up) None (Some line_ending) ≡ (FlowStart, choice) ∷ [] }
    ensures answer { misfits (lines_with consumes_nothing) None (Some line_ending) ≡ (FlowStart, answer) ∷ [] }
    ensures unpaid { misfits unpaid_lines None (Some other) ≡ (FlowStart, unpaid) ∷ [] }
    ensures round_in_place { misfits (round_by goes_round_in_place ends_well) None (Some other) ≡ (FlowStart, unpaid) ∷ [] }
    ensures round_and_fails { misfits (round_by goes_round fails_at_line_ending) None (Some line_ending) ≡ (ParagraphInside, choice) ∷ [] }
    ensures round { misfits (round_by goes_round ends_well) None (Some other) ≡ [] }
    ensures at_break { misfits (breaking anywhere) None (Some other) ≡ (DataAtBreak, choice) ∷ [] }
    ensures at_endings { (previous current : _) → misfits (breaking (at_bytes_or_end is_ending)) previous current ≡ [] }
    ensures start { misfits starts_inside None (Some other) ≡ (ParagraphInside, start) ∷ [] }
{}

/// A reason has more causes than one. Here is a table for each of the others, with one thing changed in the table of lines. One of them
/// fits: a span begins at a place that was noted, once its byte was read.
pub fn misfits_have_causes()
    ensures outer_span_ends_first { misfits (lines_that exits_outer_first) None (Some other) ≡ (FlowStart, act) ∷ [] }
    ensures span_of_no_byte { misfits (lines_that spans_nothing) None (Some other) ≡ (FlowStart, act) ∷ [] }
    ensures span_at_the_end { misfits (lines_that begins_at_the_end) None None ≡ (FlowStart, act) ∷ [] }
    ensures full_void_span_ends { misfits (lines_that fills_a_void_span) None (Some other) ≡ (FlowStart, act) ∷ [] }
    ensures choice_in_a_full_void_span { misfits (lines_that tries_in_a_full_span) None (Some other) ≡ (FlowStart, act) ∷ [] }
    ensures note_where_a_span_began { misfits (lines_that notes_where_a_span_began) None (Some other) ≡ (FlowStart, act) ∷ [] }
    ensures exit_where_nothing_was_noted { misfits (lines_that ends_where_nothing_was_noted) None (Some other) ≡ (FlowStart, act) ∷ [] }
    ensures enter_where_it_notes { misfits (lines_that begins_where_it_notes) None (Some other) ≡ (FlowStart, act) ∷ [] }
    ensures enter_before_an_event { misfits (lines_that begins_before_an_event) None (Some other) ≡ (FlowStart, act) ∷ [] }
    ensures enter_where_it_noted { misfits (lines_that begins_where_it_noted) None (Some other) ≡ [] }
    ensures no_place_was_noted { misfits (lines_inside knowing_inside) None (Some other) ≡ (FlowStart, answer) ∷ [] }
    ensures choice_where_a_span_began { misfits tries_where_a_span_began None (Some other) ≡ (FlowStart, choice) ∷ [] }
    ensures ok_where_a_span_began { misfits (lines_inside hasty_inside) None (Some line_ending) ≡ (ParagraphInside, answer) ∷ [] }
    ensures ok_in_a_span { misfits (lines_that ends_inside) None (Some other) ≡ (FlowStart, spans) ∷ [] }
    ensures choice_of_other_spans { misfits (lines_that tries_to_go_inside) None (Some other) ≡ (FlowStart, choice) ∷ [] }
    ensures no_choice_waits { misfits (lines_inside needy_inside) None (Some other) ≡ (FlowStart, choice) ∷ [] }
    ensures retry_behind_a_byte { misfits (lines_that retries_behind_a_byte) None (Some other) ≡ (FlowStart, answer) ∷ [] }
    ensures no_such_state { misfits (lines_that names_no_state) None (Some other) ≡ (FlowStart, answer) ∷ [] }
    ensures full_void_span_stays { misfits (lines_that goes_on_in_a_full_span) None (Some other) ≡ (FlowStart, answer) ∷ [] }
    ensures span_began_here { misfits (lines_inside late_inside) None (Some other) ≡ (FlowStart, answer) ∷ [] }
    ensures called_at_other_bytes { misfits (lines_inside narrow_inside) None (Some other) ≡ (ParagraphInside, answer) ∷ [] }
    ensures round_at_one_place { misfits (lines_that stays) None (Some other) ≡ (FlowStart, unpaid) ∷ [] }
    ensures no_state_starts { misfits starts_nowhere None (Some other) ≡ (TextStart, start) ∷ [] }
{}

/// Where the numbers of a state are too low, the test names it, with what a row of it takes and what it has: the inequality that
/// does not hold, by the bytes behind the one that waits.
pub fn low_numbers_are_named()
    ensures { shortages lines (λ _. false) too_few never None (Some other) lines.states too_few ≡ lacking }
{}

/// A table without misfits may be unlawful. In one table here no state says how many calls are left, and the machine's own
/// cost is too small. The other writes an edit of an event that is not there. Neither meets the conditions of
/// `fitting_tables_are_lawful`.
pub fn misfits_are_not_all()
    ensures uncounted { (previous current : _) → misfits uncounted_lines previous current ≡ [] }
    ensures unpaid { ¬ IsFit uncounted_lines }
    ensures editing { (previous current : _) → misfits editing previous current ≡ [] }
    ensures not_plain { ¬ IsPlainTable editing }
    ensures writes { ¬ WritesPlain editing }
{}

/// The machine of paragraphs looks no further than the byte that waits. So a tokenizer that it drives can go on in another document
/// that begins alike.
pub fn paragraphs_look_no_further()
    ensures { LooksNoFurther paragraphs_rules }
{}
