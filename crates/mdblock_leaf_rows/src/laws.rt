//! Laws about the machine of leaf blocks. Each is a function that does nothing; its contract is the law.

ghost use Rattle.std.specs.Prelude.{◌≡◌, ◌+◌, ◌*◌, [], ◌∷◌};
ghost use Rattle.markdown_base.specs.declared.state.TheConstants.Name.{ContentDefinitionBefore, FlowStart};
ghost use Rattle.markdown_base.specs.Texts.{html_block_names, html_raw_names};
ghost use Rattle.markdown_tokenizer.specs.Lawful.{IsLawful};
ghost use Rattle.markdown_tokenizer.specs.Text.{Given};
ghost use Rattle.mdconstructs_tables.specs.Fitting.{HasNoMisfits};
ghost use Rattle.mdconstructs_tables.specs.Refusals.{RulesRefuseNothing};
ghost use Rattle.mdblock_leaf_rows.specs.FlowKnows.{flow_rules};
ghost use Rattle.mdblock_leaf_rows.specs.QuietLooks.{LooksAreQuiet};
ghost use Rattle.mdblock_leaf_rows.specs.FlowTable.{flow};
ghost use Rattle.mdblock_leaf_rows.specs.HtmlNames.{AreToldApart};
ghost use Rattle.mdblock_leaf_rows.specs.LawStatements.{StartsWithin};

/// The machine has two starts, and from each takes at most this many calls on a text of n virtual bytes.
pub fn cost_at_the_start()
    ensures starts { (g : Given) → (flow_rules g).starts ≡ FlowStart ∷ ContentDefinitionBefore ∷ [] }
    ensures cost { StartsWithin flow_rules FlowStart (λ n. 9 * n + 9) }
    ensures content_cost { StartsWithin flow_rules ContentDefinitionBefore (λ n. 9 * n + 10) }
{}

/// The machine is lawful on every document.
pub fn leaf_blocks_are_lawful()
    ensures { (g : Given) → IsLawful g (flow_rules g) }
{}

/// No row of its table is a misfit.
pub fn table_fits()
    ensures { HasNoMisfits flow }
{}

/// Looks make no event: each of their states only writes, reads bytes, goes on among the others, and ends.
pub fn looks_are_quiet()
    ensures { LooksAreQuiet }
{}

/// Numbers of names tell tags apart: a letter with letters and digits behind it has the number of a listed name exactly if it is that
/// name in lowercase.
pub fn tag_names_are_told_apart()
    ensures blocks { AreToldApart html_block_names }
    ensures raw { AreToldApart html_raw_names }
{}

/// No reading by the machine ends in a message, whatever the text and the state: it makes events of every document.
pub fn no_document_is_refused()
    ensures { RulesRefuseNothing flow_rules }
{}
