//! Laws of documents with checks, calls and literals. Each is a function that does nothing; its contract is the law.

ghost use Rattle.mdgfm_documents.specs.LinkLaws.{LinksAreKept, LinksHoldNoLinks, LinksHoldNone};
ghost use Rattle.mdgfm_documents.specs.Laws.{GfmIsBalanced, GfmIsInOrder, GfmIsNamed, OffIsDocument, OrderIsKept};

/// Without these options the events are those of the document.
pub fn gfm_off()
    ensures { OffIsDocument }
{}

/// The events of each document are balanced.
pub fn gfm_documents_are_balanced()
    ensures { GfmIsBalanced }
{}

/// The events of each document are in order of place, and so are events in order with checks, calls and literals.
pub fn gfm_documents_are_in_order()
    ensures kept { OrderIsKept }
    ensures documents { GfmIsInOrder }
{}

/// Checks, calls and literals bring no names but their own, and those of white space and data.
pub fn gfm_documents_have_names()
    ensures { GfmIsNamed }
{}

/// Checks, calls and literals put nothing into a link. So in a document no call and no literal is in a link; and where its own events have neither a link
/// nor an autolink in a link, no link of any kind is in a link.
pub fn links_hold_no_links()
    ensures kept { LinksAreKept }
    ensures none { LinksHoldNone }
    ensures documents { LinksHoldNoLinks }
{}
