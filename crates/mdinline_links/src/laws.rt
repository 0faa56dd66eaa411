//! Laws about links and images.

ghost use Rattle.mdinline_links.specs.Laws.{IsEmphasisAlone, LinksCostLittle, LinksKeepLists, LinksKeepOrder, LinksKeepPlaces, LinksKeepTight};
ghost use Rattle.mdinline_links.specs.LinkEdits.{LinksCanBeMade};

/// Of a balanced list of events without brackets links make what emphasis makes, and nothing else.
pub fn without_brackets_emphasis_alone()
    ensures { IsEmphasisAlone }
{}

/// Where links, images and emphasis are put in place, a balanced list stays balanced, and a list without links has none.
pub fn links_keep_lists()
    ensures { LinksKeepLists }
{}

/// In any balanced list without links the edits of its brackets and delimiter runs can be made. They leave the list with links, images and
/// emphasis in their place, balanced and without links.
pub fn links_can_be_made()
    ensures { LinksCanBeMade }
{}

/// Where links, images and emphasis are put in place, the exit of each void span stays behind its enter.
pub fn links_keep_tight()
    ensures { LinksKeepTight }
{}

/// They stand in the order of their places, if the events before did, and each delimiter run goes byte by byte.
pub fn links_keep_order()
    ensures { LinksKeepOrder }
{}

/// They stand inside the document, with room behind them, if the events before did.
pub fn links_keep_places()
    ensures { LinksKeepPlaces }
{}

/// What `put_links_counted` may take at most is no more than `links_an_event` turns for each event and 3 for each byte, if the events stand in order
/// inside the document.
pub fn links_cost_little()
    ensures { LinksCostLittle }
{}
