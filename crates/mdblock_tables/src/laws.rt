//! Laws about tables, checks and pieces. Each is a function that does nothing; its contract is the law.

ghost use Rattle.mdblock_tables.specs.Laws.{ChecksLeaveText, HeadersMatch, PiecesAreLaid, PiecesHaveNoChunks, PiecesMove, RowsAreWhole, RowsHaveCells};

/// The pieces of a row have all bytes of its line, each once.
pub fn rows_are_whole()
    ensures { RowsAreWhole }
{}

/// The contents of the cells of a row are the cells of its line.
pub fn rows_have_cells()
    ensures { RowsHaveCells }
{}

/// The header row of a table has as many cells as its delimiter row, and at least one.
pub fn headers_match()
    ensures { HeadersMatch }
{}

/// Something comes behind a check in its line.
pub fn checks_leave_text()
    ensures { ChecksLeaveText }
{}

/// Where places move, the marks of pieces move.
pub fn pieces_move()
    ensures { PiecesMove }
{}

/// No piece is a chunk.
pub fn pieces_have_no_chunks()
    ensures { PiecesHaveNoChunks }
{}

/// What a writer puts, piece after piece, are the marks of the pieces.
pub fn pieces_are_laid()
    ensures { PiecesAreLaid }
{}
