//! Laws about tables. Each is a function that does nothing; its contract is the law.

ghost use Rattle.mdblock_table_marks.specs.Laws.{CellsCanBeOff, CellsKeepEvents, CutsHoldLines, CutsNeedTables, RowsHaveFewPieces, TablesAccount, TablesAreBalanced, TablesAreVoidTight, TablesHaveCellData, TablesHaveNoChunks, TablesMove};

/// Each virtual byte of a table's lines, behind the prefixes of the first, is in exactly one innermost span.
pub fn tables_account()
    ensures { TablesAccount }
{}

/// The events of a table are balanced.
pub fn tables_are_balanced()
    ensures { TablesAreBalanced }
{}

/// Void spans of tables are empty.
pub fn tables_are_void_tight()
    ensures { TablesAreVoidTight }
{}

/// Nothing in a table is a chunk yet: the texts of its cells come to be chains later.
pub fn tables_have_no_chunks()
    ensures { TablesHaveNoChunks }
{}

/// In a table the text of each cell has data, with nothing in it: that comes to be a chain.
pub fn tables_have_cell_data()
    ensures { TablesHaveCellData }
{}

/// Where the places of lines move, the marks of their table move.
pub fn tables_move()
    ensures { TablesMove }
{}

/// The bytes of a row pay for its pieces.
pub fn rows_have_few_pieces()
    ensures { RowsHaveFewPieces }
{}

/// Each line is in exactly one of the pieces into which lines are cut at tables, and these are in the order of lines.
pub fn cuts_hold_lines()
    ensures { CutsHoldLines }
{}

/// Lines without a table are one piece.
pub fn cuts_need_tables()
    ensures { CutsNeedTables }
{}

/// Where tables are off, no text of a cell is a chain.
pub fn cells_can_be_off()
    ensures { CellsCanBeOff }
{}

/// The chains of cells change links alone: each event keeps its kind, its name and its place.
pub fn cells_keep_events()
    ensures { CellsKeepEvents }
{}
