//! The laws about blank lines, and about lines that are text. Each is a function that does nothing; its contract is the law.

ghost use Rattle.mdblock_text_lines.specs.Asked.{BlocksAreThose, PartsAreThose, SectionsAreThose};

/// A blank line stands in what the lines before and behind it both stand in; and in the quotes whose markers it has, and the items that begin in it. The
/// parts and sections of a document that stand so are those that are read of it, whatever its lines and its constructs.
pub fn blank_lines_stand_in_what_is_around_them()
    ensures parts { PartsAreThose }
    ensures sections { SectionsAreThose }
{}

/// The leaf blocks of each document are those that are read of it with a letter in each line that is text whatever it looks like.
pub fn blocks_need_no_letters()
    ensures { BlocksAreThose }
{}
