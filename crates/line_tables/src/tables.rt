ghost use Rattle.std.specs.Prelude.{◌≡◌};
ghost use Rattle.line_tables.specs.Tables.{rule_at, rules_of};

use sqlite_items::Items;

/// A format: its lines, and the letter of its rules of refusal.
#[derive(Clone, Copy, Debug)]
pub struct LineTable {
    pub letter: u8,
    pub lines: &'static [Line],
}

/// A line of a table.
#[derive(Clone, Copy, Debug)]
pub struct Line {
    /// The word with which it begins. No other line of the table has it.
    pub word: &'static str,
    /// What stands behind the word.
    pub items: &'static [Item],
    pub place: Place,
}

/// A kind of items, each of which stands for a number.
#[derive(Clone, Copy, Debug, PartialEq, Eq)]
pub enum Item {
    /// A number from the first to the second.
    Natural(u32, u32),
    /// A whole number of at most `2^127 - 1` in size.
    Whole,
    /// A number up to this one, and then so many whole numbers.
    Wholes(u32),
}

/// Where a line may stand, and where it leads.
#[derive(Clone, Copy, Debug, PartialEq, Eq)]
pub enum Place {
    /// It is the first line, and its first number is the version of the format.
    Header,
    /// It stands behind the header, from this version on.
    Within { since: u32 },
    /// It begins a part, from this version on, with at most so many parts within one another.
    Opens { since: u32, deepest: u32 },
    /// It ends the innermost part.
    Closes,
    /// It is the last line, behind all parts.
    Ends,
}

/// A line that was read.
#[derive(Debug, Drop)]
pub struct Row {
    /// The place of its line in the table.
    pub line: usize,
    /// The numbers of the items behind its word.
    pub numbers: Items<i128>,
}

/// The word with which the line of the row begins.
pub fn word_of(lines: &[Line], row: &Row) -> &'static str
    ensures { result.now ≡ (rule_at (rules_of lines.now) row.now.line).word }
{
    match lines.get(row.line) {
        Some(line) => line.word,
        None => "",
    }
}
