//! The worked example of a format by a table (`line_tables`): lists of numbers, nested, with a
//! header in two versions. A format costs its table, here and in `specs/Toys`, and its clauses.
//!
//! A toy begins with `toy 1` or `toy 2` and ends with `end`. Between them stand lists, each a line
//! `list N` with N numbers behind it, and in version 2 parts, from `open` to `close`.
#![tactic(auto)]

#[cfg(test)]
mod tests;

ghost use Rattle.std.specs.Prelude.{◌≡◌, ◌<◌, ◌-◌, ◌^◌, ℕ, List, map, length, Ok, Err, IfOk, IsErrOf};
ghost use Rattle.whole.specs.declared.answers.Refusal.{Refusal};
ghost use Rattle.text_lines.specs.Steps.{GivesUnless};
ghost use Rattle.text_machine.specs.Texts.{Table, GivesText};
ghost use Rattle.line_tables.specs.Tables.{AreLines, AreRows, IsRefused, IsText, IsTextOrRefused, numbers, text_fed, text_of, text_read};
ghost use Rattle.toy_text.specs.Toys.{toy};

use line_tables::{Item, Line, LineTable, Place, Row, print, read, texts_are_told_apart};
use sqlite_items::Items;
use std::alloc::Global;
use whole::{NoMemory, ReadFault};

/// The table of toys.
pub const TOY: LineTable = LineTable {
    letter: b'T',
    lines: &[
        Line {
            word: "toy",
            items: &[Item::Natural(1, 2)],
            place: Place::Header,
        },
        Line {
            word: "list",
            items: &[Item::Wholes(9)],
            place: Place::Within { since: 1 },
        },
        Line {
            word: "open",
            items: &[],
            place: Place::Opens {
                since: 2,
                deepest: 9,
            },
        },
        Line {
            word: "close",
            items: &[],
            place: Place::Closes,
        },
        Line {
            word: "end",
            items: &[],
            place: Place::Ends,
        },
    ],
};

/// The rows of the toy whose text the bytes are; where they are no such text, the first rule that
/// they break: T1 a line of another form, T2 a number past `2^127 - 1`, T3 a line that may not stand
/// there or bytes behind the end, T4 a missing end or LF.
pub fn read_toy(alloc: Global, bytes: &[u8]) -> Result<Items<Row>, ReadFault>
    requires { length bytes.now < 2 ^ 32 - 1 }

    // What is read is the text of what is given, and such a text is read, unless memory runs out.
    ensures found { IfOk result (λ rows. IsText toy bytes.now (map numbers rows)) }
    ensures only { (table : Table) → IsText toy bytes.now table → GivesText (map numbers) result (Ok table) }

    // A text is refused by the rule that it breaks first, unless memory runs out.
    ensures refused { (r : Refusal) → IsErrOf result (ReadFault.Refused r) → IsRefused toy bytes.now r }
    ensures first { (r : Refusal) → IsRefused toy bytes.now r → GivesUnless result (Err r) }
{
    read(alloc, &TOY, bytes)
}

/// The one text of the rows of a whole toy.
pub fn print_toy(alloc: Global, rows: &[Row]) -> Result<Vec<u8>, NoMemory>
    requires { AreRows toy (map numbers rows.now) }
    ensures { IfOk result (λ bytes. IsText toy bytes.items (map numbers rows.now)) }
{
    print(alloc, &TOY, rows)
}

/// A text is that of one table or has one first refusal: one of the two, and not both. What is read
/// of a text is what is read of its lines, fed one after another, and then of its rest. What is
/// printed of a whole table is its text.
pub fn toys_are_told_apart()
    ensures one_table { (bytes : List ℕ) (t u : Table) → IsText toy bytes t → IsText toy bytes u → t ≡ u }
    ensures one_refusal { (bytes : List ℕ) (r s : Refusal) → IsRefused toy bytes r → IsRefused toy bytes s → r ≡ s }
    ensures not_both { (bytes : List ℕ) (t : Table) (r : Refusal) → IsRefused toy bytes r → IsText toy bytes t → ⊥ }
    ensures fed { (bytes rest : List ℕ) (lines : List (List ℕ)) → AreLines bytes lines rest → text_read toy bytes ≡ text_fed toy lines rest }
    ensures either { (bytes : List ℕ) → IsTextOrRefused toy bytes }
    ensures printed { (t : Table) → AreRows toy t → IsText toy (text_of toy t) t }
{
    texts_are_told_apart();
}
