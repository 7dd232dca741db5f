// The text of rows.
ghost use Rattle.std.specs.Prelude.{◌≡◌, ◌∷◌, ◌++◌, map, IfOk, OnOk, string_bytes};
ghost use Rattle.std.specs.Fmt.{signed_decimal};
ghost use Rattle.text_lines.specs.Pieces.{ended, spaced, text};
ghost use Rattle.text_lines.specs.Steps.{numbered};
ghost use Rattle.line_tables.specs.Tables.{AreRows, AreWords, IsText, format_of, numbers, row_items, row_texts, rules_of};

use crate::tables::{Line, LineTable, Row, word_of};
use std::alloc::{AllocError, Global};
use std::fmt::Write;
use whole::NoMemory;

/// The one text of these rows, which are all those of a text.
pub fn print(alloc: Global, table: &LineTable, rows: &[Row]) -> Result<Vec<u8>, NoMemory>
    requires words { AreWords (rules_of table.now.lines.now) }
    requires whole { AreRows (format_of table.now) (map numbers rows.now) }
    ensures { IfOk result (λ bytes. IsText (format_of table.now) bytes.items (map numbers rows.now)) }
{
    let mut out = String::new(alloc);
    put_rows(&mut out, table.lines, rows)?;
    Ok(out.into_bytes())
}

fn put_rows(out: &mut String, lines: &[Line], rows: &[Row]) -> Result<(), AllocError>
    ensures { OnOk result (string_bytes out.new ≡ string_bytes out.old ++ text (numbered (row_texts (rules_of lines.now)) 0 rows.now)) }
{
    for row in rows {
        put_row(out, lines, row)?;
    }
    Ok(())
}

fn put_row(out: &mut String, lines: &[Line], row: &Row) -> Result<(), AllocError>
    ensures { OnOk result (string_bytes out.new ≡ string_bytes out.old ++ ended (row_items (rules_of lines.now) row.now)) }
{
    out.push_str(word_of(lines, row))?;
    put_numbers(out, row.numbers.as_slice())?;
    out.push_str("\n")?;
    Ok(())
}

/// The numbers, each behind a space.
fn put_numbers(out: &mut String, numbers: &[i128]) -> Result<(), AllocError>
    ensures { OnOk result (string_bytes out.new ≡ string_bytes out.old ++ spaced (map signed_decimal numbers.now)) }
{
    for number in numbers {
        put_number(out, *number)?;
    }
    Ok(())
}

fn put_number(out: &mut String, number: i128) -> Result<(), AllocError>
    ensures { OnOk result (string_bytes out.new ≡ string_bytes out.old ++ (32 ∷ signed_decimal number)) }
{
    write!(out, " {}", number)
}
