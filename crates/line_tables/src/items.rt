// What stands behind the word of a line.
ghost use Rattle.std.specs.Prelude.{ℤ, pos, List, ◌∷◌};
ghost use Rattle.text_machine.specs.Items.{natural, whole};
ghost use Rattle.text_machine.specs.Lines.{LineForm, number, times, read_line};
ghost use Rattle.text_machine.specs.Given.{GivesLine};
ghost use Rattle.line_tables.specs.declared.tables.Item.{Item};
ghost use Rattle.line_tables.specs.Tables.{form_of};
ghost use Rattle.line_tables.specs.Given.{onto, LeadsTo};

use crate::tables::Item;
use sqlite_items::Items;
use std::alloc::Global;
use text_machine::{Fields, LineFault};

/// The numbers of items of these kinds, with nothing behind them.
pub(crate) fn items_of(
    alloc: Global,
    fields: &mut Fields<'_>,
    items: &[Item],
) -> Result<Items<i128>, LineFault>
    ensures { GivesLine (λ zs. zs) result (read_line (form_of items.now) fields.old) }
{
    let mut numbers = Items::new(alloc);
    for item in items {
        take_item(fields, *item, &mut numbers)?;
    }
    fields.end()?;
    Ok(numbers)
}

fn take_item(
    fields: &mut Fields<'_>,
    item: Item,
    numbers: &mut Items<i128>,
) -> Result<(), LineFault>
    ensures { (items : List Item) → LeadsTo result (onto numbers.old (read_line (form_of (item ∷ items)) fields.old)) (λ _. onto numbers.new (read_line (form_of items) fields.new)) }
{
    match item {
        Item::Natural(low, high) => {
            take_natural(fields, low, high, numbers)?;
            Ok(())
        }
        Item::Whole => {
            take_whole(fields, numbers)?;
            Ok(())
        }
        Item::Wholes(most) => {
            let count = take_natural(fields, 0, most, numbers)?;
            take_wholes(fields, count, numbers)?;
            Ok(())
        }
    }
}

fn take_natural(
    fields: &mut Fields<'_>,
    low: u32,
    high: u32,
    numbers: &mut Items<i128>,
) -> Result<u32, LineFault>
    ensures { (form : ℤ → LineForm) → LeadsTo result (onto numbers.old (read_line (number (natural low high) form) fields.old)) (λ n. onto numbers.new (read_line (form (pos n)) fields.new)) }
{
    let found = fields.natural(low, high)?;
    numbers.push(found as i128)?;
    Ok(found)
}

fn take_whole(fields: &mut Fields<'_>, numbers: &mut Items<i128>) -> Result<(), LineFault>
    ensures { (form : LineForm) → LeadsTo result (onto numbers.old (read_line (number whole (λ _. form)) fields.old)) (λ _. onto numbers.new (read_line form fields.new)) }
{
    let found = fields.whole()?;
    numbers.push(found)?;
    Ok(())
}

fn take_wholes(
    fields: &mut Fields<'_>,
    count: u32,
    numbers: &mut Items<i128>,
) -> Result<(), LineFault>
    ensures { (form : LineForm) → LeadsTo result (onto numbers.old (read_line (times count whole form) fields.old)) (λ _. onto numbers.new (read_line form fields.new)) }
{
    for _ in 0..count {
        take_whole(fields, numbers)?;
    }
    Ok(())
}
