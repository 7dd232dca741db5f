ghost use Rattle.text_lines.specs.Steps.{each};
ghost use Rattle.text_machine.specs.Items.{whole};
ghost use Rattle.text_machine.specs.Lines.{read_line, take, times, stop};
ghost use Rattle.text_machine.specs.Given.{GivesLine, GivesItems};

use crate::faults::Fault;
use crate::fields::Fields;
use sqlite_items::Items;
use std::alloc::{AllocError, AllocFailed, Global};

/// Why a line that holds a list wasn't read.
#[derive(Clone, Copy, Debug, PartialEq, Eq)]
pub enum LineFault {
    /// What is wrong with an item, or with its absence.
    Item(Fault),
    /// Memory ran out.
    NoMemory,
}

impl From<Fault> for LineFault {
    ghost use Rattle.std.specs.Prelude.{◌≡◌};
    ghost use Rattle.text_machine.specs.declared.lists.LineFault.TheVariants.{Item};

    ghost from_gives = { λ item fault. fault ≡ Item item };

    fn from(fault: Fault) -> LineFault {
        LineFault::Item(fault)
    }
}

impl From<AllocError> for LineFault {
    ghost use Rattle.std.specs.Prelude.{◌≡◌};
    ghost use Rattle.text_machine.specs.declared.lists.LineFault.TheVariants.{NoMemory};

    ghost from_gives = { λ _ fault. fault ≡ NoMemory };

    fn from(_fault: AllocError) -> LineFault {
        LineFault::NoMemory
    }
}

impl<T: Drop> From<AllocFailed<T>> for LineFault {
    ghost use Rattle.std.specs.Prelude.{◌≡◌};
    ghost use Rattle.text_machine.specs.declared.lists.LineFault.TheVariants.{NoMemory};

    ghost from_gives = { λ _ fault. fault ≡ NoMemory };

    fn from(_fault: AllocFailed<T>) -> LineFault {
        LineFault::NoMemory
    }
}

/// So many whole numbers of a line.
fn wholes(alloc: Global, fields: &mut Fields<'_>, count: u32) -> Result<Items<i128>, LineFault>
    ensures { GivesItems result fields.new (each (λ _. take whole) count 0 fields.old) }
{
    let mut numbers = Items::new(alloc);
    for _ in 0..count {
        let number = fields.whole()?;
        numbers.push(number)?;
    }
    Ok(numbers)
}

/// So many whole numbers, with nothing behind them.
#[tactic(auto, using(crate::proofs::TimesLaws::times_reads))]
pub fn last_wholes(
    alloc: Global,
    fields: &mut Fields<'_>,
    count: u32,
) -> Result<Items<i128>, LineFault>
    ensures { GivesLine (λ numbers. numbers) result (read_line (times count whole stop) fields.old) }
{
    let numbers = wholes(alloc, fields, count)?;
    fields.end()?;
    Ok(numbers)
}
