use text_lines::ItemFault;

/// What is wrong with an item, or with its absence.
#[derive(Clone, Copy, Debug, PartialEq, Eq)]
pub enum Fault {
    /// It isn't what is wanted there.
    Form,
    /// It is a number past its range.
    Large,
    /// It is a number below 0 where none may stand.
    Negative,
    /// It stands on the line already.
    Twice,
    /// Nothing of its kind may stand there.
    Misplaced,
    /// Something has to stand before it.
    Early,
}

impl From<ItemFault> for Fault {
    ghost use Rattle.std.specs.Prelude.{◌≡◌};
    ghost use Rattle.text_machine.specs.Items.{fault_of};

    ghost from_gives = { λ item fault. fault ≡ fault_of item };

    fn from(fault: ItemFault) -> Fault {
        match fault {
            ItemFault::Form => Fault::Form,
            ItemFault::Large => Fault::Large,
        }
    }
}
