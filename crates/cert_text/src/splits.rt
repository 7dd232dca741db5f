// The splits of a tree that is half read.
ghost use Rattle.std.specs.Prelude.{◌≡◌, IfOk};
ghost use Rattle.farkas_cert.specs.Trees.{tree_of};
ghost use Rattle.cert_text.specs.Drafts.{Closes};

use farkas_cert::Proof;
use sqlite_items::Items;
use std::alloc::Global;
use whole::NoMemory;

/// A split one of whose sides is being read.
#[derive(Debug, Drop)]
pub(crate) enum Open {
    /// The side on which the atom is true is being read.
    First { atom: u32 },
    /// That side was read, and the other one is being read.
    Second { atom: u32, held: Proof },
}

/// A tree was read below the splits, of which the last is the innermost: those whose second side it ends are closed. The
/// whole tree is given where no split is left.
pub(crate) fn close(
    alloc: Global,
    splits: &mut Items<Open>,
    leaf: Proof,
) -> Result<Option<Proof>, NoMemory>
    ensures { IfOk result (Closes splits.old (tree_of leaf) splits.new) }
{
    let mut tree = leaf;
    while let Some(split) = splits.pop() {
        match split {
            Open::First { atom } => {
                splits.push(Open::Second { atom, held: tree })?;
                return Ok(None);
            }
            Open::Second { atom, held } => {
                tree = Proof::split(alloc, atom, held, tree)?;
            }
        }
    }
    Ok(Some(tree))
}
