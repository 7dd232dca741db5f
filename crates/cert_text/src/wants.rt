// What may stand on a line of a certificate, and what a line says.
use farkas_cert::{Lits, Part};
use sqlite_items::Items;

/// What may stand on the next line.
#[derive(Clone, Copy, Debug, PartialEq, Eq)]
pub enum Want {
    /// The line that names the format and its version.
    Header,
    /// The sizes of the problem.
    Size,
    /// The lemma with this number, or the end.
    Next { lemma: u32 },
    /// A node below so many splits.
    Node { depth: u32 },
    /// No line.
    Nothing,
}

/// What a line says.
#[derive(Debug, Drop)]
pub enum Line {
    /// The version of the format.
    Header {
        version: u32,
    },
    /// How many columns, atoms and clauses the problem has.
    Size {
        columns: u32,
        atoms: u32,
        clauses: u32,
    },
    /// The clause of the lemma that begins here.
    Lemma(Lits),
    /// A node that splits on this atom.
    Split(u32),
    /// A leaf that cites the clause with this number.
    Clause(u32),
    /// A leaf that multiplies the rows of these literals.
    Farkas(Items<Part>),
    /// The end of the certificate.
    End,
}
