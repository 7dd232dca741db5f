// What is found at a place of a certificate, and what a check answers.
ghost use Rattle.std.specs.Prelude.{◌≡◌, ◌+◌};
ghost use Rattle.cert_check.specs.Answers.{named};

/// What is found at one place: nothing, a cause by its number, or a column whose running sum
/// overflows 128 bits, where the number of columns stands for the bound.
#[derive(Clone, Copy, Debug, PartialEq, Eq)]
pub(crate) enum Found {
    Sound,
    Breaks(u8),
    Overflows(u32),
}

/// What a check comes to.
///
/// Lemmas are counted from 0. Nodes are counted from 1 in prefix order; node 0 is the lemma's clause,
/// or the certificate itself. A lemma or a node past `2^32 - 1` is named by `2^32 - 1`.
#[derive(Clone, Copy, Debug, PartialEq, Eq)]
pub enum Checked {
    Proved,
    /// The first place that breaks a rule, and the first rule that it breaks, from K1 to K8.
    Fails { lemma: u32, node: u32, cause: u8 },
    /// The first place at which a running sum exceeds `2^127 - 1` in size, and the least such column
    /// there; the number of columns stands for the bound.
    Wide { lemma: u32, node: u32, column: u32 },
    NoMemory,
}

/// The number after this one, as it is named.
pub(crate) fn next(number: u32) -> u32
    ensures { result ≡ named (number + 1) }
{
    if number == u32::MAX {
        number
    } else {
        number + 1
    }
}
