/// What the first token of a condition's part opens.
#[derive(Clone, Copy, Debug, PartialEq, Eq)]
pub(crate) enum Opening {
    /// `not`
    Not,
    /// `(`
    Bracket,
    /// `true`
    True,
    /// `false`
    False,
    /// `delay`, in a controller.
    Delay,
    /// A comparison, if anything.
    Comparison,
}
