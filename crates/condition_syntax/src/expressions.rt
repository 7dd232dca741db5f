use sqlite_items::Items;
use weighing::Num;

/// A name, as it is written: `text`, `text.flow`, `text@step` or `text.flow@step`.
#[derive(Debug, Drop)]
pub struct Name {
    /// A letter, then letters, digits and underscores, 16 at most.
    pub text: Items<u8>,
    pub flow: Option<u32>,
    pub step: Option<u32>,
}

/// A term: a number, or a number times a name. The number has the term's sign.
#[derive(Debug, Drop)]
pub struct ETerm {
    pub coef: Num,
    pub name: Option<Name>,
}

/// A sum of 1 to 16 terms, in their written order.
#[derive(Debug, Drop)]
pub struct Expr {
    pub terms: Items<ETerm>,
}
