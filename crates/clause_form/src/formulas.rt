// Formulas.
use linear_form::Comparison;

/// A formula over comparisons of sums of columns with 0.
#[derive(Debug, Drop)]
pub enum Formula {
    True,
    False,
    Cmp(Comparison),
    Not(Box<Formula>),
    And(Vec<Formula>),
    Or(Vec<Formula>),
}
