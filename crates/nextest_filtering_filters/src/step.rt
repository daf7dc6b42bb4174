// The steps of a formula in postfix order.

/// A step of a formula in postfix order: it takes the formulas that it is over off the end of those
/// that wait, and puts what it makes of them there.
#[derive(Clone, Copy, Debug, PartialEq, Eq)]
pub enum FormulaStep {
    /// The leaf of this number.
    Leaf(usize),
    /// The negation of the last one.
    Not,
    /// One of the last two, or both.
    Either,
    /// Both of the last two.
    Both,
}
