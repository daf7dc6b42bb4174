// The operators of the language, each as it was written.
use std::fmt;

/// How a negation was written.
#[derive(Clone, Copy, Debug, PartialEq, Eq)]
pub enum NotOperator {
    /// `not`
    LiteralNot,
    /// `!`
    Exclamation,
}

/// How a union was written.
#[derive(Clone, Copy, Debug, PartialEq, Eq)]
pub enum OrOperator {
    /// `or`
    LiteralOr,
    /// `|`
    Pipe,
    /// `+`
    Plus,
}

/// How an intersection was written.
#[derive(Clone, Copy, Debug, PartialEq, Eq)]
pub enum AndOperator {
    /// `and`
    LiteralAnd,
    /// `&`
    Ampersand,
}

/// How a difference was written.
#[derive(Clone, Copy, Debug, PartialEq, Eq)]
pub enum DifferenceOperator {
    /// `-`
    Minus,
}

/// An operator between the operands of a conjunction: those of intersections and differences bind
/// alike.
#[derive(Clone, Copy, Debug, PartialEq, Eq)]
pub enum Joint {
    /// Of an intersection.
    And(AndOperator),
    /// Of a difference.
    Minus(DifferenceOperator),
}

impl fmt::Display for NotOperator {
    ghost use Rattle.std.specs.Prelude.{Some};
    ghost use Rattle.nextest_filtering_ast.specs.Words.{not_word};

    ghost output = { λ it. Some (not_word it) };

    fn fmt<W: fmt::Write>(&self, f: &mut fmt::Formatter<W>) -> fmt::Result {
        match self {
            NotOperator::LiteralNot => f.write_str("not"),
            NotOperator::Exclamation => f.write_str("!"),
        }
    }
}

impl fmt::Display for OrOperator {
    ghost use Rattle.std.specs.Prelude.{Some};
    ghost use Rattle.nextest_filtering_ast.specs.Words.{or_word};

    ghost output = { λ it. Some (or_word it) };

    fn fmt<W: fmt::Write>(&self, f: &mut fmt::Formatter<W>) -> fmt::Result {
        match self {
            OrOperator::LiteralOr => f.write_str("or"),
            OrOperator::Pipe => f.write_str("|"),
            OrOperator::Plus => f.write_str("+"),
        }
    }
}

impl fmt::Display for AndOperator {
    ghost use Rattle.std.specs.Prelude.{Some};
    ghost use Rattle.nextest_filtering_ast.specs.Words.{and_word};

    ghost output = { λ it. Some (and_word it) };

    fn fmt<W: fmt::Write>(&self, f: &mut fmt::Formatter<W>) -> fmt::Result {
        match self {
            AndOperator::LiteralAnd => f.write_str("and"),
            AndOperator::Ampersand => f.write_str("&"),
        }
    }
}

impl fmt::Display for DifferenceOperator {
    ghost use Rattle.std.specs.Prelude.{Some};
    ghost use Rattle.nextest_filtering_ast.specs.Words.{minus_word};

    ghost output = { λ it. Some (minus_word it) };

    fn fmt<W: fmt::Write>(&self, f: &mut fmt::Formatter<W>) -> fmt::Result {
        match self {
            DifferenceOperator::Minus => f.write_str("-"),
        }
    }
}
