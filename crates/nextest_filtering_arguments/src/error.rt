// Why a text is refused.
use crate::ban::{BannedPredicateReason, FiltersetKind};
use nextest_filtering_ast::SourceSpan;

/// A fault of a filterset, and where it stands: of its text, of a predicate that may not stand
/// there, or of one that nothing can be.
#[derive(Clone, Copy, Debug, PartialEq, Eq)]
pub enum ParseSingleError {
    /// The text is no glob.
    InvalidGlob(SourceSpan),
    /// The text is no regular expression.
    InvalidRegexWithoutMessage(SourceSpan),
    /// The `/` behind a regular expression is missing.
    ExpectedCloseRegex(SourceSpan),
    /// `||` or `OR`, which should be `|` or `or`.
    InvalidOrOperator(SourceSpan),
    /// `&&` or `AND`, which should be `&` or `and`.
    InvalidAndOperator(SourceSpan),
    /// The predicate takes no argument.
    UnexpectedArgument(SourceSpan),
    /// The predicate takes one argument, or the comma wants a backslash.
    UnexpectedComma(SourceSpan),
    /// The argument has no text.
    InvalidString(SourceSpan),
    /// The `(` behind a predicate's name is missing.
    ExpectedOpenParenthesis(SourceSpan),
    /// A `)` is missing.
    ExpectedCloseParenthesis(SourceSpan),
    /// The character may not stand behind a backslash.
    InvalidEscapeCharacter(SourceSpan),
    /// No expression stands where one belongs.
    ExpectedExpr(SourceSpan),
    /// The expression is over, and the text isn't.
    ExpectedEndOfExpression(SourceSpan),
    /// The platform is neither `host` nor `target`.
    InvalidPlatformArgument(SourceSpan),
    /// The predicate may not stand in a filterset of this kind, for this reason.
    BannedPredicate {
        /// What the filterset is for.
        kind: FiltersetKind,
        /// Where the predicate stands.
        span: SourceSpan,
        /// Why it may not.
        reason: BannedPredicateReason,
    },
    /// No package has such a name.
    NoPackageMatch(SourceSpan),
    /// No binary has such an id.
    NoBinaryIdMatch(SourceSpan),
    /// No binary has such a name.
    NoBinaryNameMatch(SourceSpan),
    /// No group has such a name.
    NoGroupMatch(SourceSpan),
}

impl ParseSingleError {
    ghost use Rattle.std.specs.Prelude.{◌≡◌, option_map};
    ghost use Rattle.nextest_filtering_arguments.specs.Kinds.{label_of, help_of, span_of};

    /// The name of the fault's kind.
    pub fn label(&self) -> &'static str
        ensures { result.now ≡ label_of self.now }
    {
        match self {
            ParseSingleError::InvalidGlob(_) => "InvalidGlob",
            ParseSingleError::InvalidRegexWithoutMessage(_) => "InvalidRegexWithoutMessage",
            ParseSingleError::ExpectedCloseRegex(_) => "ExpectedCloseRegex",
            ParseSingleError::InvalidOrOperator(_) => "InvalidOrOperator",
            ParseSingleError::InvalidAndOperator(_) => "InvalidAndOperator",
            ParseSingleError::UnexpectedArgument(_) => "UnexpectedArgument",
            ParseSingleError::UnexpectedComma(_) => "UnexpectedComma",
            ParseSingleError::InvalidString(_) => "InvalidString",
            ParseSingleError::ExpectedOpenParenthesis(_) => "ExpectedOpenParenthesis",
            ParseSingleError::ExpectedCloseParenthesis(_) => "ExpectedCloseParenthesis",
            ParseSingleError::InvalidEscapeCharacter(_) => "InvalidEscapeCharacter",
            ParseSingleError::ExpectedExpr(_) => "ExpectedExpr",
            ParseSingleError::ExpectedEndOfExpression(_) => "ExpectedEndOfExpression",
            ParseSingleError::InvalidPlatformArgument(_) => "InvalidPlatformArgument",
            ParseSingleError::BannedPredicate { .. } => "BannedPredicate",
            ParseSingleError::NoPackageMatch(_) => "NoPackageMatch",
            ParseSingleError::NoBinaryIdMatch(_) => "NoBinaryIdMatch",
            ParseSingleError::NoBinaryNameMatch(_) => "NoBinaryNameMatch",
            ParseSingleError::NoGroupMatch(_) => "NoGroupMatch",
        }
    }

    /// What to write instead, where one thing is meant.
    pub fn help(&self) -> Option<&'static str>
        ensures { option_map (λ text. text.now) result ≡ help_of self.now }
    {
        match self {
            ParseSingleError::InvalidOrOperator(_) => Some("use | instead"),
            ParseSingleError::InvalidAndOperator(_) => Some("use & instead"),
            _ => None,
        }
    }

    /// Where the fault stands.
    pub fn span(&self) -> SourceSpan
        ensures { result ≡ span_of self.now }
    {
        match self {
            ParseSingleError::InvalidGlob(span)
            | ParseSingleError::InvalidRegexWithoutMessage(span)
            | ParseSingleError::ExpectedCloseRegex(span)
            | ParseSingleError::InvalidOrOperator(span)
            | ParseSingleError::InvalidAndOperator(span)
            | ParseSingleError::UnexpectedArgument(span)
            | ParseSingleError::UnexpectedComma(span)
            | ParseSingleError::InvalidString(span)
            | ParseSingleError::ExpectedOpenParenthesis(span)
            | ParseSingleError::ExpectedCloseParenthesis(span)
            | ParseSingleError::InvalidEscapeCharacter(span)
            | ParseSingleError::ExpectedExpr(span)
            | ParseSingleError::ExpectedEndOfExpression(span)
            | ParseSingleError::InvalidPlatformArgument(span)
            | ParseSingleError::BannedPredicate { span, .. }
            | ParseSingleError::NoPackageMatch(span)
            | ParseSingleError::NoBinaryIdMatch(span)
            | ParseSingleError::NoBinaryNameMatch(span)
            | ParseSingleError::NoGroupMatch(span) => *span,
        }
    }
}
