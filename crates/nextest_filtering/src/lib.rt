//! The filterset language: texts, trees and matchers, as they are parsed and printed; filtersets
//! that are compiled for a workspace, and what they are on binaries and tests.
//!
//! What the contracts of these speak of is handed on as `Rattle.nextest_filtering.specs`. A crate
//! with a clause on a function that takes or gives a `ParsedExpr` itself also names
//! `nextest_filtering_syntax` among the libraries that it stands on, since this type is recursive.
#![tactic(auto)]

pub use nextest_filtering_arguments::{BannedPredicateReason, FiltersetKind, ParseSingleError};
pub use nextest_filtering_ast::{
    AndOperator, BuildPlatform, DifferenceOperator, NameMatcher, NameMatching, NotOperator,
    OrOperator, ParsedLeaf, Pattern, PatternError, PatternMatcher, SourceSpan,
};
pub use nextest_filtering_compiling::{
    Filterset, FiltersetError, FiltersetParseErrors, ParseContext,
};
pub use nextest_filtering_filters::{
    BinaryEvaluator, BinaryQuery, CompiledExpr, EvalContext, FiltersetLeaf, Formula,
    FormulaBuilder, GroupLookup, KnownGroups, TestQuery, Values,
};
pub use nextest_filtering_globs::{
    ClassRange, GenericGlob, GlobConstructError, GlobMatcher, GlobToken,
};
pub use nextest_filtering_graph::{GraphError, GraphFault, PackageGraph};
pub use nextest_filtering_syntax::{ParseError, ParsedExpr, Reading, needs_deps, read};
pub use nextest_text::{Listing, Text};

/// The laws of the language over its definitions.
pub mod laws {
    pub use nextest_filtering_compiling::laws::{kept_meaning, one_meaning};
    pub use nextest_filtering_escapes::laws::{escaped_reads_back, one_regex, one_text};
    pub use nextest_filtering_filters::laws::{
        one_answer, same_without_groups, same_without_lookup, sure_of_tests,
    };
    pub use nextest_filtering_globs::laws::one_reading as one_glob_reading;
    pub use nextest_filtering_syntax::laws::{one_tree, printed_reads_back, reads_back_exactly};
}

/// The names of the predicates, one a line.
pub const FILTERSET_REFERENCE_MD: &str =
    "package\ndeps\nrdeps\nkind\nbinary\nbinary_id\nplatform\ntest\ngroup\ndefault\nall\nnone\n";
