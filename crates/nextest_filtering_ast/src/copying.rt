// Matchers and predicates copied and compared.
ghost use Rattle.std.specs.Prelude.{◌≡◌};
ghost use Rattle.std.specs.Cmp.{partial_equiv_from_equiv};
ghost use Rattle.nextest_filtering_ast.specs.Same.{same_value, same_value_equiv};

use crate::leaf::ParsedLeaf;
use crate::matcher::NameMatcher;
use std::alloc::AllocError;

impl Clone for NameMatcher {
    ghost is_clone = { λ original copy. copy ≡ original };

    fn clone(&self) -> Result<NameMatcher, AllocError> {
        match self {
            NameMatcher::Equal { value, implicit } => Ok(NameMatcher::Equal {
                value: value.clone()?,
                implicit: *implicit,
            }),
            NameMatcher::Contains { value, implicit } => Ok(NameMatcher::Contains {
                value: value.clone()?,
                implicit: *implicit,
            }),
            NameMatcher::Glob { glob, implicit } => Ok(NameMatcher::Glob {
                glob: glob.clone()?,
                implicit: *implicit,
            }),
            NameMatcher::Regex(pattern) => Ok(NameMatcher::Regex(pattern.clone()?)),
        }
    }
}

// Two globs are the same whether or not they were written with their sign.
impl PartialEq for NameMatcher {
    ghost eq = { same_value };

    ghost laws = { partial_equiv_from_equiv same_value_equiv };

    fn eq(&self, other: &NameMatcher) -> bool {
        match (self, other) {
            (
                NameMatcher::Equal { value, implicit },
                NameMatcher::Equal {
                    value: other_value,
                    implicit: other_implicit,
                },
            ) => { *implicit == *other_implicit && *value == *other_value }
            (
                NameMatcher::Contains { value, implicit },
                NameMatcher::Contains {
                    value: other_value,
                    implicit: other_implicit,
                },
            ) => { *implicit == *other_implicit && *value == *other_value }
            (
                NameMatcher::Glob { glob, .. },
                NameMatcher::Glob {
                    glob: other_glob,
                    ..
                },
            ) => *glob == *other_glob,
            (NameMatcher::Regex(pattern), NameMatcher::Regex(other_pattern)) => pattern.as_str()
                == other_pattern.as_str(),
            _ => false,
        }
    }
}

impl Eq for NameMatcher {
    ghost laws = { same_value_equiv };
}

impl Clone for ParsedLeaf {
    ghost is_clone = { λ original copy. copy ≡ original };

    fn clone(&self) -> Result<ParsedLeaf, AllocError> {
        Ok(match self {
            ParsedLeaf::Package(matcher, span) => ParsedLeaf::Package(matcher.clone()?, *span),
            ParsedLeaf::Deps(matcher, span) => ParsedLeaf::Deps(matcher.clone()?, *span),
            ParsedLeaf::Rdeps(matcher, span) => ParsedLeaf::Rdeps(matcher.clone()?, *span),
            ParsedLeaf::Kind(matcher, span) => ParsedLeaf::Kind(matcher.clone()?, *span),
            ParsedLeaf::Binary(matcher, span) => ParsedLeaf::Binary(matcher.clone()?, *span),
            ParsedLeaf::BinaryId(matcher, span) => ParsedLeaf::BinaryId(matcher.clone()?, *span),
            ParsedLeaf::Platform(platform, span) => ParsedLeaf::Platform(*platform, *span),
            ParsedLeaf::Test(matcher, span) => ParsedLeaf::Test(matcher.clone()?, *span),
            ParsedLeaf::Group(matcher, span) => ParsedLeaf::Group(matcher.clone()?, *span),
            ParsedLeaf::Default(span) => ParsedLeaf::Default(*span),
            ParsedLeaf::All => ParsedLeaf::All,
            ParsedLeaf::None => ParsedLeaf::None,
        })
    }
}
