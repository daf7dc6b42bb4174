// Filtersets as filters.
ghost use Rattle.nextest_filtering_compiling.specs.Filtersets.{HasOnBinary, HasOnTest, IsParsedFilterset, asked_in, asks_tests, can_be_default};
ghost use Rattle.nextest_filtering_compiling.specs.declared.questions.Question.TheVariants as about;
ghost use Rattle.nextest_filtering_compiling.specs.FiltersetLaws.{filterset_laws};

use crate::error::FiltersetError;
use crate::filterset::Filterset;
use crate::parse_context::ParseContext;
use crate::questions::{Question, asks};
use nextest_config_resolution_filters::{FilterError, Filters};
use nextest_filtering_arguments::FiltersetKind;
use nextest_filtering_filters::{BinaryQuery, EvalContext, KnownGroups, TestQuery};
use nextest_text::Text;
use std::alloc::{AllocError, Global};

impl Filters for Filterset {
    type Cx = ParseContext;

    ghost is_parsed = { IsParsedFilterset };

    // a pattern that nests too deep for the regular expressions is no filterset
    ghost is_too_deep = { λ text. ⊥ };

    ghost on_binary = { HasOnBinary };

    ghost on_test = { HasOnTest };

    ghost asks_groups = { asked_in about.Group };

    ghost has_runtime_leaves = { asks_tests };

    ghost serves_as_default = { can_be_default };

    fn parse(
        alloc: Global,
        text: Text,
        cx: &ParseContext,
        kind: FiltersetKind,
        known_groups: &KnownGroups,
    ) -> Result<Filterset, FilterError> {
        match Filterset::parse(alloc, text, cx, kind, known_groups) {
            Ok(filterset) => Ok(filterset),
            Err(FiltersetError::Refused(_)) => Err(FilterError::Refused),
            Err(FiltersetError::OutOfMemory) => Err(FilterError::OutOfMemory),
        }
    }

    fn matches_binary(
        &self,
        alloc: Global,
        query: &BinaryQuery<'_>,
        default: &Filterset,
    ) -> Result<Option<bool>, AllocError> {
        let ecx = EvalContext::new(&default.compiled);
        Filterset::matches_binary(self, alloc, query, &ecx)
    }

    fn matches_test(
        &self,
        alloc: Global,
        query: &TestQuery<'_>,
        default: &Filterset,
    ) -> Result<bool, AllocError> {
        let ecx = EvalContext::new(&default.compiled);
        Filterset::matches_test(self, alloc, query, &ecx)
    }

    fn matches_tests(
        &self,
        alloc: Global,
        binary: &BinaryQuery<'_>,
        names: &[&str],
        default: &Filterset,
    ) -> Result<Vec<bool>, AllocError> {
        let ecx = EvalContext::new(&default.compiled);
        Filterset::matches_tests(self, alloc, binary, names, &ecx)
    }

    fn has_groups(&self) -> bool {
        asks(self, Question::Group)
    }

    fn has_runtime_leaves(&self) -> bool {
        asks(self, Question::Test)
    }

    fn serves_as_default(&self) -> bool {
        !asks(self, Question::Default) && !asks(self, Question::Group)
    }

    ghost laws = { filterset_laws };
}
