// Filters without a language.
ghost use Rattle.std.specs.Prelude.{◌≡◌, true, false, Some};
ghost use Rattle.worked_rows.specs.PlainFilters.{binary_value, is_named, name_value, plain_filter_laws, plain_of, test_value};

use nextest_config_resolution::{FilterError, Filters};
use nextest_filtering::{BinaryQuery, FiltersetKind, KnownGroups, TestQuery};
use nextest_text::Text;
use std::alloc::{AllocError, Global};

/// All tests, none, or those of one name. Its text is `all()`, `none()` or the name; the empty text
/// is none.
#[derive(Drop)]
pub enum PlainFilter {
    /// All tests.
    Everything,
    /// No test.
    Nothing,
    /// The tests of this name.
    Named(Text),
}

impl PlainFilter {
    // Whether the tests of this name are among them.
    fn holds_on(&self, name: &str) -> bool
        ensures { result ≡ name_value self.now name.now }
    {
        match self {
            PlainFilter::Everything => true,
            PlainFilter::Nothing => false,
            PlainFilter::Named(own) => name == own.as_str(),
        }
    }
}

impl Filters for PlainFilter {
    type Cx = ();

    ghost is_parsed = { λ cx kind known text it. plain_of text ≡ Some it };

    ghost is_too_deep = { λ text. ⊥ };

    ghost on_binary = { λ filter default binary value. value ≡ binary_value filter };

    ghost on_test = { λ filter default test value. value ≡ test_value filter test };

    ghost asks_groups = { λ it. false };

    ghost has_runtime_leaves = { is_named };

    ghost serves_as_default = { λ it. true };

    fn parse(
        _: Global,
        text: Text,
        _: &(),
        _: FiltersetKind,
        _: &KnownGroups,
    ) -> Result<PlainFilter, FilterError> {
        if text.as_str() == "all()" {
            Ok(PlainFilter::Everything)
        } else if text.as_str() == "none()" {
            Ok(PlainFilter::Nothing)
        } else if text.is_empty() {
            Err(FilterError::Refused)
        } else {
            Ok(PlainFilter::Named(text))
        }
    }

    fn matches_binary(
        &self,
        _: Global,
        _: &BinaryQuery<'_>,
        _: &PlainFilter,
    ) -> Result<Option<bool>, AllocError> {
        match self {
            PlainFilter::Everything => Ok(Some(true)),
            PlainFilter::Nothing => Ok(Some(false)),
            PlainFilter::Named(_) => Ok(None),
        }
    }

    fn matches_test(
        &self,
        _: Global,
        query: &TestQuery<'_>,
        _: &PlainFilter,
    ) -> Result<bool, AllocError> {
        Ok(self.holds_on(query.test_name))
    }

    fn matches_tests(
        &self,
        alloc: Global,
        _: &BinaryQuery<'_>,
        names: &[&str],
        _: &PlainFilter,
    ) -> Result<Vec<bool>, AllocError> {
        let mut values = Vec::with_capacity(alloc, names.len())?;
        for name in names {
            values.push(self.holds_on(name))?;
        }
        Ok(values)
    }

    fn has_groups(&self) -> bool {
        false
    }

    fn has_runtime_leaves(&self) -> bool {
        matches!(self, PlainFilter::Named(_))
    }

    fn serves_as_default(&self) -> bool {
        true
    }

    ghost laws = { plain_filter_laws };
}
