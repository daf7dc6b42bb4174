// How the filters and platform specs of a configuration are read.
ghost use Rattle.std.specs.Prelude.{◌≡◌};
ghost use Rattle.nextest_config_resolution_profiles.specs.Languages.{kind_of, if_serves};

use nextest_config_resolution_filters::{FilterError, Filters, SpecError, Specs};
use nextest_config_resolution_load::{FilterPurpose, Languages};
use nextest_filtering_arguments::FiltersetKind;
use nextest_filtering_filters::KnownGroups;
use nextest_text::Text;
use std::alloc::{AllocError, Global};
use std::marker::PhantomData;

/// Reads filters as filters `F` of a workspace, and platform specs as specs `S`. No group is known
/// to a filter, since neither a default filter nor the filter of an override may ask for one.
pub struct ConfigLanguages<F, S> {
    filters: PhantomData<F>,
    specs: PhantomData<S>,
}

impl<F: Filters, S: Specs> Languages for ConfigLanguages<F, S> {
    ghost use Rattle.nextest_config_resolution_profiles.specs.Languages.{IsFilterIn};

    type Cx = F::Cx;

    type Filter = F;

    type Spec = S;

    ghost is_filter = { IsFilterIn F.is_parsed F.has_runtime_leaves };

    ghost is_spec = { S.is_parsed };

    ghost is_too_deep = { F.is_too_deep };

    fn read_filter(
        alloc: Global,
        cx: &F::Cx,
        purpose: FilterPurpose,
        text: &Text,
    ) -> Result<Option<F>, AllocError> {
        let kind = kind_of(purpose);
        match F::parse(alloc, text.clone()?, cx, kind, &KnownGroups::Unavailable) {
            Ok(filter) => Ok(served(purpose, filter)),
            Err(FilterError::Refused) => Ok(None),
            Err(FilterError::OutOfMemory) => Err(AllocError),
        }
    }

    fn serves_listing(_cx: &F::Cx, filter: &F) -> bool {
        !filter.has_runtime_leaves()
    }

    fn read_spec(alloc: Global, text: &str) -> Result<Option<S>, AllocError> {
        match S::parse(alloc, text) {
            Ok(spec) => Ok(Some(spec)),
            Err(SpecError::Refused) => Ok(None),
            Err(SpecError::OutOfMemory) => Err(AllocError),
        }
    }
}

// The kind of the filters for a purpose.
fn kind_of(purpose: FilterPurpose) -> FiltersetKind
    ensures { result ≡ kind_of purpose }
{
    match purpose {
        FilterPurpose::Default => FiltersetKind::DefaultFilter,
        FilterPurpose::Override | FilterPurpose::ListWrapper => FiltersetKind::OverrideFilter,
    }
}

// A filter that was parsed for a purpose, if it serves it.
fn served<F: Filters>(purpose: FilterPurpose, filter: F) -> Option<F>
    ensures { result ≡ if_serves F.has_runtime_leaves purpose filter }
{
    match purpose {
        FilterPurpose::Default | FilterPurpose::Override => Some(filter),
        FilterPurpose::ListWrapper => {
            if filter.has_runtime_leaves() {
                return None;
            }
            Some(filter)
        }
    }
}
