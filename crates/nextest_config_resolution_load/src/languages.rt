// How the filters and platform specs of a configuration are read.
ghost use Rattle.std.specs.Prelude.{IfOk};
ghost use Rattle.nextest_config_resolution_load.specs.Languages.{ReadsFilter, ReadsSpec, Serves};
ghost use Rattle.nextest_config_resolution_load.specs.Load.{IsFilterBy, IsSpecBy};
ghost use Rattle.nextest_config_resolution_load.specs.declared.languages.FilterPurpose.TheVariants.{ListWrapper, Override};
ghost use Rattle.std.specs.Prelude.{ℕ, List};

use nextest_text::Text;
use std::alloc::{AllocError, Global};

/// What a filter is for.
#[derive(Clone, Copy, Debug, PartialEq, Eq)]
pub enum FilterPurpose {
    /// It tells which tests are run where none is asked for.
    Default,
    /// It tells on which tests a rule holds.
    Override,
    /// It tells on which tests a rule with a `list-wrapper` holds: it is such a one, and asks
    /// nothing that only tests tell.
    ListWrapper,
}

/// How the filters and platform specs of a configuration are read.
pub trait Languages {
    /// What filters are read in.
    type Cx;

    /// A filter.
    type Filter: Drop;

    /// A platform spec.
    type Spec: Drop;

    // In this the text is this filter, for this purpose.
    ghost is_filter: { Self.Cx → IsFilterBy Self.Filter };

    // The text is this platform spec.
    ghost is_spec: { IsSpecBy Self.Spec };

    // The reader may refuse the text though it is a filter.
    ghost is_too_deep: { List ℕ → Type 0 };

    /// The filter of a text; `None` where it is none for this purpose, or too deep for the reader.
    /// It fails only on allocation.
    fn read_filter(
        alloc: Global,
        cx: &Self::Cx,
        purpose: FilterPurpose,
        text: &Text,
    ) -> Result<Option<Self::Filter>, AllocError>
        ensures { IfOk result
            (ReadsFilter (is_filter cx.now purpose text.now) (is_too_deep text.now)) };

    /// The platform spec of a text; `None` where it is none. It fails only on allocation.
    fn read_spec(alloc: Global, text: &str) -> Result<Option<Self::Spec>, AllocError>
        ensures { IfOk result (ReadsSpec (is_spec text.now)) };

    /// Whether a filter of a rule may also be that of a rule with a `list-wrapper`: whether it asks
    /// nothing that only tests tell.
    fn serves_listing(cx: &Self::Cx, filter: &Self::Filter) -> bool
        ensures { (text : List ℕ) → is_filter cx.now Override text filter.now
            → Serves (is_filter cx.now ListWrapper text) filter.now result };
}
