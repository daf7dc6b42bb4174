// The groups that a filterset may name.
use nextest_text::{Listing, Text};

/// The groups that a filterset may name. Two are the same with the same names in the same order.
#[derive(Clone, Debug, PartialEq, Eq)]
pub enum KnownGroups {
    /// `@global`, and those of these names.
    Known(Listing<Text>),
    /// They aren't known: any may be named.
    Unavailable,
}

impl Drop for KnownGroups {
    fn drop(self) {
        match self {
            KnownGroups::Known(_) => {}
            KnownGroups::Unavailable => {}
        }
    }
}
