// What is wrong with profiles that inherit from one another.
use nextest_text::Text;
use thiserror::Error;

/// Why profiles are refused. Each reason is looked for in all profiles before the next, in this
/// order, and names the first profile that it fits.
#[derive(Clone, Debug, PartialEq, Eq, Error)]
pub enum InheritanceFault {
    /// A profile whose name is `default`, or begins with `default-`, sets a parent.
    #[error("profile `{profile}` inherits, but `default` and names that begin with `default-` are reserved and can't")]
    InheritsInDefault {
        /// The profile.
        profile: Text,
    },
    /// A parent is none of the profiles.
    #[error("profile `{profile}` inherits from `{parent}`, which is no profile")]
    UnknownParent {
        /// The profile that sets the parent.
        profile: Text,
        /// The parent.
        parent: Text,
    },
    /// The parents of a profile never come to `default`.
    #[error("profile `{profile}` inherits without end: its parents go in a cycle")]
    Cycle {
        /// The profile.
        profile: Text,
    },
}

// One call drops it, whoever holds it.
impl Drop for InheritanceFault {
    fn drop(self) {
        match self {
            InheritanceFault::InheritsInDefault { profile: _ } => {}
            InheritanceFault::UnknownParent {
                profile: _,
                parent: _,
            } => {}
            InheritanceFault::Cycle { profile: _ } => {}
        }
    }
}
