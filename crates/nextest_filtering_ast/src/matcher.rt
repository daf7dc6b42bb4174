// What a name has to match.
use crate::pattern::Pattern;
use nextest_filtering_globs::GenericGlob;
use nextest_text::Text;

/// What a name has to match.
#[derive(Debug)]
pub enum NameMatcher {
    /// The name is this text.
    Equal {
        /// The text.
        value: Text,
        /// Whether it was written without its sign `=`.
        implicit: bool,
    },
    /// The name contains this text.
    Contains {
        /// The text.
        value: Text,
        /// Whether it was written without its sign `~`.
        implicit: bool,
    },
    /// The whole name matches this glob.
    Glob {
        /// The glob.
        glob: GenericGlob,
        /// Whether it was written without its sign `#`.
        implicit: bool,
    },
    /// A part of the name matches this regular expression.
    Regex(Pattern),
}

// Code that drops one calls this, and doesn't look into it.
impl Drop for NameMatcher {
    fn drop(self) {
        match self {
            NameMatcher::Equal {
                value: _,
                implicit: _,
            } => {}
            NameMatcher::Contains {
                value: _,
                implicit: _,
            } => {}
            NameMatcher::Glob {
                glob: _,
                implicit: _,
            } => {}
            NameMatcher::Regex(_) => {}
        }
    }
}
