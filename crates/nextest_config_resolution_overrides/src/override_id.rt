// Where an override is written.
use nextest_text::Text;
use std::fmt;

/// An override of a configuration, by where it is written.
#[derive(Clone, Debug, PartialEq, Eq)]
pub struct OverrideId {
    /// The path of its file.
    pub file: Text,
    /// The name of its profile.
    pub profile: Text,
    /// Its place among the overrides of that profile in that file, from 0 on.
    pub index: usize,
}

// One call drops it, whoever holds it.
impl Drop for OverrideId {
    fn drop(self) {
        let Self {
            file: _,
            profile: _,
            index: _,
        } = self;
    }
}

impl fmt::Display for OverrideId {
    fn fmt<W: fmt::Write>(&self, f: &mut fmt::Formatter<W>) -> fmt::Result {
        write!(
            f,
            "{}: profile.{}.overrides.{}",
            self.file, self.profile, self.index
        )
    }
}
