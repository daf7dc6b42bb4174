// Which file the repository's source is read from.
ghost use Rattle.std.specs.Prelude.{◌≡◌, IfOk, option_map};
ghost use Rattle.nextest_config_resolution_sources.specs.Kinds.{repository_kind};

use nextest_config_elements_identifiers::ConfigSourceKind;
use nextest_text::Text;
use std::alloc::{AllocError, Global};
use std::marker::Model;

/// Which file the repository's source is read from: the one that was named, where one was, else the
/// one that is looked for. In a clause it is the path that was named, or `None`.
#[derive(Clone, Debug, PartialEq, Eq, Drop)]
pub struct ConfigFileSelection {
    explicit: Option<Text>,
}

impl Model for ConfigFileSelection {
    ghost use Rattle.std.specs.Prelude.{List, Option, ℕ};

    ghost Value = { Option (List ℕ) };

    ghost view = { λ it. it.explicit };

    ghost inverse = { λ explicit. record { explicit = explicit } };
}

impl ConfigFileSelection {
    /// The file at `path`, where one was named. It fails only on allocation.
    pub fn new(alloc: Global, path: Option<&str>) -> Result<ConfigFileSelection, AllocError>
        ensures { IfOk result (λ it. it ≡ option_map (λ path. path.now) path.entry) }
    {
        let explicit = match path {
            Some(path) => Some(Text::from_str(alloc, path)?),
            None => None,
        };
        Ok(ConfigFileSelection { explicit })
    }

    /// The path that was named, lent.
    pub fn explicit_config_file(&self) -> Option<&str>
        ensures { option_map (λ it. it.now) result ≡ self.now }
    {
        match &self.explicit {
            Some(path) => Some(path.as_str()),
            None => None,
        }
    }

    /// Where the repository's source comes from.
    pub fn kind(&self) -> ConfigSourceKind
        ensures { result ≡ repository_kind self.now }
    {
        match &self.explicit {
            Some(_) => ConfigSourceKind::ExplicitRepository,
            None => ConfigSourceKind::DiscoveredRepository,
        }
    }
}
