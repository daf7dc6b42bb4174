// The experimental features that are known.
ghost use Rattle.std.specs.Prelude.{◌≡◌, [], ◌∷◌, option_map};
ghost use Rattle.nextest_config_elements_versions.specs.Features.{contains, env_var, is_named, KnownBy, known_in, text_of, union};
ghost use Rattle.nextest_config_elements_versions.specs.declared.feature.ConfigExperimental.TheVariants.{SetupScripts, WrapperScripts, Benchmarks};

use nextest_config_elements_choices::BadText;
use nextest_text::Text;
use std::fmt;

/// An experimental feature. They stand in the order in which they are listed.
#[derive(Clone, Copy, Debug, PartialEq, Eq, PartialOrd, Ord, Hash)]
pub enum ConfigExperimental {
    /// Scripts that run before the tests.
    SetupScripts,
    /// Scripts that tests are run by.
    WrapperScripts,
    /// Benchmarks.
    Benchmarks,
}

impl ConfigExperimental {
    /// The feature of a name. An `Err` where none has it.
    pub fn from_text(text: &str) -> Result<ConfigExperimental, BadText>
        ensures { KnownBy text.now result }
    {
        if text == "setup-scripts" {
            return Ok(ConfigExperimental::SetupScripts);
        }
        if text == "wrapper-scripts" {
            return Ok(ConfigExperimental::WrapperScripts);
        }
        if text == "benchmarks" {
            return Ok(ConfigExperimental::Benchmarks);
        }
        Err(BadText)
    }

    /// Its name.
    pub fn as_str(self) -> &'static str
        ensures { result.now ≡ text_of self }
    {
        match self {
            ConfigExperimental::SetupScripts => "setup-scripts",
            ConfigExperimental::WrapperScripts => "wrapper-scripts",
            ConfigExperimental::Benchmarks => "benchmarks",
        }
    }

    /// All features, in their order.
    pub fn known_features() -> [ConfigExperimental; 3]
        ensures { result ≡ SetupScripts ∷ WrapperScripts ∷ Benchmarks ∷ [] }
    {
        [
            ConfigExperimental::SetupScripts,
            ConfigExperimental::WrapperScripts,
            ConfigExperimental::Benchmarks,
        ]
    }

    /// The variable of the environment that turns it on, where there is one.
    pub fn env_var(self) -> Option<&'static str>
        ensures { option_map (λ it. it.now) result ≡ env_var self }
    {
        match self {
            ConfigExperimental::SetupScripts => None,
            ConfigExperimental::WrapperScripts => None,
            ConfigExperimental::Benchmarks => Some("NEXTEST_EXPERIMENTAL_BENCHMARKS"),
        }
    }
}

impl fmt::Display for ConfigExperimental {
    ghost use Rattle.std.specs.Prelude.{Some};
    ghost use Rattle.nextest_config_elements_versions.specs.Features.{text_of};

    ghost output = { λ it. Some (text_of it) };

    fn fmt<W: fmt::Write>(&self, f: &mut fmt::Formatter<W>) -> fmt::Result {
        f.write_str(self.as_str())
    }
}

/// A set of features.
#[derive(Clone, Copy, Debug, Default, PartialEq, Eq)]
pub struct FeatureSet {
    /// Scripts that run before the tests are in it.
    pub setup_scripts: bool,
    /// Scripts that tests are run by are in it.
    pub wrapper_scripts: bool,
    /// Benchmarks are in it.
    pub benchmarks: bool,
}

impl FeatureSet {
    /// Whether a feature is in it.
    pub fn contains(self, feature: ConfigExperimental) -> bool
        ensures { result ≡ contains feature self }
    {
        match feature {
            ConfigExperimental::SetupScripts => self.setup_scripts,
            ConfigExperimental::WrapperScripts => self.wrapper_scripts,
            ConfigExperimental::Benchmarks => self.benchmarks,
        }
    }

    /// What is in one of two sets.
    pub fn union(self, other: FeatureSet) -> FeatureSet
        ensures { result ≡ union self other }
    {
        FeatureSet {
            setup_scripts: self.setup_scripts || other.setup_scripts,
            wrapper_scripts: self.wrapper_scripts || other.wrapper_scripts,
            benchmarks: self.benchmarks || other.benchmarks,
        }
    }
}

// Those features whose names are asked for.
pub(crate) fn known_in(names: &[Text]) -> FeatureSet
    ensures { result ≡ known_in names.now }
{
    FeatureSet {
        setup_scripts: is_named(ConfigExperimental::SetupScripts, names),
        wrapper_scripts: is_named(ConfigExperimental::WrapperScripts, names),
        benchmarks: is_named(ConfigExperimental::Benchmarks, names),
    }
}

// Whether a feature's name is asked for.
fn is_named(feature: ConfigExperimental, names: &[Text]) -> bool
    ensures { result ≡ is_named feature names.now }
{
    names.iter().any(|name| feature.as_str() == name.as_str())
}
