// Why a configuration is refused.
ghost use Rattle.std.specs.Prelude.{◌≡◌};
ghost use Rattle.nextest_config_resolution_load.specs.Kinds.{kind_of};

use crate::languages::FilterPurpose;
use crate::rule_id::RuleId;
use nextest_config_elements_toml::BadValue;
use nextest_config_elements_versions::ConfigExperimental;
use nextest_config_resolution_inheritance::InheritanceFault;
use nextest_config_resolution_overrides::OverrideId;
use nextest_config_resolution_scripts::ScriptRuleId;
use nextest_text::Text;
use thiserror::Error;

/// Which rule of the load is broken, by the order in which they are looked at.
#[derive(Clone, Copy, Debug, PartialEq, Eq, Hash, Error)]
pub enum LoadKind {
    /// A source couldn't be read, or isn't there though it was named.
    #[error("Unread")]
    Unread,
    /// The text of a source is no TOML.
    #[error("Toml")]
    Toml,
    /// A value can't stand at its key, in a file or in what the files come to.
    #[error("BadValue")]
    BadValue,
    /// A file defines scripts in both tables that may have setup scripts.
    #[error("BothScriptTables")]
    BothScriptTables,
    /// A file defines scripts of a kind whose feature isn't known.
    #[error("FeatureNotEnabled")]
    FeatureNotEnabled,
    /// A file defines a group or a script that it may not define.
    #[error("BadName")]
    BadName,
    /// A file defines a setup script and a wrapper script of one name.
    #[error("RepeatedScript")]
    RepeatedScript,
    /// A rule says neither on which platforms nor on which tests it holds.
    #[error("NoConstraint")]
    NoConstraint,
    /// An override has a filter and a default filter.
    #[error("FilterAndDefaultFilter")]
    FilterAndDefaultFilter,
    /// A rule has a platform spec that is none.
    #[error("BadSpec")]
    BadSpec,
    /// A filter of a rule, or the default filter of a profile, is no filter.
    #[error("BadFilter")]
    BadFilter,
    /// A script rule has a `list-wrapper`, and a filter that asks what only tests tell.
    #[error("ListWrapperRunFilter")]
    ListWrapperRunFilter,
    /// An override names a group that nothing defines.
    #[error("UnknownGroup")]
    UnknownGroup,
    /// A script rule names a setup script that nothing defines.
    #[error("UnknownScript")]
    UnknownScript,
    /// A script rule names a wrapper script that nothing defines.
    #[error("UnknownWrapper")]
    UnknownWrapper,
    /// A profile with a reserved name inherits.
    #[error("InheritsInDefault")]
    InheritsInDefault,
    /// A profile inherits from one that isn't there.
    #[error("UnknownParent")]
    UnknownParent,
    /// The parents of a profile come to no end.
    #[error("Cycle")]
    Cycle,
}

/// Which platform a spec is of.
#[derive(Clone, Copy, Debug, PartialEq, Eq, Error)]
pub enum PlatformSide {
    /// The platform on which tests are built and run.
    #[error("host")]
    Host,
    /// The platform for which they are built.
    #[error("target")]
    Target,
}

/// Why a configuration is refused.
#[derive(Clone, Debug, PartialEq, Eq, Error)]
pub enum LoadFault {
    /// A source couldn't be read, or isn't there though it was named.
    #[error("{path}: the file wasn't read: {cause}")]
    Unread {
        /// The path of the source.
        path: Text,
        /// Why it wasn't.
        cause: Text,
    },
    /// The text of a source is no TOML.
    #[error("{path}: the text is no TOML: {message}")]
    Toml {
        /// The path of the source.
        path: Text,
        /// What the reader says of it.
        message: Text,
    },
    /// A value of a source can't stand at its key.
    #[error("{path}: {value}")]
    BadValue {
        /// The path of the source.
        path: Text,
        /// The value, and where it stands.
        value: BadValue,
    },
    /// A file defines scripts under `script`, where setup scripts stood before, and under
    /// `scripts`.
    #[error("{path}: the file defines scripts under `script` and under `scripts`")]
    BothScriptTables {
        /// The path of the source.
        path: Text,
    },
    /// A file defines scripts of a kind whose feature isn't known.
    #[error("{path}: the file defines scripts that need the experimental feature `{feature}`")]
    FeatureNotEnabled {
        /// The path of the source.
        path: Text,
        /// The feature.
        feature: ConfigExperimental,
    },
    /// A file defines a group or a script that it may not define: a tool's file defines those that
    /// are named `@tool:`, its name and `:`, and the repository's none that is named as a tool's.
    #[error("{path}: the file may not define `{name}`")]
    BadName {
        /// The path of the source.
        path: Text,
        /// The name of the group or script.
        name: Text,
    },
    /// A file defines a setup script and a wrapper script of one name.
    #[error("{path}: `{script}` is a setup script and a wrapper script")]
    RepeatedScript {
        /// The path of the source.
        path: Text,
        /// The name of the scripts.
        script: Text,
    },
    /// A rule says neither on which platforms nor on which tests it holds.
    #[error("{rule}: at least one of `filter` and `platform` is needed")]
    NoConstraint {
        /// The rule.
        rule: RuleId,
    },
    /// An override has a filter and a default filter.
    #[error("{rule}: an override can't have both `filter` and `default-filter`")]
    FilterAndDefaultFilter {
        /// The rule, an override.
        rule: RuleId,
    },
    /// A rule has a platform spec that is none.
    #[error("{rule}: the {side} platform is no platform spec: `{spec}`")]
    BadSpec {
        /// The rule.
        rule: RuleId,
        /// Which platform it is of.
        side: PlatformSide,
        /// What is set.
        spec: Text,
    },
    /// A rule has a filter that is none for its purpose, or too deep for the reader of filters.
    #[error("{rule}: this is no filter here: `{filter}`")]
    BadRuleFilter {
        /// The rule.
        rule: RuleId,
        /// What the filter is for: `Override` is the key `filter`, `Default` is `default-filter`,
        /// and `ListWrapper` the key `filter` beside a `list-wrapper`, where it asks what only
        /// tests tell.
        purpose: FilterPurpose,
        /// What is set.
        filter: Text,
    },
    /// An override names a group that no file defines.
    #[error("{rule}: no group is named `{group}`")]
    UnknownGroup {
        /// The override.
        rule: OverrideId,
        /// The name of the group.
        group: Text,
    },
    /// A script rule names a setup script that no file defines.
    #[error("{rule}: no setup script is named `{script}`")]
    UnknownScript {
        /// The script rule.
        rule: ScriptRuleId,
        /// The name of the script.
        script: Text,
    },
    /// A script rule names a wrapper script that no file defines.
    #[error("{rule}: no wrapper script is named `{script}`")]
    UnknownWrapper {
        /// The script rule.
        rule: ScriptRuleId,
        /// The name of the script.
        script: Text,
    },
    /// A value can't stand at its key in what the sources come to, each over the lower ones.
    #[error("in all configuration files together: {value}")]
    BadMergedValue {
        /// The value, and where it stands.
        value: BadValue,
    },
    /// Profiles don't inherit as they may.
    #[error(transparent)]
    Inheritance(InheritanceFault),
    /// The default filter of a profile is no filter, or too deep for the reader of filters.
    #[error("in profile `{profile}`, `default-filter` is no filter here: `{filter}`")]
    BadFilter {
        /// The name of the profile.
        profile: Text,
        /// What it sets.
        filter: Text,
    },
}

// One call drops it, whoever holds it.
impl Drop for LoadFault {
    fn drop(self) {
        match self {
            LoadFault::Unread { path: _, cause: _ } => {}
            LoadFault::Toml {
                path: _,
                message: _,
            } => {}
            LoadFault::BadValue { path: _, value: _ } => {}
            LoadFault::BothScriptTables { path: _ } => {}
            LoadFault::FeatureNotEnabled {
                path: _,
                feature: _,
            } => {}
            LoadFault::BadName { path: _, name: _ } => {}
            LoadFault::RepeatedScript { path: _, script: _ } => {}
            LoadFault::NoConstraint { rule: _ } => {}
            LoadFault::FilterAndDefaultFilter { rule: _ } => {}
            LoadFault::BadSpec {
                rule: _,
                side: _,
                spec: _,
            } => {}
            LoadFault::BadRuleFilter {
                rule: _,
                purpose: _,
                filter: _,
            } => {}
            LoadFault::UnknownGroup { rule: _, group: _ } => {}
            LoadFault::UnknownScript { rule: _, script: _ } => {}
            LoadFault::UnknownWrapper { rule: _, script: _ } => {}
            LoadFault::BadMergedValue { value: _ } => {}
            LoadFault::Inheritance(_) => {}
            LoadFault::BadFilter {
                profile: _,
                filter: _,
            } => {}
        }
    }
}

impl LoadFault {
    /// Which rule is broken.
    pub fn kind(&self) -> LoadKind
        ensures { result ≡ kind_of self.now }
    {
        match self {
            LoadFault::Unread { .. } => LoadKind::Unread,
            LoadFault::Toml { .. } => LoadKind::Toml,
            LoadFault::BadValue { .. } | LoadFault::BadMergedValue { .. } => LoadKind::BadValue,
            LoadFault::BothScriptTables { .. } => LoadKind::BothScriptTables,
            LoadFault::FeatureNotEnabled { .. } => LoadKind::FeatureNotEnabled,
            LoadFault::BadName { .. } => LoadKind::BadName,
            LoadFault::RepeatedScript { .. } => LoadKind::RepeatedScript,
            LoadFault::NoConstraint { .. } => LoadKind::NoConstraint,
            LoadFault::FilterAndDefaultFilter { .. } => LoadKind::FilterAndDefaultFilter,
            LoadFault::BadSpec { .. } => LoadKind::BadSpec,
            LoadFault::BadRuleFilter {
                purpose: FilterPurpose::ListWrapper,
                ..
            } => LoadKind::ListWrapperRunFilter,
            LoadFault::BadFilter { .. } | LoadFault::BadRuleFilter { .. } => LoadKind::BadFilter,
            LoadFault::UnknownGroup { .. } => LoadKind::UnknownGroup,
            LoadFault::UnknownScript { .. } => LoadKind::UnknownScript,
            LoadFault::UnknownWrapper { .. } => LoadKind::UnknownWrapper,
            LoadFault::Inheritance(InheritanceFault::InheritsInDefault { .. }) => {
                LoadKind::InheritsInDefault
            }
            LoadFault::Inheritance(InheritanceFault::UnknownParent { .. }) => {
                LoadKind::UnknownParent
            }
            LoadFault::Inheritance(InheritanceFault::Cycle { .. }) => LoadKind::Cycle,
        }
    }
}
