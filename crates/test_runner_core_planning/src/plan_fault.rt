// Why inputs have no plan.
ghost use Rattle.std.specs.Prelude.{◌≡◌};
ghost use Rattle.test_runner_core_planning.specs.Texts.{name_of_load};

use nextest_config_resolution_load::{LoadFault, LoadKind};
use nextest_config_resolution_profiles::ProfileNotFound;
use nextest_text::Text;
use test_runner_core_listing::ListingFault;
use test_runner_core_settings::{SettingsFault, VersionPassFault};
use test_runner_core_workspace::WorkspaceFault;
use thiserror::Error;

// The exit status of a run whose inputs are refused.
const REFUSED: u8 = 96;

// The same where the current version is below one that is required.
const REQUIRED_VERSION_NOT_MET: u8 = 92;

/// Why inputs have no plan, in the order in which the reasons are looked for.
#[derive(Clone, Debug, PartialEq, Eq, Error)]
pub enum PlanFault {
    /// Two packages have one id.
    #[error("RepeatedPackage")]
    RepeatedPackage,
    /// An end of a link is the id of no package.
    #[error("UnknownLink")]
    UnknownLink,
    /// Two binaries have one id.
    #[error("RepeatedBinary")]
    RepeatedBinary,
    /// A binary's package is the id of no package.
    #[error("UnknownPackage")]
    UnknownPackage,
    /// A binary's id is empty, or has a tab, a line feed or a carriage return in it.
    #[error("BadId")]
    BadId,
    /// A source's text is no TOML, what it asks for of versions and features has not their forms,
    /// or a tool asks for a feature.
    #[error("VersionSource")]
    VersionSource,
    /// A version is required that is above the current one.
    #[error("VersionError")]
    VersionError,
    /// A feature is asked for that isn't known.
    #[error("UnknownFeature")]
    UnknownFeature,
    /// The configuration isn't loaded.
    #[error(transparent)]
    Load(LoadFault),
    /// There is no profile of the chosen name.
    #[error(transparent)]
    ProfileNotFound(ProfileNotFound),
    /// Two facts of a platform have the same name and the same value.
    #[error("RepeatedFact")]
    RepeatedFact,
    /// The filterset isn't one that the workspace accepts.
    #[error("Filterset")]
    Filterset,
    /// A binary can't list its tests, for this cause.
    #[error("ListFault: {0}")]
    ListFault(Text),
    /// A test has no name.
    #[error("EmptyTestName")]
    EmptyTestName,
    /// A test's name has a tab, a line feed or a carriage return in it.
    #[error("BadTestName")]
    BadTestName,
    /// Two tests of a binary have one name.
    #[error("RepeatedTest")]
    RepeatedTest,
    /// A selected test has 4294967295 retries.
    #[error("RetriesTooMany")]
    RetriesTooMany,
}

// One call drops it, whoever holds it.
impl Drop for PlanFault {
    fn drop(self) {
        match self {
            Self::RepeatedPackage => {}
            Self::UnknownLink => {}
            Self::RepeatedBinary => {}
            Self::UnknownPackage => {}
            Self::BadId => {}
            Self::VersionSource => {}
            Self::VersionError => {}
            Self::UnknownFeature => {}
            Self::Load(_) => {}
            Self::ProfileNotFound(_) => {}
            Self::RepeatedFact => {}
            Self::Filterset => {}
            Self::ListFault(_) => {}
            Self::EmptyTestName => {}
            Self::BadTestName => {}
            Self::RepeatedTest => {}
            Self::RetriesTooMany => {}
        }
    }
}

impl PlanFault {
    ghost use Rattle.std.specs.Prelude.{◌≡◌};
    ghost use Rattle.test_runner_core_planning.specs.Texts.{name_of, status_of};

    /// The name that a report tells.
    pub fn name(&self) -> &'static str
        ensures { result.now ≡ name_of self.now }
    {
        match self {
            PlanFault::RepeatedPackage => "RepeatedPackage",
            PlanFault::UnknownLink => "UnknownLink",
            PlanFault::RepeatedBinary => "RepeatedBinary",
            PlanFault::UnknownPackage => "UnknownPackage",
            PlanFault::BadId => "BadId",
            PlanFault::VersionSource => "VersionSource",
            PlanFault::VersionError => "VersionError",
            PlanFault::UnknownFeature => "UnknownFeature",
            PlanFault::Load(told) => load_name(told.kind()),
            PlanFault::ProfileNotFound(_) => "ProfileNotFound",
            PlanFault::RepeatedFact => "RepeatedFact",
            PlanFault::Filterset => "Filterset",
            PlanFault::ListFault(_) => "ListFault",
            PlanFault::EmptyTestName => "EmptyTestName",
            PlanFault::BadTestName => "BadTestName",
            PlanFault::RepeatedTest => "RepeatedTest",
            PlanFault::RetriesTooMany => "RetriesTooMany",
        }
    }

    /// The exit status of a run whose inputs are so refused.
    pub fn status(&self) -> u8
        ensures { result ≡ status_of self.now }
    {
        match self {
            PlanFault::VersionError => REQUIRED_VERSION_NOT_MET,
            _ => REFUSED,
        }
    }
}

// The name of a rule of the load.
fn load_name(kind: LoadKind) -> &'static str
    ensures { result.now ≡ name_of_load kind }
{
    match kind {
        LoadKind::Unread => "Load.Unread",
        LoadKind::Toml => "Load.Toml",
        LoadKind::BadValue => "Load.BadValue",
        LoadKind::BothScriptTables => "Load.BothScriptTables",
        LoadKind::FeatureNotEnabled => "Load.FeatureNotEnabled",
        LoadKind::BadName => "Load.BadName",
        LoadKind::RepeatedScript => "Load.RepeatedScript",
        LoadKind::NoConstraint => "Load.NoConstraint",
        LoadKind::FilterAndDefaultFilter => "Load.FilterAndDefaultFilter",
        LoadKind::BadSpec => "Load.BadSpec",
        LoadKind::BadFilter => "Load.BadFilter",
        LoadKind::ListWrapperRunFilter => "Load.ListWrapperRunFilter",
        LoadKind::UnknownGroup => "Load.UnknownGroup",
        LoadKind::UnknownScript => "Load.UnknownScript",
        LoadKind::UnknownWrapper => "Load.UnknownWrapper",
        LoadKind::InheritsInDefault => "Load.InheritsInDefault",
        LoadKind::UnknownParent => "Load.UnknownParent",
        LoadKind::Cycle => "Load.Cycle",
    }
}

impl From<WorkspaceFault> for PlanFault {
    ghost use Rattle.std.specs.Prelude.{◌≡◌};
    ghost use Rattle.test_runner_core_planning.specs.Refusals.{of_workspace};

    ghost from_gives = { λ part fault. fault ≡ of_workspace part };

    fn from(fault: WorkspaceFault) -> PlanFault {
        match fault {
            WorkspaceFault::RepeatedPackage => PlanFault::RepeatedPackage,
            WorkspaceFault::UnknownLink => PlanFault::UnknownLink,
            WorkspaceFault::RepeatedBinary => PlanFault::RepeatedBinary,
            WorkspaceFault::UnknownPackage => PlanFault::UnknownPackage,
            WorkspaceFault::BadId => PlanFault::BadId,
        }
    }
}

impl From<VersionPassFault> for PlanFault {
    ghost use Rattle.std.specs.Prelude.{◌≡◌};
    ghost use Rattle.test_runner_core_planning.specs.Refusals.{of_pass};

    ghost from_gives = { λ part fault. fault ≡ of_pass part };

    fn from(fault: VersionPassFault) -> PlanFault {
        match fault {
            VersionPassFault::VersionSource => PlanFault::VersionSource,
            VersionPassFault::VersionError => PlanFault::VersionError,
            VersionPassFault::UnknownFeature => PlanFault::UnknownFeature,
        }
    }
}

impl From<SettingsFault> for PlanFault {
    ghost use Rattle.std.specs.Prelude.{◌≡◌};
    ghost use Rattle.test_runner_core_planning.specs.Refusals.{of_settings};

    ghost from_gives = { λ part fault. fault ≡ of_settings part };

    fn from(fault: SettingsFault) -> PlanFault {
        match fault {
            SettingsFault::Load(told) => PlanFault::Load(told),
            SettingsFault::ProfileNotFound(told) => PlanFault::ProfileNotFound(told),
            SettingsFault::RepeatedFact => PlanFault::RepeatedFact,
        }
    }
}

impl From<ListingFault> for PlanFault {
    ghost use Rattle.std.specs.Prelude.{◌≡◌};
    ghost use Rattle.test_runner_core_planning.specs.Refusals.{of_listing};

    ghost from_gives = { λ part fault. fault ≡ of_listing part };

    fn from(fault: ListingFault) -> PlanFault {
        match fault {
            ListingFault::ListFault(cause) => PlanFault::ListFault(cause),
            ListingFault::EmptyTestName => PlanFault::EmptyTestName,
            ListingFault::BadTestName => PlanFault::BadTestName,
            ListingFault::RepeatedTest => PlanFault::RepeatedTest,
        }
    }
}
