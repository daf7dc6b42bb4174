// A whole configuration.
ghost use Rattle.std.specs.Prelude.{◌≡◌, IfOk};

use crate::chains::{Chained, all_names, chain_at, place_of};
use crate::config_languages::ConfigLanguages;
use crate::early_profile::EarlyProfile;
use crate::profile_error::{ProfileError, ProfileNotFound};
use crate::selection::selected;
use crate::store_dir::dir_in_store;
use crate::tree::built_in;
use nextest_config_elements_versions::FeatureSet;
use nextest_config_resolution_filters::{Filters, Specs};
use nextest_config_resolution_load::{
    ConfigWarnings, LoadError, LoadedConfig, LoadedOverride, LoadedScriptRule, load,
    load_with_warnings,
};
use nextest_config_resolution_overrides::NamedGroup;
use nextest_config_resolution_scripts::ScriptConfig;
use nextest_config_resolution_sources::{ConfigFileSelection, ConfigPaths, ConfigSource};
use nextest_text::Text;
use std::alloc::{AllocError, Global};
use std::marker::Model;
use std::rc::Rc;

/// A whole configuration: what its sources come to, each over the lower ones and over what is built
/// in. Tests are told apart by filters `F`, and builds by specs `S`.
pub struct NextestConfig<F: Filters, S: Specs> {
    root: Text,
    loaded: Rc<LoadedConfig<F, S>>,
}

// One call drops it, whoever holds it.
impl<F: Filters, S: Specs> Drop for NextestConfig<F, S> {
    fn drop(self) {
        let Self { root: _, loaded: _ } = self;
    }
}

impl<F: Filters, S: Specs> Model for NextestConfig<F, S> {
    ghost use Rattle.nextest_config_resolution_profiles.specs.Whole.{IsSound, Whole};

    ghost Value = { Whole F S };

    ghost view = { λ it. record { root = it.root; loaded = it.loaded.value } };

    // The profiles inherit as they may, their names rise, `default` is among them and sets a
    // default filter, the default filters of all are read and serve as such, no rule asks for
    // groups, and there is a directory of the store.
    ghost invariant = { λ it. IsSound F.serves_as_default F.asks_groups it.loaded.value };
}

impl<F: Filters, S: Specs> Clone for NextestConfig<F, S> {
    ghost use Rattle.std.specs.Prelude.{◌≡◌};

    ghost is_clone = { λ original copy. copy ≡ original };

    // What was loaded is shared.
    fn clone(&self) -> Result<NextestConfig<F, S>, AllocError> {
        Ok(NextestConfig {
            root: self.root.clone()?,
            loaded: self.loaded.clone()?,
        })
    }
}

impl<F: Filters, S: Specs> NextestConfig<F, S> {
    ghost use Rattle.nextest_config_resolution_load.specs.Warn.{WarnsAs, warnings_in};
    ghost use Rattle.nextest_config_resolution_profiles.specs.Config.{IsConfig, IsFilterIn, IsProfile, KnownRise};
    ghost use Rattle.nextest_config_resolution_profiles.specs.Selection.{selected_by};
    ghost use Rattle.std.specs.Prelude.{◌≡◌, Some};

    /// What sources come to, those that count, each over the lower ones and over what is built in,
    /// in the workspace at `root`, which `cx` is to filters, where the `experimental` features are
    /// known.
    ///
    /// # Errors
    ///
    /// `Refused` tells of the first rule that is broken, as `load` says, where filters are those of
    /// `cx`, in which no group is known. Want of memory says nothing of the sources.
    pub fn from_sources(
        alloc: Global,
        root: &str,
        cx: &F::Cx,
        sources: &[ConfigSource],
        experimental: FeatureSet,
    ) -> Result<NextestConfig<F, S>, LoadError>
        ensures { IsConfig (IsFilterIn F.is_parsed F.has_runtime_leaves cx.now) S.is_parsed
            F.is_too_deep experimental root.now sources.now result }
    {
        let lowest = built_in(alloc)?;
        match load::<ConfigLanguages<F, S>>(alloc, &lowest, cx, sources, experimental) {
            Ok(loaded) => Ok(NextestConfig {
                root: Text::from_str(alloc, root)?,
                loaded: shared(alloc, loaded)?,
            }),
            Err(error) => Err(error),
        }
    }

    /// What `from_sources` gives of the sources, and `warnings` is told what no configuration knows
    /// in the files, as `load_with_warnings` tells it.
    ///
    /// # Errors
    ///
    /// As `from_sources`. Where the sources are refused no warning was told; where there was no
    /// memory, a front of them was.
    pub fn from_sources_with_warnings<W: ConfigWarnings>(
        alloc: Global,
        root: &str,
        cx: &F::Cx,
        sources: &[ConfigSource],
        experimental: FeatureSet,
        warnings: &mut W,
    ) -> Result<NextestConfig<F, S>, LoadError>
        ensures config { IsConfig (IsFilterIn F.is_parsed F.has_runtime_leaves cx.now) S.is_parsed
            F.is_too_deep experimental root.now sources.now result }
        ensures warnings { WarnsAs W.has_warned warnings.old warnings.new
            (warnings_in sources.now) result }
    {
        let lowest = built_in(alloc)?;
        let root = Text::from_str(alloc, root)?;
        match load_with_warnings::<ConfigLanguages<F, S>, W>(
            alloc,
            &lowest,
            cx,
            sources,
            experimental,
            warnings,
        ) {
            Ok(loaded) => Ok(NextestConfig {
                root,
                loaded: shared(alloc, loaded)?,
            }),
            Err(error) => Err(error),
        }
    }

    /// What `from_sources_with_warnings` gives of the sources, where the selection says of the
    /// repository's whether they are named or looked for. So a file that is missing is refused
    /// where it was named, and passed over where it was looked for. The sources of tools stay as
    /// they are.
    ///
    /// # Errors
    ///
    /// As `from_sources_with_warnings`, of the sources as they are then.
    pub fn from_sources_with_selection<W: ConfigWarnings>(
        alloc: Global,
        root: &str,
        cx: &F::Cx,
        selection: &ConfigFileSelection,
        sources: &[ConfigSource],
        experimental: FeatureSet,
        warnings: &mut W,
    ) -> Result<NextestConfig<F, S>, LoadError>
        ensures config { IsConfig (IsFilterIn F.is_parsed F.has_runtime_leaves cx.now) S.is_parsed
            F.is_too_deep experimental root.now (selected_by selection.now sources.now) result }
        ensures warnings { WarnsAs W.has_warned warnings.old warnings.new
            (warnings_in (selected_by selection.now sources.now)) result }
    {
        let sources = selected(alloc, selection, sources)?;
        NextestConfig::from_sources_with_warnings(
            alloc,
            root,
            cx,
            sources.as_slice(),
            experimental,
            warnings,
        )
    }

    /// What `from_sources_with_selection` gives in the workspace that the paths tell of.
    ///
    /// # Errors
    ///
    /// As `from_sources_with_selection`.
    pub fn from_sources_with_paths<W: ConfigWarnings>(
        alloc: Global,
        paths: &ConfigPaths,
        cx: &F::Cx,
        selection: &ConfigFileSelection,
        sources: &[ConfigSource],
        experimental: FeatureSet,
        warnings: &mut W,
    ) -> Result<NextestConfig<F, S>, LoadError>
        ensures config { IsConfig (IsFilterIn F.is_parsed F.has_runtime_leaves cx.now) S.is_parsed
            F.is_too_deep experimental paths.now.workspace_root
            (selected_by selection.now sources.now) result }
        ensures warnings { WarnsAs W.has_warned warnings.old warnings.new
            (warnings_in (selected_by selection.now sources.now)) result }
    {
        let root = paths.workspace_root.as_str();
        NextestConfig::from_sources_with_selection(
            alloc,
            root,
            cx,
            selection,
            sources,
            experimental,
            warnings,
        )
    }

    /// The overrides of all files: the highest file first, in a file by the bytes of the profiles'
    /// names, and those of a profile in their order.
    pub fn rules(&self) -> &[LoadedOverride<F, S>]
        ensures { result.now ≡ self.now.loaded.rules }
    {
        self.loaded.rules.as_slice()
    }

    /// The script rules of all files, in the same order.
    pub fn script_rules(&self) -> &[LoadedScriptRule<F, S>]
        ensures { result.now ≡ self.now.loaded.script_rules }
    {
        self.loaded.script_rules.as_slice()
    }

    /// The scripts, as they are defined.
    pub fn scripts(&self) -> &ScriptConfig
        ensures { result.now ≡ self.now.loaded.scripts }
    {
        &self.loaded.scripts
    }

    /// The groups of tests, as they are defined. Of several with one name the last holds.
    pub fn groups(&self) -> &[NamedGroup]
        ensures { result.now ≡ self.now.loaded.groups }
    {
        self.loaded.groups.as_slice()
    }

    /// The profile of a name, lent.
    ///
    /// # Errors
    ///
    /// `NotFound` exactly if no profile has that name, with the names of all, which rise by their
    /// bytes. Running out of memory says nothing of the profiles.
    pub fn profile(&self, alloc: Global, name: &str) -> Result<EarlyProfile<'_, F, S>, ProfileError>
        ensures exact { IsProfile self.now name.now result }
        ensures rises { KnownRise result }
    {
        let loaded = self.loaded();
        let profiles = loaded.profiles.as_slice();
        match place_of(profiles, name) {
            Some(place) => {
                let filters = loaded.default_filters.as_slice();
                let all = loaded.rules.as_slice();
                let all_scripts = loaded.script_rules.as_slice();
                let groups = loaded.groups.as_slice();
                let Chained {
                    values,
                    default_filter,
                    rules,
                    script_rules,
                } = chain_at(alloc, profiles, filters, all, all_scripts, place)?;
                let name = profiles[place].name.as_str();
                Ok(EarlyProfile {
                    name,
                    store_dir: dir_in_store(alloc, self.root.as_str(), self.store(), name)?,
                    chain: values,
                    default_filter,
                    rules,
                    script_rules,
                    groups,
                    scripts: &loaded.scripts,
                })
            }
            None => Err(ProfileError::NotFound(ProfileNotFound {
                name: Text::from_str(alloc, name)?,
                known: all_names(alloc, profiles)?,
            })),
        }
    }

    // What was loaded, lent.
    fn loaded(&self) -> &LoadedConfig<F, S>
        ensures { result.now ≡ self.now.loaded }
    {
        &self.loaded
    }

    // The directory of the store.
    fn store(&self) -> &str
        ensures { self.now.loaded.store_dir ≡ Some result.now }
    {
        match &self.loaded.store_dir {
            Some(dir) => dir.as_str(),
            None => unreachable!(),
        }
    }
}

// What was loaded, in memory that copies share.
fn shared<F: Filters, S: Specs>(
    alloc: Global,
    loaded: LoadedConfig<F, S>,
) -> Result<Rc<LoadedConfig<F, S>>, AllocError>
    ensures { IfOk result (λ it. it.value ≡ loaded) }
{
    Ok(Rc::new(alloc, loaded)?)
}
