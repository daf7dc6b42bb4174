// The scripts that a configuration defines.
ghost use Rattle.std.specs.Prelude.{◌≡◌, [], IfOk, option_map};
ghost use Rattle.std.specs.Option.{option_copied};
ghost use Rattle.toml.specs.View.{table_view, view};
ghost use Rattle.nextest_config_elements_identifiers.specs.Config.{identifier};
ghost use Rattle.nextest_config_elements_toml.specs.Paths.{Gives, GivesAt};
ghost use Rattle.nextest_config_elements_toml.specs.Reading.{under};
ghost use Rattle.nextest_config_resolution_overrides.specs.Groups.{name_of_identifier};
ghost use Rattle.nextest_config_resolution_scripts.specs.Defined.{or_earlier, script_named};
ghost use Rattle.nextest_config_resolution_scripts.specs.Paths.{old_scripts_path, scripts_path};
ghost use Rattle.nextest_config_resolution_scripts.specs.Scripts.{kinds_in, old_scripts_of, script_of, scripts_by, scripts_in, scripts_of, setup_in, wrapper_in};

use crate::setup_script::SetupScriptConfig;
use crate::wrapper_script::WrapperScriptConfig;
use nextest_config_elements_deserialize::{DeserializeValue, below};
use nextest_config_elements_identifiers::InvalidIdentifier;
use nextest_config_elements_toml::{BadValue, KeyPath, ValueError, member, refused};
use nextest_config_resolution_commands::ScriptId;
use nextest_text::Listing;
use std::alloc::{AllocError, Global};
use std::fmt;
use toml::{Table, Value};

/// A script by its name.
pub struct NamedScript<Config> {
    /// Its name.
    pub id: ScriptId,
    /// What it is set to.
    pub config: Config,
}

// Its name is cloned, and what it is set to: where clones of that equal it, the clone is the same
// script.
impl<Config: Clone> Clone for NamedScript<Config> {
    ghost is_clone = { λ original copy.
        (copy.id ≡ original.id) × Config.is_clone original.config copy.config };

    fn clone(&self) -> Result<NamedScript<Config>, AllocError> {
        Ok(NamedScript {
            id: self.id.clone()?,
            config: self.config.clone()?,
        })
    }
}

// One call drops it, whoever holds it.
impl<Config: Drop> Drop for NamedScript<Config> {
    fn drop(self) {
        let Self { id: _, config: _ } = self;
    }
}

/// The scripts that a configuration defines, by the bytes of their keys. Of several of one kind
/// with one name, which keys that are one identifier in their NFC have, the last one holds.
pub struct ScriptConfig {
    /// `scripts.setup`: the setup scripts.
    pub setup: Listing<NamedScript<SetupScriptConfig>>,
    /// `scripts.wrapper`: the wrapper scripts.
    pub wrapper: Listing<NamedScript<WrapperScriptConfig>>,
}

impl Clone for ScriptConfig {
    ghost is_clone = { λ original copy. copy ≡ original };

    fn clone(&self) -> Result<ScriptConfig, AllocError> {
        Ok(ScriptConfig {
            setup: self.setup.clone()?,
            wrapper: self.wrapper.clone()?,
        })
    }
}

// One call drops it, whoever holds it.
impl Drop for ScriptConfig {
    fn drop(self) {
        let Self {
            setup: _,
            wrapper: _,
        } = self;
    }
}

impl ScriptConfig {
    /// The setup script of a name, if one is defined.
    pub fn setup_script(&self, id: &ScriptId) -> Option<&SetupScriptConfig>
        ensures { option_copied result ≡ script_named self.now.setup id.now }
    {
        script_named(self.setup.as_slice(), id)
    }

    /// The wrapper script of a name, if one is defined.
    pub fn wrapper_script(&self, id: &ScriptId) -> Option<&WrapperScriptConfig>
        ensures { option_copied result ≡ script_named self.now.wrapper id.now }
    {
        script_named(self.wrapper.as_slice(), id)
    }
}

/// What the script of a name is set to, the last one of several; `None` if there is none.
pub fn script_named<'s, Config>(
    scripts: &'s [NamedScript<Config>],
    id: &ScriptId,
) -> Option<&'s Config>
    ensures { option_copied result ≡ script_named scripts.now id.now }
{
    let mut found = None;
    for script in scripts {
        found = or_earlier(script, id, found);
    }
    found
}

// A script, if it has the name, and else the one that was found before it.
fn or_earlier<'s, Config>(
    script: &'s NamedScript<Config>,
    id: &ScriptId,
    found: Option<&'s Config>,
) -> Option<&'s Config>
    ensures { option_copied result ≡ or_earlier script.now id.now (option_copied found.entry) }
{
    if script.id == *id {
        return Some(&script.config);
    }
    found
}

/// A script, by its name and kind.
#[derive(Clone, Debug, PartialEq, Eq)]
pub struct ScriptInfo {
    /// Its name.
    pub id: ScriptId,
    /// Its kind.
    pub script_type: ScriptType,
}

// One call drops it, whoever holds it.
impl Drop for ScriptInfo {
    fn drop(self) {
        let Self {
            id: _,
            script_type: _,
        } = self;
    }
}

/// The kind of a script.
#[derive(Clone, Copy, Debug, PartialEq, Eq)]
pub enum ScriptType {
    /// It is run before tests that need it.
    Setup,
    /// The commands of tests, or of what lists them, are handed to it.
    Wrapper,
}

impl fmt::Display for ScriptType {
    ghost use Rattle.std.specs.Prelude.{Some};
    ghost use Rattle.nextest_config_resolution_scripts.specs.Defined.{kind_word};

    ghost output = { λ it. Some (kind_word it) };

    fn fmt<W: fmt::Write>(&self, f: &mut fmt::Formatter<W>) -> fmt::Result {
        f.write_str(match self {
            ScriptType::Setup => "setup",
            ScriptType::Wrapper => "wrapper",
        })
    }
}

/// What a script rule of a profile names a script as.
#[derive(Clone, Copy, Debug, PartialEq, Eq)]
pub enum ProfileScriptType {
    /// One that is run before the tests.
    Setup,
    /// One that the command is handed to which lists the tests.
    ListWrapper,
    /// One that the commands of the tests are handed to.
    RunWrapper,
}

impl fmt::Display for ProfileScriptType {
    ghost use Rattle.std.specs.Prelude.{Some};
    ghost use Rattle.nextest_config_resolution_scripts.specs.Defined.{use_word};

    ghost output = { λ it. Some (use_word it) };

    fn fmt<W: fmt::Write>(&self, f: &mut fmt::Formatter<W>) -> fmt::Result {
        f.write_str(match self {
            ProfileScriptType::Setup => "setup",
            ProfileScriptType::ListWrapper => "list-wrapper",
            ProfileScriptType::RunWrapper => "run-wrapper",
        })
    }
}

/// The scripts that a configuration defines, by what stands under `scripts` at its top: a table of
/// the tables `setup` and `wrapper`, or nothing. Each key of these is the name of a script, an
/// identifier, and its value a table with `command`; other keys are read past.
///
/// # Errors
///
/// `Refused` names the first key or value, by the bytes of the keys, that is none, and a key before
/// its value.
pub fn deserialize_scripts(alloc: Global, found: Option<&Value>) -> Result<ScriptConfig, ValueError>
    ensures { GivesAt scripts_path result
        (scripts_of (option_map (λ it. view it.now) found.entry)) }
{
    match found {
        None => Ok(ScriptConfig {
            setup: Listing::new(alloc),
            wrapper: Listing::new(alloc),
        }),
        Some(Value::Table(kinds)) => kinds_in(alloc, kinds),
        Some(other) => Err(refused(alloc, &["scripts"], Some(other), "a table")),
    }
}

// The scripts of both kinds.
fn kinds_in(alloc: Global, kinds: &Table) -> Result<ScriptConfig, ValueError>
    ensures { GivesAt scripts_path result (kinds_in (table_view kinds.now)) }
{
    let setup = setup_in(alloc, kinds)?;
    let wrapper = wrapper_in(alloc, kinds)?;
    Ok(ScriptConfig { setup, wrapper })
}

// The setup scripts.
fn setup_in(
    alloc: Global,
    kinds: &Table,
) -> Result<Listing<NamedScript<SetupScriptConfig>>, ValueError>
    ensures { GivesAt scripts_path result (setup_in (table_view kinds.now)) }
{
    scripts_of(alloc, member(kinds, "setup"), &["scripts", "setup"])
}

// The wrapper scripts.
fn wrapper_in(
    alloc: Global,
    kinds: &Table,
) -> Result<Listing<NamedScript<WrapperScriptConfig>>, ValueError>
    ensures { GivesAt scripts_path result (wrapper_in (table_view kinds.now)) }
{
    scripts_of(alloc, member(kinds, "wrapper"), &["scripts", "wrapper"])
}

/// The setup scripts under `script` at the top of a configuration, where they stood before
/// `scripts.setup`: a table of them, or nothing.
///
/// # Errors
///
/// As `deserialize_scripts`.
pub fn deserialize_old_scripts(
    alloc: Global,
    found: Option<&Value>,
) -> Result<Listing<NamedScript<SetupScriptConfig>>, ValueError>
    ensures { GivesAt old_scripts_path result
        (old_scripts_of (option_map (λ it. view it.now) found.entry)) }
{
    scripts_of(alloc, found, &["script"])
}

// A table of scripts at a path, or nothing.
fn scripts_of<T: DeserializeValue>(
    alloc: Global,
    found: Option<&Value>,
    path: &[&str],
) -> Result<Listing<NamedScript<T>>, ValueError>
    ensures { Gives path.now result
        (scripts_by T.reading (option_map (λ it. view it.now) found.entry)) }
{
    match found {
        None => Ok(Listing::new(alloc)),
        Some(Value::Table(table)) => scripts_in(alloc, table, path),
        Some(other) => Err(refused(alloc, path, Some(other), "a table")),
    }
}

// Each key of a table is a script.
fn scripts_in<T: DeserializeValue>(
    alloc: Global,
    table: &Table,
    path: &[&str],
) -> Result<Listing<NamedScript<T>>, ValueError>
    ensures { Gives path.now result (scripts_in T.reading (table_view table.now)) }
{
    let mut scripts = Listing::new(alloc);
    for (key, given) in table {
        let script = script_at(alloc, key.as_str(), given, path)?;
        scripts.push(script)?;
    }
    Ok(scripts)
}

// The script of a key of the table at a path.
#[tactic(auto, using(nextest_config_elements_deserialize::proofs::Giving::gives_below))]
fn script_at<T: DeserializeValue>(
    alloc: Global,
    key: &str,
    given: &Value,
    path: &[&str],
) -> Result<NamedScript<T>, ValueError>
    ensures { Gives path.now result (under key.now (script_of T.reading key.now (view given.now))) }
{
    match script_of(alloc, key, given) {
        Ok(script) => Ok(script),
        Err(error) => Err(below(alloc, path, key, error)),
    }
}

// The script of a key, with what stands there.
fn script_of<T: DeserializeValue>(
    alloc: Global,
    key: &str,
    given: &Value,
) -> Result<NamedScript<T>, ValueError>
    ensures { Gives [] result (script_of T.reading key.now (view given.now)) }
{
    let id = id_of(alloc, key)?;
    let config = T::deserialize(alloc, given, &[])?;
    Ok(NamedScript { id, config })
}

// The name that a key is.
fn id_of(alloc: Global, key: &str) -> Result<ScriptId, ValueError>
    ensures { Gives [] result (name_of_identifier (identifier key.now)) }
{
    match ScriptId::new(alloc, key) {
        Ok(id) => Ok(id),
        Err(InvalidIdentifier::OutOfMemory) => Err(ValueError::OutOfMemory),
        Err(_) => Err(ValueError::Refused(bad_id(alloc, key)?)),
    }
}

// A key that is no name, told as it is written.
fn bad_id(alloc: Global, key: &str) -> Result<BadValue, AllocError>
    ensures { IfOk result (λ bad. bad.path.keys ≡ []) }
{
    let path = KeyPath::of_keys(alloc, &[], &[])?;
    BadValue::of_key(alloc, path, key, "the name of a script, an identifier")
}
