// The names of scripts.
ghost use Rattle.std.specs.Prelude.{◌≡◌, nat_eq, Some, IfOk, refl};
ghost use Rattle.std.specs.Cmp.{partial_equiv_from_equiv};
ghost use Rattle.std.specs.Cmp.Lexicographic.{pointwise, slice_cmp, nat_list_eq_equiv, nat_list_cmp_total, texts_ties, texts_po};
ghost use Rattle.std.specs.Hash as fed;
ghost use Rattle.std.specs.Ordering.{nat_cmp};
ghost use Rattle.nextest_config_elements_identifiers.specs.Config.{Answers, IsIdentifier, identifier};
ghost use Rattle.nextest_config_resolution_commands.specs.Programs.{run_of_script};

use nextest_config_elements_deserialize::{DeserializeValue, deserialize_config_identifier};
use nextest_config_elements_identifiers::{ConfigIdentifier, InvalidIdentifier};
use nextest_config_elements_toml::ValueError;
use nextest_text::Text;
use std::alloc::{AllocError, Global};
use std::cmp::Ordering;
use std::fmt;
use std::hash::{Hash, Hasher};
use std::marker::Model;
use toml::Value;
use uuid::Uuid;

/// The name of a script: an identifier. In a clause it is the list of its bytes.
pub struct ScriptId {
    name: ConfigIdentifier,
}

// One call drops it, whoever holds it.
impl Drop for ScriptId {
    fn drop(self) {
        let Self { name: _ } = self;
    }
}

impl Model for ScriptId {
    ghost use Rattle.std.specs.Prelude.{List, ℕ};

    ghost Value = { List ℕ };

    ghost view = { λ it. it.name };
}

impl ScriptId {
    /// The script that `text` names, an identifier. An `Err` is that of `ConfigIdentifier::new`.
    pub fn new(alloc: Global, text: &str) -> Result<ScriptId, InvalidIdentifier>
        ensures exact { Answers (identifier text.now) result }
    {
        let name = ConfigIdentifier::new(alloc, text)?;
        Ok(ScriptId { name })
    }

    /// The identifier, lent.
    pub fn as_identifier(&self) -> &ConfigIdentifier
        ensures { result.now ≡ self.now }
    {
        &self.name
    }

    /// The id of its run in the run `run_id`: `RUN:ID`, and then `@stress-N` in the sub-run N of a
    /// stress run. It fails only on allocation.
    pub fn unique_id(
        &self,
        alloc: Global,
        run_id: &Uuid,
        stress_index: Option<u32>,
    ) -> Result<Text, AllocError>
        ensures { IfOk result (λ id. id ≡ run_of_script run_id.now self.now stress_index) }
    {
        match stress_index {
            Some(number) => Ok(Text::from(format!(in alloc; "{run_id}:{self}@stress-{number}")?)),
            None => Ok(Text::from(format!(in alloc; "{run_id}:{self}")?)),
        }
    }

    /// The identifier's text, lent.
    pub fn as_str(&self) -> &str
        ensures value { result.now ≡ self.now }
        ensures named { IsIdentifier result.now }
    {
        self.name.as_str()
    }
}

impl DeserializeValue for ScriptId {
    ghost use Rattle.nextest_config_elements_deserialize.specs.Names.{config_identifier_in};

    ghost reading = { config_identifier_in };

    fn deserialize(alloc: Global, value: &Value, path: &[&str]) -> Result<ScriptId, ValueError> {
        Ok(ScriptId {
            name: deserialize_config_identifier(alloc, value, path)?,
        })
    }
}

impl Clone for ScriptId {
    ghost is_clone = { λ original copy. copy ≡ original };

    fn clone(&self) -> Result<ScriptId, AllocError> {
        Ok(ScriptId {
            name: self.name.clone()?,
        })
    }
}

impl PartialEq for ScriptId {
    ghost eq = { pointwise nat_eq };

    ghost laws = { partial_equiv_from_equiv nat_list_eq_equiv };

    fn eq(&self, other: &ScriptId) -> bool {
        self.name == other.name
    }
}

impl Eq for ScriptId {
    ghost laws = { nat_list_eq_equiv };
}

impl PartialOrd for ScriptId {
    ghost partial_cmp = { λ x y. Some (slice_cmp nat_cmp x y) };

    ghost laws = { texts_po };

    fn partial_cmp(&self, other: &ScriptId) -> Option<Ordering> {
        Some(self.cmp(other))
    }
}

impl Ord for ScriptId {
    ghost cmp = { slice_cmp nat_cmp };

    ghost total = { nat_list_cmp_total };

    ghost matches_partial_cmp = { λ x y. refl };

    ghost matches_eq = { texts_ties };

    fn cmp(&self, other: &ScriptId) -> Ordering {
        self.name.cmp(&other.name)
    }
}

impl Hash for ScriptId {
    ghost use Rattle.std.specs.Cmp.Rules.{hashing};
    ghost use Rattle.std.proofs.Common.{rules};

    ghost hash_input = { fed.str };

    ghost respects_eq = { Prim.search (hashing, rules) };

    fn hash<H: Hasher>(&self, state: &mut H) {
        self.name.hash(state);
    }
}

impl fmt::Display for ScriptId {
    ghost output = { Some };

    fn fmt<W: fmt::Write>(&self, f: &mut fmt::Formatter<W>) -> fmt::Result {
        fmt::Display::fmt(&self.name, f)
    }
}

impl fmt::Debug for ScriptId {
    fn fmt<W: fmt::Write>(&self, f: &mut fmt::Formatter<W>) -> fmt::Result {
        fmt::Debug::fmt(&self.name, f)
    }
}
