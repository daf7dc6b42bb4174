// Groups of tests.
ghost use Rattle.std.specs.Prelude.{◌≡◌, nat_eq, Some, refl};
ghost use Rattle.std.specs.Cmp.{partial_equiv_from_equiv};
ghost use Rattle.std.specs.Cmp.Lexicographic.{pointwise, slice_cmp, nat_list_eq_equiv, nat_list_cmp_total, texts_ties, texts_po};
ghost use Rattle.std.specs.Hash as fed;
ghost use Rattle.std.specs.Ordering.{nat_cmp};
ghost use Rattle.nextest_config_elements_identifiers.specs.Config.{Answers, IsIdentifier, identifier};
ghost use Rattle.nextest_config_elements_identifiers.specs.Groups.{group_of, text_of};

use crate::config_identifier::ConfigIdentifier;
use crate::invalid_identifier::InvalidIdentifier;
use std::alloc::{AllocError, Global};
use std::cmp::Ordering;
use std::fmt;
use std::hash::{Hash, Hasher};
use std::marker::Model;

/// A group of tests that a configuration names, by an identifier. In a clause it is the list of its
/// bytes.
#[derive(Drop)]
pub struct CustomTestGroup {
    name: ConfigIdentifier,
}

impl Model for CustomTestGroup {
    ghost use Rattle.std.specs.Prelude.{List, ℕ};

    ghost Value = { List ℕ };

    ghost view = { λ it. it.name };
}

impl CustomTestGroup {
    /// The group that `text` names, an identifier. An `Err` is that of `ConfigIdentifier::new`.
    pub fn from_text(alloc: Global, text: &str) -> Result<CustomTestGroup, InvalidIdentifier>
        ensures exact { Answers (identifier text.now) result }
    {
        let name = ConfigIdentifier::new(alloc, text)?;
        Ok(CustomTestGroup { name })
    }

    /// The identifier, lent.
    pub fn as_identifier(&self) -> &ConfigIdentifier
        ensures { result.now ≡ self.now }
    {
        &self.name
    }

    /// The identifier's text, lent.
    pub fn as_str(&self) -> &str
        ensures value { result.now ≡ self.now }
        ensures named { IsIdentifier result.now }
    {
        self.name.as_str()
    }
}

impl Clone for CustomTestGroup {
    ghost is_clone = { λ original copy. copy ≡ original };

    fn clone(&self) -> Result<CustomTestGroup, AllocError> {
        Ok(CustomTestGroup {
            name: self.name.clone()?,
        })
    }
}

impl PartialEq for CustomTestGroup {
    ghost eq = { pointwise nat_eq };

    ghost laws = { partial_equiv_from_equiv nat_list_eq_equiv };

    fn eq(&self, other: &CustomTestGroup) -> bool {
        self.name == other.name
    }
}

impl Eq for CustomTestGroup {
    ghost laws = { nat_list_eq_equiv };
}

impl PartialOrd for CustomTestGroup {
    ghost partial_cmp = { λ x y. Some (slice_cmp nat_cmp x y) };

    ghost laws = { texts_po };

    fn partial_cmp(&self, other: &CustomTestGroup) -> Option<Ordering> {
        Some(self.cmp(other))
    }
}

impl Ord for CustomTestGroup {
    ghost cmp = { slice_cmp nat_cmp };

    ghost total = { nat_list_cmp_total };

    ghost matches_partial_cmp = { λ x y. refl };

    ghost matches_eq = { texts_ties };

    fn cmp(&self, other: &CustomTestGroup) -> Ordering {
        self.name.cmp(&other.name)
    }
}

impl Hash for CustomTestGroup {
    ghost use Rattle.std.specs.Cmp.Rules.{hashing};
    ghost use Rattle.std.proofs.Common.{rules};

    ghost hash_input = { fed.str };

    ghost respects_eq = { Prim.search (hashing, rules) };

    fn hash<H: Hasher>(&self, state: &mut H) {
        self.name.hash(state);
    }
}

impl fmt::Display for CustomTestGroup {
    ghost output = { Some };

    fn fmt<W: fmt::Write>(&self, f: &mut fmt::Formatter<W>) -> fmt::Result {
        fmt::Display::fmt(&self.name, f)
    }
}

impl fmt::Debug for CustomTestGroup {
    fn fmt<W: fmt::Write>(&self, f: &mut fmt::Formatter<W>) -> fmt::Result {
        fmt::Debug::fmt(&self.name, f)
    }
}

/// A group of tests. The global one comes first, and the others follow by their names.
#[derive(Clone, Debug, PartialEq, Eq, PartialOrd, Ord, Hash)]
pub enum TestGroup {
    /// The group of all tests that no setting puts into another.
    Global,
    /// A group that a configuration names.
    Custom(CustomTestGroup),
}

impl Drop for TestGroup {
    fn drop(self) {
        match self {
            TestGroup::Global => {}
            TestGroup::Custom(_) => {}
        }
    }
}

impl TestGroup {
    /// The group that `text` names: `@global`, or an identifier. An `Err` is that of
    /// `ConfigIdentifier::new`.
    pub fn from_text(alloc: Global, text: &str) -> Result<TestGroup, InvalidIdentifier>
        ensures exact { Answers (group_of text.now) result }
    {
        if text == "@global" {
            return Ok(TestGroup::Global);
        }
        Ok(TestGroup::Custom(CustomTestGroup::from_text(alloc, text)?))
    }

    /// Its text, lent: `@global`, or the identifier.
    pub fn as_str(&self) -> &str
        ensures { result.now ≡ text_of self.now }
    {
        match self {
            TestGroup::Global => "@global",
            TestGroup::Custom(group) => group.as_str(),
        }
    }
}

impl fmt::Display for TestGroup {
    ghost use Rattle.std.specs.Prelude.{Some};
    ghost use Rattle.nextest_config_elements_identifiers.specs.Groups.{text_of};

    ghost output = { λ group. Some (text_of group) };

    fn fmt<W: fmt::Write>(&self, f: &mut fmt::Formatter<W>) -> fmt::Result {
        f.write_str(self.as_str())
    }
}
