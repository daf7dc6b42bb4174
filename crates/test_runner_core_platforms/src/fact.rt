// What is known of a platform.
ghost use Rattle.std.specs.Prelude.{◌≡◌, option_copied, IfOk};
ghost use Rattle.test_runner_core_platforms.specs.Facts.{same_value, is_of, answer_of, has_repeat, MakesFacts};

use nextest_text::{Listing, Text};
use std::alloc::{AllocError, Global};
use std::collections::BTreeSet;
use std::marker::Model;
use thiserror::Error;

/// Whether something holds on a platform: a name, or a name with a value.
#[derive(Drop)]
pub struct Fact {
    /// The name, as `unix`.
    pub name: Text,
    /// The value, as `linux` of `target_os`.
    pub value: Option<Text>,
    /// Whether it holds.
    pub holds: bool,
}

impl Clone for Fact {
    ghost use Rattle.std.specs.Prelude.{◌≡◌};

    ghost is_clone = { λ original copy. copy ≡ original };

    fn clone(&self) -> Result<Fact, AllocError> {
        let name = self.name.clone()?;
        let value = self.value.clone()?;
        Ok(Fact {
            name,
            value,
            holds: self.holds,
        })
    }
}

/// What is known of a platform: its triple, and facts, no two of which have the same name and the
/// same value.
pub struct PlatformFacts {
    triple: Text,
    known: Listing<Fact>,
}

impl Clone for PlatformFacts {
    ghost use Rattle.std.specs.Prelude.{◌≡◌};

    ghost is_clone = { λ original copy. copy ≡ original };

    fn clone(&self) -> Result<PlatformFacts, AllocError> {
        Ok(PlatformFacts {
            triple: self.triple.clone()?,
            known: self.known.clone()?,
        })
    }
}

impl Drop for PlatformFacts {
    fn drop(self) {
        let PlatformFacts {
            triple: _,
            known: _,
        } = self;
    }
}

impl Model for PlatformFacts {
    ghost use Rattle.test_runner_core_platforms.specs.Facts.{Facts};

    ghost Value = { Facts };

    ghost view = { λ it. record { triple = it.triple; known = it.known } };
}

/// Why facts aren't those of a platform.
#[derive(Debug, Drop, Error)]
pub enum PlatformFactsError {
    /// Two facts have the same name and the same value, or both none.
    #[error("two facts have the same name and the same value")]
    RepeatedFact,
    /// There is no memory, which says nothing of the facts.
    #[error("out of memory")]
    OutOfMemory,
}

impl From<AllocError> for PlatformFactsError {
    ghost use Rattle.std.specs.Prelude.{◌≡◌};
    ghost use Rattle.test_runner_core_platforms.specs.declared.fact.PlatformFactsError.TheVariants.{OutOfMemory};

    ghost from_gives = { λ _ error. error ≡ OutOfMemory };

    fn from(_: AllocError) -> PlatformFactsError {
        PlatformFactsError::OutOfMemory
    }
}

// The value, lent.
fn lent(value: &Option<Text>) -> Option<&str>
    ensures { option_copied result ≡ value.now }
{
    match value {
        Some(value) => Some(value.as_str()),
        None => None,
    }
}

// Whether two values are the same, or both left out.
fn is_same(value: Option<&str>, other: Option<&str>) -> bool
    ensures { result ≡ same_value (option_copied value.entry) (option_copied other.entry) }
{
    match value {
        Some(value) => match other {
            Some(other) => value == other,
            None => false,
        },
        None => other.is_none(),
    }
}

impl Fact {
    // Whether it has that name and that value.
    fn is_of(&self, name: &str, value: Option<&str>) -> bool
        ensures { result ≡ is_of name.now (option_copied value.entry) self.now }
    {
        name == self.name.as_str() && is_same(value, lent(&self.value))
    }
}

// Whether two of these have the same name and the same value.
fn has_repeat(alloc: Global, facts: &[Fact]) -> Result<bool, AllocError>
    ensures { IfOk result (λ repeated. repeated ≡ has_repeat facts.now) }
{
    let mut keys = BTreeSet::new(alloc);
    for fact in facts {
        let key = (fact.name.as_str(), lent(&fact.value));
        if !keys.insert(key)? {
            return Ok(true);
        }
    }
    Ok(false)
}

impl PlatformFacts {
    /// The platform of that triple, on which these facts are known. Refused where two facts have
    /// the same name and the same value, with the same answer too. Or there was no memory, which
    /// says nothing of the facts.
    pub fn new(
        alloc: Global,
        triple: Text,
        facts: Listing<Fact>,
    ) -> Result<PlatformFacts, PlatformFactsError>
        ensures { MakesFacts triple facts result }
    {
        if has_repeat(alloc, facts.as_slice())? {
            return Err(PlatformFactsError::RepeatedFact);
        }
        Ok(PlatformFacts {
            triple,
            known: facts,
        })
    }

    /// The triple, lent.
    pub fn triple(&self) -> &str
        ensures { result.now ≡ self.now.triple }
    {
        self.triple.as_str()
    }

    /// Whether the fact of that name and that value holds; `None` where it isn't known.
    pub(crate) fn answer(&self, name: &str, value: Option<&str>) -> Option<bool>
        ensures { result ≡ answer_of self.now.known name.now (option_copied value.entry) }
    {
        for fact in self.known.as_slice() {
            if fact.is_of(name, value) {
                return Some(fact.holds);
            }
        }
        None
    }
}
