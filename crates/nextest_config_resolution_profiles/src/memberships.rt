// The groups of tests, found before they are asked for.
ghost use Rattle.std.specs.Prelude.{◌≡◌, IfOk, OnOk, codes, if◌then◌else◌, map, unwrap_or};
ghost use Rattle.std.specs.BTreeMap.{get};
ghost use Rattle.nextest_config_elements_identifiers.specs.Groups.{text_of};
ghost use Rattle.nextest_config_resolution_profiles.specs.Memberships as words;
ghost use Rattle.nextest_config_resolution_settings.specs.TestSettings.{group_of};
ghost use Rattle.nextest_filtering_filters.specs.Query.{Test, test_of};

use crate::evaluatable_profile::EvaluatableProfile;
use nextest_config_resolution_filters::{Filters, Specs};
use nextest_config_resolution_settings::TestGroupRef;
use nextest_filtering_ast::NameMatcher;
use nextest_filtering_filters::{GroupLookup, TestQuery};
use nextest_text::Text;
use std::alloc::{AllocError, Global};
use std::collections::BTreeMap;
use std::rc::Rc;

/// The groups of tests, found before they are asked for. Tests are told apart by the id of their
/// binary and their name; those that weren't handed in are in the global group.
pub struct PrecomputedGroupMembership {
    alloc: Global,
    // Copies share them; `None` is as good as an empty map.
    groups: Option<Rc<BTreeMap<(Text, Text), Text>>>,
}

// One call drops it, whoever holds it.
impl Drop for PrecomputedGroupMembership {
    fn drop(self) {
        let Self {
            alloc: _,
            groups: _,
        } = self;
    }
}

impl Clone for PrecomputedGroupMembership {
    ghost use Rattle.nextest_config_resolution_profiles.specs.Memberships.{group_name};
    ghost use Rattle.nextest_filtering_filters.specs.Query.{Test};
    ghost use Rattle.std.specs.Prelude.{◌≡◌};

    ghost is_clone = { λ original copy.
        (test : Test) → group_name copy test ≡ group_name original test };

    // The groups are shared.
    fn clone(&self) -> Result<PrecomputedGroupMembership, AllocError> {
        Ok(PrecomputedGroupMembership {
            alloc: self.alloc,
            groups: self.groups.clone()?,
        })
    }
}

impl PrecomputedGroupMembership {
    /// Groups of no tests: each test is in the global one.
    pub fn empty(alloc: Global) -> PrecomputedGroupMembership
        ensures { (test : Test) → words.group_name result test ≡ codes "@global" }
    {
        PrecomputedGroupMembership {
            alloc,
            groups: None,
        }
    }
}

impl GroupLookup for PrecomputedGroupMembership {
    ghost use Rattle.nextest_config_resolution_profiles.specs.Memberships.{group_name};
    ghost use Rattle.nextest_filtering_ast.specs.Meaning.{MatchesName};

    ghost member = { λ groups test matcher. MatchesName matcher (group_name groups test) };

    fn is_member_test(
        &self,
        test: &TestQuery<'_>,
        matcher: &NameMatcher,
    ) -> Result<bool, AllocError> {
        match &self.groups {
            Some(groups) => {
                let key = key_of(self.alloc, test)?;
                matcher.is_match(self.alloc, name_at(groups, &key))
            }
            None => matcher.is_match(self.alloc, "@global"),
        }
    }
}

// The name of the group that stands under a key, else that of the global one.
fn name_at<'g>(groups: &'g BTreeMap<(Text, Text), Text>, key: &(Text, Text)) -> &'g str
    ensures { result.now ≡ unwrap_or (get words.key_cmp groups.now key.now) (codes "@global") }
{
    match groups.get(key) {
        Some(name) => name.as_str(),
        None => "@global",
    }
}

// Keeps the group of a test, in place of what is kept of the test.
fn keep(
    alloc: Global,
    groups: &mut BTreeMap<(Text, Text), Text>,
    query: &TestQuery<'_>,
    group: TestGroupRef<'_>,
) -> Result<(), AllocError>
    ensures { OnOk result ((test : Test) → words.name_in groups.new test
        ≡ (if words.have_one_name (test_of query.now) test
        then text_of (group_of group.entry) else words.name_in groups.old test)) }
{
    let key = key_of(alloc, query)?;
    let name = Text::from_str(alloc, group.as_str())?;
    groups.insert(key, name)?;
    Ok(())
}

// The id of a test's binary, and its own name.
fn key_of(alloc: Global, query: &TestQuery<'_>) -> Result<(Text, Text), AllocError>
    ensures { IfOk result (λ key. key ≡ words.key_of (test_of query.now)) }
{
    let binary_id = Text::from_str(alloc, query.binary_query.binary_id)?;
    Ok((binary_id, Text::from_str(alloc, query.test_name)?))
}

impl<'c, F: Filters, S: Specs> EvaluatableProfile<'c, F, S> {
    /// The groups of these tests, found now: each that of the nearest rule that holds on the test
    /// and sets one, else the global one. Of several tests with one name one of them counts.
    ///
    /// # Errors
    ///
    /// It fails only on allocation.
    pub fn precompute_group_memberships(
        &self,
        alloc: Global,
        tests: &[TestQuery<'_>],
    ) -> Result<PrecomputedGroupMembership, AllocError>
        ensures { IfOk result (words.ArePrecomputed F.on_test self.now (map test_of tests.now)) }
    {
        let mut found = BTreeMap::new(alloc);
        for test in tests {
            let group = self.group_for(alloc, test)?;
            keep(alloc, &mut found, test, group)?;
        }
        Ok(PrecomputedGroupMembership {
            alloc,
            groups: Some(Rc::new(alloc, found)?),
        })
    }
}
