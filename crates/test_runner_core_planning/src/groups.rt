// The groups of tests, by the settings that a profile has for them.
use nextest_config_resolution_profiles::EvaluatableProfile;
use nextest_filtering_ast::NameMatcher;
use nextest_filtering_compiling::Filterset;
use nextest_filtering_filters::{GroupLookup, TestQuery};
use std::alloc::{AllocError, Global};
use test_runner_core_platforms::PlatformSpec;

// Says of each test the group that a profile has for it, where it is asked.
pub(crate) struct ProfileGroups<'p, 'c> {
    pub(crate) alloc: Global,
    pub(crate) profile: &'p EvaluatableProfile<'c, Filterset, PlatformSpec>,
}

impl<'p, 'c> Drop for ProfileGroups<'p, 'c> {
    fn drop(self) {
        let Self {
            alloc: _,
            profile: _,
        } = self;
    }
}

impl<'p, 'c> GroupLookup for ProfileGroups<'p, 'c> {
    ghost use Rattle.test_runner_core_planning.specs.Inside.{IsInGroup};

    ghost member = { λ groups. IsInGroup groups.profile.now };

    fn is_member_test(
        &self,
        test: &TestQuery<'_>,
        matcher: &NameMatcher,
    ) -> Result<bool, AllocError> {
        match self.profile.group_for(self.alloc, test) {
            Ok(group) => matcher.is_match(self.alloc, group.as_str()),
            Err(error) => Err(error),
        }
    }
}
