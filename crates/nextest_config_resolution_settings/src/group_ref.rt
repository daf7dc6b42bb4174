// A test's group, lent.
ghost use Rattle.std.specs.Prelude.{◌≡◌};
ghost use Rattle.nextest_config_elements_identifiers.specs.Groups.{text_of};
ghost use Rattle.nextest_config_resolution_settings.specs.TestSettings.{group_of};

use crate::test_settings::TestGroupRef;
use nextest_config_elements_identifiers::TestGroup;

impl<'p> TestGroupRef<'p> {
    /// A group, lent.
    pub fn new(group: &'p TestGroup) -> TestGroupRef<'p>
        ensures { group_of result ≡ group.now }
    {
        match group {
            TestGroup::Global => TestGroupRef::Global,
            TestGroup::Custom(custom) => TestGroupRef::Custom(custom),
        }
    }

    /// The name of the group; `@global` of the global one.
    pub fn as_str(self) -> &'p str
        ensures { result.now ≡ text_of (group_of self.entry) }
    {
        match self {
            TestGroupRef::Global => "@global",
            TestGroupRef::Custom(custom) => custom.as_str(),
        }
    }
}
