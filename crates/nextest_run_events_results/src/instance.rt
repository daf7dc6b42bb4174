// Which test of which binary.
ghost use Rattle.std.specs.Prelude.{◌≡◌, IfOk};

use crate::binary_id::RustBinaryId;
use nextest_text::Text;
use std::alloc::{AllocError, Global};

/// Which test of which binary, lent.
#[derive(Clone, Copy, Debug, PartialEq, Eq, PartialOrd, Ord, Hash)]
pub struct TestInstanceId<'a> {
    /// The binary's id.
    pub binary_id: &'a str,
    /// The test's name.
    pub test_name: &'a str,
}

/// Which test of which binary. They rise by the binary's id, and then by the test's name, each by
/// its bytes.
#[derive(Clone, Debug, PartialEq, Eq, PartialOrd, Ord, Hash, Drop)]
pub struct OwnedTestInstanceId {
    /// The binary's id.
    pub binary_id: RustBinaryId,
    /// The test's name.
    pub test_name: Text,
}

impl OwnedTestInstanceId {
    /// The same, lent.
    pub fn as_ref(&self) -> TestInstanceId<'_>
        ensures binary_id { result.binary_id.now ≡ self.now.binary_id }
        ensures test_name { result.test_name.now ≡ self.now.test_name }
    {
        TestInstanceId {
            binary_id: self.binary_id.as_str(),
            test_name: self.test_name.as_str(),
        }
    }
}

impl TestInstanceId<'_> {
    /// The same, owned.
    pub fn to_owned(&self, alloc: Global) -> Result<OwnedTestInstanceId, AllocError>
        ensures binary_id { IfOk result (λ owned. owned.binary_id ≡ self.now.binary_id.now) }
        ensures test_name { IfOk result (λ owned. owned.test_name ≡ self.now.test_name.now) }
    {
        Ok(OwnedTestInstanceId {
            binary_id: RustBinaryId::new(alloc, self.binary_id)?,
            test_name: Text::from_str(alloc, self.test_name)?,
        })
    }
}
