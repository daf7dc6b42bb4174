// In which order tests run.
ghost use Rattle.std.specs.Prelude.{◌≡◌, Some};
ghost use Rattle.std.specs.Cmp.{back_po, int_eq_equiv, partial_equiv_from_equiv, signed_po};
ghost use Rattle.std.specs.Ordering.{int_cmp, int_eq};
ghost use Rattle.nextest_config_elements_values.specs.Priority.{IsPriority, priority_of};

use std::cmp::Ordering;
use std::hash::{Hash, Hasher};
use std::marker::Model;
use thiserror::Error;

/// The number is no priority.
#[derive(Clone, Copy, Debug, PartialEq, Eq, Error)]
#[error("priority {priority} is out of range: it must be from -100 to 100")]
pub struct TestPriorityOutOfRange {
    /// The number.
    pub priority: i8,
}

/// The priority of a test, from -100 to 100: tests of greater priorities come first, in their order
/// too. In a clause it is its number.
#[derive(Clone, Copy, Debug)]
pub struct TestPriority {
    number: i8,
}

impl Model for TestPriority {
    ghost use Rattle.std.specs.Prelude.{ℤ};
    ghost use Rattle.nextest_config_elements_values.specs.Priority.{IsPriority};

    ghost Value = { ℤ };

    ghost view = { λ it. it.number };

    ghost invariant = { λ it. IsPriority it.number };

    ghost inverse = { λ number. record { number = number } };
}

impl TestPriority {
    /// The priority of this number. An `Err` says that it is below -100 or above 100.
    pub fn new(number: i8) -> Result<TestPriority, TestPriorityOutOfRange>
        ensures { result ≡ priority_of number }
    {
        if -100 <= number && number <= 100 {
            Ok(TestPriority { number })
        } else {
            Err(TestPriorityOutOfRange { priority: number })
        }
    }

    /// Its number, from -100 to 100.
    pub fn to_i8(self) -> i8
        ensures value { result ≡ self }
        ensures bounded { IsPriority result }
    {
        self.number
    }
}

impl Default for TestPriority {
    ghost use Rattle.std.specs.Prelude.{◌≡◌, pos};

    ghost is_default = { λ priority. priority ≡ pos 0 };

    /// The priority 0.
    fn default() -> TestPriority {
        TestPriority { number: 0 }
    }
}

impl PartialEq for TestPriority {
    ghost eq = { int_eq };

    ghost laws = { partial_equiv_from_equiv int_eq_equiv };

    fn eq(&self, other: &TestPriority) -> bool {
        self.number == other.number
    }
}

impl Eq for TestPriority {
    ghost laws = { int_eq_equiv };
}

impl PartialOrd for TestPriority {
    ghost partial_cmp = { λ x y. Some (int_cmp y x) };

    ghost laws = { back_po (partial_equiv_from_equiv int_eq_equiv) signed_po };

    fn partial_cmp(&self, other: &TestPriority) -> Option<Ordering> {
        Some(self.cmp(other))
    }
}

impl Ord for TestPriority {
    ghost use Rattle.std.specs.Prelude.{refl};
    ghost use Rattle.std.specs.Cmp.{back_total, int_cmp_total};
    ghost use Rattle.std.specs.Ordering.{flip_args, int_cmp};
    ghost use Rattle.std.proofs.Common.{rules};

    ghost cmp = { flip_args int_cmp };

    ghost total = { back_total int_cmp_total };

    ghost matches_partial_cmp = { λ x y. refl };

    ghost matches_eq = { Prim.search rules };

    fn cmp(&self, other: &TestPriority) -> Ordering {
        other.number.cmp(&self.number)
    }
}

impl Hash for TestPriority {
    ghost use Rattle.std.specs.Hash as fed;
    ghost use Rattle.std.specs.Cmp.Rules.{hashing};
    ghost use Rattle.std.proofs.Common.{rules};

    ghost hash_input = { fed.i8 };

    ghost respects_eq = { Prim.search (hashing, rules) };

    fn hash<H: Hasher>(&self, state: &mut H) {
        self.number.hash(state);
    }
}
