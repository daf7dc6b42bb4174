// How much a failing test weighs.
ghost use Rattle.std.specs.Prelude.{◌≡◌};
ghost use Rattle.std.specs.Cmp.{partial_equiv_from_equiv};
ghost use Rattle.nextest_config_elements_choices.specs.FailWeight.{IsFailWeight, fail_weight_of};

use std::marker::Model;
use thiserror::Error;

/// The number is no fail weight.
#[derive(Clone, Copy, Debug, PartialEq, Eq, Error)]
#[error("fail weight {number} is out of range: it must be from 1 to 100")]
pub struct FailWeightOutOfRange {
    /// The number.
    pub number: u8,
}

/// How much a test weighs that fails, from 1 to 100: a run stops once its failing tests weigh as
/// much as its limit. In a clause it is its number.
#[derive(Clone, Copy, Debug)]
pub struct FailWeight {
    number: u8,
}

impl Model for FailWeight {
    ghost use Rattle.std.specs.Prelude.{ℕ};
    ghost use Rattle.nextest_config_elements_choices.specs.FailWeight.{IsFailWeight};

    ghost Value = { ℕ };

    ghost view = { λ it. it.number };

    ghost invariant = { λ it. IsFailWeight it.number };

    ghost inverse = { λ number. record { number = number } };
}

impl FailWeight {
    /// The weight of this number. An `Err` says that it is 0 or above 100.
    pub fn new(number: u8) -> Result<FailWeight, FailWeightOutOfRange>
        ensures { result ≡ fail_weight_of number }
    {
        if 0 < number && number <= 100 {
            Ok(FailWeight { number })
        } else {
            Err(FailWeightOutOfRange { number })
        }
    }

    /// Its number, from 1 to 100.
    pub fn get(self) -> u8
        ensures value { result ≡ self }
        ensures bounded { IsFailWeight result }
    {
        self.number
    }
}

impl Default for FailWeight {
    ghost use Rattle.std.specs.Prelude.{◌≡◌};

    ghost is_default = { λ weight. weight ≡ 1 };

    /// The weight 1.
    fn default() -> FailWeight {
        FailWeight { number: 1 }
    }
}

impl PartialEq for FailWeight {
    ghost use Rattle.std.specs.Prelude.{nat_eq};
    ghost use Rattle.std.specs.Cmp.{nat_eq_equiv};

    ghost eq = { nat_eq };

    ghost laws = { partial_equiv_from_equiv nat_eq_equiv };

    fn eq(&self, other: &FailWeight) -> bool {
        self.number == other.number
    }
}

impl Eq for FailWeight {
    ghost use Rattle.std.specs.Cmp.{nat_eq_equiv};

    ghost laws = { nat_eq_equiv };
}
