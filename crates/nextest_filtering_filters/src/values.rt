// Which values a formula can take.
ghost use Rattle.std.specs.Prelude.{◌≡◌};
ghost use Rattle.nextest_filtering_filters.specs.Values.{both_values, either_values, negated_values, one_value};

/// Whether something can be true, and whether it can be false.
#[derive(Clone, Copy, Debug, PartialEq, Eq)]
pub struct Values {
    /// It can be true.
    pub may_hold: bool,
    /// It can be false.
    pub may_fail: bool,
}

impl Values {
    /// The values of what is so just where this isn't.
    pub fn negated(self) -> Values
        ensures { result ≡ negated_values self }
    {
        Values {
            may_hold: self.may_fail,
            may_fail: self.may_hold,
        }
    }

    /// The values of what is so where one of two is, or both.
    pub fn either(self, right: Values) -> Values
        ensures { result ≡ either_values self right }
    {
        Values {
            may_hold: self.may_hold || right.may_hold,
            may_fail: self.may_fail && right.may_fail,
        }
    }

    /// The values of what is so where both of two are.
    pub fn both(self, right: Values) -> Values
        ensures { result ≡ both_values self right }
    {
        Values {
            may_hold: self.may_hold && right.may_hold,
            may_fail: self.may_fail || right.may_fail,
        }
    }

    /// The one value that can be; `None` where both can.
    pub fn one(self) -> Option<bool>
        ensures { result ≡ one_value self }
    {
        if self.may_hold && self.may_fail {
            None
        } else {
            Some(self.may_hold)
        }
    }
}
