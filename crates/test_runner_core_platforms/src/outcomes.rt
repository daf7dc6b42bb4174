// What a condition comes to, by what a part of it comes to.
ghost use Rattle.std.specs.Prelude.{◌≡◌, Bool, Option, option_map, not};
ghost use Rattle.test_runner_core_platforms.specs.Joints.{join_by, none_by, outcome};
ghost use Rattle.test_runner_core_platforms.specs.Meaning.{both, either};

use crate::part::Joint;

// Whether both hold.
fn both(one: Option<bool>, other: Option<bool>) -> Option<bool>
    ensures { result ≡ both one other }
{
    match one {
        Some(true) => other,
        Some(false) => Some(false),
        None => match other {
            Some(false) => Some(false),
            Some(true) | None => None,
        },
    }
}

// Whether one of them holds.
fn either(one: Option<bool>, other: Option<bool>) -> Option<bool>
    ensures { result ≡ either one other }
{
    match one {
        Some(true) => Some(true),
        Some(false) => other,
        None => match other {
            Some(true) => Some(true),
            Some(false) | None => None,
        },
    }
}

impl Joint {
    /// What no conditions at all come to.
    pub(crate) fn of_none(self) -> Option<bool>
        ensures { result ≡ none_by self }
    {
        match self {
            Joint::All => Some(true),
            Joint::Any => Some(false),
        }
    }

    /// What two conditions come to.
    pub(crate) fn join(self, one: Option<bool>, other: Option<bool>) -> Option<bool>
        ensures { result ≡ join_by self one other }
    {
        match self {
            Joint::All => both(one, other),
            Joint::Any => either(one, other),
        }
    }
}

/// What a condition comes to, by what a part of it comes to.
#[derive(Clone, Copy)]
pub(crate) struct Outcomes {
    /// Where the part holds.
    holds: Option<bool>,
    /// Where it doesn't.
    fails: Option<bool>,
    /// Where the facts don't tell.
    unknown: Option<bool>,
}

impl Outcomes {
    /// Those of the part itself.
    pub(crate) fn of_itself() -> Outcomes
        ensures { (value : Option Bool) → outcome result value ≡ value }
    {
        Outcomes {
            holds: Some(true),
            fails: Some(false),
            unknown: None,
        }
    }

    /// Those of a part's negation.
    pub(crate) fn of_negation() -> Outcomes
        ensures { (value : Option Bool) → outcome result value ≡ option_map not value }
    {
        Outcomes {
            holds: Some(false),
            fails: Some(true),
            unknown: None,
        }
    }

    /// Those of a part joined with others, which come to this.
    pub(crate) fn of_joint(joint: Joint, others: Option<bool>) -> Outcomes
        ensures { (value : Option Bool) → outcome result value ≡ join_by joint others value }
    {
        Outcomes {
            holds: joint.join(others, Some(true)),
            fails: joint.join(others, Some(false)),
            unknown: joint.join(others, None),
        }
    }

    /// What the condition comes to, where the part comes to this.
    pub(crate) fn at(self, part: Option<bool>) -> Option<bool>
        ensures { result ≡ outcome self part }
    {
        match part {
            Some(true) => self.holds,
            Some(false) => self.fails,
            None => self.unknown,
        }
    }

    /// Those by a part of the part.
    pub(crate) fn through(self, inner: Outcomes) -> Outcomes
        ensures { (one : Option Bool) → outcome result one ≡ outcome self (outcome inner one) }
    {
        Outcomes {
            holds: self.at(inner.holds),
            fails: self.at(inner.fails),
            unknown: self.at(inner.unknown),
        }
    }
}
