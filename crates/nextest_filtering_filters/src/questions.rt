// A formula, asked question by question: just those whose answers matter.
ghost use Rattle.std.specs.Prelude.{◌≡◌, ◌↔◌, ℕ, Bool, List, All, IfOk, IfSome, IsTrue, Some, length, reverse};
ghost use Rattle.nextest_filtering_filters.specs.Formula.{Formula as FormulaOf};
ghost use Rattle.nextest_filtering_filters.specs.Making as making;
ghost use Rattle.nextest_filtering_filters.specs.Questions as words;
ghost use Rattle.nextest_filtering_filters.specs.Steps.{after_step, formula_of};
ghost use Rattle.nextest_filtering_filters.specs.Values.{IsSome, may_by, values_at};

use crate::formula::{Formula, values_of};
use crate::step::FormulaStep;
use crate::values::Values;
use std::alloc::{AllocError, Global};

// What is left of a formula behind an answer.
#[derive(Clone, Copy)]
pub(crate) enum Next {
    // It is so, or isn't.
    Value(bool),
    // The question at this place.
    Question(usize),
}

// Where a part of a formula leads.
#[derive(Clone, Copy)]
pub(crate) struct Exits {
    pub(crate) if_true: Next,
    pub(crate) if_false: Next,
}

impl Exits {
    // Where an answer leads.
    pub(crate) fn of(&self, answer: bool) -> Next
        ensures { result ≡ words.exit_of self.now answer }
    {
        if answer { self.if_true } else { self.if_false }
    }
}

// A question for a leaf, by its number. Its answers lead to values and to questions before it.
#[derive(Clone, Copy)]
pub(crate) struct Question {
    pub(crate) leaf: usize,
    pub(crate) exits: Exits,
}

// Where a part of a formula leads that is still to be asked.
#[derive(Clone, Copy)]
pub(crate) enum Pending {
    // There.
    Exits(Exits),
    // Where it is so, to what was made last; else there.
    Both(Next),
    // Where it is so, there; else to what was made last.
    Either(Next),
}

// A formula, asked question by question.
#[derive(Drop)]
pub(crate) struct Questions {
    pub(crate) list: Vec<Question>,
    // What is asked first.
    pub(crate) first: Next,
}

// A question whose answer alone decides what a formula comes to.
#[derive(Clone, Copy)]
pub(crate) struct Decision {
    pub(crate) leaf: usize,
    if_true: bool,
    if_false: bool,
}

impl Decision {
    // What the formula comes to by an answer.
    pub(crate) fn of(&self, answer: bool) -> bool
        ensures { result ≡ words.decided self.now answer }
    {
        if answer { self.if_true } else { self.if_false }
    }
}

impl Questions {
    // The first question, where no other follows it.
    pub(crate) fn decision(&self) -> Option<Decision>
        ensures { IfSome result (λ it. (answer : ℕ → Bool)
            → words.comes_to answer self.now ≡ words.decided it (answer it.leaf)) }
    {
        let Next::Question(place) = self.first else {
            return None;
        };
        let question = self.list.as_slice().get(place)?;
        match (question.exits.if_true, question.exits.if_false) {
            (Next::Value(if_true), Next::Value(if_false)) => Some(Decision {
                leaf: question.leaf,
                if_true,
                if_false,
            }),
            _ => None,
        }
    }
}

// Whether both lead to the same.
fn are_one(one: Next, other: Next) -> bool
    ensures { IsTrue result ↔ (one ≡ other) }
{
    match (one, other) {
        (Next::Value(value), Next::Value(beside)) => value == beside,
        (Next::Question(place), Next::Question(beside)) => place == beside,
        _ => false,
    }
}

// Where the last part that is pending leads, where this was made last.
fn exits_of(pending: Option<Pending>, last: Next) -> Exits
    ensures { result ≡ making.exits_of last pending }
{
    match pending {
        Some(Pending::Exits(exits)) => exits,
        Some(Pending::Both(if_false)) => Exits {
            if_true: last,
            if_false,
        },
        Some(Pending::Either(if_true)) => Exits {
            if_true,
            if_false: last,
        },
        None => Exits {
            if_true: last,
            if_false: last,
        },
    }
}

// What is left where a leaf of these values leads there: a new question, if its answer matters and
// isn't known.
fn next_of(
    leaf: usize,
    values: Values,
    exits: Exits,
    list: &mut Vec<Question>,
) -> Result<Next, AllocError>
    requires { making.AreWithin (length list.old.items) exits }
    ensures next { IfOk result (λ made. (answer : ℕ → Bool)
        → may_by (λ _. values) leaf (answer leaf)
        → words.at_next (words.outcomes answer list.new.items) made
        ≡ words.at_exits (words.outcomes answer list.old.items) exits (answer leaf)) }
    ensures within { IfOk result (making.IsWithin (length list.new.items)) }
    ensures kept { IfOk result (λ _. making.Keeps list.old.items list.new.items) }
{
    match values.one() {
        Some(value) => Ok(exits.of(value)),
        None if are_one(exits.if_true, exits.if_false) => Ok(exits.if_true),
        None => {
            let place = list.len();
            list.push(Question { leaf, exits })?;
            Ok(Next::Question(place))
        }
    }
}

// Goes back over a step.
fn step_back(
    step: FormulaStep,
    leaves: &[Values],
    last: Next,
    pending: &mut Vec<Pending>,
    list: &mut Vec<Question>,
) -> Result<Next, AllocError>
    requires some { All IsSome leaves.now }
    requires last { making.IsWithin (length list.old.items) last }
    requires pending { All (making.IsPendingWithin (length list.old.items)) pending.old.items }
    ensures reach { IfOk result (λ made. (answer : ℕ → Bool)
        → ((number : ℕ) → may_by (values_at leaves.now) number (answer number))
        → (formulas next : List (FormulaOf ℕ)) → after_step step formulas ≡ Some next
        → let before = words.outcomes answer list.old.items in
        let after = words.outcomes answer list.new.items in
        making.reach answer after (reverse pending.new.items) (words.at_next after made) formulas
        ≡ making.reach answer before (reverse pending.old.items) (words.at_next before last) next) }
    ensures last { IfOk result (making.IsWithin (length list.new.items)) }
    ensures pending { IfOk result
        (λ _. All (making.IsPendingWithin (length list.new.items)) pending.new.items) }
{
    let exits = exits_of(pending.pop(), last);
    match step {
        FormulaStep::Leaf(leaf) => next_of(leaf, values_of(leaves, leaf), exits, list),
        FormulaStep::Not => {
            pending.push(Pending::Exits(Exits {
                if_true: exits.if_false,
                if_false: exits.if_true,
            }))?;
            Ok(last)
        }
        FormulaStep::Both => {
            pending.push(Pending::Both(exits.if_false))?;
            pending.push(Pending::Exits(exits))?;
            Ok(last)
        }
        FormulaStep::Either => {
            pending.push(Pending::Either(exits.if_true))?;
            pending.push(Pending::Exits(exits))?;
            Ok(last)
        }
    }
}

impl Formula {
    // The formula, to be asked question by question. `leaves` are the values that its leaves may
    // have, in the order of their numbers: what they tell isn't asked.
    pub(crate) fn questions(
        &self,
        alloc: Global,
        leaves: &[Values],
    ) -> Result<Questions, AllocError>
        requires some { All IsSome leaves.now }
        ensures { IfOk result (λ it. (answer : ℕ → Bool)
            → ((number : ℕ) → may_by (values_at leaves.now) number (answer number))
            → words.comes_to answer it ≡ words.holds_by answer (formula_of self.now)) }
    {
        let mut list = Vec::new(alloc);
        let mut pending = Vec::new(alloc);
        pending.push(Pending::Exits(Exits {
            if_true: Next::Value(true),
            if_false: Next::Value(false),
        }))?;
        let mut first = Next::Value(false);
        let mut left = self.steps.as_slice();
        while let Some((step, front)) = left.split_last() {
            first = step_back(*step, leaves, first, &mut pending, &mut list)?;
            left = front;
        }
        Ok(Questions { list, first })
    }
}
