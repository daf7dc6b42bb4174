// The parts of conditions.
ghost use Rattle.std.specs.Prelude.{◌≡◌, ◌<◌, [], ◌∷◌, ◌++◌, length};
ghost use Rattle.test_runner_core_platforms.specs.Flat.{inside_of, AreFlat, IsLastChild};

use nextest_text::Text;

/// How an operation joins conditions.
#[derive(Clone, Copy)]
pub(crate) enum Joint {
    /// All of them hold.
    All,
    /// Any of them holds.
    Any,
}

/// A part of a condition. The parts of a condition stand one after another, each operation right
/// behind what it is over, so that none holds another.
#[derive(Clone)]
pub(crate) enum Part {
    /// A name.
    Fact(Text),
    /// A name with a value.
    FactValue(Text, Text),
    /// `not(a)`, with how many parts `a` has.
    Not(usize),
    /// `all(a, b)` or `any(a, b)`, with how many parts `a` and `b` have.
    Joined(Joint, usize),
}

impl Drop for Part {
    fn drop(self) {
        match self {
            Part::Fact(_) | Part::FactValue(_, _) => {}
            Part::Not(_) | Part::Joined(_, _) => {}
        }
    }
}

impl Part {
    // How many parts before it belong to it.
    fn inside(&self) -> usize
        ensures { result ≡ inside_of self.now }
    {
        match self {
            Part::Fact(_) | Part::FactValue(_, _) => 0,
            Part::Not(inside) | Part::Joined(_, inside) => *inside,
        }
    }
}

/// The last part, and those before it.
pub(crate) fn split_last(parts: &[Part]) -> (&Part, &[Part])
    requires some { 0 < length parts.now }
    ensures { parts.now ≡ result.1.now ++ result.0.now ∷ [] }
{
    let last = parts.len() - 1;
    (&parts[last], &parts[..last])
}

/// The parts of conditions without those of the last one, and these.
pub(crate) fn split_child(parts: &[Part]) -> (&[Part], &[Part])
    requires some { 0 < length parts.now }
    requires flat { AreFlat parts.now }
    ensures { IsLastChild parts.now result.0.now result.1.now }
{
    let (last, before) = split_last(parts);
    parts.split_at(before.len() - last.inside())
}
