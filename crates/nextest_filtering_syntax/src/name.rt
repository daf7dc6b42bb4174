// The names of predicates.
ghost use Rattle.std.specs.Prelude.{◌≡◌, ◌++◌, ℕ, List, false, IfSome, IfNone};
ghost use Rattle.nextest_filtering_arguments.specs.declared.subject.Subject.{Subject};
ghost use Rattle.nextest_filtering_syntax.specs.declared.name.Name.{Name};
ghost use Rattle.nextest_filtering_syntax.specs.declared.name.Name.TheVariants.{About};
ghost use Rattle.nextest_filtering_syntax.specs.Names.{goes_on, ReadsName};

use nextest_filtering_arguments::{Subject, behind};

/// The name of a predicate.
#[derive(Clone, Copy)]
pub(crate) enum Name {
    /// Of one with a matcher.
    About(Subject),
    /// `platform`
    Platform,
    /// `default`
    Default,
    /// `all`
    All,
    /// `none`
    None,
}

// Whether a name may go on with `text`.
fn goes_on(text: &str) -> bool
    ensures { result ≡ goes_on text.now }
{
    match text.as_bytes().first() {
        Some(byte) => matches!(*byte, b'a'..=b'z' | b'A'..=b'Z' | b'0'..=b'9' | b'_'),
        None => false,
    }
}

// What follows the word, where it is the whole name.
fn behind_name<'i>(text: &'i str, word: &str) -> Option<&'i str>
    ensures some { IfSome result
        (λ rest. (text.now ≡ word.now ++ rest.now) × (goes_on rest.now ≡ false)) }
    ensures none { IfNone result
        ((rest : List ℕ) → text.now ≡ word.now ++ rest → goes_on rest ≡ false → ⊥) }
{
    let rest = behind(text, word)?;
    if goes_on(rest) { None } else { Some(rest) }
}

// The name of a predicate with a matcher, and what follows it.
fn subject_name(text: &str) -> Option<(Subject, &str)>
    ensures some { IfSome result (λ it. ReadsName (About it.0) text.now it.1.now) }
    ensures none { IfNone result
        ((subject : Subject) (rest : List ℕ) → ReadsName (About subject) text.now rest → ⊥) }
{
    if let Some(rest) = behind_name(text, "package") {
        return Some((Subject::Package, rest));
    }
    if let Some(rest) = behind_name(text, "deps") {
        return Some((Subject::Deps, rest));
    }
    if let Some(rest) = behind_name(text, "rdeps") {
        return Some((Subject::Rdeps, rest));
    }
    if let Some(rest) = behind_name(text, "kind") {
        return Some((Subject::Kind, rest));
    }
    if let Some(rest) = behind_name(text, "binary") {
        return Some((Subject::Binary, rest));
    }
    if let Some(rest) = behind_name(text, "binary_id") {
        return Some((Subject::BinaryId, rest));
    }
    if let Some(rest) = behind_name(text, "test") {
        return Some((Subject::Test, rest));
    }
    match behind_name(text, "group") {
        Some(rest) => Some((Subject::Group, rest)),
        None => None,
    }
}

/// The name of a predicate that comes next, and what follows it.
pub(crate) fn predicate_name(text: &str) -> Option<(Name, &str)>
    ensures some { IfSome result (λ it. ReadsName it.0 text.now it.1.now) }
    ensures none { IfNone result
        ((name : Name) (rest : List ℕ) → ReadsName name text.now rest → ⊥) }
{
    if let Some((subject, rest)) = subject_name(text) {
        return Some((Name::About(subject), rest));
    }
    if let Some(rest) = behind_name(text, "platform") {
        return Some((Name::Platform, rest));
    }
    if let Some(rest) = behind_name(text, "default") {
        return Some((Name::Default, rest));
    }
    if let Some(rest) = behind_name(text, "all") {
        return Some((Name::All, rest));
    }
    match behind_name(text, "none") {
        Some(rest) => Some((Name::None, rest)),
        None => None,
    }
}
