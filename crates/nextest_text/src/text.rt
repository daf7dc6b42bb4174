// Owned text, seen as the list of its bytes.
ghost use Rattle.std.specs.Prelude.{◌≡◌, nat_eq, [], Some, IfOk, length, string_bytes, refl};
ghost use Rattle.std.specs.Cmp.{partial_equiv_from_equiv};
ghost use Rattle.std.specs.Cmp.Lexicographic.{pointwise, slice_cmp, nat_list_eq_equiv, nat_list_cmp_total, texts_ties, texts_po};
ghost use Rattle.std.specs.Hash as fed;
ghost use Rattle.std.specs.Ordering.{nat_cmp};

use crate::part::Part;
use std::alloc::{AllocError, Global};
use std::cmp::Ordering;
use std::convert::AsStr;
use std::fmt;
use std::hash::{Hash, Hasher};
use std::marker::Model;

// Where a text stands.
#[derive(Clone, Drop)]
enum Source {
    // in memory of its own
    Own(String),
    // in memory that others share
    Shared(Part),
}

/// Owned text, UTF-8 as a `String`. It has memory of its own, or shares it with the `Texts` that it
/// was made of and with copies, which then take none. In a clause it is the list of its bytes.
pub struct Text {
    source: Source,
}

impl Model for Text {
    ghost use Rattle.std.specs.Prelude.{List, ℕ};
    ghost use Rattle.nextest_text.specs.Sources.{bytes_of};

    ghost Value = { List ℕ };

    ghost view = { λ text. bytes_of text.source };
}

// One call drops it, whoever holds it.
impl Drop for Text {
    fn drop(self) {
        let Self { source: _ } = self;
    }
}

impl Text {
    /// The empty text, which takes no memory.
    pub fn new(alloc: Global) -> Self
        ensures { result ≡ [] }
    {
        Text::from(String::new(alloc))
    }

    /// A copy of `text`. It fails only on allocation.
    pub fn from_str(alloc: Global, text: &str) -> Result<Self, AllocError>
        ensures { IfOk result (λ copy. copy ≡ text.now) }
    {
        Ok(Text::from(String::from_str(alloc, text)?))
    }

    // A part of a text whose memory others share.
    pub(crate) fn of_part(part: Part) -> Text
        ensures { result ≡ part }
    {
        Text {
            source: Source::Shared(part),
        }
    }

    /// The text, lent.
    pub fn as_str(&self) -> &str
        ensures { result.now ≡ self.now }
    {
        match &self.source {
            Source::Own(string) => string.as_str(),
            Source::Shared(part) => part.as_str(),
        }
    }

    /// How many bytes it has.
    pub fn len(&self) -> usize
        ensures { result ≡ length self.now }
    {
        self.as_str().len()
    }

    /// Whether it has none.
    pub fn is_empty(&self) -> bool
        ensures { result ≡ nat_eq (length self.now) 0 }
    {
        self.as_str().is_empty()
    }

    /// The text as a `String`; one that shares its memory is copied. It fails only on allocation.
    pub fn into_string(self, alloc: Global) -> Result<String, AllocError>
        ensures { IfOk result (λ string. string_bytes string ≡ self) }
    {
        let Self { source } = self;
        match source {
            Source::Own(string) => Ok(string),
            Source::Shared(part) => String::from_str(alloc, part.as_str()),
        }
    }
}

impl From<String> for Text {
    ghost from_gives = { λ string text. text ≡ string_bytes string };

    fn from(string: String) -> Text {
        Text {
            source: Source::Own(string),
        }
    }
}

impl AsStr for Text {
    ghost text = { λ text. text };

    fn as_str(&self) -> &str {
        Text::as_str(self)
    }
}

impl Clone for Text {
    ghost is_clone = { λ original copy. copy ≡ original };

    fn clone(&self) -> Result<Text, AllocError> {
        Ok(Text {
            source: self.source.clone()?,
        })
    }
}

impl PartialEq for Text {
    ghost eq = { pointwise nat_eq };

    ghost laws = { partial_equiv_from_equiv nat_list_eq_equiv };

    fn eq(&self, other: &Text) -> bool {
        self.as_str() == other.as_str()
    }
}

impl Eq for Text {
    ghost laws = { nat_list_eq_equiv };
}

impl PartialOrd for Text {
    ghost partial_cmp = { λ x y. Some (slice_cmp nat_cmp x y) };

    ghost laws = { texts_po };

    fn partial_cmp(&self, other: &Text) -> Option<Ordering> {
        Some(self.cmp(other))
    }
}

impl Ord for Text {
    ghost cmp = { slice_cmp nat_cmp };

    ghost total = { nat_list_cmp_total };

    ghost matches_partial_cmp = { λ x y. refl };

    ghost matches_eq = { texts_ties };

    fn cmp(&self, other: &Text) -> Ordering {
        self.as_str().cmp(other.as_str())
    }
}

impl Hash for Text {
    ghost use Rattle.std.specs.Cmp.Rules.{hashing};
    ghost use Rattle.std.proofs.Common.{rules};

    ghost hash_input = { fed.str };

    ghost respects_eq = { Prim.search (hashing, rules) };

    fn hash<H: Hasher>(&self, state: &mut H) {
        self.as_str().hash(state);
    }
}

impl fmt::Display for Text {
    ghost output = { Some };

    fn fmt<W: fmt::Write>(&self, f: &mut fmt::Formatter<W>) -> fmt::Result {
        f.pad(self.as_str())
    }
}

impl fmt::Debug for Text {
    fn fmt<W: fmt::Write>(&self, f: &mut fmt::Formatter<W>) -> fmt::Result {
        fmt::Debug::fmt(&self.as_str(), f)
    }
}
