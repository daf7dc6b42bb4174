// The names of tools.
ghost use Rattle.std.specs.Prelude.{◌≡◌, nat_eq, Some, IfOk, refl, chars};
ghost use Rattle.std.specs.Cmp.{partial_equiv_from_equiv};
ghost use Rattle.std.specs.Cmp.Lexicographic.{pointwise, slice_cmp, nat_list_eq_equiv, nat_list_cmp_total, texts_ties, texts_po};
ghost use Rattle.std.specs.Hash as fed;
ghost use Rattle.std.specs.Ordering.{nat_cmp};
ghost use Rattle.unicode_normalization.specs.Forms.{nfc};
ghost use Rattle.nextest_config_elements_identifiers.specs.Identifier.{nfc_of, IsToolName, ReadsToolName};

use crate::invalid_identifier::InvalidIdentifier;
use crate::plain::is_plain;
use nextest_text::Text;
use std::alloc::{AllocError, Global};
use std::cmp::Ordering;
use std::fmt;
use std::hash::{Hash, Hasher};
use std::marker::Model;
use unicode_normalization::to_nfc;

/// The name of a tool: a plain identifier in its NFC. In a clause it is the list of its bytes.
#[derive(Drop)]
pub struct ToolName {
    name: Text,
}

impl Model for ToolName {
    ghost use Rattle.std.specs.Prelude.{List, ℕ};
    ghost use Rattle.nextest_config_elements_identifiers.specs.Identifier.{IsToolName};

    ghost Value = { List ℕ };

    ghost view = { λ it. it.name };

    ghost invariant = { λ it. IsToolName it.name };
}

impl ToolName {
    /// The name that `text` is in its NFC. An `Err` says that it is empty, or that it isn't a plain
    /// identifier, with its NFC, or that there was no memory, which says nothing of the text.
    #[tactic(auto, using(crate::proofs::Names::readings))]
    pub fn new(alloc: Global, text: &str) -> Result<ToolName, InvalidIdentifier>
        ensures exact { ReadsToolName text.now result }
    {
        let name = composed(alloc, text)?;
        if name.is_empty() {
            return Err(InvalidIdentifier::Empty);
        }
        if is_plain(name.as_str()) {
            Ok(ToolName { name })
        } else {
            Err(InvalidIdentifier::InvalidXid(name))
        }
    }

    /// The name, lent.
    pub fn as_str(&self) -> &str
        ensures value { result.now ≡ self.now }
        ensures named { IsToolName result.now }
    {
        self.name.as_str()
    }
}

// The NFC of a text.
pub(crate) fn composed(alloc: Global, text: &str) -> Result<Text, AllocError>
    ensures text { IfOk result (λ name. name ≡ nfc_of text.now) }
    ensures characters { IfOk result (λ name. chars name ≡ nfc (chars text.now)) }
{
    let string = to_nfc(alloc, text)?;
    Ok(Text::from(string))
}

impl Clone for ToolName {
    ghost is_clone = { λ original copy. copy ≡ original };

    fn clone(&self) -> Result<ToolName, AllocError> {
        Ok(ToolName {
            name: self.name.clone()?,
        })
    }
}

impl PartialEq for ToolName {
    ghost eq = { pointwise nat_eq };

    ghost laws = { partial_equiv_from_equiv nat_list_eq_equiv };

    fn eq(&self, other: &ToolName) -> bool {
        self.name == other.name
    }
}

impl Eq for ToolName {
    ghost laws = { nat_list_eq_equiv };
}

impl PartialOrd for ToolName {
    ghost partial_cmp = { λ x y. Some (slice_cmp nat_cmp x y) };

    ghost laws = { texts_po };

    fn partial_cmp(&self, other: &ToolName) -> Option<Ordering> {
        Some(self.cmp(other))
    }
}

impl Ord for ToolName {
    ghost cmp = { slice_cmp nat_cmp };

    ghost total = { nat_list_cmp_total };

    ghost matches_partial_cmp = { λ x y. refl };

    ghost matches_eq = { texts_ties };

    fn cmp(&self, other: &ToolName) -> Ordering {
        self.name.cmp(&other.name)
    }
}

impl Hash for ToolName {
    ghost use Rattle.std.specs.Cmp.Rules.{hashing};
    ghost use Rattle.std.proofs.Common.{rules};

    ghost hash_input = { fed.str };

    ghost respects_eq = { Prim.search (hashing, rules) };

    fn hash<H: Hasher>(&self, state: &mut H) {
        self.name.hash(state);
    }
}

impl fmt::Display for ToolName {
    ghost output = { Some };

    fn fmt<W: fmt::Write>(&self, f: &mut fmt::Formatter<W>) -> fmt::Result {
        fmt::Display::fmt(&self.name, f)
    }
}

impl fmt::Debug for ToolName {
    fn fmt<W: fmt::Write>(&self, f: &mut fmt::Formatter<W>) -> fmt::Result {
        fmt::Debug::fmt(&self.name, f)
    }
}
