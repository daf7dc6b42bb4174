// The identifiers of a configuration.
ghost use Rattle.std.specs.Prelude.{◌≡◌, nat_eq, Some, IfSome, is_some, refl};
ghost use Rattle.std.specs.Cmp.{partial_equiv_from_equiv};
ghost use Rattle.std.specs.Cmp.Lexicographic.{pointwise, slice_cmp, nat_list_eq_equiv, nat_list_cmp_total, texts_ties, texts_po};
ghost use Rattle.std.specs.Hash as fed;
ghost use Rattle.std.specs.Ordering.{nat_cmp};
ghost use Rattle.nextest_config_elements_identifiers.specs.Config.{Answers, IsIdentifier, identifier, identifier_of, is_tool, named_by};
ghost use Rattle.nextest_config_elements_identifiers.specs.Parts.{IsOfTool, behind, tool_parts};

use crate::invalid_identifier::InvalidIdentifier;
use crate::plain::is_plain;
use crate::tool_name::composed;
use crate::tool_parts::{is_tool, tool_parts};
use nextest_text::Text;
use std::alloc::{AllocError, Global};
use std::cmp::Ordering;
use std::fmt;
use std::hash::{Hash, Hasher};
use std::marker::Model;

/// An identifier of a configuration, in its NFC: a plain identifier, or `@tool:TOOL:OWN` with two
/// plain identifiers, the name of a tool and one that the tool defines. In a clause it is the list
/// of its bytes.
#[derive(Drop)]
pub struct ConfigIdentifier {
    name: Text,
}

impl Model for ConfigIdentifier {
    ghost use Rattle.std.specs.Prelude.{List, ℕ};
    ghost use Rattle.nextest_config_elements_identifiers.specs.Config.{IsIdentifier};

    ghost Value = { List ℕ };

    ghost view = { λ it. it.name };

    ghost invariant = { λ it. IsIdentifier it.name };
}

impl ConfigIdentifier {
    /// The identifier that `text` is in its NFC. An `Err` says that it is empty; that it begins
    /// with `@` and isn't `@tool:TOOL:OWN`, divided at the first `:` behind `@tool:`, or that one
    /// of the two names is empty, or no plain identifier; that it doesn't begin with `@` and isn't
    /// a plain identifier; or that there was no memory, which says nothing of the text.
    pub fn new(alloc: Global, text: &str) -> Result<ConfigIdentifier, InvalidIdentifier>
        ensures exact { Answers (identifier text.now) result }
    {
        let name = identified(composed(alloc, text)?)?;
        Ok(ConfigIdentifier { name })
    }

    /// Whether it is a tool's: it begins with `@`.
    pub fn is_tool_identifier(&self) -> bool
        ensures { result ≡ is_tool self.now }
    {
        is_tool(self.name.as_str())
    }

    /// The names of the tool and of what the tool defines, of `@tool:TOOL:OWN`; `None` of an
    /// identifier that doesn't begin with `@`.
    pub fn tool_components(&self) -> Option<(&str, &str)>
        ensures names { behind result ≡ tool_parts self.now }
        ensures tool { is_some result ≡ is_tool self.now }
        ensures form { IfSome result (λ names. IsOfTool self.now names.0.now names.1.now) }
    {
        tool_parts(self.name.as_str())
    }

    /// The identifier, lent.
    pub fn as_str(&self) -> &str
        ensures value { result.now ≡ self.now }
        ensures named { IsIdentifier result.now }
    {
        self.name.as_str()
    }
}

// A text that is an identifier as it stands; an `Err` says why it isn't.
fn identified(text: Text) -> Result<Text, InvalidIdentifier>
    ensures { result ≡ identifier_of text }
{
    if text.is_empty() {
        return Err(InvalidIdentifier::Empty);
    }
    if is_tool(text.as_str()) {
        return identified_of_tool(text);
    }
    if is_plain(text.as_str()) {
        Ok(text)
    } else {
        Err(InvalidIdentifier::InvalidXid(text))
    }
}

// A text that is an identifier of a tool as it stands; an `Err` says why it isn't.
fn identified_of_tool(text: Text) -> Result<Text, InvalidIdentifier>
    ensures { result ≡ named_by text (tool_parts text) }
{
    let Some((tool, own)) = tool_parts(text.as_str()) else {
        return Err(InvalidIdentifier::ToolIdentifierInvalidFormat(text));
    };
    if tool.is_empty() || own.is_empty() {
        return Err(InvalidIdentifier::ToolComponentEmpty(text));
    }
    if is_plain(tool) && is_plain(own) {
        Ok(text)
    } else {
        Err(InvalidIdentifier::ToolIdentifierInvalidXid(text))
    }
}

impl Clone for ConfigIdentifier {
    ghost is_clone = { λ original copy. copy ≡ original };

    fn clone(&self) -> Result<ConfigIdentifier, AllocError> {
        Ok(ConfigIdentifier {
            name: self.name.clone()?,
        })
    }
}

impl PartialEq for ConfigIdentifier {
    ghost eq = { pointwise nat_eq };

    ghost laws = { partial_equiv_from_equiv nat_list_eq_equiv };

    fn eq(&self, other: &ConfigIdentifier) -> bool {
        self.name == other.name
    }
}

impl Eq for ConfigIdentifier {
    ghost laws = { nat_list_eq_equiv };
}

impl PartialOrd for ConfigIdentifier {
    ghost partial_cmp = { λ x y. Some (slice_cmp nat_cmp x y) };

    ghost laws = { texts_po };

    fn partial_cmp(&self, other: &ConfigIdentifier) -> Option<Ordering> {
        Some(self.cmp(other))
    }
}

impl Ord for ConfigIdentifier {
    ghost cmp = { slice_cmp nat_cmp };

    ghost total = { nat_list_cmp_total };

    ghost matches_partial_cmp = { λ x y. refl };

    ghost matches_eq = { texts_ties };

    fn cmp(&self, other: &ConfigIdentifier) -> Ordering {
        self.name.cmp(&other.name)
    }
}

impl Hash for ConfigIdentifier {
    ghost use Rattle.std.specs.Cmp.Rules.{hashing};
    ghost use Rattle.std.proofs.Common.{rules};

    ghost hash_input = { fed.str };

    ghost respects_eq = { Prim.search (hashing, rules) };

    fn hash<H: Hasher>(&self, state: &mut H) {
        self.name.hash(state);
    }
}

impl fmt::Display for ConfigIdentifier {
    ghost output = { Some };

    fn fmt<W: fmt::Write>(&self, f: &mut fmt::Formatter<W>) -> fmt::Result {
        fmt::Display::fmt(&self.name, f)
    }
}

impl fmt::Debug for ConfigIdentifier {
    fn fmt<W: fmt::Write>(&self, f: &mut fmt::Formatter<W>) -> fmt::Result {
        fmt::Debug::fmt(&self.name, f)
    }
}
