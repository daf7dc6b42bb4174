// Platform specs without a language.
ghost use Rattle.std.specs.Prelude.{◌≡◌, Some};
ghost use Rattle.std.specs.List.{list_any};
ghost use Rattle.std.specs.Str.{bytes_eq};
ghost use Rattle.worked_rows.specs.PlainSpecs.{plain_spec_laws, spec_of, spec_value};

use nextest_config_resolution::{SpecError, Specs};
use nextest_text::{Listing, Text};
use std::alloc::Global;

/// The platforms of one name, which is its text; the empty text is none.
#[derive(Drop)]
pub struct PlainSpec {
    /// The name.
    pub name: Text,
}

// Whether a name is among names.
fn is_among(names: &[Text], name: &str) -> bool
    ensures { result ≡ list_any (λ it. bytes_eq it name.now) names.now }
{
    names.iter().any(|it| it.as_str() == name)
}

impl Specs for PlainSpec {
    /// The names of a platform; where it has none, nothing is known of it.
    type Facts = Listing<Text>;

    ghost is_parsed = { λ text it. spec_of text ≡ Some it };

    ghost value_on = { spec_value };

    fn parse(alloc: Global, text: &str) -> Result<PlainSpec, SpecError> {
        if text.is_empty() {
            return Err(SpecError::Refused);
        }
        Ok(PlainSpec {
            name: Text::from_str(alloc, text)?,
        })
    }

    fn eval(&self, facts: &Listing<Text>) -> Option<bool> {
        if facts.is_empty() {
            return None;
        }
        Some(is_among(facts.as_slice(), self.name.as_str()))
    }

    ghost laws = { plain_spec_laws };
}
