// How a text is divided into the names in it.
ghost use Rattle.std.specs.Prelude.{◌≡◌};
ghost use Rattle.nextest_config_elements_identifiers.specs.Config.{is_tool};
ghost use Rattle.nextest_config_elements_identifiers.specs.Parts.{behind, division_of, tool_parts};

// What stands before the first `:` of a text, and behind it.
pub(crate) fn parted(text: &str) -> Option<(&str, &str)>
    ensures { behind result ≡ division_of text.now }
{
    text.split_once(':')
}

// The names of a tool and of what is its own, in `@tool:TOOL:OWN`.
pub(crate) fn tool_parts(text: &str) -> Option<(&str, &str)>
    ensures { behind result ≡ tool_parts text.now }
{
    match text.strip_prefix("@tool:") {
        Some(rest) => parted(rest),
        None => None,
    }
}

// Whether a text begins with `@`.
pub(crate) fn is_tool(text: &str) -> bool
    ensures { result ≡ is_tool text.now }
{
    text.starts_with('@')
}
