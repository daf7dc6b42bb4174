//! What holds of all identifiers. Each law is the contract of a function without parameters.
ghost use Rattle.nextest_config_elements_identifiers.specs.Laws.{OneIdentifier, ToolIdentifier};

/// Texts with one NFC are one identifier, or refused alike.
pub fn one_identifier()
    ensures { OneIdentifier }
{}

/// An identifier that begins with `@` is `@tool:`, a name, `:` and a name, and neither name has a
/// `:`.
pub fn tool_identifier()
    ensures { ToolIdentifier }
{}
