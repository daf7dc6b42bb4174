// How a text of a configuration prints in a warning.
ghost use Rattle.nextest_config_resolution_warnings.specs.Shown.{one_line_of, shown_character, shown_keys};

use nextest_text::Text;
use std::fmt;

/// A text, which prints on one line: a control character prints as `\u{h}`, `h` its number in
/// hexadecimal digits.
#[derive(Clone, Copy, Debug)]
pub struct Shown<'a>(pub &'a str);

// The keys of a path, which print with a dot between two of them.
#[derive(Clone, Copy)]
pub(crate) struct ShownKeys<'a>(pub(crate) &'a [Text]);

// A character.
#[derive(Clone, Copy)]
struct ShownCharacter(char);

impl fmt::Display for ShownCharacter {
    ghost use Rattle.std.specs.Prelude.{Some};
    ghost use Rattle.nextest_config_resolution_warnings.specs.Shown.{shown_character};

    ghost output = { λ it. Some (shown_character it.0) };

    fn fmt<W: fmt::Write>(&self, f: &mut fmt::Formatter<W>) -> fmt::Result {
        let character = self.0;
        if character < ' ' || character == '\u{7f}' {
            write!(f, "\\u{{{:x}}}", character as u32)
        } else {
            write!(f, "{character}")
        }
    }
}

impl fmt::Display for Shown<'_> {
    ghost use Rattle.std.specs.Prelude.{Some};
    ghost use Rattle.nextest_config_resolution_warnings.specs.Shown.{one_line_of};

    ghost output = { λ it. Some (one_line_of it.0.now) };

    fn fmt<W: fmt::Write>(&self, f: &mut fmt::Formatter<W>) -> fmt::Result {
        for character in self.0.chars() {
            write!(f, "{}", ShownCharacter(character))?;
        }
        Ok(())
    }
}

impl fmt::Display for ShownKeys<'_> {
    ghost use Rattle.std.specs.Prelude.{Some};
    ghost use Rattle.nextest_config_resolution_warnings.specs.Shown.{shown_keys};

    ghost output = { λ it. Some (shown_keys it.0.now) };

    fn fmt<W: fmt::Write>(&self, f: &mut fmt::Formatter<W>) -> fmt::Result {
        let Some((first, more)) = self.0.split_first() else {
            return Ok(());
        };
        write!(f, "{}", Shown(first.as_str()))?;
        for key in more {
            write!(f, ".{}", Shown(key.as_str()))?;
        }
        Ok(())
    }
}
