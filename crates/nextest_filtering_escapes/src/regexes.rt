// What a regular expression between slashes stands for.
ghost use Rattle.std.specs.Prelude.{IfOk};
ghost use Rattle.nextest_filtering_escapes.specs.Regex.{IsRegexText, HasRegexText};

use nextest_text::Text;
use std::alloc::{AllocError, Global};

/// The regular expression that `raw` stands for, as `split_regex` gives it: `/` for each `\/`. It
/// fails only on allocation.
pub fn unslash(alloc: Global, raw: &str) -> Result<Text, AllocError>
    ensures { IfOk result (λ text. HasRegexText raw.now → IsRegexText raw.now text) }
{
    let mut text = String::new(alloc);
    let mut rest = raw;
    while let Some((before, behind)) = rest.split_once('/') {
        text.push_str(before.strip_suffix('\\').unwrap_or(before))?;
        text.push('/')?;
        rest = behind;
    }
    text.push_str(rest)?;
    Ok(Text::from(text))
}
