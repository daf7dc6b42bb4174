// A platform as an argument.
ghost use Rattle.std.specs.Prelude.{◌≡◌, IfOk, IfSome, IfNone};
ghost use Rattle.nextest_filtering_ast.specs.declared.leaf.BuildPlatform.{BuildPlatform};
ghost use Rattle.nextest_filtering_ast.specs.Words.{platform_word};
ghost use Rattle.nextest_filtering_arguments.specs.Faults.{IsSuffix, count};
ghost use Rattle.nextest_filtering_arguments.specs.Matchers.{IsArgument, ReadsPlatform, platform_itself};

use crate::error::ParseSingleError;
use crate::faults::Faults;
use crate::text::text_argument;
use nextest_filtering_ast::BuildPlatform;
use std::alloc::{AllocError, Global};

// The platform of that name.
fn platform_of(text: &str) -> Option<BuildPlatform>
    ensures some { IfSome result (λ platform. text.now ≡ platform_word platform) }
    ensures none { IfNone result
        ((platform : BuildPlatform) → text.now ≡ platform_word platform → ⊥) }
{
    match text {
        "host" => Some(BuildPlatform::Host),
        "target" => Some(BuildPlatform::Target),
        _ => None,
    }
}

/// The platform that comes next, `host` or `target`, and what follows it. Another text is reported
/// as `InvalidPlatformArgument`, and so are the faults of a text; then `None` may stand for the
/// platform. It fails only on allocation.
pub fn platform<'i>(
    alloc: Global,
    faults: &mut Faults<'_>,
    text: &'i str,
) -> Result<(Option<BuildPlatform>, &'i str), AllocError>
    requires suffix { IsSuffix text.now faults.old.input }
    ensures input { faults.new.input ≡ faults.old.input }
    ensures reads { IfOk result (λ it. IsArgument platform_itself ReadsPlatform text.now
        (count faults.old) (count faults.new) it.0 it.1.now) }
{
    let argument = text_argument(alloc, faults, text)?;
    if let Some(platform) = platform_of(argument.text.as_str()) {
        return Ok((Some(platform), argument.rest));
    }
    faults.report(ParseSingleError::InvalidPlatformArgument(argument.span))?;
    Ok((None, argument.rest))
}
