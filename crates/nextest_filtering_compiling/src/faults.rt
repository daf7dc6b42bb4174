// What a matcher finds in a workspace.
ghost use Rattle.std.specs.Prelude.{◌≡◌, IfOk};
ghost use Rattle.nextest_filtering_filters.specs.Meaning.{Tells};
ghost use Rattle.nextest_filtering_ast.specs.Tree.{matcher_of};
ghost use Rattle.nextest_filtering_compiling.specs.Faults.{NoBinary, NoGroup, asked_of};

use crate::parse_context::ParseContext;
use nextest_filtering_ast::NameMatcher;
use nextest_filtering_filters::KnownGroups;
use nextest_text::Text;
use std::alloc::{AllocError, Global};

// What a binary is asked for by.
#[derive(Clone, Copy)]
pub(crate) enum BinaryPart {
    // Its id.
    Id,
    // Its name.
    Name,
}

// The part of a binary that it is asked for by.
fn asked_of(binary: &(Text, Text), part: BinaryPart) -> &str
    ensures { result.now ≡ asked_of part binary.now }
{
    match part {
        BinaryPart::Id => binary.0.as_str(),
        BinaryPart::Name => binary.1.as_str(),
    }
}

// Whether binaries are known, and none has such a part that the matcher matches.
pub(crate) fn lacks_binary(
    alloc: Global,
    cx: &ParseContext,
    part: BinaryPart,
    matcher: &NameMatcher,
) -> Result<bool, AllocError>
    ensures { IfOk result (Tells (NoBinary cx.now (asked_of part) (matcher_of matcher.now))) }
{
    let mut names = matcher.matching(alloc)?;
    for binary in cx.binaries() {
        if names.is_match(asked_of(binary, part))? {
            return Ok(false);
        }
    }
    Ok(!cx.binaries().is_empty())
}

// Whether the groups are known, and none has a name that the matcher matches.
pub(crate) fn lacks_group(
    alloc: Global,
    known: &KnownGroups,
    matcher: &NameMatcher,
) -> Result<bool, AllocError>
    ensures { IfOk result (Tells (NoGroup known.now (matcher_of matcher.now))) }
{
    let KnownGroups::Known(groups) = known else {
        return Ok(false);
    };
    let mut names = matcher.matching(alloc)?;
    if names.is_match("@global")? {
        return Ok(false);
    }
    for name in groups.as_slice() {
        if names.is_match(name.as_str())? {
            return Ok(false);
        }
    }
    Ok(true)
}
