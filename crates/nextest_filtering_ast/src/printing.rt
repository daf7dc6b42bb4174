// How predicates and matchers print.
ghost use Rattle.std.specs.Prelude.{◌≡◌};
ghost use Rattle.nextest_filtering_ast.specs.Tree.{leaf_of};
ghost use Rattle.nextest_filtering_ast.specs.Grammar.{leaf_word};
ghost use Rattle.nextest_filtering_ast.specs.Printing.{written_sign};

use crate::leaf::{BuildPlatform, ParsedLeaf};
use crate::matcher::NameMatcher;
use nextest_filtering_escapes::{escaped_text, slashed_text};
use std::fmt;

/// The sign of a text, unless the text was written without it.
fn written_sign(implicit: bool, sign: &str) -> &str
    ensures { result.now ≡ written_sign implicit sign.now }
{
    if implicit { "" } else { sign }
}

impl fmt::Display for NameMatcher {
    ghost use Rattle.std.specs.Prelude.{Some};
    ghost use Rattle.nextest_filtering_ast.specs.Tree.{matcher_of};
    ghost use Rattle.nextest_filtering_ast.specs.Printing.{printed_matcher};

    ghost output = { λ it. Some (printed_matcher (matcher_of it)) };

    fn fmt<W: fmt::Write>(&self, f: &mut fmt::Formatter<W>) -> fmt::Result {
        match self {
            NameMatcher::Equal { value, implicit } => {
                let sign = written_sign(*implicit, "=");
                write!(f, "{sign}{}", escaped_text(value.as_str()))
            }
            NameMatcher::Contains { value, implicit } => {
                let sign = written_sign(*implicit, "~");
                write!(f, "{sign}{}", escaped_text(value.as_str()))
            }
            NameMatcher::Glob { glob, implicit } => {
                let sign = written_sign(*implicit, "#");
                write!(f, "{sign}{}", escaped_text(glob.as_str()))
            }
            NameMatcher::Regex(pattern) => write!(f, "/{}/", slashed_text(pattern.as_str())),
        }
    }
}

impl fmt::Display for BuildPlatform {
    ghost use Rattle.std.specs.Prelude.{Some};
    ghost use Rattle.nextest_filtering_ast.specs.Words.{platform_word};

    ghost output = { λ it. Some (platform_word it) };

    fn fmt<W: fmt::Write>(&self, f: &mut fmt::Formatter<W>) -> fmt::Result {
        match self {
            BuildPlatform::Host => f.write_str("host"),
            BuildPlatform::Target => f.write_str("target"),
        }
    }
}

/// The name of a predicate.
fn leaf_word(leaf: &ParsedLeaf) -> &'static str
    ensures { result.now ≡ leaf_word (leaf_of leaf.now) }
{
    match leaf {
        ParsedLeaf::Package(_, _) => "package",
        ParsedLeaf::Deps(_, _) => "deps",
        ParsedLeaf::Rdeps(_, _) => "rdeps",
        ParsedLeaf::Kind(_, _) => "kind",
        ParsedLeaf::Binary(_, _) => "binary",
        ParsedLeaf::BinaryId(_, _) => "binary_id",
        ParsedLeaf::Platform(_, _) => "platform",
        ParsedLeaf::Test(_, _) => "test",
        ParsedLeaf::Group(_, _) => "group",
        ParsedLeaf::Default(_) => "default",
        ParsedLeaf::All => "all",
        ParsedLeaf::None => "none",
    }
}

impl fmt::Display for ParsedLeaf {
    ghost use Rattle.std.specs.Prelude.{Some};
    ghost use Rattle.nextest_filtering_ast.specs.Tree.{leaf_of};
    ghost use Rattle.nextest_filtering_ast.specs.Printing.{printed_leaf};

    ghost output = { λ it. Some (printed_leaf (leaf_of it)) };

    fn fmt<W: fmt::Write>(&self, f: &mut fmt::Formatter<W>) -> fmt::Result {
        let word = leaf_word(self);
        match self {
            ParsedLeaf::Package(matcher, _)
            | ParsedLeaf::Deps(matcher, _)
            | ParsedLeaf::Rdeps(matcher, _)
            | ParsedLeaf::Kind(matcher, _)
            | ParsedLeaf::Binary(matcher, _)
            | ParsedLeaf::BinaryId(matcher, _)
            | ParsedLeaf::Test(matcher, _)
            | ParsedLeaf::Group(matcher, _) => write!(f, "{word}({matcher})"),
            ParsedLeaf::Platform(platform, _) => write!(f, "{word}({platform})"),
            ParsedLeaf::Default(_) | ParsedLeaf::All | ParsedLeaf::None => write!(f, "{word}()"),
        }
    }
}
