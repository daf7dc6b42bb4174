// Binaries, as filters look at them.
ghost use Rattle.std.specs.Prelude.{◌≡◌};
ghost use Rattle.nextest_filtering_filters.specs.Query.{binary_of};
ghost use Rattle.test_runner_core_listing.specs.Answers as words;

use nextest_filtering_ast::BuildPlatform as FilteringPlatform;
use nextest_filtering_filters::BinaryQuery;
use test_runner_core_workspace::{Binary, BinaryKind, BuildPlatform};

// The name of a kind.
fn kind_name(kind: BinaryKind) -> &'static str
    ensures { result.now ≡ words.kind_name kind }
{
    match kind {
        BinaryKind::Lib => "lib",
        BinaryKind::Test => "test",
        BinaryKind::Bench => "bench",
        BinaryKind::Bin => "bin",
        BinaryKind::Example => "example",
        BinaryKind::ProcMacro => "proc-macro",
    }
}

// The platform, as filters name it.
fn platform_of(platform: BuildPlatform) -> FilteringPlatform
    ensures { result ≡ words.platform_of platform }
{
    match platform {
        BuildPlatform::Host => FilteringPlatform::Host,
        BuildPlatform::Target => FilteringPlatform::Target,
    }
}

/// A binary, as filters look at it.
pub fn query_of(binary: &Binary) -> BinaryQuery<'_>
    ensures { binary_of result ≡ words.query_of binary.now }
{
    BinaryQuery {
        package_id: binary.package.as_str(),
        binary_id: binary.id.as_str(),
        kind: kind_name(binary.kind),
        binary_name: binary.name.as_str(),
        platform: platform_of(binary.platform),
    }
}
