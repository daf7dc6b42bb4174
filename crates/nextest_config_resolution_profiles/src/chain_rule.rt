// A rule of a chain, and the platforms on which it holds.
ghost use Rattle.std.specs.Prelude.{◌≡◌};
ghost use Rattle.nextest_config_resolution_profiles.specs.ChainRules.{put_on, rule_in, seen_rule};
ghost use Rattle.nextest_config_resolution_profiles.specs.Held.{holds_for};
ghost use Rattle.nextest_config_resolution_profiles.specs.Platforms.{built_on, built_for};

use crate::platforms::{BuildPlatforms, spec_holds};
use nextest_config_resolution_filters::Specs;
use nextest_config_resolution_load::LoadedRule;
use nextest_filtering_ast::BuildPlatform;
use std::alloc::AllocError;

// A rule of a chain. Until it is put on platforms it holds on all of them.
#[derive(Drop)]
pub(crate) struct ChainRule<'c, P, F, S> {
    pub(crate) rule: &'c LoadedRule<P, F, S>,
    // Whether it holds for what is built for the host.
    pub(crate) for_host: bool,
    // Whether it holds for what is built for the target.
    pub(crate) for_target: bool,
}

impl<'c, P, F, S> Clone for ChainRule<'c, P, F, S> {
    ghost use Rattle.std.specs.Prelude.{◌≡◌};

    ghost is_clone = { λ original copy. copy ≡ original };

    fn clone(&self) -> Result<ChainRule<'c, P, F, S>, AllocError> {
        Ok(ChainRule {
            rule: self.rule,
            for_host: self.for_host,
            for_target: self.for_target,
        })
    }
}

impl<'c, P, F, S: Specs> ChainRule<'c, P, F, S> {
    // Looks on which of these platforms it holds.
    pub(crate) fn put_on(&mut self, platforms: &BuildPlatforms<'_, S::Facts>)
        ensures { self.new
            ≡ put_on S.value_on (built_on platforms.now) (built_for platforms.now) self.old }
    {
        let specs = &self.rule.compiled;
        let on_host = spec_holds(&specs.host, platforms.host);
        self.for_host = on_host && spec_holds(&specs.target, platforms.host);
        self.for_target = on_host && spec_holds(&specs.target, platforms.target());
    }
}

impl<'c, P, F, S> ChainRule<'c, P, F, S> {
    // A rule, before it is put on platforms.
    pub(crate) fn new(rule: &'c LoadedRule<P, F, S>) -> ChainRule<'c, P, F, S>
        ensures { rule_in result ≡ rule.now }
    {
        ChainRule {
            rule,
            for_host: true,
            for_target: true,
        }
    }

    // Whether it holds for what is built for a platform.
    pub(crate) fn holds_for(&self, platform: BuildPlatform) -> bool
        ensures { result ≡ holds_for platform (seen_rule self.now) }
    {
        match platform {
            BuildPlatform::Host => self.for_host,
            BuildPlatform::Target => self.for_target,
        }
    }
}
