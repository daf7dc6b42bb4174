// The rules of files, as they are checked and read.
ghost use Rattle.std.specs.Prelude.{◌≡◌, Some, ⊤, option_copied};
ghost use Rattle.std.specs.List.{flat_map};
ghost use Rattle.nextest_config_resolution_load.specs.Load.{AreReadBy, IsCompiledRule, IsReadAs, IsReadFor};
ghost use Rattle.nextest_config_resolution_load.specs.Refusing.{Passes};
ghost use Rattle.nextest_config_resolution_load.specs.RuleIds.{rule_of};
ghost use Rattle.nextest_config_resolution_load.specs.RuleTexts.{checks_by, texts_of};
ghost use Rattle.nextest_config_resolution_load.specs.Rules as words;
ghost use Rattle.nextest_config_resolution_load.specs.declared.languages.FilterPurpose.TheVariants as purpose;

use crate::languages::{FilterPurpose, Languages};
use crate::load_error::LoadError;
use crate::load_fault::PlatformSide;
use crate::loaded_rule::{CompiledRule, LoadedRule};
use crate::placed_rule::{PlacedRule, RuleTexts};
use crate::refusing::{bad_rule_filter, bad_spec, both_filters, no_constraint};
use crate::rule_id::RuleRef;
use nextest_text::{Listing, Text};
use std::alloc::Global;

// Rules with what their texts are, where each keeps what is checked of it.
pub(crate) fn load_rules<R: Languages, P: PlacedRule>(
    alloc: Global,
    cx: &R::Cx,
    rules: Vec<P>,
) -> Result<Listing<LoadedRule<P, R::Filter, R::Spec>>, LoadError>
    ensures { Passes (R.is_filter cx.now) R.is_spec R.is_too_deep
        (flat_map (checks_by P.wraps P.rule_id P.conditions) rules.items)
        (λ it. AreReadBy P.conditions (R.is_filter cx.now) R.is_spec rules.items it) result }
{
    let mut loaded = Listing::new(alloc);
    for placed in rules {
        let compiled = compile::<R, P>(alloc, cx, &placed)?;
        loaded.push(LoadedRule { placed, compiled })?;
    }
    Ok(loaded)
}

// What the texts of a rule are, where it keeps what is checked of it.
fn compile<R: Languages, P: PlacedRule>(
    alloc: Global,
    cx: &R::Cx,
    rule: &P,
) -> Result<CompiledRule<R::Filter, R::Spec>, LoadError>
    ensures { Passes (R.is_filter cx.now) R.is_spec R.is_too_deep
        (checks_by P.wraps P.rule_id P.conditions rule.now)
        (IsCompiledRule (R.is_filter cx.now) R.is_spec (P.conditions rule.now)) result }
{
    let texts = rule.texts();
    let id = rule.id();
    if !is_constrained(&texts) {
        return Err(no_constraint(id));
    }
    if sets_both(&texts) {
        return Err(both_filters(id));
    }
    compile_texts::<R>(alloc, cx, rule.wraps_lists(), id, &texts)
}

// Whether a rule says on which platforms or tests it holds.
fn is_constrained(texts: &RuleTexts<'_>) -> bool
    ensures { result ≡ words.is_constrained (texts_of texts.now) }
{
    texts.host.is_some() || texts.target.is_some() || texts.filter.is_some()
}

// Whether it has a filter and a default filter.
fn sets_both(texts: &RuleTexts<'_>) -> bool
    ensures { result ≡ words.sets_both (texts_of texts.now) }
{
    texts.filter.is_some() && texts.default_filter.is_some()
}

// What the texts of a rule are.
fn compile_texts<R: Languages>(
    alloc: Global,
    cx: &R::Cx,
    wraps: bool,
    id: RuleRef<'_>,
    texts: &RuleTexts<'_>,
) -> Result<CompiledRule<R::Filter, R::Spec>, LoadError>
    ensures { Passes (R.is_filter cx.now) R.is_spec R.is_too_deep
        (words.text_checks wraps (rule_of id.entry) (texts_of texts.now))
        (IsCompiledRule (R.is_filter cx.now) R.is_spec (texts_of texts.now)) result }
{
    let host = spec_of::<R>(alloc, cx, id, PlatformSide::Host, texts.host)?;
    let target = spec_of::<R>(alloc, cx, id, PlatformSide::Target, texts.target)?;
    let filter = filter_of::<R>(alloc, cx, id, FilterPurpose::Override, texts.filter)?;
    let default_filter = filter_of::<R>(
        alloc,
        cx,
        id,
        FilterPurpose::Default,
        texts.default_filter,
    )?;
    check_listing::<R>(alloc, cx, wraps, id, texts.filter, &filter)?;
    Ok(CompiledRule {
        host,
        target,
        filter,
        default_filter,
    })
}

// That the filter of a rule with a `list-wrapper` asks nothing that only tests tell, where it has
// one.
fn check_listing<R: Languages>(
    alloc: Global,
    cx: &R::Cx,
    wraps: bool,
    id: RuleRef<'_>,
    text: Option<&Text>,
    filter: &Option<R::Filter>,
) -> Result<(), LoadError>
    ensures { IsReadAs (R.is_filter cx.now purpose.Override) (option_copied text.entry) filter.now
        → Passes (R.is_filter cx.now) R.is_spec R.is_too_deep
        (words.listing_checks wraps (rule_of id.entry) (option_copied text.entry)) (λ _. ⊤) result }
{
    if !wraps {
        return Ok(());
    }
    match (text, filter) {
        (Some(text), Some(filter)) => check_served::<R>(alloc, cx, id, text, filter),
        _ => Ok(()),
    }
}

// That the filter of a text, which is that of a rule with a `list-wrapper`, asks nothing that only
// tests tell.
fn check_served<R: Languages>(
    alloc: Global,
    cx: &R::Cx,
    id: RuleRef<'_>,
    text: &Text,
    filter: &R::Filter,
) -> Result<(), LoadError>
    ensures { R.is_filter cx.now purpose.Override text.now filter.now
        → Passes (R.is_filter cx.now) R.is_spec R.is_too_deep (words.filter_checks
        (rule_of id.entry) purpose.ListWrapper (Some text.now)) (λ _. ⊤) result }
{
    if R::serves_listing(cx, filter) {
        return Ok(());
    }
    Err(bad_rule_filter(alloc, id, FilterPurpose::ListWrapper, text.as_str()))
}

// A spec that a rule has.
fn spec_of<R: Languages>(
    alloc: Global,
    cx: &R::Cx,
    id: RuleRef<'_>,
    side: PlatformSide,
    text: Option<&Text>,
) -> Result<Option<R::Spec>, LoadError>
    ensures { Passes (R.is_filter cx.now) R.is_spec R.is_too_deep
        (words.spec_checks (rule_of id.entry) side (option_copied text.entry))
        (IsReadAs R.is_spec (option_copied text.entry)) result }
{
    match text {
        None => Ok(None),
        Some(text) => match R::read_spec(alloc, text.as_str())? {
            Some(spec) => Ok(Some(spec)),
            None => Err(bad_spec(alloc, id, side, text.as_str())),
        },
    }
}

// A filter that a rule has, where it is read for this.
fn filter_of<R: Languages>(
    alloc: Global,
    cx: &R::Cx,
    id: RuleRef<'_>,
    purpose: FilterPurpose,
    text: Option<&Text>,
) -> Result<Option<R::Filter>, LoadError>
    ensures { IsReadFor purpose → Passes (R.is_filter cx.now) R.is_spec R.is_too_deep
        (words.filter_checks (rule_of id.entry) purpose (option_copied text.entry))
        (IsReadAs (R.is_filter cx.now purpose) (option_copied text.entry)) result }
{
    match text {
        None => Ok(None),
        Some(text) => match R::read_filter(alloc, cx, purpose, text)? {
            Some(filter) => Ok(Some(filter)),
            None => Err(bad_rule_filter(alloc, id, purpose, text.as_str())),
        },
    }
}
