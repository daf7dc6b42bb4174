// Filtersets that a workspace accepts or not, and what they are on binaries and on tests.
use crate::calls_again::TURNS;
use crate::page::{Page, Whole};
use crate::parts::{Word, three, two};
use crate::workspaces::{binary, workspace};
use crate::{ok, show, some};
use nextest_filtering::{
    BinaryEvaluator, CompiledExpr, EvalContext, Filterset, FiltersetError, FiltersetKind,
    GroupLookup, KnownGroups, NameMatcher, ParseContext, ParseSingleError, TestQuery,
};
use nextest_text::{Listing, Text};
use std::alloc::{AllocError, Global};

// A workspace, a kind, the known groups and a filterset: whether it is accepted, or its faults.
pub(crate) fn compiled(page: &mut Page, input: &str) -> Option<()> {
    let (name, kind, rest) = three(input);
    let (groups, text) = two(rest, " ");
    let kind = some!(kind_of(kind));
    let known = ok!(some!(known_groups(page.alloc, groups)).clone());
    let cx = some!(workspace(page.alloc, name));
    verdict_told(page, &cx, kind, &known, text)
}

fn verdict_told(
    page: &mut Page,
    cx: &ParseContext,
    kind: FiltersetKind,
    known: &KnownGroups,
    text: &str,
) -> Option<()> {
    for turn in TURNS {
        let text = ok!(Text::from_str(page.alloc, text));
        match &Filterset::parse(page.alloc, text, cx, kind, known) {
            Ok(_) => page.show("accepted"),
            Err(FiltersetError::Refused(refused)) => {
                faults_told(page, ok!(refused.clone()).errors.as_slice());
            }
            Err(FiltersetError::OutOfMemory) => continue,
        }
        page.show(turn);
        return Some(());
    }
    None
}

fn kind_of(word: &str) -> Option<FiltersetKind> {
    match word {
        "test" => Some(FiltersetKind::Test),
        "test-archive" => Some(FiltersetKind::TestArchive),
        "override-filter" => Some(FiltersetKind::OverrideFilter),
        "default-filter" => Some(FiltersetKind::DefaultFilter),
        _ => None,
    }
}

// `@global`, which is known anyway, and others behind commas, or `-` where they aren't known.
fn known_groups(alloc: Global, words: &str) -> Option<KnownGroups> {
    if words == "-" {
        return Some(KnownGroups::Unavailable);
    }
    let (_, groups) = two(words, ",");
    Some(KnownGroups::Known(some!(Listing::of_word(alloc, groups))))
}

// The faults, each with its label, its place, and why a predicate may not stand.
fn faults_told(page: &mut Page, faults: &[ParseSingleError]) {
    for fault in faults {
        let span = fault.span();
        page.separate(0, "; ");
        show!(page; fault.label(), " ", span.offset, " ", span.length);
        if let ParseSingleError::BannedPredicate { reason, .. } = fault {
            show!(page; " ", Whole(reason));
        }
    }
}

// A workspace, the default filter, `-` for the one that holds on all, a binary, a test, its group,
// and a filterset: its value on the binary and on the test.
pub(crate) fn answers(page: &mut Page, input: &str) -> Option<()> {
    let (name, default, rest) = three(input);
    let (id, test_name, rest) = three(rest);
    let (group, text) = two(rest, " ");
    let binary_query = some!(binary(name, id));
    let test = TestQuery {
        binary_query,
        test_name,
    };
    let cx = some!(workspace(page.alloc, name));
    asked(page, &cx, default, text, &test, group)
}

// The value of a filterset on a test's binary, and on the test, which is in the group, beside a
// default filter.
fn asked(
    page: &mut Page,
    cx: &ParseContext,
    default: &str,
    text: &str,
    test: &TestQuery<'_>,
    group: &str,
) -> Option<()> {
    let default = some!(default_filter(page.alloc, cx, default));
    let filterset = some!(accepted(page.alloc, cx, FiltersetKind::Test, text));
    value_told(page, &filterset, &default, test, group)
}

// The default filter of a text, `-` for the one that holds on all.
fn default_filter(alloc: Global, cx: &ParseContext, text: &str) -> Option<CompiledExpr> {
    if text == "-" {
        return CompiledExpr::all(alloc).ok();
    }
    Some(some!(accepted(alloc, cx, FiltersetKind::DefaultFilter, text)).compiled)
}

// The filterset of a text, where no group is known.
fn accepted(
    alloc: Global,
    cx: &ParseContext,
    kind: FiltersetKind,
    text: &str,
) -> Option<Filterset> {
    let text = ok!(Text::from_str(alloc, text));
    let filterset = Filterset::parse(alloc, text, cx, kind, &KnownGroups::Unavailable);
    ok!(filterset).clone().ok()
}

// The value of a filterset on a test's binary, and on the test, which is in the group, as both its
// evaluator for the binary and it itself tell that.
fn value_told(
    page: &mut Page,
    filterset: &Filterset,
    default: &CompiledExpr,
    test: &TestQuery<'_>,
    group: &str,
) -> Option<()> {
    if default.has_default() || default.has_group_matchers() {
        return None;
    }
    let alloc = page.alloc;
    let ecx = EvalContext::new(default);
    let filter = &filterset.compiled;
    let mut asked = ok!(BinaryEvaluator::new(alloc, filter, &ecx, &test.binary_query));
    page.show(match ok!(asked.matches_binary()) {
        Some(true) => "binary true",
        Some(false) => "binary false",
        None => "binary undecided",
    });
    let groups = InGroup { alloc, group };
    let on_test = ok!(asked.matches_test_with_groups(test.test_name, &groups));
    show!(page; ", test ", on_test);
    if on_test != ok!(filterset.matches_test_with_groups(alloc, test, &ecx, &groups)) {
        page.show(", and not");
    }
    Some(())
}

// Each test is in this group.
#[derive(Drop)]
struct InGroup<'g> {
    alloc: Global,
    group: &'g str,
}

impl GroupLookup for InGroup<'_> {
    ghost use Rattle.nextest_filtering.specs.Meaning.{MatchesName};

    ghost member = { λ groups test matcher. MatchesName matcher groups.group.now };

    fn is_member_test(&self, _: &TestQuery<'_>, matcher: &NameMatcher) -> Result<bool, AllocError> {
        matcher.is_match(self.alloc, self.group)
    }
}
