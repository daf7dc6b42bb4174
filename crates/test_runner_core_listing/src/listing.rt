// Which tests are selected.
ghost use Rattle.std.specs.Prelude.{◌≡◌, ◌∷◌, [], ◌++◌, ℕ, Bool, not, All, List, map, filter, IfOk, OnOk};
ghost use Rattle.nextest_filtering_filters.specs.Meaning.{Tells};
ghost use Rattle.nextest_text.specs.Parts.{lent_texts};
ghost use Rattle.test_runner_core_listing.specs.Answers as answers;
ghost use Rattle.test_runner_core_listing.specs.Listing as words;
ghost use Rattle.test_runner_core_listing.specs.Selected.{tests_in};
ghost use Rattle.test_runner_core_workspace.specs.declared.record.Binary.{Binary};

use crate::listing_error::ListingError;
use crate::listing_fault::ListingFault;
use crate::names::refusal;
use crate::query::query_of;
use crate::selection::{SelectedTests, Selection};
use nextest_filtering_filters::{BinaryEvaluator, CompiledExpr, EvalContext, GroupLookup};
use nextest_run_events_results::{OwnedTestInstanceId, RustBinaryId};
use nextest_text::{Listing, Texts};
use std::alloc::{AllocError, Global};
use test_runner_core_workspace::{Binary, ListFault, Lister};

// The names that a binary answers.
fn names_of<L: Lister>(
    alloc: Global,
    binary: &Binary,
    lister: &mut L,
) -> Result<Texts, ListingError>
    ensures names { words.Accepts result (words.accepted_answer (L.answer lister.old binary.now)) }
    ensures stays { (other : Binary) → L.answer lister.new other ≡ L.answer lister.old other }
    ensures asks { words.Asks result (L.asked lister.old) (binary.now.id ∷ [])
        (L.asked lister.new) }
{
    let names = match lister.list(binary) {
        Ok(names) => names,
        Err(ListFault::Cause(cause)) => {
            return Err(ListingError::Refused(ListingFault::ListFault(cause)));
        }
        Err(ListFault::OutOfMemory) => return Err(ListingError::OutOfMemory),
    };
    match refusal(alloc, &names)? {
        Some(refused) => Err(ListingError::Refused(refused)),
        None => Ok(names),
    }
}

// Filters on a binary, each with what it takes to ask it of the binary's tests.
fn evaluators_of<'f>(
    alloc: Global,
    filters: &[&'f CompiledExpr],
    ecx: &EvalContext<'f>,
    binary: &'f Binary,
) -> Result<Vec<BinaryEvaluator<'f>>, AllocError>
    ensures { IfOk result (λ it. it.items ≡ map (answers.asking_of ecx.now
        (answers.query_of binary.now)) (answers.lent_compiled filters.now)) }
{
    let query = query_of(binary);
    let mut evaluators = Vec::new(alloc);
    for filter in filters {
        evaluators.push(BinaryEvaluator::new(alloc, filter, ecx, &query)?)?;
    }
    Ok(evaluators)
}

// Whether a filter can hold on its binary.
fn can_hold(evaluator: &mut BinaryEvaluator<'_>) -> Result<bool, AllocError>
    ensures value { IfOk result (Tells (answers.CanHold evaluator.old)) }
    ensures same { evaluator.new ≡ evaluator.old }
{
    let value = evaluator.matches_binary()?;
    Ok(value != Some(false))
}

// Whether a binary is listed.
fn is_listed(evaluators: &mut [BinaryEvaluator<'_>]) -> Result<bool, AllocError>
    ensures value { IfOk result (Tells (All answers.CanHold evaluators.old)) }
    ensures same { evaluators.new ≡ evaluators.old }
{
    for evaluator in evaluators.iter_mut() {
        if !can_hold(evaluator)? {
            return Ok(false);
        }
    }
    Ok(true)
}

// Whether a filter holds on a test of its binary.
fn holds_on<G: GroupLookup>(
    evaluator: &mut BinaryEvaluator<'_>,
    name: &str,
    groups: &G,
) -> Result<bool, AllocError>
    ensures value { IfOk result
        (Tells (answers.HoldsOn name.now (G.member groups.now) evaluator.old)) }
    ensures same { evaluator.new ≡ evaluator.old }
{
    evaluator.matches_test_with_groups(name, groups)
}

// Whether a test is selected.
fn is_selected<G: GroupLookup>(
    evaluators: &mut [BinaryEvaluator<'_>],
    name: &str,
    groups: &G,
) -> Result<bool, AllocError>
    ensures value { IfOk result
        (Tells (All (answers.HoldsOn name.now (G.member groups.now)) evaluators.old)) }
    ensures same { evaluators.new ≡ evaluators.old }
{
    for evaluator in evaluators.iter_mut() {
        if !holds_on(evaluator, name, groups)? {
            return Ok(false);
        }
    }
    Ok(true)
}

// Of each of these names of a binary whether its test is selected.
fn selects<G: GroupLookup>(
    alloc: Global,
    names: &[&str],
    evaluators: &mut [BinaryEvaluator<'_>],
    groups: &G,
) -> Result<Vec<bool>, AllocError>
    ensures selects { (binary : Binary) (chosen : answers.Answers)
        → answers.AnswerOn evaluators.old binary (G.member groups.now) chosen
        → IfOk result (λ it. it.items ≡ map (chosen.selects binary) (lent_texts names.now)) }
{
    let mut selected = Vec::with_capacity(alloc, names.len())?;
    for name in names {
        selected.push(is_selected(evaluators, name, groups)?)?;
    }
    Ok(selected)
}

// Adds those tests of a binary that aren't selected.
fn skip_others(
    alloc: Global,
    binary: &Binary,
    names: &Texts,
    selected: &[bool],
    skipped: &mut Listing<OwnedTestInstanceId>,
) -> Result<(), AllocError>
    ensures { (on : List ℕ → Bool) → selected.now ≡ map on names.now
        → OnOk result (skipped.new ≡ skipped.old
        ++ words.tests_of binary.now (filter (λ name. not (on name)) names.now)) }
{
    let id = RustBinaryId::new(alloc, binary.id.as_str())?;
    for index in 0..names.len().min(selected.len()) {
        if selected[index] {
            continue;
        }
        skipped.push(OwnedTestInstanceId {
            binary_id: id.clone()?,
            test_name: names.to_text(index)?,
        })?;
    }
    Ok(())
}

// Adds the tests of a binary: those on which all filters hold to the selected ones, and the others
// to those left out.
fn add_tests<'w, G: GroupLookup>(
    alloc: Global,
    binary: &'w Binary,
    names: &Texts,
    evaluators: &mut [BinaryEvaluator<'_>],
    groups: &G,
    found: &mut Selection<'w>,
) -> Result<(), AllocError>
    ensures listed { OnOk result (found.new.listed ≡ found.old.listed) }
    ensures tests { (chosen : answers.Answers)
        → answers.AnswerOn evaluators.old binary.now (G.member groups.now) chosen
        → let more = words.selected_in chosen binary.now names.now in
        OnOk result (tests_in found.new.tests.items ≡ tests_in found.old.tests.items ++ more) }
    ensures skipped { (chosen : answers.Answers)
        → answers.AnswerOn evaluators.old binary.now (G.member groups.now) chosen
        → let more = words.skipped_in chosen binary.now names.now in
        OnOk result (found.new.skipped ≡ found.old.skipped ++ more) }
{
    let texts = names.to_strs()?;
    let selected = selects(alloc, texts.as_slice(), evaluators, groups)?;
    skip_others(
        alloc,
        binary,
        names,
        selected.as_slice(),
        &mut found.skipped,
    )?;
    found.tests.push(SelectedTests {
        binary,
        names: names.filtered(selected.as_slice())?,
    })?;
    Ok(())
}

// Adds what a listed binary gives.
fn list_one<'w, L: Lister, G: GroupLookup>(
    alloc: Global,
    binary: &'w Binary,
    evaluators: &mut [BinaryEvaluator<'_>],
    groups: &G,
    lister: &mut L,
    found: &mut Selection<'w>,
) -> Result<(), ListingError>
    ensures adds { (chosen : answers.Answers)
        → answers.AnswerOn evaluators.old binary.now (G.member groups.now) chosen
        → let answered = words.accepted_answer (L.answer lister.old binary.now) in
        words.AddsListed result answered chosen binary.now found.old found.new }
    ensures stays { (other : Binary) → L.answer lister.new other ≡ L.answer lister.old other }
    ensures asks { words.Asks result (L.asked lister.old) (binary.now.id ∷ [])
        (L.asked lister.new) }
{
    let names = names_of(alloc, binary, lister)?;
    found.listed.push(binary.id.clone()?)?;
    add_tests(alloc, binary, &names, evaluators, groups, found)?;
    Ok(())
}

// Adds what one binary gives, where its filters list it.
fn list_by<'w, L: Lister, G: GroupLookup>(
    alloc: Global,
    binary: &'w Binary,
    evaluators: &mut [BinaryEvaluator<'_>],
    groups: &G,
    lister: &mut L,
    found: &mut Selection<'w>,
) -> Result<(), ListingError>
    ensures adds { (chosen : answers.Answers)
        → answers.AnswerOn evaluators.old binary.now (G.member groups.now) chosen
        → let answered = words.accepted_answer (L.answer lister.old binary.now) in
        words.Adds (chosen.lists binary.now) result answered chosen binary.now found.old found.new }
    ensures stays { (other : Binary) → L.answer lister.new other ≡ L.answer lister.old other }
    ensures asks { (chosen : answers.Answers)
        → answers.AnswerOn evaluators.old binary.now (G.member groups.now) chosen
        → let ids = words.ids_of (words.listed_of chosen (binary.now ∷ [])) in
        words.Asks result (L.asked lister.old) ids (L.asked lister.new) }
{
    if is_listed(evaluators)? {
        list_one(alloc, binary, evaluators, groups, lister, found)?;
    }
    Ok(())
}

// Adds what one binary gives, where it is listed.
fn list_if<'w, L: Lister, G: GroupLookup>(
    alloc: Global,
    binary: &'w Binary,
    filters: &[&CompiledExpr],
    ecx: &EvalContext<'_>,
    groups: &G,
    lister: &mut L,
    found: &mut Selection<'w>,
) -> Result<(), ListingError>
    ensures adds { (chosen : answers.Answers)
        → answers.AnswerAs (answers.lent_compiled filters.now) ecx.now (G.member groups.now) chosen
        → let answered = words.accepted_answer (L.answer lister.old binary.now) in
        words.Adds (chosen.lists binary.now) result answered chosen binary.now found.old found.new }
    ensures stays { (other : Binary) → L.answer lister.new other ≡ L.answer lister.old other }
    ensures asks { (chosen : answers.Answers)
        → answers.AnswerAs (answers.lent_compiled filters.now) ecx.now (G.member groups.now) chosen
        → let ids = words.ids_of (words.listed_of chosen (binary.now ∷ [])) in
        words.Asks result (L.asked lister.old) ids (L.asked lister.new) }
{
    let mut evaluators = evaluators_of(alloc, filters, ecx, binary)?;
    list_by(
        alloc,
        binary,
        evaluators.as_mut_slice(),
        groups,
        lister,
        found,
    )
}

/// The listed binaries, and the tests of each on which all filters in force hold: the binaries in
/// their order, and each one's tests as it lists them. A binary is listed where each of the
/// filters can hold on some of its tests, whatever these are; the listed ones alone are asked,
/// each once, in their order, up to the first whose answer is refused. Where there is no filter,
/// every binary is listed and every test selected. The groups of tests are those that the look-up
/// knows. An `Err` says why: the binary can't list its tests, or a name is empty, has a tab or a
/// line end in it, or stands twice, each name being looked at whole before the next; or that there
/// was no memory, which says nothing of the binaries.
pub fn select<'w, L: Lister, G: GroupLookup>(
    alloc: Global,
    binaries: &'w [Binary],
    filters: &[&CompiledExpr],
    ecx: &EvalContext<'_>,
    groups: &G,
    lister: &mut L,
) -> Result<Selection<'w>, ListingError>
    ensures selects { (chosen : answers.Answers)
        → answers.AnswerAs (answers.lent_compiled filters.now) ecx.now (G.member groups.now) chosen
        → let listed = words.listed_of chosen binaries.now in
        words.Lists result (words.listing (L.answer lister.old) chosen listed) listed }
    ensures stays { (other : Binary) → L.answer lister.new other ≡ L.answer lister.old other }
    ensures asks { (chosen : answers.Answers)
        → answers.AnswerAs (answers.lent_compiled filters.now) ecx.now (G.member groups.now) chosen
        → let ids = words.asked_of (L.answer lister.old) (words.listed_of chosen binaries.now) in
        words.Asks result (L.asked lister.old) ids (L.asked lister.new) }
{
    let mut found = Selection {
        listed: Listing::new(alloc),
        tests: Vec::new(alloc),
        skipped: Listing::new(alloc),
    };
    for binary in binaries {
        list_if(alloc, binary, &*filters, &*ecx, groups, lister, &mut found)?;
    }
    Ok(found)
}
