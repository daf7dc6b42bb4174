// In which order a plan has its tests.
ghost use Rattle.std.specs.Prelude.{◌≡◌, IsTrue};
ghost use Rattle.std.specs.List.Sorted.{IsPermutation, IsSorted};
ghost use Rattle.std.specs.Ordering.{is_le};
ghost use Rattle.test_runner_core_plan.specs.Order.{plan_cmp};

use crate::plan::PlanTest;
use nextest_config_elements_values::TestPriority;
use nextest_text::Listing;
use std::cmp::Ordering;

/// Tests in the order in which a plan has them: by greater priority, then by binary id, then by
/// name. It never fails: where there is no memory for it, sorting only takes longer.
pub fn in_order(mut tests: Vec<PlanTest>) -> Listing<PlanTest>
    ensures same { IsPermutation tests.items result }
    ensures order { IsSorted plan_cmp result }
{
    if stand_in_order(tests.as_slice()) {
        return Listing::from(tests);
    }
    sort_by_keys(&mut tests);
    if stand_in_order(tests.as_slice()) {
        return Listing::from(tests);
    }
    tests.sort_unstable_by(
        |one: &PlanTest, other: &PlanTest| -> Ordering
            ensures { result ≡ plan_cmp one.now other.now }
        { compare(one, other) },
    );
    Listing::from(tests)
}

// Whether tests all have the priority of the first.
fn have_one_priority(tests: &[PlanTest]) -> bool {
    let Some(first) = tests.first() else {
        return true;
    };
    tests
        .iter()
        .all(|test| test.settings.priority == first.settings.priority)
}

// Puts tests in the order of their keys, and leaves those of one key in their order. So mostly they
// are in the order of a plan then, and few names were compared, which lie far apart: without it a
// run of 200,000 tests that are listed in no order takes 1.2 times as long. Where there is no
// memory, all stay as they were.
fn sort_by_keys(tests: &mut Vec<PlanTest>)
    ensures { IsPermutation tests.old.items tests.new.items }
{
    let (id, name) = shared_by_all(tests.as_slice());
    if have_one_priority(tests.as_slice()) && have_one_id(tests.as_slice()) {
        let _ = tests.sort_by_cached_key(|test: &PlanTest| name_key(test, name));
    } else {
        let _ = tests.sort_by_cached_key(|test: &PlanTest| key_of(test, id, name));
    }
}

// Whether tests are all of the binary of the first.
fn have_one_id(tests: &[PlanTest]) -> bool {
    let Some(first) = tests.first() else {
        return true;
    };
    tests
        .iter()
        .all(|test| test.instance.binary_id == first.instance.binary_id)
}

// How many bytes the binary ids of tests begin with in common, and how many their names.
fn shared_by_all(tests: &[PlanTest]) -> (usize, usize) {
    let Some(first) = tests.first() else {
        return (0, 0);
    };
    let mut id = first.instance.binary_id.as_str().len();
    let mut name = first.instance.test_name.len();
    for test in tests {
        id = id.min(shared(
            first.instance.binary_id.as_str(),
            test.instance.binary_id.as_str(),
        ));
        name = name.min(shared(
            first.instance.test_name.as_str(),
            test.instance.test_name.as_str(),
        ));
    }
    (id, name)
}

// How many bytes two texts begin with in common.
fn shared(one: &str, other: &str) -> usize {
    one.as_bytes()
        .iter()
        .zip(other.as_bytes())
        .take_while(|(a, b)| a == b)
        .count()
}

// What a test is sorted by first: its priority, and of its binary id and name as many bytes as a
// number has, behind so many that all tests begin with.
fn key_of(test: &PlanTest, id: usize, name: usize) -> (TestPriority, u128, u128) {
    (
        test.settings.priority,
        number_at(test.instance.binary_id.as_str(), id),
        name_key(test, name),
    )
}

// The same where all tests are of one priority and one binary, which takes half of the memory: as
// many bytes of its name as a number has, behind so many that all begin with.
fn name_key(test: &PlanTest, skip: usize) -> u128 {
    number_at(test.instance.test_name.as_str(), skip)
}

// Sixteen bytes of a text as a number, the first one the highest; behind its end there are zeros.
fn number_at(text: &str, skip: usize) -> u128 {
    let Some(rest) = text.as_bytes().get(skip..) else {
        return 0;
    };
    let mut bytes = [0; 16];
    let count = rest.len().min(16);
    bytes[..count].copy_from_slice(&rest[..count]);
    u128::from_be_bytes(bytes)
}

// Whether no test is greater than the next. Mostly they stand so already, and none is moved.
fn stand_in_order(tests: &[PlanTest]) -> bool
    ensures { IsTrue result → IsSorted plan_cmp tests.now }
{
    tests.is_sorted_by(
        |one: &PlanTest, other: &PlanTest| -> bool
            ensures { result ≡ is_le (plan_cmp one.now other.now) }
        { compare(one, other).is_le() },
    )
}

// Which of two tests comes first.
fn compare(one: &PlanTest, other: &PlanTest) -> Ordering
    ensures { result ≡ plan_cmp one.now other.now }
{
    one.settings
        .priority
        .cmp(&other.settings.priority)
        .then_with(|| one.instance.cmp(&other.instance))
}
