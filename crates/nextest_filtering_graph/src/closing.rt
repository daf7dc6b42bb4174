// Rows of bits are joined until each has the bits of all that its place reaches.
ghost use Rattle.std.specs.Prelude.{◌≡◌, ℕ, ◌*◌, ◌<◌, ◌≤◌, List, sum, true, false, IfOk, length, vec_len};
ghost use Rattle.nextest_filtering_graph.specs.Reaching.{LinksBelow};
ghost use Rattle.nextest_filtering_graph.specs.Rows.{AreRows, AreClosed, AreReached};

use crate::bits::{has_bit, join_rows, set_bit};
use crate::ordering::steps;
use std::alloc::{AllocError, Global};

// Rows by which each place reaches itself alone.
fn rows_of_places(alloc: Global, width: usize, count: usize) -> Result<Vec<u64>, AllocError>
    requires room { count ≤ 64 * width }
    ensures { IfOk result
        (λ words. (links : List (ℕ × ℕ)) → AreRows links width count words.items) }
{
    let Some(size) = count.checked_mul(width) else {
        return Err(AllocError);
    };
    let mut words = vec![in alloc; 0u64; size]?;
    for place in 0..count {
        set_bit(&mut words, width, place, place);
    }
    Ok(words)
}

// Joins to the row of each link's start that of its end, and says whether that changed some row.
fn join_links(words: &mut [u64], width: usize, count: usize, links: &[(usize, usize)]) -> bool
    requires rows { AreRows links.now width count words.old }
    requires links { LinksBelow count links.now }
    ensures rows { AreRows links.now width count words.new }
    ensures closed { result ≡ false → AreClosed links.now width count words.new }
    ensures grown { result ≡ true → sum words.old < sum words.new }
{
    let mut is_changed = false;
    for (from, to) in links {
        if join_rows(words, width, *from, *to) {
            is_changed = true;
        }
    }
    is_changed
}

// Joins to a row that of each place that it is known to reach, for each of these pairs of places in
// turn.
fn join_steps(words: &mut [u64], width: usize, count: usize, steps: &[(usize, usize)])
    requires sized { length words.old ≡ count * width }
    requires room { count ≤ 64 * width }
    ensures { (links : List (ℕ × ℕ)) → AreRows links width count words.old
        → AreRows links width count words.new }
{
    for (from, to) in steps {
        if *from < count && *to < count && has_bit(words, width, *from, *to) {
            join_rows(words, width, *from, *to);
        }
    }
}

// Joins rows along the links until no row changes any more.
fn close(words: &mut [u64], width: usize, count: usize, links: &[(usize, usize)])
    requires rows { AreRows links.now width count words.old }
    requires links { LinksBelow count links.now }
    ensures rows { AreRows links.now width count words.new }
    ensures closed { AreClosed links.now width count words.new }
{
    while join_links(words, width, count, links) {}
}

// Joins rows along the links, then by these steps, and then along the links until no row changes
// any more.
fn fill(
    words: &mut [u64],
    width: usize,
    count: usize,
    links: &[(usize, usize)],
    steps: &[(usize, usize)],
)
    requires rows { AreRows links.now width count words.old }
    requires links { LinksBelow count links.now }
    ensures rows { AreRows links.now width count words.new }
    ensures closed { AreClosed links.now width count words.new }
{
    join_links(words, width, count, links);
    join_steps(words, width, count, steps);
    close(words, width, count, links);
}

// Rows whose bits say exactly what each place reaches.
pub(crate) fn reached_rows(
    alloc: Global,
    width: usize,
    count: usize,
    links: &[(usize, usize)],
) -> Result<Vec<u64>, AllocError>
    requires room { count ≤ 64 * width }
    requires links { LinksBelow count links.now }
    ensures sized { IfOk result (λ words. vec_len words ≡ count * width) }
    ensures reached { IfOk result (λ words. AreReached links.now width count words.items) }
{
    let mut words = rows_of_places(alloc, width, count)?;
    let order = steps(alloc, count, links)?;
    fill(&mut words, width, count, links, order.as_slice());
    Ok(words)
}
