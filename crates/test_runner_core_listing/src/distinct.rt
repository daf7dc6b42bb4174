// Whether names differ.
ghost use Rattle.std.specs.Prelude.{◌≡◌, ℕ, List, map, IfOk, IsTrue};
ghost use Rattle.std.specs.List.{IsDistinct};
ghost use Rattle.std.specs.Ordering.{is_lt, nat_cmp};
ghost use Rattle.std.specs.Str.{bytes_eq};
ghost use Rattle.nextest_text.specs.Parts.{lent_texts};
ghost use Rattle.test_runner_core_listing.specs.Hashed.{hash};

use std::alloc::{AllocError, Global};
use std::hash::{FoldHasher, Hasher};

// Whether it is found that no name stands twice among these: by their order where they rise, as
// mostly they do, else by their hashes.
pub(crate) fn differ(alloc: Global, names: &[&str]) -> Result<bool, AllocError>
    ensures { IfOk result (λ found. IsTrue found → IsDistinct bytes_eq (lent_texts names.now)) }
{
    if rise(names) {
        return Ok(true);
    }
    let hashes = hashes_of(alloc, names)?;
    Ok(hashes_differ(hashes))
}

// Whether each name is greater than the one before it.
fn rise(names: &[&str]) -> bool
    ensures { IsTrue result → IsDistinct bytes_eq (lent_texts names.now) }
{
    for place in 1..names.len() {
        if names[place] <= names[place - 1] {
            return false;
        }
    }
    true
}

// The hashes of names.
fn hashes_of(alloc: Global, names: &[&str]) -> Result<Vec<u64>, AllocError>
    ensures { IfOk result (λ it. it.items ≡ map hash (lent_texts names.now)) }
{
    let mut hashes = Vec::with_capacity(alloc, names.len())?;
    for name in names {
        hashes.push(hash_of(name))?;
    }
    Ok(hashes)
}

// The hash of a name.
fn hash_of(name: &str) -> u64
    ensures { result ≡ hash name.now }
{
    let mut hasher = FoldHasher::default();
    hasher.write(name.as_bytes());
    hasher.finish()
}

// Whether no number stands twice among these, so that of names with these hashes none does.
fn hashes_differ(mut hashes: Vec<u64>) -> bool
    ensures { (names : List (List ℕ)) → hashes.items ≡ map hash names
        → IsTrue result → IsDistinct bytes_eq names }
{
    hashes.sort_unstable();
    hashes.is_sorted_by(
        |one: &u64, other: &u64| -> bool
            ensures { result ≡ is_lt (nat_cmp one.now other.now) }
        { one.cmp(other).is_lt() },
    )
}
