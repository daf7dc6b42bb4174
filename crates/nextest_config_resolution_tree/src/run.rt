// A table as a run of a sorted list.
ghost use Rattle.std.specs.Prelude.{◌≡◌, ◌++◌, ◌+◌, ◌<◌, ◌^◌, true, not, map, List, option_map, IfSome};
ghost use Rattle.std.specs.List.{list_all};
ghost use Rattle.toml.specs.View.{view};
ghost use Rattle.nextest_config_resolution_tree.specs.Ends.{End, behind, cut, ends_of, rises};
ghost use Rattle.nextest_config_resolution_tree.specs.Runs.{ahead, alone, below, first_key, leaf_of, within};

use crate::entry::Entry;
use crate::rebuilding::value_in;
use std::alloc::{AllocError, Global};
use std::cmp::Ordering;
use toml::Value;

/// Entries that stand at a path, each behind so many keys: their paths rise behind these, and none
/// leads to another.
#[derive(Clone, Copy)]
pub struct Run<'t> {
    pub(crate) entries: &'t [Entry],
    pub(crate) depth: usize,
    pub ghost rises: { rises (ends_of depth entries.now) ≡ true },
}

impl<'t> Run<'t> {
    ghost use Rattle.std.specs.Prelude.{◌↔◌, IsTrue, length};
    ghost use Rattle.std.specs.Prelude.{IfSome, IfNone, IfOk, Option};
    ghost use Rattle.toml.specs.Data.{Data};
    ghost use Rattle.nextest_config_resolution_tree.specs.Ends.{SortedAt, ends_at};
    ghost use Rattle.nextest_config_resolution_tree.specs.RunOf.{run_of};
    ghost use Rattle.nextest_config_resolution_tree.specs.Runs.{HasNoKey, PartsKey, below_path};
    ghost use Rattle.nextest_config_elements_toml.specs.Paths.{texts};

    /// Whether nothing stands there.
    pub fn is_empty(&self) -> bool
        ensures { IsTrue result ↔ (length (run_of self.now) ≡ 0) }
    {
        self.entries.is_empty()
    }

    /// What stands there alone.
    pub fn leaf(&self) -> Option<&'t Value>
        ensures { option_map (λ it. view it.now) result ≡ leaf_of (run_of self.now) }
    {
        let Some((entry, more)) = self.entries.split_first() else {
            return None;
        };
        if more.is_empty() {
            alone(entry, self.depth)
        } else {
            None
        }
    }

    /// The run of a path.
    pub fn at(&self, path: &[&str]) -> Run<'t>
        ensures { run_of result ≡ below_path (texts path.now) (run_of self.now) }
    {
        match path.split_first() {
            None => *self,
            Some((key, rest)) => self.below(key).at(rest),
        }
    }

    /// The first key at which something stands, the run of the key, and the run of all that stands
    /// behind it; `None` where nothing stands at a key.
    pub fn split_key(&self) -> Option<(&'t str, Run<'t>, Run<'t>)>
        ensures some { IfSome result
            (λ it. PartsKey it.0.now (run_of self.now) (run_of it.1) (run_of it.2)) }
        ensures none { IfNone result (HasNoKey (run_of self.now)) }
    {
        let Some((first, _)) = self.entries.split_first() else {
            return None;
        };
        let Some(key) = key_at(first, self.depth) else {
            return None;
        };
        let (here, behind) = parted(self.entries, self.depth, key);
        Some((
            key,
            Run {
                entries: here,
                depth: self.depth + 1,
            },
            Run {
                entries: behind,
                depth: self.depth,
            },
        ))
    }

    /// What stands there, copied: a leaf, or the table of all that stands below. It takes a time that
    /// is linear in that, and fails only on allocation.
    pub fn value(&self, alloc: Global) -> Result<Option<Value>, AllocError>
        ensures { (found : Option Data) → SortedAt found → run_of self.now ≡ ends_at found
            → IfOk result (λ it. option_map view it ≡ found) }
    {
        value_in(alloc, *self)
    }

    /// The run of a key.
    pub fn below(&self, key: &str) -> Run<'t>
        ensures { run_of result ≡ below key.now (run_of self.now) }
    {
        let found = found(self.entries, self.depth, key);
        let Some((first, _)) = found.split_first() else {
            return Run {
                entries: found,
                depth: self.depth,
            };
        };
        let _count = first.path.len();
        Run {
            entries: found,
            depth: self.depth + 1,
        }
    }
}

// The key of an entry's path behind so many.
fn key_at<'t>(entry: &'t Entry, depth: usize) -> Option<&'t str>
    ensures key { option_map (λ it. it.now) result ≡ first_key (cut depth entry.now) }
    ensures fits { IfSome result (λ _. depth + 1 < 2 ^ 64) }
{
    entry.path.get(depth)
}

// The value of an entry whose path ends there.
fn alone<'t>(entry: &'t Entry, depth: usize) -> Option<&'t Value>
    ensures { option_map (λ it. view it.now) result ≡ alone (cut depth entry.now) }
{
    match key_at(entry, depth) {
        None => Some(&entry.value),
        Some(_) => None,
    }
}

// The entries of a key, by two searches by halves.
fn found<'t>(entries: &'t [Entry], depth: usize, key: &str) -> &'t [Entry]
    ensures { rises (ends_of depth entries.now) ≡ true
        → ends_of depth result.now ≡ map (behind key.now) (below key.now (ends_of depth entries.now)) }
{
    until_after(from_key(entries, depth, key), depth, key)
}

// The entries from a key on.
fn from_key<'t>(entries: &'t [Entry], depth: usize, key: &str) -> &'t [Entry]
    ensures { (front back : List End) → ends_of depth entries.now ≡ front ++ back
        → list_all (ahead key.now) front ≡ true
        → list_all (λ end. not (ahead key.now end)) back ≡ true
        → ends_of depth result.now ≡ back }
{
    let start = entries.partition_point(
        |entry: &Entry| -> bool
            ensures { result ≡ ahead key.entry.now (cut depth entry.now) }
        { is_ahead(entry, depth, key) },
    );
    let (_, behind) = entries.split_at(start);
    behind
}

// The first entries, which stand at a key or below it.
fn until_after<'t>(entries: &'t [Entry], depth: usize, key: &str) -> &'t [Entry]
    ensures { (front back : List End) → ends_of depth entries.now ≡ front ++ back
        → list_all (within key.now) front ≡ true
        → list_all (λ end. not (within key.now end)) back ≡ true
        → ends_of depth result.now ≡ front }
{
    let (front, _) = parted(entries, depth, key);
    front
}

// The first entries, which stand at a key or below it, and the others.
fn parted<'t>(entries: &'t [Entry], depth: usize, key: &str) -> (&'t [Entry], &'t [Entry])
    ensures front { (front back : List End) → ends_of depth entries.now ≡ front ++ back
        → list_all (within key.now) front ≡ true
        → list_all (λ end. not (within key.now end)) back ≡ true
        → ends_of depth result.0.now ≡ front }
    ensures back { (front back : List End) → ends_of depth entries.now ≡ front ++ back
        → list_all (within key.now) front ≡ true
        → list_all (λ end. not (within key.now end)) back ≡ true
        → ends_of depth result.1.now ≡ back }
{
    let count = entries.partition_point(
        |entry: &Entry| -> bool
            ensures { result ≡ within key.entry.now (cut depth entry.now) }
        { is_within(entry, depth, key) },
    );
    entries.split_at(count)
}

// Whether an entry comes before all that stands at a key.
fn is_ahead(entry: &Entry, depth: usize, key: &str) -> bool
    ensures { result ≡ ahead key.now (cut depth entry.now) }
{
    match key_at(entry, depth) {
        None => true,
        Some(first) => match first.cmp(key) {
            Ordering::Less => true,
            Ordering::Equal | Ordering::Greater => false,
        },
    }
}

// Whether an entry stands at a key or below it.
fn is_within(entry: &Entry, depth: usize, key: &str) -> bool
    ensures { result ≡ within key.now (cut depth entry.now) }
{
    match key_at(entry, depth) {
        None => false,
        Some(first) => match first.cmp(key) {
            Ordering::Equal => true,
            Ordering::Less | Ordering::Greater => false,
        },
    }
}
