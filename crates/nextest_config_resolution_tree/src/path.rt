// Paths of which many share all keys but the last.
ghost use Rattle.std.specs.Prelude.{◌≡◌, ◌++◌, ◌∷◌, [], option_map, string_bytes, IfOk};
ghost use Rattle.nextest_config_resolution_tree.specs.Keys.{keys_of};

use std::alloc::{AllocError, Global};
use std::marker::Model;
use std::rc::Rc;
use std::sync::ArcStr;

/// The keys that lead to what stands somewhere, the outermost first. All that stands in one table
/// shares those that lead to the table, and no key's text is copied. In a clause it is the list of
/// the keys.
pub struct SharedPath {
    above: Rc<Vec<ArcStr>>,
    // its key in the table; `None` of a whole tree
    key: Option<ArcStr>,
}

impl Model for SharedPath {
    ghost use Rattle.std.specs.Prelude.{List, ℕ};
    ghost use Rattle.nextest_config_resolution_tree.specs.Keys.{path_in};

    ghost Value = { List (List ℕ) };

    ghost view = { λ it. path_in it.above.value.items it.key };
}

// One call drops it, whoever holds it.
impl Drop for SharedPath {
    fn drop(self) {
        let Self { above: _, key: _ } = self;
    }
}

impl SharedPath {
    ghost use Rattle.std.specs.Prelude.{◌+◌, ◌<◌, ◌^◌, length, IfSome};
    ghost use Rattle.std.specs.List.{slice_get};

    // The path of a whole tree.
    pub(crate) fn root(alloc: Global) -> Result<SharedPath, AllocError>
        ensures { IfOk result (λ it. it ≡ []) }
    {
        Ok(SharedPath {
            above: Rc::new(alloc, Vec::new(alloc))?,
            key: None,
        })
    }

    /// How many keys there are.
    pub fn len(&self) -> usize
        ensures { result ≡ length self.now }
    {
        match &self.key {
            Some(_) => self.above.len() + 1,
            None => self.above.len(),
        }
    }

    /// The key at an index; `None` where there are not so many.
    pub fn get(&self, index: usize) -> Option<&str>
        ensures key { option_map (λ it. it.now) result ≡ slice_get self.now index }
        ensures fits { IfSome result (λ _. index + 1 < 2 ^ 64) }
    {
        if let Some(key) = self.above.get(index) {
            return Some(key.as_str());
        }
        if index != self.above.len() {
            return None;
        }
        match &self.key {
            Some(key) => Some(key.as_str()),
            None => None,
        }
    }

    // The same path, of a table, for what stands in the table.
    pub(crate) fn into_table(self, alloc: Global) -> Result<TablePath, AllocError>
        ensures { IfOk result (λ it. it ≡ self) }
    {
        let SharedPath { above, key } = self;
        let mut keys = with_room(alloc, above.as_slice())?;
        if let Some(key) = key {
            keys.push(key)?;
        }
        Ok(TablePath {
            keys: Rc::new(alloc, keys)?,
        })
    }
}

// The keys that lead to a table. In a clause it is the list of them.
pub(crate) struct TablePath {
    keys: Rc<Vec<ArcStr>>,
}

impl Model for TablePath {
    ghost use Rattle.std.specs.Prelude.{List, ℕ};
    ghost use Rattle.nextest_config_resolution_tree.specs.Keys.{keys_of};

    ghost Value = { List (List ℕ) };

    ghost view = { λ it. keys_of it.keys.value.items };
}

// One call drops it, whoever holds it.
impl Drop for TablePath {
    fn drop(self) {
        let Self { keys: _ } = self;
    }
}

impl TablePath {
    // The path of what stands at a key of the table.
    pub(crate) fn child(&self, key: String) -> Result<SharedPath, AllocError>
        ensures { IfOk result (λ it. it ≡ self.now ++ string_bytes key ∷ []) }
    {
        Ok(SharedPath {
            above: self.keys.clone()?,
            key: Some(ArcStr::from_string(key)?),
        })
    }
}

// Keys, with room for one more.
fn with_room(alloc: Global, keys: &[ArcStr]) -> Result<Vec<ArcStr>, AllocError>
    ensures { IfOk result (λ it. keys_of it.items ≡ keys_of keys.now) }
{
    let mut copied = Vec::with_capacity(alloc, keys.len().saturating_add(1))?;
    for key in keys {
        copied.push(key.clone()?)?;
    }
    Ok(copied)
}
