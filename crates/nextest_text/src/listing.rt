// An owned list, seen as the plain list of its elements.
ghost use Rattle.std.specs.Prelude.{◌≡◌, nat_eq, [], ◌∷◌, ◌++◌, IfErr, OnOk, OnErr, length};
ghost use Rattle.std.specs.Cmp.Lexicographic.{pointwise, slice_cmp, slice_partial_cmp, lists_equiv, lists_agrees, lists_total, lists_ties, lists_po, lists_per};
ghost use Rattle.std.specs.Hash as fed;
ghost use Rattle.std.specs.Hash.{items_Alike};
ghost use Rattle.nextest_text.specs.Clones.{ClonesAll};

use std::alloc::{AllocError, AllocFailed, Global};
use std::cmp::Ordering;
use std::convert::AsSlice;
use std::fmt;
use std::hash::{Hash, Hasher};
use std::marker::Model;

/// An owned list. In a clause it is the plain list of its elements.
#[derive(Drop)]
pub struct Listing<T> {
    items: Vec<T>,
}

impl<T> Model for Listing<T> {
    ghost use Rattle.std.specs.Prelude.{List};

    ghost Value = { List T };

    ghost view = { λ l. l.items.items };
}

impl<T> Listing<T> {
    /// The empty list, which takes no memory.
    pub fn new(alloc: Global) -> Self
        ensures { result ≡ [] }
    {
        Listing {
            items: Vec::new(alloc),
        }
    }

    /// The elements, lent.
    pub fn as_slice(&self) -> &[T]
        ensures { result.now ≡ self.now }
    {
        self.items.as_slice()
    }

    /// How many elements there are.
    pub fn len(&self) -> usize
        ensures { result ≡ length self.now }
    {
        self.items.len()
    }

    /// Whether there are none.
    pub fn is_empty(&self) -> bool
        ensures { result ≡ nat_eq (length self.now) 0 }
    {
        self.items.is_empty()
    }

    /// Adds an element at the end. Where there is no memory the list stays and the element comes
    /// back.
    pub fn push(&mut self, item: T) -> Result<(), AllocFailed<T>>
        ensures ok { OnOk result (self.new ≡ self.old ++ item ∷ []) }
        ensures err { OnErr result (self.new ≡ self.old) }
        ensures back { IfErr result (λ failed. failed.value ≡ item) }
    {
        self.items.push(item)
    }
}

impl<T> From<Vec<T>> for Listing<T> {
    ghost from_gives = { λ items list. list ≡ items.items };

    fn from(items: Vec<T>) -> Listing<T> {
        Listing { items }
    }
}

impl<T> From<Listing<T>> for Vec<T> {
    ghost from_gives = { λ list items. items.items ≡ list };

    fn from(list: Listing<T>) -> Vec<T> {
        let Listing { items } = list;
        items
    }
}

impl<T> AsSlice<T> for Listing<T> {
    ghost items = { λ list. list };

    fn as_slice(&self) -> &[T] {
        Listing::as_slice(self)
    }
}

impl<T: Clone> Clone for Listing<T> {
    ghost is_clone = { ClonesAll T.is_clone };

    fn clone(&self) -> Result<Listing<T>, AllocError> {
        Ok(Listing {
            items: self.items.clone()?,
        })
    }
}

impl<T: PartialEq> PartialEq for Listing<T> {
    ghost eq = { pointwise T.eq };

    ghost laws = { lists_per T.laws };

    fn eq(&self, other: &Listing<T>) -> bool {
        self.items == other.items
    }
}

impl<T: Eq> Eq for Listing<T> {
    ghost laws = { lists_equiv T.Eq.laws };
}

impl<T: PartialOrd> PartialOrd for Listing<T> {
    ghost partial_cmp = { slice_partial_cmp T.partial_cmp };

    ghost laws = { lists_po T.PartialOrd.laws };

    fn partial_cmp(&self, other: &Listing<T>) -> Option<Ordering> {
        self.items.partial_cmp(&other.items)
    }
}

impl<T: Ord> Ord for Listing<T> {
    ghost cmp = { slice_cmp T.cmp };

    ghost total = { lists_total T.total };

    ghost matches_partial_cmp = { lists_agrees T.matches_partial_cmp };

    ghost matches_eq = { lists_ties T.cmp T.matches_eq };

    fn cmp(&self, other: &Listing<T>) -> Ordering {
        self.items.cmp(&other.items)
    }
}

impl<T: Hash> Hash for Listing<T> {
    ghost hash_input = { fed.slice T.hash_input };

    ghost respects_eq = { (items_Alike (record { fed = T.respects_eq })).fed };

    fn hash<H: Hasher>(&self, state: &mut H) {
        self.items.hash(state);
    }
}

impl<T: fmt::Debug> fmt::Debug for Listing<T> {
    fn fmt<W: fmt::Write>(&self, f: &mut fmt::Formatter<W>) -> fmt::Result {
        fmt::Debug::fmt(&self.items, f)
    }
}
