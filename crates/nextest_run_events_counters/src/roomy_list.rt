// A list with room for more elements.
ghost use Rattle.std.specs.Prelude.{◌≡◌, ◌+◌, ◌<◌, ◌≤◌, [], ◌∷◌, ◌++◌, OnOk, OnErr, IsOk};
ghost use Rattle.std.specs.Cmp.{on_equiv, on_per};
ghost use Rattle.std.specs.Cmp.Lexicographic.{pointwise, lists_equiv, lists_per};
ghost use Rattle.std.specs.Ordering.{on};
ghost use Rattle.nextest_text.specs.Clones.{ClonesAll};

use nextest_text::Listing;
use std::alloc::AllocError;
use std::fmt;
use std::marker::Model;

// A list with room for more elements. In a clause it is the list, and for how many more elements
// there is room. Lists compare by their elements alone.
#[derive(Drop)]
pub(crate) struct RoomyList<T> {
    elements: Vec<T>,
}

impl<T> Model for RoomyList<T> {
    ghost use Rattle.std.specs.Prelude.{◌-◌, vec_len, vec_capacity};
    ghost use Rattle.nextest_run_events_counters.specs.Attempts.{Roomy};

    ghost Value = { Roomy T };

    ghost view = { λ l. record { items = l.elements.items; room = vec_capacity l.elements - vec_len l.elements } };
}

impl<T> RoomyList<T> {
    // The elements, lent.
    pub(crate) fn as_slice(&self) -> &[T]
        ensures { result.now ≡ self.now.items }
    {
        self.elements.as_slice()
    }

    // Makes room for one more element. It fails only on allocation, and then nothing changes.
    pub(crate) fn reserve_one(&mut self) -> Result<(), AllocError>
        ensures ok { OnOk result (0 < self.new.room) }
        ensures items { self.new.items ≡ self.old.items }
        ensures room { self.old.room ≤ self.new.room }
        ensures enough { 0 < self.old.room → IsOk result }
        ensures err { OnErr result (self.new ≡ self.old) }
    {
        self.elements.reserve(1)
    }

    // Adds an element at the end, for which there is room. It takes no memory.
    pub(crate) fn push_reserved(&mut self, item: T)
        requires { 0 < self.old.room }
        ensures items { self.new.items ≡ self.old.items ++ item ∷ [] }
        ensures room { self.old.room ≤ self.new.room + 1 }
    {
        self.elements.push(item).unwrap();
    }
}

impl<T> From<Listing<T>> for RoomyList<T> {
    ghost from_gives = { λ items list. list.items ≡ items };

    fn from(items: Listing<T>) -> RoomyList<T> {
        RoomyList {
            elements: Vec::from(items),
        }
    }
}

impl<T> From<RoomyList<T>> for Vec<T> {
    ghost from_gives = { λ list elements. elements.items ≡ list.items };

    fn from(list: RoomyList<T>) -> Vec<T> {
        let RoomyList { elements } = list;
        elements
    }
}

impl<T: Clone> Clone for RoomyList<T> {
    ghost is_clone = { λ original copy. ClonesAll T.is_clone original.items copy.items };

    fn clone(&self) -> Result<RoomyList<T>, AllocError> {
        Ok(RoomyList {
            elements: self.elements.clone()?,
        })
    }
}

impl<T: PartialEq> PartialEq for RoomyList<T> {
    ghost eq = { on (λ list. list.items) (pointwise T.eq) };

    ghost laws = { on_per (λ list. list.items) (lists_per T.laws) };

    fn eq(&self, other: &RoomyList<T>) -> bool {
        self.elements == other.elements
    }
}

impl<T: Eq> Eq for RoomyList<T> {
    ghost laws = { on_equiv (λ list. list.items) (lists_equiv T.Eq.laws) };
}

impl<T: fmt::Debug> fmt::Debug for RoomyList<T> {
    fn fmt<W: fmt::Write>(&self, f: &mut fmt::Formatter<W>) -> fmt::Result {
        fmt::Debug::fmt(&self.elements, f)
    }
}
