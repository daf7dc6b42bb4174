// The id of a binary.
ghost use Rattle.std.specs.Prelude.{◌≡◌, nat_eq, Some, IfOk, refl};
ghost use Rattle.std.specs.Cmp.{partial_equiv_from_equiv};
ghost use Rattle.std.specs.Cmp.Lexicographic.{pointwise, slice_cmp, nat_list_eq_equiv, nat_list_cmp_total, texts_ties, texts_po};
ghost use Rattle.std.specs.Hash as fed;
ghost use Rattle.std.specs.Ordering.{nat_cmp};

use std::alloc::{AllocError, Global};
use std::cmp::Ordering;
use std::convert::AsStr;
use std::fmt;
use std::hash::{Hash, Hasher};
use std::marker::Model;
use std::sync::ArcStr;

/// The id of a test binary: its copies share their memory, since each test of the binary has one.
/// In a clause it is the list of its bytes.
pub struct RustBinaryId {
    id: ArcStr,
}

// One call drops it, whoever holds it.
impl Drop for RustBinaryId {
    fn drop(self) {
        let Self { id: _ } = self;
    }
}

impl Model for RustBinaryId {
    ghost use Rattle.std.specs.Arc.{arc_str_bytes};
    ghost use Rattle.std.specs.Prelude.{List, ℕ};

    ghost Value = { List ℕ };

    ghost view = { λ it. arc_str_bytes it.id };
}

impl RustBinaryId {
    /// The id that these bytes are, in memory of its own. It fails only on allocation.
    pub fn new(alloc: Global, id: &str) -> Result<RustBinaryId, AllocError>
        ensures { IfOk result (λ it. it ≡ id.now) }
    {
        Ok(RustBinaryId {
            id: ArcStr::from_str(alloc, id)?,
        })
    }

    /// The id, lent.
    pub fn as_str(&self) -> &str
        ensures { result.now ≡ self.now }
    {
        self.id.as_str()
    }
}

impl AsStr for RustBinaryId {
    ghost text = { λ id. id };

    fn as_str(&self) -> &str {
        RustBinaryId::as_str(self)
    }
}

impl Clone for RustBinaryId {
    ghost is_clone = { λ original copy. copy ≡ original };

    fn clone(&self) -> Result<RustBinaryId, AllocError> {
        Ok(RustBinaryId {
            id: self.id.clone()?,
        })
    }
}

impl PartialEq for RustBinaryId {
    ghost eq = { pointwise nat_eq };

    ghost laws = { partial_equiv_from_equiv nat_list_eq_equiv };

    fn eq(&self, other: &RustBinaryId) -> bool {
        self.id == other.id
    }
}

impl Eq for RustBinaryId {
    ghost laws = { nat_list_eq_equiv };
}

impl PartialOrd for RustBinaryId {
    ghost partial_cmp = { λ x y. Some (slice_cmp nat_cmp x y) };

    ghost laws = { texts_po };

    fn partial_cmp(&self, other: &RustBinaryId) -> Option<Ordering> {
        Some(self.cmp(other))
    }
}

impl Ord for RustBinaryId {
    ghost cmp = { slice_cmp nat_cmp };

    ghost total = { nat_list_cmp_total };

    ghost matches_partial_cmp = { λ x y. refl };

    ghost matches_eq = { texts_ties };

    fn cmp(&self, other: &RustBinaryId) -> Ordering {
        self.id.cmp(&other.id)
    }
}

impl Hash for RustBinaryId {
    ghost use Rattle.std.specs.Cmp.Rules.{hashing};
    ghost use Rattle.std.proofs.Common.{rules};

    ghost hash_input = { fed.str };

    ghost respects_eq = { Prim.search (hashing, rules) };

    fn hash<H: Hasher>(&self, state: &mut H) {
        self.id.hash(state);
    }
}

impl fmt::Display for RustBinaryId {
    ghost output = { Some };

    fn fmt<W: fmt::Write>(&self, f: &mut fmt::Formatter<W>) -> fmt::Result {
        fmt::Display::fmt(&self.id, f)
    }
}

impl fmt::Debug for RustBinaryId {
    fn fmt<W: fmt::Write>(&self, f: &mut fmt::Formatter<W>) -> fmt::Result {
        fmt::Debug::fmt(&self.id, f)
    }
}
