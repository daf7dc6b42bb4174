// A part of a text whose memory others share.
ghost use Rattle.std.specs.Prelude.{◌≡◌};
ghost use Rattle.std.specs.Arc.{arc_str_bytes};
ghost use Rattle.nextest_text.specs.Parts.{IsPart};

use std::alloc::AllocError;
use std::marker::Model;
use std::sync::ArcStr;

// A part of a text, from a place up to another. In a clause it is the list of its bytes.
pub(crate) struct Part {
    whole: ArcStr,
    start: usize,
    end: usize,
    ghost inside: { IsPart (arc_str_bytes whole) start end },
}

impl Model for Part {
    ghost use Rattle.std.specs.Prelude.{List, ℕ};
    ghost use Rattle.std.specs.Arc.{arc_str_bytes};
    ghost use Rattle.nextest_text.specs.Parts.{part_of};

    ghost Value = { List ℕ };

    ghost view = { λ it. part_of (arc_str_bytes it.whole) it.start it.end };
}

// One call drops it, whoever holds it.
impl Drop for Part {
    fn drop(self) {
        let Self {
            whole: _,
            start: _,
            end: _,
        } = self;
    }
}

impl Part {
    ghost use Rattle.std.specs.Prelude.{IfOk};
    ghost use Rattle.nextest_text.specs.Parts.{part_of};

    // The part of a text from a place up to another. It fails only on allocation.
    pub(crate) fn new(whole: &ArcStr, start: usize, end: usize) -> Result<Part, AllocError>
        requires { IsPart (arc_str_bytes whole.now) start end }
        ensures { IfOk result (λ it. it ≡ part_of (arc_str_bytes whole.now) start end) }
    {
        Ok(Part {
            whole: whole.clone()?,
            start,
            end,
        })
    }

    // The text, lent.
    pub(crate) fn as_str(&self) -> &str
        ensures { result.now ≡ self.now }
    {
        &self.whole.as_str()[self.start..self.end]
    }
}

impl Clone for Part {
    ghost is_clone = { λ original copy. copy ≡ original };

    fn clone(&self) -> Result<Part, AllocError> {
        Part::new(&self.whole, self.start, self.end)
    }
}
