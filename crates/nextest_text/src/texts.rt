// Texts in one piece of memory.
ghost use Rattle.std.specs.Prelude.{◌≡◌, ◌<◌, ◌+◌, ◌++◌, [], nat_eq, get_or, ℕ, List, Some, IfOk, length, string_bytes};
ghost use Rattle.std.specs.Arc.{arc_str_bytes};
ghost use Rattle.std.specs.Cmp.{partial_equiv_from_equiv};
ghost use Rattle.std.specs.Cmp.Lexicographic.{pointwise, nat_list_eq_equiv, lists_equiv, lists_per};
ghost use Rattle.std.specs.List.{concat, items_where_true};
ghost use Rattle.std.specs.Slice.{IsItemAt};
ghost use Rattle.nextest_text.specs.Parts.{IsLeft, IsPart, lent_texts, part_of};
ghost use Rattle.nextest_text.specs.Spans.{text_at, IsSpan};

use crate::part::Part;
use crate::text::Text;
use std::alloc::{AllocError, Global};
use std::fmt;
use std::marker::Model;
use std::sync::ArcStr;

// Where a text stands in another: from a place up to another.
#[derive(Clone, Copy)]
struct Span {
    start: usize,
    end: usize,
}

/// Texts in one piece of memory, which each `Text` made of them shares. In a clause it is the list
/// of the texts.
pub struct Texts {
    whole: ArcStr,
    spans: Vec<Span>,
}

impl Model for Texts {
    ghost use Rattle.std.specs.Prelude.{List, ℕ, map};
    ghost use Rattle.std.specs.Arc.{arc_str_bytes};
    ghost use Rattle.std.specs.List.{All};
    ghost use Rattle.nextest_text.specs.Spans.{text_at, IsSpan};

    ghost Value = { List (List ℕ) };

    ghost view = { λ it. map (text_at (arc_str_bytes it.whole)) it.spans.items };

    ghost invariant = { λ it. All (IsSpan (arc_str_bytes it.whole)) it.spans.items };
}

// One call drops them, whoever holds them.
impl Drop for Texts {
    fn drop(self) {
        let Self { whole: _, spans: _ } = self;
    }
}

impl Texts {
    /// Copies of some texts, in their order. It fails only on allocation.
    pub fn from_strs(alloc: Global, texts: &[&str]) -> Result<Texts, AllocError>
        ensures { IfOk result (λ it. it ≡ lent_texts texts.now) }
    {
        let whole = ArcStr::from_string(joined(alloc, texts)?)?;
        let mut spans = Vec::with_capacity(alloc, texts.len())?;
        let mut start = 0;
        for text in texts {
            let span = next_span(&whole, start, text);
            spans.push(span)?;
            start = span.end;
        }
        Ok(Texts { whole, spans })
    }

    /// How many texts there are.
    pub fn len(&self) -> usize
        ensures { result ≡ length self.now }
    {
        self.spans.len()
    }

    /// Whether there are none.
    pub fn is_empty(&self) -> bool
        ensures { result ≡ nat_eq (length self.now) 0 }
    {
        self.spans.is_empty()
    }

    /// The text at an index, lent; `None` where there are not so many.
    pub fn get(&self, index: usize) -> Option<&str>
        ensures { IsItemAt self.now index result }
    {
        if index < self.len() {
            Some(self.nth(index))
        } else {
            None
        }
    }

    // The text at an index, lent.
    fn nth(&self, index: usize) -> &str
        requires { index < length self.now }
        ensures { IsItemAt self.now index (Some result) }
    {
        let span = self.spans[index];
        &self.whole.as_str()[span.start..span.end]
    }

    /// The texts, lent. It fails only on allocation.
    pub fn to_strs(&self) -> Result<Vec<&str>, AllocError>
        ensures { IfOk result (λ it. lent_texts it.items ≡ self.now) }
    {
        let mut texts = Vec::with_capacity(*self.spans.allocator(), self.len())?;
        for index in 0..self.len() {
            texts.push(self.nth(index))?;
        }
        Ok(texts)
    }

    /// The text at an index, which shares the memory of all of them. It fails only on allocation.
    pub fn to_text(&self, index: usize) -> Result<Text, AllocError>
        requires within { index < length self.now }
        ensures { IfOk result (λ text. text ≡ get_or self.now index []) }
    {
        let span = self.spans[index];
        Ok(Text::of_part(Part::new(&self.whole, span.start, span.end)?))
    }

    /// Those texts at whose index `keep` says `true`, in their order and in the memory of all of
    /// them. It fails only on allocation.
    pub fn filtered(&self, keep: &[bool]) -> Result<Texts, AllocError>
        ensures { IfOk result (λ it. it ≡ items_where_true keep.now self.now) }
    {
        let mut spans = Vec::with_capacity(*self.spans.allocator(), count_of(keep))?;
        for index in 0..self.spans.len().min(keep.len()) {
            if !keep[index] {
                continue;
            }
            spans.push(self.spans[index])?;
        }
        Ok(Texts {
            whole: self.whole.clone()?,
            spans,
        })
    }
}

// Where a text stands that another has from a place on.
fn next_span(whole: &ArcStr, start: usize, text: &str) -> Span
    requires { (left : List ℕ) × IsLeft (arc_str_bytes whole.now) start (text.now ++ left) }
    ensures inside { IsSpan (arc_str_bytes whole.now) result }
    ensures text { text_at (arc_str_bytes whole.now) result ≡ text.now }
    ensures left { (left : List ℕ) → IsLeft (arc_str_bytes whole.now) start (text.now ++ left)
        → IsLeft (arc_str_bytes whole.now) result.end left }
{
    // Its length is known so, and no sum wraps.
    let _whole = whole.as_str();
    Span {
        start,
        end: start + text.len(),
    }
}

// Texts, one behind another.
fn joined(alloc: Global, texts: &[&str]) -> Result<String, AllocError>
    ensures { IfOk result (λ it. string_bytes it ≡ concat (lent_texts texts.now)) }
{
    let mut whole = String::with_capacity(alloc, length_of(texts))?;
    for text in texts {
        whole.push_str(text)?;
    }
    Ok(whole)
}

// How many bytes texts have, for which room is made at once.
fn length_of(texts: &[&str]) -> usize {
    let mut count: usize = 0;
    for text in texts {
        count = count.saturating_add(text.len());
    }
    count
}

// How many of these are true, for which room is made at once.
fn count_of(keep: &[bool]) -> usize {
    let mut count: usize = 0;
    for kept in keep {
        count = count.saturating_add(usize::from(*kept));
    }
    count
}

impl Clone for Texts {
    ghost is_clone = { λ original copy. copy ≡ original };

    fn clone(&self) -> Result<Texts, AllocError> {
        Ok(Texts {
            whole: self.whole.clone()?,
            spans: self.spans.clone()?,
        })
    }
}

impl PartialEq for Texts {
    ghost eq = { pointwise (pointwise nat_eq) };

    ghost laws = { lists_per (partial_equiv_from_equiv nat_list_eq_equiv) };

    fn eq(&self, other: &Texts) -> bool {
        if self.len() != other.len() {
            return false;
        }
        for index in 0..self.len() {
            if self.nth(index) != other.nth(index) {
                return false;
            }
        }
        true
    }
}

impl Eq for Texts {
    ghost laws = { lists_equiv nat_list_eq_equiv };
}

impl fmt::Debug for Texts {
    fn fmt<W: fmt::Write>(&self, f: &mut fmt::Formatter<W>) -> fmt::Result {
        let mut list = f.debug_list();
        for index in 0..self.len() {
            list.entry(&self.nth(index));
        }
        list.finish()
    }
}
