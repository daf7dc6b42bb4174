// The faults that were found so far.
use crate::error::ParseSingleError;
use nextest_filtering_ast::SourceSpan;
use std::alloc::{AllocError, Global};
use std::marker::Model;

/// The faults of a text, in the order in which they were found.
#[derive(Drop)]
pub struct Faults<'i> {
    input: &'i str,
    list: Vec<ParseSingleError>,
    hopeless: bool,
}

impl<'i> Model for Faults<'i> {
    ghost use Rattle.std.specs.Prelude.{◌≡◌, ◌<◌, true, length};
    ghost use Rattle.nextest_filtering_arguments.specs.Faults.{FaultsSoFar, AreFaultsOf};

    ghost Value = { FaultsSoFar };

    ghost view = { λ f. record {
      input = f.input.now;
      list = f.list.items;
      hopeless = f.hopeless;
    } };

    ghost invariant = { λ f. AreFaultsOf f.input.now f.list.items
        × (f.hopeless ≡ true → 0 < length f.list.items) };
}

impl<'i> Faults<'i> {
    ghost use Rattle.std.specs.Prelude.{◌≡◌, ◌+◌, ◌++◌, ◌∷◌, ◌-◌, ◌<◌, ◌≤◌, [], true, false, OnOk, OnErr, length};
    ghost use Rattle.nextest_filtering_arguments.specs.Faults.{AreFaultsOf, IsFaultOf, IsSuffix, here, within, count};

    /// No faults so far.
    pub fn new(alloc: Global, input: &'i str) -> Self
        ensures input { result.input ≡ input.now }
        ensures none { count result ≡ 0 }
        ensures hopeful { result.hopeless ≡ false }
    {
        Faults {
            input,
            list: Vec::new(alloc),
            hopeless: false,
        }
    }

    /// The faults so far, lent.
    pub fn as_slice(&self) -> &[ParseSingleError]
        ensures { result.now ≡ self.now.list }
    {
        self.list.as_slice()
    }

    /// The span of so many bytes where `text`, a rest of the input, begins.
    pub fn span(&self, text: &str, length: usize) -> SourceSpan
        requires suffix { IsSuffix text.now self.now.input }
        ensures { result ≡ here self.now.input text.now length }
    {
        SourceSpan {
            offset: self.input.len() - text.len(),
            length,
        }
    }

    /// The span of so many bytes behind `before` bytes of `text`, a rest of the input.
    pub(crate) fn span_within(&self, text: &str, before: usize, size: usize) -> SourceSpan
        requires suffix { IsSuffix text.now self.now.input }
        requires inside { before ≤ length text.now }
        ensures { result ≡ within self.now.input text.now before size }
    {
        SourceSpan {
            offset: self.input.len() - text.len() + before,
            length: size,
        }
    }

    /// Adds a fault behind the others. It fails only on allocation, and then nothing changes.
    pub fn report(&mut self, fault: ParseSingleError) -> Result<(), AllocError>
        requires fault { IsFaultOf self.old.input fault }
        ensures input { self.new.input ≡ self.old.input }
        ensures fault { OnOk result (self.new.list ≡ self.old.list ++ fault ∷ []) }
        ensures kept { OnErr result (self.new.list ≡ self.old.list) }
        ensures ok { OnOk result (count self.new ≡ count self.old + 1) }
        ensures err { OnErr result (count self.new ≡ count self.old) }
        ensures hopeless { self.new.hopeless ≡ self.old.hopeless }
    {
        self.list.push(fault)?;
        Ok(())
    }

    /// From here on the text gets no tree.
    pub fn give_up(&mut self)
        requires some { 0 < count self.old }
        ensures input { self.new.input ≡ self.old.input }
        ensures list { self.new.list ≡ self.old.list }
        ensures hopeless { self.new.hopeless ≡ true }
    {
        self.hopeless = true;
    }

    /// Whether the text gets no tree.
    pub fn is_hopeless(&self) -> bool
        ensures value { result ≡ self.now.hopeless }
        ensures reported { result ≡ true → 0 < count self.now }
    {
        self.hopeless
    }

    /// The faults, in the order in which they were found.
    pub fn into_list(self) -> Vec<ParseSingleError>
        ensures list { result.items ≡ self.entry.list }
        ensures faithful { AreFaultsOf self.entry.input result.items }
    {
        self.list
    }
}
