// Who lists a binary's tests.
ghost use Rattle.std.specs.Prelude.{◌≡◌, ℕ, List};
ghost use Rattle.test_runner_core_workspace.specs.Lister.{Answer, IsAnswer, Asks};
ghost use Rattle.test_runner_core_workspace.specs.declared.record.Binary.{Binary};

use crate::list_fault::ListFault;
use crate::record::Binary;
use nextest_text::Texts;

/// Who lists a binary's tests.
pub trait Lister {
    /// What a binary answers, which depends on the binary alone.
    ghost answer: { Self → Binary → Answer };

    /// The ids of the binaries that were asked, in order.
    ghost asked: { Self → List (List ℕ) };

    /// The names of the binary's tests, in its order. An `Err` says why it can't list them, or that
    /// there was no memory, where the binary may count as asked or not. Every binary answers
    /// afterwards as it did before.
    fn list(&mut self, binary: &Binary) -> Result<Texts, ListFault>
        ensures answers { IsAnswer result (answer self.old binary.now) }
        ensures stays { (other : Binary) → answer self.new other ≡ answer self.old other }
        ensures asks { Asks result (asked self.old) binary.now.id (asked self.new) };
}
