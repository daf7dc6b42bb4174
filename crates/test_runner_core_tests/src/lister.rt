// A lister of one's own: it is asked for each listed binary once, and its answers are the run's
// tests. Where it has no memory, no further binary is asked, and nothing is written.
use super::judging::{End, end_of_log};
use super::runs::PASSES_AT_SECOND_TRY;
use nextest_text::{Listing, Text, Texts};
use std::test::Fail;
use test_runner_core::{
    Binary, BinaryTests, Inputs, ListFault, Lister, MemoryReader, MemoryWriter, Workspace,
};

// Answers what a binary says of itself, while it has memory for so many answers.
#[derive(Drop)]
struct OwnLister {
    asked: Listing<Text>,
    room: usize,
}

impl Lister for OwnLister {
    ghost use Rattle.test_runner_core_workspace.specs.Lister.{answer_of};

    ghost answer = { λ _ binary. answer_of binary.tests };

    ghost asked = { λ lister. lister.asked };

    fn list(&mut self, binary: &Binary) -> Result<Texts, ListFault> {
        let id = binary.id.clone()?;
        self.asked.push(id)?;
        if self.asked.len() > self.room {
            return Err(ListFault::OutOfMemory);
        }
        match &binary.tests {
            BinaryTests::Names(names) => Ok(names.clone()?),
            BinaryTests::Fault(cause) => Err(ListFault::Cause(cause.clone()?)),
        }
    }
}

// The inputs of the first run, and a binary q without tests.
const TWO_BINARIES: &str =
    r#"{"workspace":{"packages":[{"id":"p","name":"p"}],"links":[],"binaries":[{"id":"p","name":"p","package":"p","kind":"lib","platform":"target","tests":["a","b"]},{"id":"q","name":"q","package":"p","kind":"lib","platform":"host","tests":[]}]},"sources":[{"kind":"explicit","path":"nextest.toml","text":"[profile.default]\nretries = 1\nfail-fast = false\n"}],"current_version":"0.9.100"}"#;

#[test]
fn a_lister_of_ones_own_answers(rt: HostRuntime) -> Result<(), Fail> {
    let run = &PASSES_AT_SECOND_TRY;
    let (_, log) = run.parts();
    let inputs = Inputs::from_json(rt.alloc(), TWO_BINARIES.as_bytes())?;
    for (room, due) in [
        (2, (End::Status(run.status), run.report, 2)),
        (1, (End::Memory, b"".as_slice(), 2)),
        (0, (End::Memory, b"".as_slice(), 1)),
    ] {
        let mut lister = OwnLister {
            asked: Listing::new(rt.alloc()),
            room,
        };
        let mut log = MemoryReader::new(log.as_bytes(), 4096);
        let mut report = MemoryWriter::new(rt.alloc(), run.report.len(), 4096)?;
        let end = end_of_log(rt.alloc(), &inputs, &mut lister, &mut log, &mut report);
        let asked = lister.asked.as_slice();
        assert!(rt; (end, report.written(), asked.len()) == due);
    }
    let workspace = Workspace::read(rt.alloc(), inputs.workspace.clone()?)?;
    assert!(rt; workspace.clone()?.into_record() == inputs.workspace);
    Ok(())
}
