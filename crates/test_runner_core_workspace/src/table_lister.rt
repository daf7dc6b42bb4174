// A lister that answers by a record.
ghost use Rattle.std.specs.Prelude.{◌≡◌, [], IfOk};
ghost use Rattle.test_runner_core_workspace.specs.Lister.{IsAnswer, IsIndex, answer_of};

use crate::list_fault::ListFault;
use crate::lister::Lister;
use crate::record::{Binary, BinaryTests, WorkspaceRecord};
use nextest_text::{Listing, Text, Texts};
use std::alloc::{AllocError, Global};
use std::collections::BTreeMap;
use std::marker::Model;

/// A lister that answers by a record, which is lent. An id answers what its first binary in the
/// record lists, and an id that the record hasn't is its own cause. In a clause it is the record
/// and the ids that it was asked for.
#[derive(Drop)]
pub struct TableLister<'a> {
    alloc: Global,
    record: &'a WorkspaceRecord,
    index: BTreeMap<&'a str, &'a Binary>,
    asked: Listing<Text>,
}

impl<'a> Model for TableLister<'a> {
    ghost use Rattle.test_runner_core_workspace.specs.Lister.{Table, IsIndex};

    ghost Value = { Table };

    ghost view = { λ l. record { workspace = l.record.now; asked = l.asked } };

    ghost invariant = { λ l. IsIndex l.index l.record.now.binaries };
}

impl<'a> TableLister<'a> {
    /// A lister that answers by `record`, and that wasn't asked yet. It fails only on allocation.
    pub fn new(alloc: Global, record: &'a WorkspaceRecord) -> Result<Self, AllocError>
        ensures answers { IfOk result (λ lister. lister.workspace ≡ «record».now) }
        ensures unasked { IfOk result (λ lister. lister.asked ≡ []) }
    {
        Ok(TableLister {
            alloc,
            record,
            index: index_of(alloc, record.binaries.as_slice())?,
            asked: Listing::new(alloc),
        })
    }

    /// The ids of the binaries that it was asked for, in order.
    pub fn asked(&self) -> &[Text]
        ensures { result.now ≡ self.now.asked }
    {
        self.asked.as_slice()
    }
}

impl<'a> Clone for TableLister<'a> {
    ghost use Rattle.std.specs.Prelude.{◌≡◌};

    ghost is_clone = { λ original copy. copy ≡ original };

    fn clone(&self) -> Result<TableLister<'a>, AllocError> {
        Ok(TableLister {
            alloc: self.alloc,
            record: self.record,
            index: index_of(self.alloc, self.record.binaries.as_slice())?,
            asked: self.asked.clone()?,
        })
    }
}

impl<'a> Lister for TableLister<'a> {
    ghost use Rattle.test_runner_core_workspace.specs.Lister.{table_answer};

    ghost answer = { λ lister binary. table_answer lister.workspace binary.id };

    ghost asked = { λ lister. lister.asked };

    fn list(&mut self, binary: &Binary) -> Result<Texts, ListFault> {
        let id = binary.id.clone()?;
        self.asked.push(id)?;
        match self.index.get(binary.id.as_str()) {
            Some(found) => listed(&found.tests),
            None => Err(ListFault::Cause(binary.id.clone()?)),
        }
    }
}

// What a binary lists, as an answer.
fn listed(tests: &BinaryTests) -> Result<Texts, ListFault>
    ensures { IsAnswer result (answer_of tests.now) }
{
    match tests {
        BinaryTests::Names(names) => Ok(names.clone()?),
        BinaryTests::Fault(cause) => Err(ListFault::Cause(cause.clone()?)),
    }
}

// From each id to the first binary that has it.
fn index_of<'a>(
    alloc: Global,
    binaries: &'a [Binary],
) -> Result<BTreeMap<&'a str, &'a Binary>, AllocError>
    ensures { IfOk result (λ index. IsIndex index binaries.now) }
{
    let mut index = BTreeMap::new(alloc);
    for binary in binaries {
        let id = binary.id.as_str();
        if !index.contains_key(id) {
            index.insert(id, binary)?;
        }
    }
    Ok(index)
}
