// A workspace whose record was checked.
ghost use Rattle.std.specs.Prelude.{◌≡◌, IfOk, None};
ghost use Rattle.test_runner_core_workspace.specs.Ids.{has_text};
ghost use Rattle.test_runner_core_workspace.specs.Workspace.{refusal_by, refusal_of, Checks, Reads};

use crate::ids::{
    has_bad, has_repeated, ids_of_binaries, ids_of_packages, links_are_known, packages_are_known,
    set_of,
};
use crate::record::WorkspaceRecord;
use crate::workspace_error::WorkspaceError;
use crate::workspace_fault::WorkspaceFault;
use std::alloc::{AllocError, Global};
use std::collections::BTreeSet;
use std::marker::Model;

/// A workspace: a record that nothing refuses. In a clause it is the record.
#[derive(Drop)]
pub struct Workspace {
    record: WorkspaceRecord,
}

impl Model for Workspace {
    ghost use Rattle.std.specs.Prelude.{◌≡◌, None};
    ghost use Rattle.test_runner_core_workspace.specs.declared.record.WorkspaceRecord.{WorkspaceRecord as Record};
    ghost use Rattle.test_runner_core_workspace.specs.Workspace.{refusal_of};

    ghost Value = { Record };

    ghost view = { λ w. w.record };

    ghost invariant = { λ w. refusal_of w.record ≡ None };
}

impl Clone for Workspace {
    ghost use Rattle.std.specs.Prelude.{◌≡◌};

    ghost is_clone = { λ original copy. copy ≡ original };

    fn clone(&self) -> Result<Workspace, AllocError> {
        Ok(Workspace {
            record: self.record.clone()?,
        })
    }
}

impl Workspace {
    /// The workspace of `record`. An `Err` says why the record is no workspace, each reason being
    /// looked for in the whole record before the next, or that there was no memory, which says
    /// nothing of the record.
    pub fn read(alloc: Global, record: WorkspaceRecord) -> Result<Workspace, WorkspaceError>
        ensures exact { Reads «record» result }
    {
        record.check(alloc)?;
        Ok(Workspace { record })
    }

    /// The record, lent.
    pub fn record(&self) -> &WorkspaceRecord
        ensures value { result.now ≡ self.now }
        ensures accepted { refusal_of result.now ≡ None }
    {
        &self.record
    }

    /// The record.
    pub fn into_record(self) -> WorkspaceRecord
        ensures value { result ≡ self }
        ensures accepted { refusal_of result ≡ None }
    {
        let Workspace { record } = self;
        record
    }
}

impl WorkspaceRecord {
    /// Whether the record is a workspace. An `Err` says why it is none, each reason being looked
    /// for in the whole record before the next, or that there was no memory, which says nothing of
    /// the record.
    pub fn check(&self, alloc: Global) -> Result<(), WorkspaceError>
        ensures exact { Checks self.now result }
    {
        match refusal(alloc, self)? {
            Some(refused) => Err(WorkspaceError::Refused(refused)),
            None => Ok(()),
        }
    }
}

// Why a record is no workspace, if it is none.
fn refusal(alloc: Global, record: &WorkspaceRecord) -> Result<Option<WorkspaceFault>, AllocError>
    ensures { IfOk result (λ refused. refused ≡ refusal_of «record».now) }
{
    let packages = ids_of_packages(alloc, record.packages.as_slice())?;
    if has_repeated(alloc, packages.as_slice())? {
        return Ok(Some(WorkspaceFault::RepeatedPackage));
    }
    let known = set_of(alloc, packages.as_slice())?;
    refusal_behind(alloc, &known, record)
}

// Why a record is no workspace whose packages have these ids, each its own.
#[tactic(auto, using(crate::proofs::Repeats::bad_among))]
fn refusal_behind(
    alloc: Global,
    known: &BTreeSet<&str>,
    record: &WorkspaceRecord,
) -> Result<Option<WorkspaceFault>, AllocError>
    ensures { IfOk result (λ refused. refused ≡ refusal_by (has_text known.now) «record».now) }
{
    if !links_are_known(known, record.links.as_slice()) {
        return Ok(Some(WorkspaceFault::UnknownLink));
    }
    let binaries = ids_of_binaries(alloc, record.binaries.as_slice())?;
    if has_repeated(alloc, binaries.as_slice())? {
        return Ok(Some(WorkspaceFault::RepeatedBinary));
    }
    if !packages_are_known(known, record.binaries.as_slice()) {
        return Ok(Some(WorkspaceFault::UnknownPackage));
    }
    if has_bad(binaries.as_slice()) {
        return Ok(Some(WorkspaceFault::BadId));
    }
    Ok(None)
}
