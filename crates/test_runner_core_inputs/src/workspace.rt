// The form of the workspace.
ghost use Rattle.test_runner_core_inputs.specs.Reading as read;

use crate::inputs::Inputs;
use nextest_json::{Fault, Form, JsonValue, element, has_items, required, shared_texts};
use std::alloc::Global;
use test_runner_core_workspace::{Binary, BinaryTests, Link, Package, WorkspaceRecord};

impl Form<Inputs> for Package {
    ghost reading = { read.package_of };

    fn from_value(alloc: Global, value: &JsonValue<'_, '_>) -> Result<Package, Fault> {
        if !value.is_object() {
            return Err(Fault::here(alloc));
        }
        Ok(Package {
            id: required(alloc, value, "id")?,
            name: required(alloc, value, "name")?,
        })
    }
}

impl Form<Inputs> for Link {
    ghost reading = { read.link_of };

    fn from_value(alloc: Global, value: &JsonValue<'_, '_>) -> Result<Link, Fault> {
        if !has_items(value, 2) {
            return Err(Fault::here(alloc));
        }
        Ok(Link {
            from: element(alloc, value, 0)?,
            to: element(alloc, value, 1)?,
        })
    }
}

impl Form<Inputs> for BinaryTests {
    ghost reading = { read.tests_of };

    fn from_value(alloc: Global, value: &JsonValue<'_, '_>) -> Result<BinaryTests, Fault> {
        if let Some(items) = value.items() {
            return Ok(BinaryTests::Names(shared_texts(alloc, items)?));
        }
        if !value.is_object() {
            return Err(Fault::here(alloc));
        }
        Ok(BinaryTests::Fault(required(alloc, value, "fault")?))
    }
}

impl Form<Inputs> for Binary {
    ghost reading = { read.binary_of };

    fn from_value(alloc: Global, value: &JsonValue<'_, '_>) -> Result<Binary, Fault> {
        if !value.is_object() {
            return Err(Fault::here(alloc));
        }
        Ok(Binary {
            id: required(alloc, value, "id")?,
            name: required(alloc, value, "name")?,
            package: required(alloc, value, "package")?,
            kind: required(alloc, value, "kind")?,
            platform: required(alloc, value, "platform")?,
            tests: required(alloc, value, "tests")?,
        })
    }
}

impl Form<Inputs> for WorkspaceRecord {
    ghost reading = { read.workspace_of };

    fn from_value(alloc: Global, value: &JsonValue<'_, '_>) -> Result<WorkspaceRecord, Fault> {
        if !value.is_object() {
            return Err(Fault::here(alloc));
        }
        Ok(WorkspaceRecord {
            packages: required(alloc, value, "packages")?,
            links: required(alloc, value, "links")?,
            binaries: required(alloc, value, "binaries")?,
        })
    }
}
