// The command of a script.
ghost use Rattle.std.specs.Prelude.{◌≡◌, IfOk};
ghost use Rattle.nextest_config_resolution_commands.specs.Programs.{path_in, program_at};

use nextest_text::{Listing, Text};
use std::alloc::{AllocError, Global};

/// The command of a script.
#[derive(PartialEq, Eq)]
pub struct ScriptCommand {
    /// The program, as it is written.
    pub program: Text,
    /// What it is called with.
    pub args: Listing<Text>,
    /// Environment variables that it is given.
    pub env: ScriptCommandEnvMap,
    /// Where its program is looked for.
    pub relative_to: ScriptCommandRelativeTo,
}

impl Clone for ScriptCommand {
    ghost is_clone = { λ original copy. copy ≡ original };

    fn clone(&self) -> Result<ScriptCommand, AllocError> {
        let program = self.program.clone()?;
        let args = self.args.clone()?;
        let env = self.env.clone()?;
        Ok(ScriptCommand {
            program,
            args,
            env,
            relative_to: self.relative_to,
        })
    }
}

// One call drops it, whoever holds it.
impl Drop for ScriptCommand {
    fn drop(self) {
        let Self {
            program: _,
            args: _,
            env: _,
            relative_to: _,
        } = self;
    }
}

impl ScriptCommand {
    /// Where its program stands: as it is written, or below the root of the workspace or the target
    /// directory, as `relative_to` says. A program that begins with `/` is as it is written, as is
    /// one below a directory that is the empty text. It fails only on allocation.
    pub fn program(
        &self,
        alloc: Global,
        workspace_root: &str,
        target_dir: &str,
    ) -> Result<Text, AllocError>
        ensures { IfOk result (λ path. path
            ≡ program_at workspace_root.now target_dir.now self.now.relative_to self.now.program) }
    {
        let program = self.program.as_str();
        match self.relative_to {
            ScriptCommandRelativeTo::None => Text::from_str(alloc, program),
            ScriptCommandRelativeTo::WorkspaceRoot => path_in(alloc, workspace_root, program),
            ScriptCommandRelativeTo::Target => path_in(alloc, target_dir, program),
        }
    }
}

// A path in a directory.
fn path_in(alloc: Global, directory: &str, path: &str) -> Result<Text, AllocError>
    ensures { IfOk result (λ it. it ≡ path_in directory.now path.now) }
{
    if path.starts_with("/") || directory.is_empty() {
        return Text::from_str(alloc, path);
    }
    Ok(Text::from(format!(in alloc; "{directory}/{path}")?))
}

/// Environment variables with their values, by the bytes of their names.
#[derive(PartialEq, Eq)]
pub struct ScriptCommandEnvMap {
    /// Each variable's name and value.
    pub variables: Listing<(Text, Text)>,
}

impl Clone for ScriptCommandEnvMap {
    ghost is_clone = { λ original copy. copy ≡ original };

    fn clone(&self) -> Result<ScriptCommandEnvMap, AllocError> {
        Ok(ScriptCommandEnvMap {
            variables: self.variables.clone()?,
        })
    }
}

// One call drops it, whoever holds it.
impl Drop for ScriptCommandEnvMap {
    fn drop(self) {
        let Self { variables: _ } = self;
    }
}

/// Where the program of a script is looked for.
#[derive(Clone, Copy, Debug, PartialEq, Eq, Hash)]
pub enum ScriptCommandRelativeTo {
    /// As it is written.
    None,
    /// Below the root of the workspace.
    WorkspaceRoot,
    /// Below the target directory.
    Target,
}
