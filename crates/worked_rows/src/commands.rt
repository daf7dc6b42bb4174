// Commands of scripts.
use crate::page::Page;
use crate::parts::three;
use crate::values::toml_value;
use crate::{ok, some};
use nextest_config_resolution::{ScriptId, deserialize_script_command};
use nextest_config_resolution_commands::split_words;
use uuid::Uuid;

// A text between `‹` and `›`: the words that a Unix shell divides it into, or `None` where a quote
// isn't closed.
pub(crate) fn commands(page: &mut Page, input: &str) -> Option<()> {
    let text = some!(some!(input.strip_prefix('‹')).strip_suffix('›'));
    page.debug(ok!(split_words(page.alloc, text)));
    Some(())
}

// The root of a workspace and a target directory, `-` where one is the empty text, and a command as
// it stands in TOML: where its program stands.
pub(crate) fn programs(page: &mut Page, input: &str) -> Option<()> {
    let (root, target, command) = three(input);
    let value = some!(toml_value(page.alloc, command));
    let command = ok!(deserialize_script_command(page.alloc, &value, &[]));
    let (root, target) = (root.trim_start_matches('-'), target.trim_start_matches('-'));
    page.show(ok!(ok!(command.clone()).program(page.alloc, root, target)));
    Some(())
}

// The id of a run, the number of a sub-run, `-` where it has none, and a script: the id of the
// script's run.
pub(crate) fn script_runs(page: &mut Page, input: &str) -> Option<()> {
    let (run_id, stress, script) = three(input);
    let run_id = ok!(Uuid::parse_str(run_id));
    let script = ok!(ScriptId::new(page.alloc, script));
    let stress = stress.parse::<u32>().ok();
    page.show(ok!(ok!(script.clone()).unique_id(page.alloc, &run_id, stress)));
    Some(())
}
