// The scripts of a configuration, and its script rules, in words.
use crate::configs::PlainConfig;
use crate::page::{Page, Tell, Whole};
use crate::plain_filter::PlainFilter;
use crate::plain_spec::PlainSpec;
use crate::show;
use nextest_config_resolution::{
    LoadedScriptRule, NamedScript, ScriptCommand, ScriptConfig, ScriptId, ScriptRuleConfig,
    SetupScriptConfig, WrapperScriptConfig,
};

// The setup scripts and then the wrapper scripts, each in brackets; `-` where none is defined.
pub(crate) fn scripts_told(page: &mut Page, config: &PlainConfig) {
    page.tell_copy(config.scripts());
}

impl Tell for ScriptConfig {
    fn tell(&self, page: &mut Page) {
        let start = page.len();
        page.tell_each(start, " ", self.setup.as_slice());
        page.tell_each(start, " ", self.wrapper.as_slice());
        page.or_none(start);
    }
}

// The script rules, the highest file first, each in brackets; `-` where there is none.
pub(crate) fn rules_told(page: &mut Page, config: &PlainConfig) {
    let start = page.len();
    page.tell_each(start, " ", config.script_rules());
    page.or_none(start);
}

impl Tell for NamedScript<SetupScriptConfig> {
    fn tell(&self, page: &mut Page) {
        let config = &self.config;
        show!(page; "[setup ", &self.id, ": ");
        command_told(page, &config.command);
        show!(page; ", ", Whole(&config.slow_timeout), ", ", Whole(&config.leak_timeout));
        show!(page; ", ", config.capture_stdout, " ", config.capture_stderr, " ");
        show!(page; config.junit.store_success_output, " ", config.junit.store_failure_output, "]");
    }
}

impl Tell for NamedScript<WrapperScriptConfig> {
    fn tell(&self, page: &mut Page) {
        show!(page; "[wrapper ", &self.id, ": ");
        run_told(page, &self.config);
        page.show("]");
    }
}

// What a wrapper script runs, and what becomes of the runner that the target has.
pub(crate) fn run_told(page: &mut Page, config: &WrapperScriptConfig) {
    command_told(page, &config.command);
    show!(page; ", ", Whole(&config.target_runner));
}

// The program, its arguments, each in brackets, where the program is looked for, and the variables.
fn command_told(page: &mut Page, command: &ScriptCommand) {
    page.show(&command.program);
    page.show_each("[", command.args.as_slice(), "]");
    show!(page; " ", Whole(&command.relative_to));
    for (name, value) in command.env.variables.as_slice() {
        show!(page; " ", name, "=", value);
    }
}

// Where a rule is written, and the scripts that it names.
impl Tell for LoadedScriptRule<PlainFilter, PlainSpec> {
    fn tell(&self, page: &mut Page) {
        show!(page; "[", &self.placed.id, ": setup ");
        page.tell_copy(&self.placed.config);
        page.show("]");
    }
}

impl Tell for ScriptRuleConfig {
    fn tell(&self, page: &mut Page) {
        page.joined(",", self.setup.as_slice());
        show!(page; ", list ", wrapper_named(self.list_wrapper.as_ref()));
        show!(page; ", run ", wrapper_named(self.run_wrapper.as_ref()));
    }
}

fn wrapper_named(id: Option<&ScriptId>) -> &str {
    match id {
        Some(id) => id.as_str(),
        None => "-",
    }
}
