// Which function answers the rows of which table of the layers below the core: few names at a time,
// since a function over many of them is dear to prove.
use crate::page::Page;
use crate::table::{Table, rows_hold};
use crate::{
    asking, attempts, calls_again, commands, compiled, configs, elements, ends, events,
    filter_texts, filter_trees, log_lines, orders, outputs, platform_specs, stress, summaries,
    test_settings, values, verdicts, visibility,
};
use anyhow::Result;
use std::rt::Files;

// The tables, one name a line: lines of logs, filtersets, run events, elements of configurations,
// configurations.
const TABLES: &str = "log_lines
filtersets
parsed
trees
leaves
deps
globs
glob_matches
name_matches
texts
escapes
printed
regexes
arguments
compiled
answers
page
decimals
tool_names
json_forms
printed_forms
signals
exits
ends
attempts
scripts
summaries
outcomes
errors
run_modes
slices
visibility
causes
described
has_errors
unit_errors
stream_lengths
last_attempts
displays
orders
shown_texts
words
stress_ends
stress_remaining
stress_names
stress_totals
durations
identifiers
tool_config_files
test_groups
limits
exceeded
flaky_messages
priorities
fail_weights
threads
values
commands
verdicts
loads
test_settings
warnings
plain_filters
filters
plain_specs
platform_specs
plain_configs
programs
script_runs
selections
events
calls_again";

// The table of a name.
#[derive(Drop)]
struct Named(&'static str);

impl Table for Named {
    fn name(&self) -> &'static str {
        self.0
    }

    fn answer(&self, page: &mut Page, input: &str) -> Option<()> {
        of_layers(page, self.0, input)
    }
}

/// Whether each row of the layers below the core has the answer that is given to its input.
pub(crate) fn layers_hold<R: Files + Print + AllocGlobal>(rt: &R) -> Result<bool> {
    let mut hold = true;
    for name in TABLES.lines() {
        hold &= rows_hold(rt, &Named(name))?;
    }
    Ok(hold)
}

// Writes the answer to an input of the table of a name; `None` where the input is none of it, or
// there is no memory.
fn of_layers(page: &mut Page, name: &str, input: &str) -> Option<()> {
    match name {
        "loads" => configs::loads(page, input),
        "test_settings" => test_settings::test_settings(page, input),
        "selections" => configs::selections(page, input),
        "warnings" => configs::warnings(page, input),
        "plain_filters" => asking::plain_filters(page, input),
        "filters" => asking::filters(page, input),
        "plain_specs" => asking::plain_specs(page, input),
        "platform_specs" => platform_specs::platform_specs(page, input),
        "plain_configs" => asking::plain_configs(page, input),
        "log_lines" => log_lines::log_lines(page, input),
        "commands" => commands::commands(page, input),
        "programs" => commands::programs(page, input),
        "script_runs" => commands::script_runs(page, input),
        _ => of_filter_trees(page, name, input),
    }
}

fn of_filter_trees(page: &mut Page, name: &str, input: &str) -> Option<()> {
    match name {
        "filtersets" => filter_trees::filtersets(page, input),
        "parsed" => filter_trees::parsed(page, input),
        "trees" => filter_trees::trees(page, input),
        "leaves" => filter_trees::leaves(page, input),
        "deps" => filter_trees::deps(page, input),
        "name_matches" => filter_trees::name_matches(page, input),
        "page" => filter_trees::page(page, input),
        _ => of_filter_texts(page, name, input),
    }
}

fn of_filter_texts(page: &mut Page, name: &str, input: &str) -> Option<()> {
    match name {
        "globs" => filter_texts::globs(page, input),
        "glob_matches" => filter_texts::glob_matches(page, input),
        "texts" => filter_texts::texts(page, input),
        "escapes" => filter_texts::escapes(page, input),
        "printed" => filter_texts::printed(page, input),
        "regexes" => filter_texts::regexes(page, input),
        "arguments" => filter_texts::arguments(page, input),
        _ => of_ends(page, name, input),
    }
}

fn of_ends(page: &mut Page, name: &str, input: &str) -> Option<()> {
    match name {
        "compiled" => compiled::compiled(page, input),
        "answers" => compiled::answers(page, input),
        "json_forms" => ends::json_forms(page, input),
        "printed_forms" => ends::printed_forms(page, input),
        "signals" => ends::signals(page, input),
        "exits" => ends::exits(page, input),
        "ends" => ends::ends(page, input),
        _ => of_outputs(page, name, input),
    }
}

fn of_outputs(page: &mut Page, name: &str, input: &str) -> Option<()> {
    match name {
        "errors" => outputs::errors(page, input),
        "causes" => outputs::causes(page, input),
        "described" => outputs::described(page, input),
        "has_errors" => outputs::has_errors(page, input),
        "unit_errors" => outputs::unit_errors(page, input),
        "stream_lengths" => outputs::stream_lengths(page, input),
        "slices" => outputs::slices(page, input),
        _ => of_runs(page, name, input),
    }
}

fn of_runs(page: &mut Page, name: &str, input: &str) -> Option<()> {
    match name {
        "attempts" => attempts::attempts(page, input),
        "scripts" => attempts::scripts(page, input),
        "last_attempts" => attempts::last_attempts(page, input),
        "summaries" => summaries::summaries(page, input),
        "outcomes" => summaries::outcomes(page, input),
        "visibility" => visibility::visibility(page, input),
        "displays" => visibility::displays(page, input),
        _ => of_stress(page, name, input),
    }
}

fn of_stress(page: &mut Page, name: &str, input: &str) -> Option<()> {
    match name {
        "stress_ends" => stress::stress_ends(page, input),
        "stress_remaining" => stress::stress_remaining(page, input),
        "stress_names" => stress::stress_names(page, input),
        "stress_totals" => stress::stress_totals(page, input),
        "orders" => orders::orders(page, input),
        "shown_texts" => orders::shown_texts(page, input),
        "words" => orders::words(page, input),
        "events" => events::events(page, input),
        _ => of_names(page, name, input),
    }
}

fn of_names(page: &mut Page, name: &str, input: &str) -> Option<()> {
    match name {
        "tool_names" => elements::tool_names(page, input),
        "identifiers" => elements::identifiers(page, input),
        "tool_config_files" => elements::tool_config_files(page, input),
        "test_groups" => elements::test_groups(page, input),
        "run_modes" => elements::run_modes(page, input),
        "verdicts" => verdicts::verdicts(page, input),
        "values" => values::values(page, input),
        _ => of_numbers(page, name, input),
    }
}

fn of_numbers(page: &mut Page, name: &str, input: &str) -> Option<()> {
    match name {
        "decimals" => elements::decimals(page, input),
        "durations" => elements::durations(page, input),
        "limits" => elements::limits(page, input),
        "exceeded" => elements::exceeded(page, input),
        "flaky_messages" => elements::flaky_messages(page, input),
        "priorities" => elements::priorities(page, input),
        "fail_weights" => elements::fail_weights(page, input),
        "threads" => elements::threads(page, input),
        "calls_again" => calls_again::calls_again(page, input),
        _ => None,
    }
}
