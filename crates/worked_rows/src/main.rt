//! The program `worked_rows`: worked rows of the core's plans, inputs and lines, and of the layers
//! below it, filtersets, run events, elements of configurations and configurations. It answers the
//! input of each row of its tables, and says which answers differ. What is seen on the built
//! program itself stands in `rows/`.
//!
//! A row of a table is a line `INPUT => ANSWER`, divided at the last ` => `. A line that is empty
//! or begins with `#` is none. In both parts `␉`, `␊` and `␍` stand for a tab, a line feed and a
//! carriage return. Where a line is too short, a row is a case of a folder, two files `CASE.in` and
//! `CASE.out`.
#![tactic(auto)]

mod answering;
mod asking;
mod attempts;
mod calls_again;
mod changes;
mod commands;
mod compiled;
mod configs;
mod defined;
mod elements;
mod ends;
mod events;
mod filter_texts;
mod filter_trees;
mod inputs;
mod log_lines;
mod orders;
mod outputs;
mod page;
mod parts;
mod plain_filter;
mod plain_spec;
mod plans;
mod platform_specs;
mod settings;
mod signs;
mod stress;
mod summaries;
mod table;
mod test_settings;
mod values;
mod verdicts;
mod visibility;
mod workspaces;

use answering::layers_hold;
use anyhow::Result;
use inputs::inputs_hold;
use plans::plans_hold;
use std::fs;
use std::process::ExitCode;

fn main(rt: HostRuntime) -> Result<ExitCode> {
    let plan = fs::read_to_string(&rt, "plan.json")?;
    let mut hold = inputs_hold(&rt)?;
    hold &= plans_hold(&rt, plan.as_str())?;
    hold &= layers_hold(&rt)?;
    Ok(if hold {
        ExitCode::SUCCESS
    } else {
        ExitCode::FAILURE
    })
}
