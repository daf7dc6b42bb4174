// Texts that are read as inputs, and the value that each is read as: the cases of a folder.
use crate::ok;
use anyhow::{Context, Result};
use std::alloc::Global;
use std::rt::Files;
use std::{fs, io};
use test_runner_core_inputs::Inputs;

// The folder. A case has its text in the file `CASE.in`, and the value in the file `CASE.out`.
const FOLDER: &str = "inputs";

const INPUT: &str = ".in";

/// Whether each case of the folder has the value that its text is read as. Prints each case that
/// has not, with both, and then how many hold. A file that can't be read, a text that is no inputs,
/// and want of memory end it.
pub(crate) fn inputs_hold<R: Files + Print + AllocGlobal + Clone + Drop>(rt: &R) -> Result<bool> {
    let mut held: u64 = 0;
    let mut hold = true;
    for entry in fs::read_dir(rt, FOLDER)? {
        let entry = entry?;
        let Some(case) = entry.file_name().strip_suffix(INPUT) else {
            continue;
        };
        let holds = case_holds(rt, case)?;
        held = held.saturating_add(u64::from(holds));
        hold &= holds;
    }
    println!(rt; "{FOLDER}: {held} rows hold")?;
    Ok(hold)
}

// Whether a case has the value that its text is read as. Prints both if not.
fn case_holds<R: Files + Print + AllocGlobal>(rt: &R, case: &str) -> Result<bool> {
    let text = text_of(rt, case, INPUT)?;
    let answer = text_of(rt, case, ".out")?;
    value_holds(rt, case, text.as_str(), answer.as_str())
}

fn value_holds<R: Print + AllocGlobal>(
    rt: &R,
    case: &str,
    text: &str,
    answer: &str,
) -> Result<bool> {
    let given = shown(rt.alloc(), text).context("no inputs, or no memory")?;
    if given.as_str() == answer {
        return Ok(true);
    }
    println!(rt; "{FOLDER}/{case}:\n{answer}    but the answer is:\n{given}")?;
    Ok(false)
}

// The text of a file of a case.
fn text_of<R: Files + AllocGlobal>(rt: &R, case: &str, ending: &str) -> io::Result<String> {
    let file = format!(in rt.alloc(); "{FOLDER}/{case}{ending}")?;
    fs::read_to_string(rt, file.as_str())
}

// A copy of what a text is read as.
fn shown(alloc: Global, text: &str) -> Option<String> {
    let inputs = ok!(ok!(Inputs::from_json(alloc, text.as_bytes())).clone());
    format!(in alloc; "{inputs:#?}\n").ok()
}
