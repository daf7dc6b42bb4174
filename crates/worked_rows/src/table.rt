// A table, and whether its rows hold.
use crate::page::Page;
use crate::signs::{read_signs, written_in_signs};
use crate::{ok, some};
use anyhow::{Context, Result};
use std::alloc::Global;
use std::fs;
use std::rt::Files;

/// What answers the inputs of a table.
pub trait Table {
    /// The table's name. Its rows stand in the file `NAME.txt` of the folder that the program runs
    /// in.
    fn name(&self) -> &'static str;

    /// Writes the answer to an input, as a row has it; `None` where the input is none of the table,
    /// or there is no memory.
    fn answer(&self, page: &mut Page, input: &str) -> Option<()>;
}

/// Whether each row of a table has the answer that is given to its input. Prints each row that has
/// not, with that answer, and then how many rows hold. A file that can't be read, a row without an
/// answer, and want of memory end it.
pub fn rows_hold<R: Files + Print + AllocGlobal, T: Table>(rt: &R, table: &T) -> Result<bool> {
    let file = format!(in rt.alloc(); "{}.txt", table.name())?;
    let text = fs::read_to_string(rt, file.as_str())?;
    lines_hold(rt, table, text.as_str())
}

fn lines_hold<R: Print + AllocGlobal, T: Table>(rt: &R, table: &T, text: &str) -> Result<bool> {
    let mut held: u64 = 0;
    let mut hold = true;
    for line in text.lines() {
        if line.is_empty() || line.starts_with('#') {
            continue;
        }
        let holds = row_holds(rt, table, line)?;
        held = held.saturating_add(u64::from(holds));
        hold &= holds;
    }
    println!(rt; "{}: {held} rows hold", table.name())?;
    Ok(hold)
}

// Whether a row has the answer that is given to its input. Prints it if not.
fn row_holds<R: Print + AllocGlobal, T: Table>(rt: &R, table: &T, line: &str) -> Result<bool> {
    let differing = other_answer(rt.alloc(), table, line).context(format_args!(
        "no answer to a row of {}: {line}",
        table.name()
    ))?;
    let Some(answer) = differing else {
        return Ok(true);
    };
    println!(rt; "{}: {line}\n    but the answer is: {answer}", table.name())?;
    Ok(false)
}

// The answer that is given to the input of a row, where the row has another one.
fn other_answer<T: Table>(alloc: Global, table: &T, line: &str) -> Option<Option<String>> {
    let (input, answer) = some!(line.rsplit_once(" => "));
    let given = some!(given_answer(alloc, table, input));
    if given == ok!(read_signs(alloc, answer)) {
        return Some(None);
    }
    Some(Some(ok!(written_in_signs(alloc, given.as_str()))))
}

fn given_answer<T: Table>(alloc: Global, table: &T, input: &str) -> Option<String> {
    let input = ok!(read_signs(alloc, input));
    let mut page = Page::new(alloc);
    some!(table.answer(&mut page, input.as_str()));
    page.finish()
}
