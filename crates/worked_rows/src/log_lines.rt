// Lines of a log, and the event that each is read as.
use crate::page::Page;
use crate::{ok, show};
use test_runner_core_line_syntax::{LogLine, ParseLineError};

// A line: its event, `no event`, or the name under which it is refused. An event's line is what it
// prints, or that is told behind it.
pub(crate) fn log_lines(page: &mut Page, line: &str) -> Option<()> {
    match LogLine::parse(page.alloc, line.as_bytes()) {
        Ok(None) => page.show("no event"),
        Ok(Some(event)) => return told(page, &event, line),
        Err(ParseLineError::OutOfMemory) => return None,
        Err(refusal) => page.debug(refusal),
    }
    Some(())
}

fn told(page: &mut Page, event: &LogLine, line: &str) -> Option<()> {
    page.debug_copy(event);
    if !event.has_spelling() {
        page.show(" without a spelling");
        return Some(());
    }
    let printed = ok!(event.print(page.alloc));
    if printed.as_str() != line {
        show!(page; " prints ", printed.as_str());
    }
    Some(())
}
