// Globs, and the texts and regular expressions in filtersets: where they end, what they stand for,
// and how they print.
use crate::page::Page;
use crate::parts::two;
use crate::{ok, show};
use nextest_filtering::GenericGlob;
use nextest_filtering_arguments::{Faults, text_argument};
use nextest_filtering_escapes::{
    escaped_text, slashed_text, split_regex, split_text, unescape, unslash,
};
use nextest_text::Text;

// The tokens of a glob, or why a text is none.
pub(crate) fn globs(page: &mut Page, input: &str) -> Option<()> {
    match GenericGlob::new(page.alloc, ok!(Text::from_str(page.alloc, input))) {
        Ok(glob) => page.debug(glob.tokens()),
        Err(error) => page.debug(error),
    }
    Some(())
}

// Whether a glob matches a whole text.
pub(crate) fn glob_matches(page: &mut Page, input: &str) -> Option<()> {
    let (glob, text) = two(input, " | ");
    let glob = ok!(GenericGlob::new(page.alloc, ok!(Text::from_str(page.alloc, glob))));
    page.show(ok!(glob.is_match(page.alloc, text)));
    Some(())
}

// The text at the start of an input, and what follows it.
pub(crate) fn texts(page: &mut Page, input: &str) -> Option<()> {
    let (text, rest) = split_text(input);
    show!(page; "‹", text, "› ‹", rest, "›");
    Some(())
}

// What a text with escapes stands for, and where its bad escapes stand.
pub(crate) fn escapes(page: &mut Page, input: &str) -> Option<()> {
    let read = ok!(unescape(page.alloc, input));
    page.debug(read.text.as_str());
    for bad in read.bad.as_slice() {
        show!(page; " ! (", bad.offset, ",", bad.length, ")");
    }
    Some(())
}

// How a text prints, and what that is read as.
pub(crate) fn printed(page: &mut Page, input: &str) -> Option<()> {
    let printed = ok!(format!(in page.alloc; "{}", escaped_text(input)));
    let read = ok!(unescape(page.alloc, printed.as_str()));
    show!(page; "‹", printed.as_str(), "› is ‹", &read.text, "›");
    Some(())
}

// What the regular expression up to a bare slash stands for, behind how that prints and what
// follows the slash.
pub(crate) fn regexes(page: &mut Page, input: &str) -> Option<()> {
    let Some((raw, rest)) = split_regex(input) else {
        page.show("-");
        return Some(());
    };
    let text = ok!(unslash(page.alloc, raw));
    show!(page; "‹", slashed_text(text.as_str()), "› ‹", rest, "› is ‹", text.as_str(), "›");
    Some(())
}

// The text at the start of an input as an argument: what it stands for, where it stands, what
// follows it, and its faults.
#[tactic(auto, using(nextest_filtering_arguments::proofs::Spans::suffix_all))]
pub(crate) fn arguments(page: &mut Page, input: &str) -> Option<()> {
    let mut faults = Faults::new(page.alloc, input);
    let read = ok!(text_argument(page.alloc, &mut faults, input));
    let span = read.span;
    show!(page; "‹", &read.text, "› (", span.offset, ",", span.length, ") ‹", read.rest, "›");
    page.tell_each(0, "", faults.as_slice());
    Some(())
}
