// Whole filtersets: trees, faults, predicates.
use crate::page::{Page, Tell, Whole};
use crate::parts::two;
use crate::{ok, show, some};
use nextest_filtering::{
    FILTERSET_REFERENCE_MD, NameMatcher, NotOperator, OrOperator, ParseError, ParseSingleError,
    ParsedExpr, ParsedLeaf, SourceSpan, needs_deps, read,
};
use nextest_text::Text;
use std::alloc::Global;

// What a text is read as: its tree as it prints, or `-`, and its faults.
pub(crate) fn filtersets(page: &mut Page, input: &str) -> Option<()> {
    let reading = ok!(read(page.alloc, input));
    match &reading.tree {
        Some(tree) => page.show(tree),
        None => page.show("-"),
    }
    page.tell_each(0, "", reading.faults.as_slice());
    Some(())
}

// What a text is read as: its tree with all that it holds, or `-`, and its faults.
pub(crate) fn trees(page: &mut Page, input: &str) -> Option<()> {
    let reading = ok!(read(page.alloc, input));
    match &reading.tree {
        Some(tree) => tree_told(page, tree),
        None => page.show("-"),
    }
    page.tell_each(0, "", reading.faults.as_slice());
    Some(())
}

// A tree with all that it holds, up to its operands.
fn head_told(page: &mut Page, tree: &ParsedExpr) {
    match tree {
        ParsedExpr::Set(leaf) => show!(page; "Set(", Whole(leaf)),
        ParsedExpr::Parens(_) => page.show("Parens("),
        ParsedExpr::Not(sign, _) => show!(page; "Not(", Whole(sign), ", "),
        ParsedExpr::Union(sign, _, _) => show!(page; "Union(", Whole(sign), ", "),
        ParsedExpr::Intersection(sign, _, _) => show!(page; "Intersection(", Whole(sign), ", "),
        ParsedExpr::Difference(sign, _, _) => show!(page; "Difference(", Whole(sign), ", "),
    }
}

fn tree_told(page: &mut Page, tree: &ParsedExpr) {
    head_told(page, tree);
    match tree {
        ParsedExpr::Set(_) => {}
        ParsedExpr::Parens(inside) | ParsedExpr::Not(_, inside) => tree_told(page, inside),
        ParsedExpr::Union(_, left, right)
        | ParsedExpr::Intersection(_, left, right)
        | ParsedExpr::Difference(_, left, right) => {
            tree_told(page, left);
            page.show(", ");
            tree_told(page, right);
        }
    }
    page.show(")");
}

// What a text is parsed as: its tree as it prints, or `-` and its faults.
pub(crate) fn parsed(page: &mut Page, input: &str) -> Option<()> {
    match ParsedExpr::parse(page.alloc, input) {
        Ok(tree) => page.show(tree),
        Err(ParseError::Faults(faults)) => {
            page.show("-");
            page.tell_each(0, "", faults.as_slice());
        }
        Err(ParseError::OutOfMemory) => return None,
    }
    Some(())
}

// A fault: its label, its place, and what to write instead, where it says so.
impl Tell for ParseSingleError {
    fn tell(&self, page: &mut Page) {
        let span = self.span();
        show!(page; " ! ", self.label(), "(", span.offset, ",", span.length, ")");
        if let Some(help) = self.help() {
            show!(page; " help ", help);
        }
    }
}

// How many predicates of a text only a test answers, and these.
pub(crate) fn leaves(page: &mut Page, input: &str) -> Option<()> {
    let tree = ok!(ParsedExpr::parse(page.alloc, input));
    let leaves = ok!(tree.runtime_only_leaves(page.alloc));
    page.show(leaves.len());
    page.show_each(" ", leaves.as_slice(), "");
    Some(())
}

// Whether a text may ask what depends on what.
pub(crate) fn deps(page: &mut Page, input: &str) -> Option<()> {
    page.show(needs_deps(input));
    Some(())
}

// Whether the matcher of a predicate on tests matches a name.
pub(crate) fn name_matches(page: &mut Page, input: &str) -> Option<()> {
    let (filterset, name) = two(input, " | ");
    let reading = ok!(read(page.alloc, filterset));
    match &reading.tree {
        Some(ParsedExpr::Set(ParsedLeaf::Test(matcher, _))) => {
            page.show(ok!(matcher.is_match(page.alloc, name)));
            Some(())
        }
        _ => None,
    }
}

// Whether the page of all names has just the names of these predicates, as they print, each on a
// line.
pub(crate) fn page(page: &mut Page, input: &str) -> Option<()> {
    let mut names = Page::new(page.alloc);
    for text in input.split(' ') {
        some!(name_told(&mut names, text));
    }
    let names = some!(names.finish());
    show!(page; "the page ", names.as_str() == FILTERSET_REFERENCE_MD);
    Some(())
}

// The name of a predicate, as it prints, on a line.
fn name_told(page: &mut Page, text: &str) -> Option<()> {
    let tree = ok!(ParsedExpr::parse(page.alloc, text));
    let printed = ok!(format!(in page.alloc; "{tree}"));
    show!(page; two(printed.as_str(), "(").0, "\n");
    Some(())
}

// A tree that prints as no text which is read as it.
pub(crate) fn tree_of_no_text(alloc: Global) -> Option<ParsedExpr> {
    let span = SourceSpan {
        offset: 0,
        length: 0,
    };
    let matcher = NameMatcher::Equal {
        value: ok!(Text::from_str(alloc, "=")),
        implicit: true,
    };
    let left = ok!(Box::new(alloc, ParsedExpr::Set(ParsedLeaf::Test(matcher, span))));
    let right = ok!(Box::new(alloc, ParsedExpr::Set(ParsedLeaf::None)));
    let union = ok!(Box::new(alloc, ParsedExpr::Union(OrOperator::Plus, left, right)));
    Some(ParsedExpr::Not(NotOperator::LiteralNot, union))
}
