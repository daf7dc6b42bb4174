// Filtersets of many levels.
use nextest_filtering_syntax::ParsedExpr;
use std::alloc::Global;
use std::test::Fail;

// The prefix so many times, the middle, and the end as many times.
fn nested(alloc: Global, front: &str, middle: &str, end: &str) -> Result<String, Fail> {
    let mut text = String::new(alloc);
    for _ in 0..1_000_000 {
        text.push_str(front)?;
    }
    text.push_str(middle)?;
    for _ in 0..1_000_000 {
        text.push_str(end)?;
    }
    Ok(text)
}

#[test]
fn a_million_levels_print_as_they_were_written(rt: HostRuntime) -> Result<(), Fail> {
    let alloc = rt.alloc();
    for (front, middle, end) in [
        ("not ", "test(a)", ""),
        ("(", "test(a)", ")"),
        ("", "test(a)", " - all()"),
        ("all() | (", "test(a)", ")"),
    ] {
        let text = nested(alloc, front, middle, end)?;
        let tree = ParsedExpr::parse(alloc, text.as_str())?.clone()?;
        let leaves = tree.runtime_only_leaves(alloc)?.len();
        assert!(rt; leaves == 1 && tree.to_text(alloc)? == text);
    }
    Ok(())
}
