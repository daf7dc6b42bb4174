// A text of which a row changes parts.
use crate::{ok, some};
use std::alloc::Global;

const ARROW: &str = " => ";

// What becomes of a text by `PART => OTHER`: the first place of a part has the other text in place
// of it. Further such changes of what came of it follow behind another ` => `. `None` where the
// text doesn't have such a part, or there is no memory.
pub(crate) fn changed(alloc: Global, text: &str, changes: &str) -> Option<String> {
    let mut text = ok!(String::from_str(alloc, text));
    let mut part: Option<&str> = None;
    for piece in changes.split(ARROW) {
        match part {
            None => part = Some(piece),
            Some(old) => {
                text = some!(with_other(alloc, text.as_str(), old, piece));
                part = None;
            }
        }
    }
    Some(text)
}

fn with_other(alloc: Global, text: &str, part: &str, other: &str) -> Option<String> {
    let (before, behind) = some!(text.split_once(part));
    format!(in alloc; "{before}{other}{behind}").ok()
}
