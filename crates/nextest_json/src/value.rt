// A value of JSON, of which its parts are asked.
ghost use Rattle.std.specs.Prelude.{◌≡◌, is_some, true};
ghost use Rattle.nextest_json.specs.Place.{data_at_place};

mod asked;

use serde_json::Value;

// Where a value stands.
#[derive(Drop)]
enum Source<'t, 'a> {
    // in a document
    Document(&'t json::Value<'a>),
    // in a tree
    Tree(&'t Value),
}

/// A value of JSON, lent from a document or from a tree. In a clause it is `seen`: its data.
#[derive(Drop)]
pub struct JsonValue<'t, 'a> {
    source: Source<'t, 'a>,
    ghost there: { is_some (data_at_place source) ≡ true },
}
