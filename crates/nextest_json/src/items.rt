// The items of a list in JSON, one after another.
ghost use Rattle.std.specs.Prelude.{◌≡◌, is_some, true};
ghost use Rattle.nextest_json.specs.Rest.{data_of_rest};

mod next;

use serde_json::Value;

// Where the items stand that are left.
#[derive(Clone, Copy, Drop)]
enum Rest<'t, 'a> {
    // in a document
    Document(&'t [json::Value<'a>]),
    // in trees
    Trees(&'t [Value]),
}

/// The items of a list that are left. In a clause they are `left`: the data of each.
#[derive(Drop)]
pub struct JsonItems<'t, 'a> {
    rest: Rest<'t, 'a>,
    ghost there: { is_some (data_of_rest rest) ≡ true },
}
