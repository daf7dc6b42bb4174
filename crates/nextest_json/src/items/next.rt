// How the items of a list are handed out.
ghost use Rattle.std.specs.Prelude.{◌≡◌, [], ◌∷◌, Some, IfNone, IfSome, is_some, map, true};
ghost use Rattle.serde_json.specs.View.{view};
ghost use Rattle.nextest_json.specs.Rest.{data_of_items};
ghost use Rattle.nextest_json.specs.Left.{items_left};
ghost use Rattle.nextest_json.specs.Seen.{data_of};

use super::{JsonItems, Rest};
use crate::value::JsonValue;
use serde_json::Value;

impl<'t, 'a> JsonItems<'t, 'a> {
    // The items of a list in a document.
    pub(crate) fn of_document(items: &'t [json::Value<'a>]) -> JsonItems<'t, 'a>
        requires { is_some (data_of_items items.now) ≡ true }
        ensures { Some (items_left result) ≡ data_of_items items.now }
    {
        JsonItems {
            rest: Rest::Document(items),
        }
    }

    // The items that are trees.
    pub(crate) fn of_trees(values: &'t [Value]) -> JsonItems<'t, 'a>
        ensures { items_left result ≡ map view values.now }
    {
        JsonItems {
            rest: Rest::Trees(values),
        }
    }

    /// The next item.
    pub fn next(&mut self) -> Option<JsonValue<'t, 'a>>
        ensures none { IfNone result (items_left self.old ≡ []) }
        ensures some { IfSome result
            (λ item. items_left self.old ≡ data_of item ∷ items_left self.new) }
    {
        match self.rest {
            Rest::Document(items) => match items.split_first() {
                Some((first, more)) => {
                    self.rest = Rest::Document(more);
                    Some(JsonValue::of_document(first))
                }
                None => None,
            },
            Rest::Trees(values) => match values.split_first() {
                Some((first, more)) => {
                    self.rest = Rest::Trees(more);
                    Some(JsonValue::of_tree(first))
                }
                None => None,
            },
        }
    }
}
