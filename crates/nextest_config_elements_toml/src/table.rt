// What stands in a table.
ghost use Rattle.std.specs.Prelude.{◌≡◌, option_map};
ghost use Rattle.toml.specs.Data.{get_member};
ghost use Rattle.toml.specs.View.{table_view, view};

use toml::{Table, Value};

/// What stands under a key of a table.
#[tactic(auto, using(toml::proofs::Views::table_get))]
pub fn member<'a>(table: &'a Table, key: &str) -> Option<&'a Value>
    ensures { option_map (λ it. view it.now) result ≡ get_member key.now (table_view table.now) }
{
    table.get(key)
}
