// Two readings of one table.
ghost use Rattle.std.specs.Prelude.{[]};
ghost use Rattle.nextest_config_elements_toml.specs.Paths.{GivesAt};
ghost use Rattle.nextest_config_elements_toml.specs.Reading.{Reading};
ghost use Rattle.nextest_config_resolution_keys.specs.Rows.{IsLeast, joined};

use nextest_config_elements_toml::ValueError;
use std::cmp::Ordering;

// What both give, or what is refused first, by the bytes of the keys.
pub(crate) fn joined<A: Drop, B: Drop>(
    one: Result<A, ValueError>,
    other: Result<B, ValueError>,
) -> Result<(A, B), ValueError>
    ensures { (first : Reading A) (second : Reading B) → GivesAt [] one first
        → GivesAt [] other second → GivesAt [] result (joined first second) }
{
    match one {
        Ok(x) => match other {
            Ok(y) => Ok((x, y)),
            Err(error) => Err(error),
        },
        Err(error) => match other {
            Ok(_y) => Err(error),
            Err(beside) => Err(least(error, beside)),
        },
    }
}

// Of two refusals of one table the one that stands first.
fn least(one: ValueError, other: ValueError) -> ValueError
    ensures { IsLeast one other result }
{
    match (one, other) {
        (ValueError::Refused(first), ValueError::Refused(second)) => {
            match first.path.keys.cmp(&second.path.keys) {
                Ordering::Less | Ordering::Equal => ValueError::Refused(first),
                Ordering::Greater => ValueError::Refused(second),
            }
        }
        _ => ValueError::OutOfMemory,
    }
}
