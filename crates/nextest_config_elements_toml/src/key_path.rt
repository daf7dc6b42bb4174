// Where a value stands.
ghost use Rattle.std.specs.Prelude.{◌≡◌, ◌++◌, IfOk};
ghost use Rattle.nextest_config_elements_toml.specs.Paths.{texts};

use nextest_text::{Listing, Text};
use std::alloc::{AllocError, Global};
use std::fmt;

/// Where a value stands: the keys that lead to it, the outermost first. It prints with dots between
/// them.
#[derive(Clone, Debug, PartialEq, Eq, Drop)]
pub struct KeyPath {
    /// The keys; a list position is one in decimal.
    pub keys: Listing<Text>,
}

impl KeyPath {
    /// The path of some keys, and those of a further one behind them. It fails only on allocation.
    pub fn of_keys(alloc: Global, path: &[&str], further: &[&str]) -> Result<KeyPath, AllocError>
        ensures { IfOk result (λ it. it.keys ≡ texts path.now ++ texts further.now) }
    {
        let mut keys = Listing::new(alloc);
        push_keys(alloc, &mut keys, path)?;
        push_keys(alloc, &mut keys, further)?;
        Ok(KeyPath { keys })
    }
}

// Adds keys to a path.
fn push_keys(alloc: Global, keys: &mut Listing<Text>, more: &[&str]) -> Result<(), AllocError>
    ensures { IfOk result (λ _. keys.new ≡ keys.old ++ texts more.now) }
{
    for key in more {
        keys.push(Text::from_str(alloc, key)?)?;
    }
    Ok(())
}

impl fmt::Display for KeyPath {
    ghost use Rattle.std.specs.Prelude.{Some};
    ghost use Rattle.nextest_config_elements_toml.specs.Paths.{dotted_text};

    ghost output = { λ path. Some (dotted_text path.keys) };

    fn fmt<W: fmt::Write>(&self, f: &mut fmt::Formatter<W>) -> fmt::Result {
        let Some((first, more)) = self.keys.as_slice().split_first() else {
            return Ok(());
        };
        f.write_str(first.as_str())?;
        for key in more {
            write!(f, ".{key}")?;
        }
        Ok(())
    }
}
