// Whether dependencies are asked for.
ghost use Rattle.std.specs.Prelude.{◌≡◌, ◌↔◌, true, codes};
ghost use Rattle.std.specs.Str.Iter.{HasSubslice};

/// Whether a filterset may ask what depends on what: whether its text contains `deps`. It takes no
/// memory.
pub fn needs_deps(text: &str) -> bool
    ensures { (result ≡ true) ↔ HasSubslice text.now (codes "deps") }
{
    text.contains("deps")
}
