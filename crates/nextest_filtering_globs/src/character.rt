// Characters of a text, whichever way they are kept.
ghost use Rattle.std.specs.Prelude.{◌≡◌, ◌∷◌, ◌++◌, [], ℕ, List, length, refl};

/// A character of a text, or a byte that is one.
pub trait Character: Copy {
    // The characters that some of these are.
    ghost codes: { List Self → List ℕ };

    /// The character.
    fn character(self) -> char
        ensures { codes (self ∷ []) ≡ result ∷ [] };

    // As many as these are.
    ghost counted: { (list : List Self) → length (codes list) ≡ length list };

    // One behind another, as the characters are.
    ghost joined: { (front back : List Self) → codes (front ++ back) ≡ codes front ++ codes back };
}

impl Character for char {
    ghost codes = { λ characters. characters };

    ghost counted = { λ list. refl };

    ghost joined = { λ front back. refl };

    fn character(self) -> char {
        self
    }
}

// Each byte of a text that is ASCII is a character.
impl Character for u8 {
    ghost codes = { λ bytes. bytes };

    ghost counted = { λ list. refl };

    ghost joined = { λ front back. refl };

    fn character(self) -> char {
        char::from(self)
    }
}
