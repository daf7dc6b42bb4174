// Rows of bits in one slice of words, each row `width` words.
ghost use Rattle.std.specs.Prelude.{◌≡◌, ℕ, ◌+◌, ◌*◌, ◌<◌, ◌≤◌, ◌↔◌, ◌⊎◌, length, sum, true, false, IsTrue};
ghost use Rattle.nextest_filtering_graph.specs.Rows.{HasBit};

// Whether bit `to` of row `from` is set.
pub(crate) fn has_bit(words: &[u64], width: usize, from: usize, to: usize) -> bool
    requires row { from * width + width ≤ length words.now }
    requires bit { to < 64 * width }
    ensures { IsTrue result ↔ HasBit words.now width from to }
{
    (words[from * width + to / 64] >> (to % 64)) & 1 == 1
}

// Sets bit `to` of row `from`.
pub(crate) fn set_bit(words: &mut [u64], width: usize, from: usize, to: usize)
    requires row { from * width + width ≤ length words.old }
    requires bit { to < 64 * width }
    ensures { (i j : ℕ) → j < 64 * width
        → HasBit words.new width i j ↔ (HasBit words.old width i j ⊎ ((i ≡ from) × (j ≡ to))) }
{
    words[from * width + to / 64] |= 1u64 << (to % 64);
}

// Sets in row `from` the bits of row `to`, and says whether that changed it.
pub(crate) fn join_rows(words: &mut [u64], width: usize, from: usize, to: usize) -> bool
    requires from_row { from * width + width ≤ length words.old }
    requires to_row { to * width + width ≤ length words.old }
    ensures joined { (i j : ℕ) → j < 64 * width → HasBit words.new width i j
        ↔ (HasBit words.old width i j ⊎ ((i ≡ from) × HasBit words.old width to j)) }
    ensures kept { result ≡ false → words.new ≡ words.old }
    ensures grown { result ≡ true → sum words.old < sum words.new }
{
    let mut is_changed = false;
    for word in 0..width {
        let old = words[from * width + word];
        let new = old | words[to * width + word];
        if new != old {
            words[from * width + word] = new;
            is_changed = true;
        }
    }
    is_changed
}
