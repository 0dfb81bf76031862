// Numbers of four bytes, little-endian.
ghost use Rattle.std.specs.Prelude.{◌≡◌, ◌+◌, ◌≤◌, ◌<◌, length};
ghost use Rattle.finite.specs.Pieces.{over};
ghost use Rattle.sets.specs.Layout.{word_at, word4};

// The number at a place.
#[tactic(auto, unfolding(sets::specs::Layout::word_at))]
pub fn word(set: &[u8], at: usize) -> usize
    requires { at + 4 ≤ length set.now }
    ensures { (result ≡ word_at set.now at) × (result < 4294967296) }
{
    u32::from_le_bytes([set[at], set[at + 1], set[at + 2], set[at + 3]]) as usize
}

// Writes a number at a place.
#[tactic(auto, unfolding(sets::specs::Layout::word4, finite::specs::Pieces::over))]
pub fn put_word(set: &mut [u8], at: usize, x: u32)
    requires { at + 4 ≤ length set.old }
    ensures { set.new ≡ over set.old at (word4 x) }
{
    set[at..at + 4].copy_from_slice(&x.to_le_bytes());
}
