// Numbers of four bytes, the lowest first; a byte past the end is 0.
ghost use Rattle.std.specs.Prelude.{◌≡◌, ◌^◌, ◌<◌};
ghost use Rattle.replay.specs.Numbers.{u32_at};

use words::word_at;

// The number whose lowest byte stands at i, as a count.
pub fn count_at(s: &[u8], i: usize) -> usize
    ensures { (result ≡ u32_at s.now i) × (result < 2 ^ 32) }
{
    (word_at(s, i) % 0x1_0000_0000) as usize
}
