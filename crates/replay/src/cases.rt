// The cases of a list.
ghost use Rattle.std.specs.Prelude.{◌≡◌, ◌≤◌, ℕ, List, length, false};
ghost use Rattle.replay.specs.Whole.{cut_at};
ghost use Rattle.replay.specs.Tally.{Cases};

use crate::numbers::count_at;

// What a case gave: the number it was answered with, and whether the answer differs from the one expected.
#[derive(Clone, Copy)]
pub struct Outcome {
    pub number: u8,
    pub differs: bool,
}

// Cases of one kind, one behind the other.
pub trait Replay {
    ghost cases: { Cases };

    // Where the first ends.
    fn end(s: &[u8]) -> usize
        ensures { result ≡ cases.end s.now };

    // Whether there is no whole one that ends there.
    fn is_cut(s: &[u8], end: usize) -> bool
        ensures { result ≡ cases.cut end s.now };

    // What the first gives, where it is whole.
    fn replay(s: &[u8]) -> Outcome
        requires { cases.cut (cases.end s.now) s.now ≡ false }
        ensures { (result.number ≡ cases.number s.now) × (result.differs ≡ cases.differs s.now) };

    // A whole case ends within the bytes.
    ghost ends_inside: { (s : List ℕ) → cases.cut (cases.end s) s ≡ false → cases.end s ≤ length s };
}

// Whether bytes begin with no whole case: one has at least `head` bytes, at most `first` at 4 and `second` at 8, and ends at `end`.
pub fn is_cut(s: &[u8], head: usize, first: usize, second: usize, end: usize) -> bool
    ensures { result ≡ cut_at head first second end s.now }
{
    if s.len() < head {
        return true;
    }
    if first < count_at(s, 4) {
        return true;
    }
    if second < count_at(s, 8) {
        return true;
    }
    s.len() < end
}
