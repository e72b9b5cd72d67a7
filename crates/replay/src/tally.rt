// The counts of a replay.
ghost use Rattle.std.specs.Prelude.{◌≡◌};
ghost use Rattle.replay.specs.Tally.{raised, no_cases, tallied, replayed_list};

use crate::cases::Replay;
use crate::numbers::count_at;

// One more at i; there is no count past the end.
pub fn raise(t: &mut [u64], i: usize)
    ensures { t.new ≡ raised t.old i }
{
    if i < t.len() {
        t[i] = t[i].wrapping_add(1);
    }
}

// How many cases were answered with each number, how many there are, and how many of them differ.
#[derive(Clone, Copy)]
pub struct Tally {
    pub by_number: [u64; 256],
    pub cases: u64,
    pub differ: u64,
}

impl Tally {
    // No case yet.
    pub fn new() -> Tally
        ensures { result ≡ no_cases }
    {
        Tally {
            by_number: [0; 256],
            cases: 0,
            differ: 0,
        }
    }

    // Counts a case that was answered with a number, and differs or not.
    pub fn count(&mut self, number: u8, differs: bool)
        ensures { self.new ≡ tallied self.old number differs }
    {
        raise(&mut self.by_number, number as usize);
        self.cases = self.cases.wrapping_add(1);
        if differs {
            self.differ = self.differ.wrapping_add(1);
        }
    }

    // Counts the cases of a list, and answers whether they are whole and nothing follows them.
    pub fn replay<C: Replay>(&mut self, list: &[u8]) -> bool
        ensures { (result ≡ (replayed_list C.cases self.old list.now).whole) × (self.new ≡ (replayed_list C.cases self.old list.now).counts) }
    {
        if list.len() < 4 {
            return false;
        }
        let mut rest = &list[4..];
        for i in 0..count_at(list, 0) {
            let end = C::end(rest);
            if C::is_cut(rest, end) {
                return false;
            }
            let outcome = C::replay(rest);
            self.count(outcome.number, outcome.differs);
            rest = &rest[end..];
        }
        rest.is_empty()
    }
}
