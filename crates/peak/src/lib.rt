// The running peak of document 02, e): for each position of a run of words, the largest in the last w.
#![tactic(auto)]

ghost use Rattle.std.specs.Prelude.{◌≡◌, ◌<◌, ◌≤◌, length};
ghost use Rattle.peak.specs.Blocks.{Tails};
ghost use Rattle.peak.specs.Peak as Peak;
ghost use Rattle.peak.specs.Answer.{number_of};

const NAN: u64 = 0x7ff8_0000_0000_0000;

// The larger of an earlier word and a later one.
fn larger(a: u64, b: u64) -> u64
    ensures { result ≡ Peak.larger a b }
{
    if float::not_equal(a, a) != 0 {
        return b;
    }
    if float::little_than(a, b) != 0 { b } else { a }
}

// For each position of the block of w that starts at s, the largest of its window's words before s: those of the block that ends there,
// from the back.
fn tails(run: &[u64], w: usize, s: usize, tail: &mut [u64])
    requires { (w ≤ length tail.old) × (w ≤ s) × (s ≤ length run.now) }
    ensures { Tails run.now w s tail.new }
{
    let mut best = NAN;
    for j in (0..w).rev() {
        tail[j] = best;
        best = larger(run[s - w + j], best);
    }
}

// The run is split in blocks of w. A window is a suffix of one block and a prefix of the next, so that its peak is the larger of two that
// are at hand.
fn fill(run: &[u64], w: usize, out: &mut [u64])
    requires { (0 < w) × (w ≤ 64) × (length run.now ≤ length out.old) }
    ensures { out.new ≡ Peak.filled run.now w (length run.now) out.old }
{
    let mut tail = [NAN; 64];
    let mut here = NAN;
    let mut j: usize = 0;
    for (i, word) in run.iter().enumerate() {
        here = larger(here, larger(*word, NAN));
        out[i] = larger(tail[j], here);
        j += 1;
        if j == w {
            tails(run, w, i + 1, &mut tail);
            here = NAN;
            j = 0;
        }
    }
}

// What is turned away: a window outside 1 to 64, a run of more than 4,096 words, or an output that is shorter than the run.
#[derive(Clone, Copy)]
pub struct TurnedAway;

// The peaks of a run; where it is turned away nothing is written.
#[tactic(auto, unfolding(crate::specs::Peak::refused, crate::specs::Peak::number, crate::specs::Peak::after))]
pub fn peak(run: &[u64], w: usize, out: &mut [u64]) -> Result<(), TurnedAway>
    ensures { (number_of result ≡ Peak.number run.now w out.old) × (out.new ≡ Peak.after run.now w out.old) }
{
    if w == 0 || w > 64 {
        return Err(TurnedAway);
    }
    if run.len() > 4096 || out.len() < run.len() {
        return Err(TurnedAway);
    }
    fill(run, w, out);
    Ok(())
}
