// The counts of a replay.
ghost use Rattle.std.specs.Prelude.{◌/◌, ◌<◌, ◌≤◌, ◌≡◌, length};
ghost use Rattle.float_replay.specs.Tally as Tally;
ghost use Rattle.float_replay.specs.Tally.{tallied, counted, replayed};

use crate::case::differs;
use replay::tally::raise;

// One case more of k, which differs or does not.
fn tally(t: &mut [u64; 74], k: usize, d: bool)
    requires { k < 37 }
    ensures { t.new ≡ tallied t.old k d }
{
    raise(t, 2 * k);
    if d {
        raise(t, 2 * k + 1);
    }
}

// Where the cases of an operation's number are counted.
fn slot(op: u8) -> usize
    ensures { (result ≡ Tally.slot op) × (result < 36) }
{
    if op < 35 { op as usize } else { 35 }
}

// Counts the case s.
fn count(t: &mut [u64; 74], s: &[u8])
    requires { 41 ≤ length s.now }
    ensures { t.new ≡ counted t.old s.now }
{
    let d = differs(s);
    tally(t, slot(s[0]), d);
    tally(t, 36, d);
}

// Counts the whole cases of a list.
pub fn replay(list: &[u8], t: &mut [u64; 74])
    ensures { t.new ≡ replayed t.old list.now (length list.now / 41) }
{
    let cases = list.len() / 41;
    let mut i: usize = 0;
    while i < cases {
        let at = i * 41;
        let end = at + 41;
        count(t, &list[at..end]);
        i += 1;
    }
}
