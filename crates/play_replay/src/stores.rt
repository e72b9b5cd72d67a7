// Stores changed by what bytes say.
ghost use Rattle.std.specs.Prelude.{◌+◌, ◌*◌, ◌≤◌, ◌≡◌, length, set};
ghost use Rattle.play_replay.specs.Case.{patched};

use replay::numbers::count_at;
use words::word_at;

// Sets a word; there is none past the end.
fn put(store: &mut [u64], i: usize, word: u64)
    ensures { store.new ≡ set store.old i word }
{
    if i < store.len() {
        store[i] = word;
    }
}

// Sets n words, from the pairs of an index and a word that begin at a position.
pub(crate) fn patch(s: &[u8], at: usize, n: usize, store: &mut [u64])
    requires { at + 12 * n ≤ length s.now }
    ensures { store.new ≡ patched s.now at store.old n }
{
    let mut i: usize = 0;
    while i < n {
        let p = at + 12 * i;
        let k = count_at(s, p);
        let word = word_at(s, p + 4);
        put(store, k, word);
        i += 1;
    }
}
