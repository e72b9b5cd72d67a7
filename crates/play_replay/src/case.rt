// One case: where it ends, and how the player answers it.
ghost use Rattle.std.specs.Prelude.{◌^◌, ◌<◌, ◌≡◌, length, refl};
ghost use Rattle.play_replay.specs.Case as Case;
ghost use Rattle.play_replay.specs.Case.{WholePlay, fill_at, changed_at, filled, answered, expected, differs};
ghost use Rattle.replay.proofs.Replaying.{is_whole};
ghost use Rattle.replay.specs.Numbers.{u32_at};
ghost use Rattle.player.specs.Values.{whole};

use crate::stores::patch;
use player::PlayAnswer;
use replay::cases::{Outcome, Replay, is_cut};
use replay::numbers::count_at;
use words::{load, word_at};

// Where the word that fills the store stands.
fn fill_at(s: &[u8]) -> usize
    ensures { (result ≡ fill_at s.now) × (result < 2 ^ 36) }
{
    48 + count_at(s, 0) + 8 * count_at(s, 4)
}

// Where the words changed begin.
fn changed_at(s: &[u8]) -> usize
    ensures { (result ≡ changed_at s.now) × (result < 2 ^ 38) }
{
    fill_at(s) + 8 + 12 * count_at(s, 12)
}

// Where the case ends.
fn end(s: &[u8]) -> usize
    ensures { result ≡ Case.end s.now }
{
    changed_at(s) + 12 * count_at(s, 16)
}

// Makes the store before the play of a filled one.
fn make_before(s: &[u8], store: &mut [u64])
    requires { WholePlay s.now × (store.old ≡ filled s.now) }
    ensures { store.new ≡ Case.before s.now }
{
    patch(s, fill_at(s) + 8, count_at(s, 12), store);
}

// Makes the store expected at the end of a filled one.
fn make_after(s: &[u8], store: &mut [u64])
    requires { WholePlay s.now × (store.old ≡ filled s.now) }
    ensures { store.new ≡ Case.after s.now }
{
    make_before(s, store);
    patch(s, changed_at(s), count_at(s, 16), store);
}

// Whether an answer and a store are the expected ones.
fn agrees(s: &[u8], a: PlayAnswer, store: &[u64], after: &[u64]) -> bool
    requires { after.now ≡ Case.after s.now }
    ensures { result ≡ expected s.now (whole a store.now) }
{
    if a.number as usize != count_at(s, 28) {
        return false;
    }
    if a.index as u64 != word_at(s, 32) {
        return false;
    }
    if a.played as u64 != word_at(s, 40) {
        return false;
    }
    store == after
}

// Plays the case, and compares what the player gives with what the case expects.
fn judge(s: &[u8], constants: &[u64], store: &mut [u64], after: &[u64]) -> Outcome
    requires { WholePlay s.now × ((constants.now ≡ Case.constants s.now) × ((store.old ≡ Case.before s.now) × (after.now ≡ Case.after s.now))) }
    ensures { (result.number ≡ (answered s.now).number) × (result.differs ≡ differs s.now) }
{
    let listing_end = 48 + count_at(s, 0);
    let start = word_at(s, 20) as usize;
    let a = player::play(&s[48..listing_end], constants, store, start);
    let agreed = agrees(s, a, store, after);
    Outcome {
        number: a.number,
        differs: !agreed,
    }
}

// Makes what the case s plays, of room for its constants and filled stores, and plays it.
fn replay_in(s: &[u8], constants: &mut [u64], store: &mut [u64], after: &mut [u64]) -> Outcome
    requires { WholePlay s.now × ((length constants.old ≡ u32_at s.now 4) × ((store.old ≡ filled s.now) × (after.old ≡ filled s.now))) }
    ensures { (result.number ≡ (answered s.now).number) × (result.differs ≡ differs s.now) }
{
    let at = 48 + count_at(s, 0);
    let end = fill_at(s);
    load(constants, &s[at..end]);
    make_before(s, store);
    make_after(s, after);
    judge(s, constants, store, after)
}

// Replays the case at the start of s.
fn replay_case(s: &[u8]) -> Outcome
    requires { WholePlay s.now }
    ensures { (result.number ≡ (answered s.now).number) × (result.differs ≡ differs s.now) }
{
    let fill = word_at(s, fill_at(s));
    let mut constants = [0u64; 257];
    let mut store = [fill; 1603];
    let mut after = [fill; 1603];
    let count = count_at(s, 4);
    let words = count_at(s, 8);
    replay_in(
        s,
        &mut constants[..count],
        &mut store[..words],
        &mut after[..words],
    )
}

// The cases of a list of plays.
pub struct Play;

impl Replay for Play {
    ghost cases = { Case.cases };

    fn end(s: &[u8]) -> usize {
        end(s)
    }

    fn is_cut(s: &[u8], end: usize) -> bool {
        is_cut(s, 48, 257, 1603, end)
    }

    fn replay(s: &[u8]) -> Outcome {
        replay_case(s)
    }

    ghost ends_inside = { λ s e. (is_whole 48 257 1603 (Case.end s) s refl refl e).rest };
}
