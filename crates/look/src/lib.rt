// Looking before playing: what one record of a listing would write on a store, and the record that follows it.
#![tactic(auto)]

ghost use Rattle.std.specs.Prelude.{◌≡◌};
ghost use Rattle.player_machine.specs.Look as Machine;
ghost use Rattle.look.specs.Numbers.{told};

pub mod call;
mod follow;
mod show;

use follow::following;
use player::judge;
use show::show;

// What looking gives back: the player's number and index, the record that follows, how many words, and index and bits of each, 0 where
// there is none.
#[derive(Clone, Copy)]
pub struct LookAnswer {
    pub number: u8,
    pub index: usize,
    pub follows: usize,
    pub count: usize,
    pub index1: usize,
    pub bits1: u64,
    pub index2: usize,
    pub bits2: u64,
}

// No word is shown.
fn unshown(number: u8, index: usize, follows: usize) -> LookAnswer
    ensures { result ≡ record { number = number; index = index; follows = follows; count = 0; index1 = 0; bits1 = 0; index2 = 0; bits2 = 0 } }
{
    LookAnswer {
        number: number,
        index: index,
        follows: follows,
        count: 0,
        index1: 0,
        bits1: 0,
        index2: 0,
        bits2: 0,
    }
}

// Looks at a record of a listing with its constants.
pub fn look(listing: &[u8], constants: &[u64], store: &[u64], start: usize) -> LookAnswer
    ensures { result ≡ told (Machine.look listing.now constants.now store.now start) }
{
    let v = judge(listing, constants.len(), start, store.len());
    if v.number != 0 {
        return unshown(v.number, v.index, 0);
    }
    if start == v.index {
        return unshown(0, v.index, v.index);
    }
    let at = v.from;
    let follows = following(listing, store, at, start, v.index);
    let s = &listing[at..];
    let w = show(s, constants, store);
    LookAnswer {
        number: 0,
        index: v.index,
        follows: follows,
        count: w.count,
        index1: w.index1,
        bits1: w.bits1,
        index2: w.index2,
        bits2: w.bits2,
    }
}
