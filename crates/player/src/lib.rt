// The player: a first pass tests every record, and notes where the block begins. What follows tests none again: where a jump was seen the
// jump rules are tried, the start record is found, and the records are played on the store, each from its bytes.
#![tactic(auto)]

ghost use Rattle.std.specs.Prelude.{◌≡◌};
ghost use Rattle.player_machine.specs.Answer.{answer};
ghost use Rattle.player.specs.Positions.{Judged};
ghost use Rattle.player.specs.Values.{whole};

mod jumps;
pub mod passes;
pub mod run;

use jumps::breach_of;
use passes::{examine, skip};
use run::run;

// What is known before anything is played: the number and index that refuse a play, or 0 and the count of records, with the position
// behind the first Label 1 and that of the start record. A refusal has no positions: both are 0.
#[derive(Clone, Copy)]
pub struct Verdict {
    pub number: u8,
    pub index: usize,
    pub body: usize,
    pub from: usize,
}

fn refuse(number: u8, index: usize) -> Verdict
    ensures { result ≡ record { number = number; index = index; body = 0; from = 0 } }
{
    Verdict {
        number: number,
        index: index,
        body: 0,
        from: 0,
    }
}

// The player's refusals in its own order, of a listing with so many constants, from a record on, over a store of so many words.
pub fn judge(listing: &[u8], constants: usize, start: usize, words: usize) -> Verdict
    ensures { Judged listing.now constants start words result }
{
    if 65536 < listing.len() {
        return refuse(8, 0);
    }
    if 256 < constants {
        return refuse(8, 0);
    }
    if words != 1602 {
        return refuse(8, 0);
    }
    let x = examine(listing, constants);
    if x.number != 0 {
        return refuse(x.number, x.index);
    }
    if x.index < start {
        return refuse(9, start);
    }
    let breach = breach_of(listing, x);
    if breach < x.index {
        return refuse(9, breach);
    }
    Verdict {
        number: 0,
        index: x.index,
        body: x.body,
        from: skip(listing, 0, start),
    }
}

// What playing gives back: 0 and the count of records with how many were played, or a refusal's number and index.
#[derive(Clone, Copy)]
pub struct PlayAnswer {
    pub number: u8,
    pub index: usize,
    pub played: usize,
}

// Plays a listing with its constants from a record on.
pub fn play(listing: &[u8], constants: &[u64], store: &mut [u64], start: usize) -> PlayAnswer
    ensures { whole result store.new ≡ answer listing.now constants.now start store.old }
{
    let v = judge(listing, constants.len(), start, store.len());
    if v.number != 0 {
        return PlayAnswer {
            number: v.number,
            index: v.index,
            played: 0,
        };
    }
    let played = run(listing, constants, v.body, v.from, store);
    PlayAnswer {
        number: 0,
        index: v.index,
        played: played,
    }
}
