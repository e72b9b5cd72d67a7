// One pass over the records of a listing.
ghost use Rattle.std.specs.Prelude.{◌≡◌, ◌&&◌, length, eqb};
ghost use Rattle.mir.specs.Field.{byte_at, u16_at};
ghost use Rattle.marks_pass.specs.Standing.{BlockAt, BlockMarked, CallsBlock, Directed, Begun, NoWays, Passed};

use super::steps::{call, jump};
use super::work::straight;
use mir::fields::{byte, u16_at};

// Whether bytes begin with Label 1.
fn at_block(s: &[u8]) -> bool
    ensures { result ≡ (eqb (u16_at s.now 2) 14 && eqb (byte_at s.now 4) 1) }
{
    u16_at(s, 2) == 14 && byte(s, 4) == 1
}

// The position behind the first Label 1; the end where there is none.
fn block_start(listing: &[u8]) -> usize
    ensures { BlockAt listing.now result }
{
    // By position: a turn passes over a record, whose length differs.
    let mut at: usize = 0;
    while at < listing.len() {
        let s = &listing[at..];
        let n = u16_at(s, 0) as usize;
        if at_block(s) {
            return at + n;
        }
        if n == 0 {
            return at;
        }
        at += n;
    }
    at
}

// What the block draws on and fills from the start.
fn block_marks(listing: &[u8], fills: &mut [bool], draws: &mut [bool])
    requires { (length fills.old ≡ 256) × (length draws.old ≡ 256) }
    ensures { BlockMarked listing.now fills.old draws.old fills.new draws.new }
{
    let from = block_start(listing);
    straight(listing, from, fills, draws);
}

// A Call; the block's marks are found at the first.
fn call_block(
    listing: &[u8],
    known: bool,
    fills: &mut [bool],
    draws: &mut [bool],
    filled: &mut [bool],
    drawn: &mut [bool],
)
    requires fills_len { (length fills.old ≡ 256) × (length draws.old ≡ 256) }
    requires filled_len { (length filled.old ≡ 256) × (length drawn.old ≡ 256) }
    ensures { CallsBlock listing.now known fills.old draws.old filled.old drawn.old fills.new draws.new filled.new drawn.new }
{
    if known {
        call(filled, drawn, fills, draws);
        return;
    }
    block_marks(listing, fills, draws);
    call(filled, drawn, fills, draws);
}

// The record that bytes begin with, no working record: whether it is a Call; none where the table of ways has not its label.
fn direct(
    listing: &[u8],
    s: &[u8],
    known: bool,
    fills: &mut [bool],
    draws: &mut [bool],
    filled: &mut [bool],
    drawn: &mut [bool],
    ways: &mut [bool],
) -> Option<bool>
    requires fills_len { (length fills.old ≡ 256) × (length draws.old ≡ 256) }
    requires filled_len { (length filled.old ≡ 256) × (length drawn.old ≡ 256) }
    ensures { Directed listing.now s.now known fills.old draws.old filled.old drawn.old ways.old fills.new draws.new filled.new drawn.new ways.new result }
{
    if u16_at(s, 2) == 16 {
        call_block(listing, known, fills, draws, filled, drawn);
        return Some(true);
    }
    if jump(s, filled, drawn, ways) {
        return Some(false);
    }
    None
}

// The records from a position on, behind the working records that stand first; false where the table of ways has not a label.
pub(crate) fn pass(
    listing: &[u8],
    from: usize,
    filled: &mut [bool],
    drawn: &mut [bool],
    ways: &mut [bool],
) -> bool
    requires filled_len { (length filled.old ≡ 256) × (length drawn.old ≡ 256) }
    requires begun { Begun listing.now filled.old drawn.old from }
    requires no_ways { NoWays ways.old }
    ensures { Passed listing.now ways.old filled.new drawn.new result }
{
    let mut fills = [false; 256];
    let mut draws = [false; 256];
    let mut known = false;
    // By position, as in `block_start`.
    let mut at = from;
    while at < listing.len() {
        let s = &listing[at..];
        let n = u16_at(s, 0) as usize;
        let Some(called) = direct(
            listing, s, known, &mut fills, &mut draws, filled, drawn, ways,
        ) else {
            return false;
        };
        if n == 0 {
            return false;
        }
        known = known | called;
        at = straight(listing, at + n, filled, drawn);
    }
    true
}
