// The play, by positions. It goes forward only; a Call plays the whole block. A turn of a loop passes over a record, whose length differs:
// none is a `for`.
ghost use Rattle.std.specs.Prelude.{◌≡◌, ◌≤◌, ◌<◌, eqb, length};
ghost use Rattle.mir.specs.Field.{byte_at};
ghost use Rattle.player_machine.specs.Machine.{at, branches};
ghost use Rattle.player.specs.Positions.{fault, Jumps, BlockPlayed, RecordPlayed, Played};

use super::passes::find;
use mir::fields::{byte, u16_at};
use player_work::exec;
use player_work::words::get_register;

// Where a play stands after a record: the position of the next record, none where it ended, and how many records were reached.
#[derive(Clone, Copy)]
pub struct Progress {
    pub next: Option<usize>,
    pub played: usize,
}

// Plays the working records from a position to the first that is none, and counts that one too.
fn run_block(listing: &[u8], constants: &[u64], body: usize, store: &mut [u64]) -> usize
    requires listing_len_bound { length listing.now ≤ 65536 }
    requires body_value { fault (length constants.now) listing.now body ≡ 0 }
    ensures { BlockPlayed constants.now listing.now body store.old store.new result }
{
    let mut at = body;
    let mut n: usize = 1;
    while at < listing.len() {
        let s = &listing[at..];
        let worked = exec(store, constants, s);
        if !worked {
            return n;
        }
        let k = u16_at(s, 0);
        at += k as usize;
        n += 1;
    }
    n
}

fn reached(next: Option<usize>, played: usize) -> Progress
    ensures { result ≡ record { next = next; played = played } }
{
    Progress {
        next: next,
        played: played,
    }
}

// Whether the BranchIf that bytes begin with branches: the condition word against zero, by `is_else`.
pub fn branches_on(store: &[u64], s: &[u8]) -> bool
    ensures { result ≡ branches (eqb (byte_at s.now 6) 1) (at store.now (byte_at s.now 4)) }
{
    let w = get_register(store, byte(s, 4));
    if byte(s, 6) == 1 { w == 0 } else { w != 0 }
}

// Plays a record that is no working record, with the whole block where it is a Call. A branch seeks its Label behind it.
fn run_jump(
    listing: &[u8],
    constants: &[u64],
    body: usize,
    at: usize,
    store: &mut [u64],
) -> Progress
    requires listing_len_bound { length listing.now ≤ 65536 }
    requires body_value { fault (length constants.now) listing.now body ≡ 0 }
    requires at_value { fault (length constants.now) listing.now at ≡ 0 }
    requires jumps { Jumps (length constants.now) listing.now at }
    requires at_in_bounds { at < length listing.now }
    ensures { RecordPlayed constants.now listing.now body at store.old store.new result }
{
    let s = &listing[at..];
    let kind = u16_at(s, 2);
    let label = byte(s, 4);
    let n = u16_at(s, 0);
    let next = at + n as usize;
    if kind == 14 {
        return reached(Some(next), 1);
    }
    if kind == 15 {
        if label == 0 {
            return reached(None, 1);
        }
        return reached(Some(find(listing, next, label)), 1);
    }
    if kind == 17 {
        if branches_on(store, s) {
            return reached(Some(find(listing, next, byte(s, 5))), 1);
        }
        return reached(Some(next), 1);
    }
    let k = run_block(listing, constants, body, store);
    reached(Some(next), 2 + k)
}

// Plays one record outside a call, with the whole block where it is a Call.
fn run_record(
    listing: &[u8],
    constants: &[u64],
    body: usize,
    at: usize,
    store: &mut [u64],
) -> Progress
    requires listing_len_bound { length listing.now ≤ 65536 }
    requires body_value { fault (length constants.now) listing.now body ≡ 0 }
    requires at_value { fault (length constants.now) listing.now at ≡ 0 }
    requires at_in_bounds { at < length listing.now }
    ensures { RecordPlayed constants.now listing.now body at store.old store.new result }
{
    let s = &listing[at..];
    let worked = exec(store, constants, s);
    if worked {
        let k = u16_at(s, 0);
        return Progress {
            next: Some(at + k as usize),
            played: 1,
        };
    }
    run_jump(listing, constants, body, at, store)
}

// Plays from a position to the end, with the block's working records from body on, and counts the records reached. The listing was
// examined: no record is refused.
pub(crate) fn run(
    listing: &[u8],
    constants: &[u64],
    body: usize,
    start: usize,
    store: &mut [u64],
) -> usize
    requires listing_len_bound { length listing.now ≤ 65536 }
    requires body_value { fault (length constants.now) listing.now body ≡ 0 }
    requires start_value { fault (length constants.now) listing.now start ≡ 0 }
    ensures { Played constants.now listing.now body start store.old store.new result }
{
    let mut at = start;
    let mut played: usize = 0;
    while at < listing.len() {
        let t = run_record(listing, constants, body, at, store);
        played += t.played;
        let Some(next) = t.next else {
            return played;
        };
        at = next;
    }
    played
}
