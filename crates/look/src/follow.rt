// The record that follows, by its index. Every record of the listing was examined: its length, kind and fields are read alone.
ghost use Rattle.std.specs.Prelude.{◌≡◌};
ghost use Rattle.player.specs.Positions.{Sound};
ghost use Rattle.look.specs.Standing.{Stood, BeforeLabel, FollowsAt};

use mir::fields::{byte, u16_at};
use player::passes::encodes_label;
use player::run::branches_on;

// How many records stand before the first Label of that number from a position on; all that are left where there is none.
fn records_before(listing: &[u8], at: usize, label: u8) -> usize
    requires { Sound listing.now at }
    ensures { BeforeLabel listing.now at label result }
{
    // By position: a turn passes over a record, whose length differs.
    let mut i = at;
    let mut n: usize = 0;
    while i < listing.len() {
        let s = &listing[i..];
        if encodes_label(s, label) {
            return n;
        }
        let k = u16_at(s, 0);
        i += k as usize;
        n += 1;
    }
    n
}

// The index of the record that follows the one at a position. `all` is the count of records, the end.
pub(crate) fn following(listing: &[u8], store: &[u64], at: usize, start: usize, all: usize) -> usize
    requires { Stood listing.now at start all }
    ensures { FollowsAt listing.now store.now at start all result }
{
    let s = &listing[at..];
    let kind = u16_at(s, 2);
    let label = byte(s, 4);
    let n = u16_at(s, 0);
    let next = at + n as usize;
    if kind == 15 {
        if label == 0 {
            return all;
        }
        return start + 1 + records_before(listing, next, label);
    }
    if kind == 16 {
        return records_before(listing, 0, label);
    }
    if kind == 17 {
        if branches_on(store, s) {
            return start + 1 + records_before(listing, next, byte(s, 5));
        }
        return start + 1;
    }
    start + 1
}
