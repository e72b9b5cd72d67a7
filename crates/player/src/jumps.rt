// The jump rules, over records that were examined. The tables have an entry for each label. A turn of a loop passes over a record, whose
// length differs: none is a `for`.
ghost use Rattle.std.specs.Prelude.{◌≡◌, ◌≤◌, not, ◌&&◌, ◌||◌, eqb, ltb, length};
ghost use Rattle.player_machine.specs.Machine.{is_label};
ghost use Rattle.player_machine.specs.Jumps.{is_return};
ghost use Rattle.player.specs.Encoded.{jump_encoded, such};
ghost use Rattle.player.specs.Positions.{Sound, Table, Counted, AllCounted, BreaksRule, FirstBreach, BreachOf};

use super::passes::{Examination, encodes_label, encodes_return, one_if};
use mir::fields::{byte, u16_at};

// Counts the record that bytes begin with, where it is a Label.
fn count_label(s: &[u8], table: &mut [usize])
    requires { Table 65536 table.old }
    ensures { Counted s.now table.old table.new }
{
    if u16_at(s, 2) == 14 {
        let l = byte(s, 4) as usize;
        table[l] += 1;
    }
}

// Counts all Labels of a listing by number, and its Branches 0.
fn count_labels(listing: &[u8], table: &mut [usize]) -> usize
    requires listing_len_bound { length listing.now ≤ 65536 }
    requires sound { Sound listing.now 0 }
    requires table { Table 0 table.old }
    ensures { AllCounted listing.now table.new result }
{
    let mut at: usize = 0;
    let mut returns: usize = 0;
    while at < listing.len() {
        let s = &listing[at..];
        count_label(s, table);
        returns += one_if(encodes_return(s));
        let n = u16_at(s, 0);
        at += n as usize;
    }
    returns
}

// Does a Label break a rule? `stood`: one of its number stands before it; `end`: a Branch 0 stands behind it.
fn label_breaks(l: u8, stood: bool, inside: bool, end: bool) -> bool
    ensures { result ≡ (eqb l 0 || stood || (inside || (eqb l 1 && not end))) }
{
    if l == 0 {
        return true;
    }
    if stood {
        return true;
    }
    if inside {
        return true;
    }
    if l == 1 { !end } else { false }
}

// Does a Branch? `stood`: a Label of its number stands before it; `later`: one stands behind it.
fn branch_breaks(l: u8, stood: bool, inside: bool, later: bool) -> bool
    ensures { result ≡ (ltb 1 l && not later || (ltb 2 l && stood || (eqb l 1 || (not (eqb l 0) && inside)))) }
{
    if l == 0 {
        return false;
    }
    if l == 1 {
        return true;
    }
    if inside {
        return true;
    }
    if later {
        if l == 2 { false } else { stood }
    } else {
        true
    }
}

// Does a BranchIf?
fn branch_if_breaks(l: u8, stood: bool, inside: bool, later: bool) -> bool
    ensures { result ≡ (ltb 1 l && not later || (ltb 2 l && stood || (ltb l 3 || inside))) }
{
    if l < 3 {
        return true;
    }
    if inside {
        return true;
    }
    if stood { true } else { !later }
}

// Does a Call? `one`: a Label 1 stands anywhere.
fn call_breaks(l: u8, inside: bool, one: bool) -> bool
    ensures { result ≡ (not (eqb l 1) || (inside || not one)) }
{
    if l != 1 {
        return true;
    }
    if inside { true } else { !one }
}

// Does the record that bytes begin with break a rule?
fn breaks_rule(
    s: &[u8],
    all: &[usize],
    stood: &[usize],
    inside: bool,
    returns: usize,
    returned: usize,
) -> bool
    requires { (length all.now ≡ 256) × (length stood.now ≡ 256) }
    ensures { BreaksRule s.now all.now stood.now inside returns returned result }
{
    let kind = u16_at(s, 2);
    let label = byte(s, 4);
    let l = label as usize;
    if kind == 14 {
        return label_breaks(label, 0 < stood[l], inside, returned < returns);
    }
    if kind == 15 {
        return branch_breaks(label, 0 < stood[l], inside, stood[l] < all[l]);
    }
    if kind == 16 {
        return call_breaks(label, inside, 0 < all[1]);
    }
    if kind == 17 {
        let to = byte(s, 5);
        let t = to as usize;
        return branch_if_breaks(to, 0 < stood[t], inside, stood[t] < all[t]);
    }
    false
}

// Whether the block is open behind the record that bytes begin with.
fn block_open(s: &[u8], inside: bool) -> bool
    ensures { result ≡ (such (is_label 1) (jump_encoded s.now) || (not (such is_return (jump_encoded s.now)) && inside)) }
{
    if encodes_label(s, 1) {
        return true;
    }
    if encodes_return(s) {
        return false;
    }
    inside
}

// The index of the first record that breaks a jump rule; the count of records where none does.
fn first_breach(listing: &[u8]) -> usize
    requires listing_len_bound { length listing.now ≤ 65536 }
    requires sound { Sound listing.now 0 }
    ensures { FirstBreach listing.now result }
{
    let mut all: [usize; 256] = [0; 256];
    let mut stood: [usize; 256] = [0; 256];
    let returns = count_labels(listing, &mut all);
    let mut returned: usize = 0;
    let mut inside = false;
    let mut at: usize = 0;
    let mut index: usize = 0;
    while at < listing.len() {
        let s = &listing[at..];
        if breaks_rule(s, &all, &stood, inside, returns, returned) {
            return index;
        }
        count_label(s, &mut stood);
        returned += one_if(encodes_return(s));
        inside = block_open(s, inside);
        let n = u16_at(s, 0);
        at += n as usize;
        index += 1;
    }
    index
}

// The same, by what the first pass found: a listing of working records alone breaks no rule.
pub(crate) fn breach_of(listing: &[u8], x: Examination) -> usize
    requires listing_len_bound { length listing.now ≤ 65536 }
    requires sound { Sound listing.now 0 }
    ensures { BreachOf listing.now x result }
{
    if x.jumps == 0 {
        return x.index;
    }
    first_breach(listing)
}
