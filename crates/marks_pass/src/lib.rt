// Which registers a listing draws on before they are filled, in one pass over its bytes.
#![tactic(auto)]

ghost use Rattle.std.specs.Prelude.{◌≡◌, List, length};
ghost use Rattle.mir.specs.declared.records.Record.{Record};
ghost use Rattle.mir.specs.Encode.{encode_all};
ghost use Rattle.marks_pass.specs.Pass.{marks_of};
ghost use Rattle.marks_pass.specs.Standing.{Begun, Ended, First, AreMarks};

mod pass;
mod steps;
mod work;

use pass::pass;
use work::straight;

// A mark for each of a listing's 66 registers: filled after its records, and drawn on by them before being filled.
#[derive(Clone, Copy)]
pub struct Marks {
    pub filled: [bool; 66],
    pub drawn: [bool; 66],
}

// The marks of the 66 registers.
fn first(all: &[bool]) -> [bool; 66]
    requires { length all.now ≡ 256 }
    ensures { First all.now result }
{
    let mut marks = [false; 66];
    marks.copy_from_slice(&all[..66]);
    marks
}

// The marks of two arrays.
fn both(filled: &[bool], drawn: &[bool]) -> Marks
    requires { (length filled.now ≡ 256) × (length drawn.now ≡ 256) }
    ensures { AreMarks filled.now drawn.now result }
{
    let a = first(filled);
    let b = first(drawn);
    Marks {
        filled: a,
        drawn: b,
    }
}

// The records from a position on, with ways kept for labels 0 to 2; false where another stands.
fn few_ways(listing: &[u8], from: usize, filled: &mut [bool], drawn: &mut [bool]) -> bool
    requires filled_len { (length filled.old ≡ 256) × (length drawn.old ≡ 256) }
    requires begun { Begun listing.now filled.old drawn.old from }
    ensures { Ended listing.now filled.new drawn.new result }
{
    let mut ways = [true; 198];
    pass(listing, from, filled, drawn, &mut ways)
}

// The marks with ways kept for every label.
fn all_ways(listing: &[u8]) -> Marks
    ensures { (rs : List Record) → listing.now ≡ encode_all rs → result ≡ marks_of rs }
{
    let mut filled = [false; 256];
    let mut drawn = [false; 256];
    let mut ways = [true; 16896];
    let at = straight(listing, 0, &mut filled, &mut drawn);
    pass(listing, at, &mut filled, &mut drawn, &mut ways);
    both(&filled, &drawn)
}

// The marks of the records whose bytes these are. Where only working records stand no ways are kept, and else those of labels 0 to 2 at first.
pub fn marks_of(listing: &[u8]) -> Marks
    ensures { (rs : List Record) → listing.now ≡ encode_all rs → result ≡ marks_of rs }
{
    let mut filled = [false; 256];
    let mut drawn = [false; 256];
    let at = straight(listing, 0, &mut filled, &mut drawn);
    if listing.len() <= at {
        return both(&filled, &drawn);
    }
    if few_ways(listing, at, &mut filled, &mut drawn) {
        return both(&filled, &drawn);
    }
    all_ways(listing)
}
